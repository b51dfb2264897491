// The test of the sets of holders, by the block of each slot. It goes over numbers of 8 bits, without early exit, so that the compiler takes sixteen blocks at
// a time (docs/PERFORMANCE.md): so the blocks lie in an array of their own, without the ranks.
#![tactic(auto)]

ghost use Rattle.std.specs.Prelude.{◌≡◌, ◌≤◌, ◌<◌};
ghost use Rattle.set_test.specs.Sets.{weighed, set_of, sets_agree, sets_sound};

// The weight where two blocks are the same, else 0.
#[tactic(auto, unfolding(crate::specs::Sets::weighed))]
fn weight_if(c: u8, b: u8, weight: u8) -> u8
    ensures { (result ≡ weighed c b weight) × (result ≤ weight) }
{
    if c == b { weight } else { 0 }
}

// The set of the units that have block b, of those with blocks w to z: the sum of the definition `set_of`, which a loop over four units and weights makes no
// plainer.
#[tactic(auto, unfolding(crate::specs::Sets::set_of))]
fn set_of(w: u8, x: u8, y: u8, z: u8, b: u8) -> u8
    ensures { result ≡ set_of w x y z b }
{
    weight_if(w, b, 1) + weight_if(x, b, 2) + weight_if(y, b, 4) + weight_if(z, b, 8)
}

// The test of the sets of the blocks 16 * row to 16 * row + 15, whose slots are the four units' slots 0 to 15.
#[tactic(auto, unfolding(crate::specs::Sets::sets_agree, crate::specs::Sets::set_at), using(crate::proofs::Turns::one_more, crate::proofs::Turns::none_yet))]
fn row_sound(blocks: [u8; 64], holders: [u8; 64], row: u8) -> bool
    requires { row < 4 }
    ensures { result ≡ sets_agree 16 blocks holders row }
{
    let first = 16 * usize::from(row);
    let mut good = true;
    for s in 0..16 {
        let b = s as u8 + 16 * row;
        let set = set_of(blocks[s], blocks[16 + s], blocks[32 + s], blocks[48 + s], b);
        good &= set == holders[first + s];
    }
    good
}

// The test of the sets of holders.
#[tactic(auto, unfolding(crate::specs::Sets::sets_sound, coherence::specs::Slots::all_below), using(crate::proofs::Turns::one_more))]
pub fn sets_sound(blocks: [u8; 64], holders: [u8; 64]) -> bool
    ensures { result ≡ sets_sound blocks holders }
{
    let mut good = true;
    for row in 0..4 {
        good &= row_sound(blocks, holders, row);
    }
    good
}
