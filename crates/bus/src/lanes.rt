// The byte lanes of a register access (4.2.2, item 6).
ghost use Rattle.std.specs.Prelude.{◌≡◌};
ghost use Rattle.bus.specs.Lanes.{lanes_of};

use order::Refusal;

// How many 8-byte words an access takes, and its valid positions: position 0 of the first word has weight 1.
#[derive(Clone, Copy, Debug, PartialEq, Eq)]
pub struct ByteLanes {
    pub words: u8,
    pub positions: u16,
}

#[tactic(auto, using(crate::proofs::LanesLaws::lanes_accepted, crate::proofs::LanesLaws::lanes_refused))]
pub fn lanes(ra: u32, bct: u32) -> Result<ByteLanes, Refusal>
    ensures { result ≡ lanes_of ra bct }
{
    if bct > 7 {
        return Err(Refusal::FieldRange);
    }
    let first = ra % 8;
    let carried = (2u32 << bct) - 1;
    Ok(ByteLanes {
        words: (1 + (first + bct) / 8) as u8,
        positions: (carried << first) as u16,
    })
}
