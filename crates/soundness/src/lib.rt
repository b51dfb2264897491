// The test of the directory's rules: of the slots, of the boards' kinds and of the sets of holders. Each goes over numbers of 8 bits, without early exit, so
// that the compiler takes sixteen slots at a time (docs/PERFORMANCE.md): so blocks and ranks lie in two arrays.
#![tactic(auto)]

ghost use Rattle.std.specs.Prelude.{◌≡◌, ◌≤◌, ◌<◌, ℕ, get_or};
ghost use Rattle.coherence.specs.Slots.{empty_entry, state_number, sound};
ghost use Rattle.slots.specs.Directory.{block_or};
ghost use Rattle.set_test.specs.Sets.{no_block, SlotBySlot};
ghost use Rattle.soundness.specs.Soundness.{misplaced_in, conflict_of, faults_of, faultless, none_modified, keeps_kind, kinds_kept};

use coherence::{Directory, Entry, Settings, Slot};
use set_test::sets_sound;
use slots::{NO_BLOCK, block_or, is_through, rank};

// A slot's block and rank, as the test takes them.
#[derive(Clone, Copy)]
struct Content {
    block: u8,
    rank: u8,
}

// The number that f gives of each slot. A loop by place: with the arrays' `map` in its stead `mix` takes 2.8 s, and 0.65 s so.
fn each<F: Fn(Slot) -> u8>(slots: [Entry; 64], f: F) -> [u8; 64]
    requires { F.IsAlwaysCallable f }
    ensures { (n : ℕ) → n < 64 → F.post f (get_or slots n empty_entry).slot (get_or result n 0) }
{
    let mut numbers = [0; 64];
    for n in 0..64 {
        numbers[n] = f(slots[n].slot);
    }
    numbers
}

// The rank of each slot.
#[tactic(auto, unfolding(set_test::specs::Sets::SlotBySlot))]
fn ranks_of(slots: [Entry; 64]) -> [u8; 64]
    ensures { SlotBySlot state_number slots 64 result }
{
    each(slots, rank)
}

// The block of each slot, of an invalid one a block that none may have.
#[tactic(auto, unfolding(set_test::specs::Sets::SlotBySlot))]
fn blocks_of(slots: [Entry; 64]) -> [u8; 64]
    ensures { SlotBySlot (λ x. block_or x no_block) slots 64 result }
{
    each(slots, |slot| block_or(slot, NO_BLOCK))
}

// 1 where the block may not stand in slot s of a unit, else 0.
#[tactic(auto, unfolding(crate::specs::Soundness::misplaced_in))]
fn misplaced(x: Content, s: u8) -> u8
    ensures { (result ≡ misplaced_in x.block x.rank s) × (result ≤ 1) }
{
    u8::from((x.rank != 0) & ((x.block >= 64) | (x.block % 16 != s)))
}

// 1 where two units' slots have one block, one of them EM and the other valid, else 0.
#[tactic(auto, unfolding(crate::specs::Soundness::conflict_of))]
fn conflict(x: Content, y: Content) -> u8
    ensures { (result ≡ conflict_of x.block x.rank y.block y.rank) × (result ≤ 1) }
{
    u8::from((x.block == y.block) & (x.rank.saturating_add(y.rank) >= 3))
}

// How many rules the four units' slots s break, each by itself and each two together: the sum of the definition `faults_of`, which loops over units and pairs
// make no plainer.
#[tactic(auto, unfolding(crate::specs::Soundness::faults_of))]
fn faults(s: u8, w: Content, x: Content, y: Content, z: Content) -> u8
    ensures { result ≡ faults_of s w.block x.block y.block z.block w.rank x.rank y.rank z.rank }
{
    let alone = misplaced(w, s) + misplaced(x, s) + misplaced(y, s) + misplaced(z, s);
    let with_w = conflict(w, x) + conflict(w, y) + conflict(w, z);
    alone + with_w + conflict(x, y) + conflict(x, z) + conflict(y, z)
}

// The test of the slots: slot number by slot number.
#[tactic(auto, unfolding(crate::specs::Soundness::faultless, crate::specs::Soundness::faults_at), using(set_test::proofs::Turns::one_more, set_test::proofs::Turns::none_yet))]
fn slots_sound(blocks: [u8; 64], ranks: [u8; 64]) -> bool
    ensures { result ≡ faultless 16 blocks ranks }
{
    let at = |n: usize| Content {
        block: blocks[n],
        rank: ranks[n],
    };
    let mut good = true;
    for s in 0..16 {
        good &= faults(s as u8, at(s), at(16 + s), at(32 + s), at(48 + s)) == 0;
    }
    good
}

// Whether no slot of the unit is EM.
#[tactic(auto, unfolding(crate::specs::Soundness::none_modified, crate::specs::Soundness::not_modified), using(set_test::proofs::Turns::one_more, set_test::proofs::Turns::none_yet))]
fn none_modified(ranks: [u8; 64], unit: u8) -> bool
    requires { unit < 4 }
    ensures { result ≡ none_modified 16 ranks unit }
{
    let first = 16 * usize::from(unit);
    let mut good = true;
    for &rank in &ranks[first..first + 16] {
        good &= rank != 2;
    }
    good
}

// Whether the unit has a copyback board, or no slot EM.
#[tactic(auto, unfolding(crate::specs::Soundness::keeps_kind))]
fn keeps_kind(ranks: [u8; 64], settings: Settings, unit: u8) -> bool
    requires { unit < 4 }
    ensures { result ≡ keeps_kind ranks settings unit }
{
    !is_through(settings, unit) || none_modified(ranks, unit)
}

// The test of the kinds. It costs next to nothing where all boards are copyback boards.
#[tactic(auto, unfolding(crate::specs::Soundness::kinds_kept), using(set_test::proofs::Turns::one_more, set_test::proofs::Turns::none_yet))]
fn kinds_sound(ranks: [u8; 64], settings: Settings) -> bool
    ensures { result ≡ kinds_kept 4 ranks settings }
{
    let mut good = true;
    for unit in 0..4 {
        good &= keeps_kind(ranks, settings, unit);
    }
    good
}

// The test of the directory's rules.
pub fn is_sound(directory: Directory) -> bool
    ensures { result ≡ sound directory }
{
    let blocks = blocks_of(directory.slots);
    let ranks = ranks_of(directory.slots);
    slots_sound(blocks, ranks)
        && kinds_sound(ranks, directory.settings)
        && sets_sound(blocks, directory.holders)
}
