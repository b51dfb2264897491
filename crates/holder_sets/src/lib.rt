// The sets of holders that a directory keeps, unit 0 having weight 1, unit 3 weight 8: one set read, and the sets that an access leaves, from those that it
// found. Past the last block one reads as empty, and setting one changes nothing. Unit, block and the unit's slot stay parameters, here and in `slots`, `blocks`
// and `orders`: no function takes all that an access has, and each clause names its own.
#![tactic(auto)]

ghost use Rattle.std.specs.Prelude.{◌≡◌, ◌-◌, slice_index, slice_set};
ghost use Rattle.holder_sets.specs.Sets.{weight_of, vacated, fetched_sets, claimed_sets, flushed_sets, through_sets};

use coherence::Slot;
use slots::block_or;

#[tactic(auto, unfolding(crate::specs::Sets::weight_of))]
fn weight(unit: u8) -> u8
    ensures { result ≡ weight_of unit }
{
    [1, 2, 4, 8].get(usize::from(unit)).copied().unwrap_or(0)
}

pub fn set_at(holders: [u8; 64], block: u8) -> u8
    ensures { result ≡ slice_index holders block }
{
    holders.get(usize::from(block)).copied().unwrap_or(0)
}

// The block's set is this one.
fn with_set(holders: [u8; 64], block: u8, units: u8) -> [u8; 64]
    ensures { result ≡ slice_set holders block units }
{
    let mut left = holders;
    if block < 64 {
        left[usize::from(block)] = units;
    }
    left
}

// The unit is no longer among the block's holders.
fn left_by(holders: [u8; 64], unit: u8, block: u8) -> [u8; 64]
    ensures { result ≡ slice_set holders block (slice_index holders block - weight_of unit) }
{
    let units = set_at(holders, block).saturating_sub(weight(unit));
    with_set(holders, block, units)
}

// The unit no longer has the block that its slot had, if the slot was valid.
#[tactic(auto, unfolding(crate::specs::Sets::vacated))]
fn vacated_sets(holders: [u8; 64], slot: Slot, unit: u8, block: u8) -> [u8; 64]
    ensures { result ≡ vacated holders slot unit block }
{
    left_by(holders, unit, block_or(slot, block))
}

// After a missed load: the unit, whose slot was as given, has the block beside its other holders.
#[tactic(auto, unfolding(crate::specs::Sets::fetched_sets))]
pub fn fetched_sets(holders: [u8; 64], slot: Slot, unit: u8, block: u8) -> [u8; 64]
    ensures { result ≡ fetched_sets holders slot unit block }
{
    let units = set_at(holders, block).wrapping_add(weight(unit));
    with_set(vacated_sets(holders, slot, unit, block), block, units)
}

// After a store of a copyback unit, whose slot was as given: it alone has the block.
#[tactic(auto, unfolding(crate::specs::Sets::claimed_sets))]
pub fn claimed_sets(holders: [u8; 64], slot: Slot, unit: u8, block: u8) -> [u8; 64]
    ensures { result ≡ claimed_sets holders slot unit block }
{
    let units = weight(unit);
    with_set(vacated_sets(holders, slot, unit, block), block, units)
}

// After a flush of a block that the unit held.
#[tactic(auto, unfolding(crate::specs::Sets::flushed_sets))]
pub fn flushed_sets(holders: [u8; 64], unit: u8, block: u8) -> [u8; 64]
    ensures { result ≡ flushed_sets holders unit block }
{
    left_by(holders, unit, block)
}

// After a store of a write-through unit: it has the block if it `held` it, and no other unit has.
#[tactic(auto, unfolding(crate::specs::Sets::through_sets))]
pub fn through_sets(holders: [u8; 64], unit: u8, block: u8, held: bool) -> [u8; 64]
    ensures { result ≡ through_sets holders unit block held }
{
    let units = if held { weight(unit) } else { 0 };
    with_set(holders, block, units)
}
