// The directory's slots: one read, one set, a slot's block and rank, the unit that has a block EM, a block taken from its holders, a claim, and what a fetch
// leaves; and a unit's kind of board. Past the last slot one reads as invalid, and setting one changes nothing. The 64 slots go from hand to hand without the
// settings and the sets of holders: so a copy of them has 128 bytes (docs/PERFORMANCE.md).
#![tactic(auto)]

ghost use Rattle.std.specs.Prelude.{◌≡◌, ◌≤◌};
ghost use Rattle.coherence.specs.Settings.{through, drill_settings};
ghost use Rattle.coherence.specs.Slots.{place, slot_at, set_slot, holds, modified, owner_of, state_number, cold_directory};
ghost use Rattle.coherence.specs.Access.{cache_place};
ghost use Rattle.slots.specs.Directory.{block_or, of_slots, released, expelled_at_once, claimed_at_once, yielded_directory, fetched_directory};

use coherence::{Board, Directory, Entry, Kind, Settings, Slot};

// A block that no slot may have, and no Option: the definitions have it so, `no_block` where the directory's test meets an invalid slot, and `block_spelled`
// where bytes spell none.
pub const NO_BLOCK: u8 = 255;

#[tactic(auto, unfolding(coherence::specs::Slots::slot_at), using(crate::proofs::Sets::slot_far))]
pub fn slot_at(slots: [Entry; 64], n: usize) -> Slot
    ensures { result ≡ slot_at (of_slots slots) n }
{
    if n < 64 { slots[n].slot } else { Slot::Invalid }
}

#[tactic(auto, unfolding(coherence::specs::Slots::set_slot), using(crate::proofs::Sets::set_far))]
pub fn set_slot(slots: [Entry; 64], n: usize, slot: Slot) -> [Entry; 64]
    ensures { result ≡ (set_slot (of_slots slots) n slot).slots }
{
    let mut left = slots;
    if n < 64 {
        left[n] = Entry { slot };
    }
    left
}

// The number of the unit's slot in which the block has its place.
#[tactic(auto, unfolding(coherence::specs::Slots::place))]
pub fn place_of(unit: u8, block: u8) -> usize
    ensures { result ≡ place unit block }
{
    16 * usize::from(unit) + usize::from(block % 16)
}

// Where the address stands in the cache store, in the unit's slot.
#[tactic(auto, unfolding(coherence::specs::Access::cache_place, coherence::specs::Slots::place))]
pub fn cache_place(unit: u8, address: u32) -> u32
    ensures { result ≡ cache_place unit address }
{
    512 * u32::from(unit) + address % 512
}

#[tactic(auto, unfolding(coherence::specs::Slots::holds))]
pub fn holds_block(slot: Slot, block: u8) -> bool
    ensures { result ≡ holds slot block }
{
    match slot {
        Slot::Invalid => false,
        Slot::Shared(b) | Slot::Modified(b) => b == block,
    }
}

#[tactic(auto, unfolding(coherence::specs::Slots::modified))]
pub fn has_modified(slot: Slot, block: u8) -> bool
    ensures { result ≡ modified slot block }
{
    matches!(slot, Slot::Modified(b) if b == block)
}

// The block of a valid slot, else the other number.
#[tactic(auto, unfolding(crate::specs::Directory::block_or))]
pub fn block_or(slot: Slot, other: u8) -> u8
    ensures { result ≡ block_or slot other }
{
    match slot {
        Slot::Invalid => other,
        Slot::Shared(b) | Slot::Modified(b) => b,
    }
}

// The slot's state as a number: 0 invalid, 1 shared, 2 modified: the byte of document 01's directory, and the definition `state_number`.
#[tactic(auto, unfolding(coherence::specs::Slots::state_number))]
pub fn rank(slot: Slot) -> u8
    ensures { (result ≡ state_number slot) × (result ≤ 2) }
{
    match slot {
        Slot::Invalid => 0,
        Slot::Shared(_) => 1,
        Slot::Modified(_) => 2,
    }
}

#[tactic(auto, unfolding(coherence::specs::Slots::cold_directory))]
pub fn cold_directory(settings: Settings) -> Directory
    ensures { result ≡ cold_directory settings }
{
    let entry = Entry {
        slot: Slot::Invalid,
    };
    Directory {
        slots: [entry; 64],
        settings,
        holders: [0; 64],
    }
}

// Four copyback boards, and steal off.
#[tactic(auto, unfolding(coherence::specs::Settings::drill_settings))]
pub fn drill_settings() -> Settings
    ensures { result ≡ drill_settings }
{
    let board = Board {
        kind: Kind::Copyback,
    };
    Settings {
        boards: [board; 4],
        steal: false,
    }
}

// Whether the unit has a write-through board.
#[tactic(auto, unfolding(coherence::specs::Settings::through, coherence::specs::Settings::is_through), using(crate::proofs::Sets::board_far))]
pub fn is_through(settings: Settings, unit: u8) -> bool
    ensures { result ≡ through settings unit }
{
    unit < 4 && matches!(settings.boards[usize::from(unit)].kind, Kind::WriteThrough)
}

// The unit that has the block EM, or 4. It is no Option: those that take it have no `requires`, so each would still test for a unit above 3, as
// `yielded_directory` and `ask_orders` do.
#[tactic(auto, unfolding(coherence::specs::Slots::place, coherence::specs::Slots::slot_at))]
pub fn owner(slots: [Entry; 64], block: u8) -> u8
    ensures { result ≡ owner_of (of_slots slots) block }
{
    for unit in 0..4 {
        if has_modified(slots[place_of(unit, block)].slot, block) {
            return unit;
        }
    }
    4
}

// The slot of unit v once no unit but u holds the block.
#[tactic(auto, unfolding(crate::specs::Directory::released))]
fn release(slot: Slot, block: u8, v: u8, u: u8) -> Slot
    ensures { result ≡ released slot block v u }
{
    if v != u && holds_block(slot, block) {
        Slot::Invalid
    } else {
        slot
    }
}

// The slots once no unit but this holds the block. Each is read from those that were there.
#[tactic(auto, unfolding(coherence::specs::Slots::place))]
pub fn expelled(slots: [Entry; 64], unit: u8, block: u8) -> [Entry; 64]
    ensures { result ≡ (expelled_at_once unit block (of_slots slots)).slots }
{
    let mut left = slots;
    for v in 0..4 {
        let n = place_of(v, block);
        left[n] = Entry {
            slot: release(slots[n].slot, block, v, unit),
        };
    }
    left
}

// The slots once the unit claims the block.
#[tactic(auto, unfolding(crate::specs::Directory::claimed_at_once, coherence::specs::Slots::set_slot))]
pub fn claimed(slots: [Entry; 64], unit: u8, block: u8) -> [Entry; 64]
    ensures { result ≡ (claimed_at_once unit block (of_slots slots)).slots }
{
    set_slot(
        expelled(slots, unit, block),
        place_of(unit, block),
        Slot::Modified(block),
    )
}

// The holder, where it is a unit, has the block SU.
#[tactic(auto, unfolding(crate::specs::Directory::yielded_directory))]
pub fn yielded(slots: [Entry; 64], holder: u8, block: u8) -> [Entry; 64]
    ensures { result ≡ (yielded_directory block holder (of_slots slots)).slots }
{
    if holder < 4 {
        set_slot(slots, place_of(holder, block), Slot::Shared(block))
    } else {
        slots
    }
}

// And slot n too.
#[tactic(auto, unfolding(crate::specs::Directory::fetched_directory), using(crate::proofs::OfSlots::of_yielded))]
pub fn fetched(slots: [Entry; 64], n: usize, holder: u8, block: u8) -> [Entry; 64]
    ensures { result ≡ (fetched_directory n block holder (of_slots slots)).slots }
{
    set_slot(yielded(slots, holder, block), n, Slot::Shared(block))
}
