// A store of a unit that has a write-through board, once no test has refused it.
#![tactic(auto)]

ghost use Rattle.std.specs.Prelude.{◌≡◌, false};
ghost use Rattle.order.specs.declared.Command.TheVariants.{MemoryWrite};
ghost use Rattle.coherence.specs.Slots.{owner_of};
ghost use Rattle.coherence.specs.Calls.{packed};
ghost use Rattle.orders.specs.Orders.{ask_orders, accepted_answer};
ghost use Rattle.write_through.specs.Through.{through_left, through_memory, through_cache};

use blocks::{put_word, put_word_if, yield_bytes};
use coherence::{Accepted, Directory};
use holder_sets::through_sets;
use order::Command;
use orders::{accepted, ask_orders};
use slots::{cache_place, expelled, holds_block, owner, place_of, slot_at, yielded};

// The word goes to memory and to the unit's own copy, and no other unit holds the block any more. The block is the one that the address lies in.
pub fn store_through(
    directory: Directory,
    memory: &mut [u8],
    cache: &mut [u8],
    unit: u8,
    block: u8,
    address: u32,
    value: u32,
) -> Accepted
    ensures { (result ≡ accepted_answer 0 (packed (ask_orders false unit MemoryWrite block (owner_of directory block))) (through_left unit block directory)) × (memory.new ≡ through_memory block address value directory memory.old cache.old) × (cache.new ≡ through_cache unit block address value directory cache.old) }
{
    let Directory {
        slots,
        settings,
        holders,
    } = directory;
    let holder = owner(slots, block);
    yield_bytes(holder, memory, cache, block);
    put_word(memory, address, value);
    let orders = ask_orders(false, holder, unit, Command::MemoryWrite, block);
    let left = expelled(yielded(slots, holder, block), unit, block);
    let held = holds_block(slot_at(left, place_of(unit, block)), block);
    put_word_if(held, cache, cache_place(unit, address), value);
    let sets = through_sets(holders, unit, block, held);
    accepted(0, orders, left, settings, sets)
}
