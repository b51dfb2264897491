// The cache machine's calls for programs in other languages: `include/trainer.h` declares these functions. Slices cross as pointer and length, all else as
// numbers. Each function is total, and a refused call writes nothing but what its contract says.
#![tactic(auto)]

ghost use Rattle.std.specs.Prelude.{◌≡◌};
ghost use Rattle.order.specs.Refusal.{number_of};
ghost use Rattle.coherence.specs.declared.Call.TheVariants.{Load, Store, Flush};
ghost use Rattle.capi_machine.specs.Call.{narrowed, returned, directory_left, memory_left, cache_left, answer_left, directory_handed, answer_handed};
ghost use Rattle.capi_machine.specs.Place.{peek_returned, store_left, offset_left};

use answer_layout::put_answer;
use coherence::Accepted;
use crossing::capped;
use layout::{decode, encode_left};
use order::Refusal;
use peek::check_peek;
use slots::{cache_place, owner};

// What the machine answered: of an accepted call, the directory that it leaves and the answer's numbers are written. Not compiled into its callers, it costs
// a call 7 to 11 ns (docs/PERFORMANCE.md).
// The calls themselves stay apart: C lends `trainer_flush` its cache store to be read only, the others theirs to be written.
#[tactic(auto, unfolding(crate::specs::Call::directory_handed, crate::specs::Call::answer_handed))]
#[inline(always)]
fn hand_over(called: Result<Accepted, Refusal>, directory: &mut [u8], answer: &mut [u32]) -> u32
    ensures { (result ≡ number_of called) × (directory.new ≡ directory_handed called directory.old) × (answer.new ≡ answer_handed called answer.old) }
{
    match called {
        Ok(accepted) => {
            encode_left(accepted.directory, directory);
            put_answer(accepted, answer);
            0
        }
        Err(refusal) => refusal.into(),
    }
}

// Unit loads the word at address.
#[unsafe(no_mangle)]
pub extern "C" fn trainer_load(
    directory: &mut [u8],
    memory: &mut [u8],
    cache: &mut [u8],
    unit: u32,
    address: u32,
    answer: &mut [u32],
) -> u32
    ensures { (result ≡ returned directory.old memory.old cache.old answer.old (Load (narrowed unit) address)) × (directory.new ≡ directory_left directory.old memory.old cache.old answer.old (Load (narrowed unit) address)) × (memory.new ≡ memory_left directory.old memory.old cache.old answer.old (Load (narrowed unit) address)) × (cache.new ≡ cache_left directory.old memory.old cache.old answer.old (Load (narrowed unit) address)) × (answer.new ≡ answer_left directory.old memory.old cache.old answer.old (Load (narrowed unit) address)) }
{
    if answer.len() < 18 {
        return Refusal::NoRoom.into();
    }
    let d = decode(directory);
    let called = machine::load(d, memory, cache, capped(unit.into()), address);
    hand_over(called, directory, answer)
}

// Unit stores value at address.
#[unsafe(no_mangle)]
pub extern "C" fn trainer_store(
    directory: &mut [u8],
    memory: &mut [u8],
    cache: &mut [u8],
    unit: u32,
    address: u32,
    value: u32,
    answer: &mut [u32],
) -> u32
    ensures { (result ≡ returned directory.old memory.old cache.old answer.old (Store (narrowed unit) address value)) × (directory.new ≡ directory_left directory.old memory.old cache.old answer.old (Store (narrowed unit) address value)) × (memory.new ≡ memory_left directory.old memory.old cache.old answer.old (Store (narrowed unit) address value)) × (cache.new ≡ cache_left directory.old memory.old cache.old answer.old (Store (narrowed unit) address value)) × (answer.new ≡ answer_left directory.old memory.old cache.old answer.old (Store (narrowed unit) address value)) }
{
    if answer.len() < 18 {
        return Refusal::NoRoom.into();
    }
    let d = decode(directory);
    let called = machine::store(d, memory, cache, capped(unit.into()), address, value);
    hand_over(called, directory, answer)
}

// Unit flushes block.
#[unsafe(no_mangle)]
pub extern "C" fn trainer_flush(
    directory: &mut [u8],
    memory: &mut [u8],
    cache: &[u8],
    unit: u32,
    block: u32,
    answer: &mut [u32],
) -> u32
    ensures { (result ≡ returned directory.old memory.old cache.now answer.old (Flush (narrowed unit) (narrowed block))) × (directory.new ≡ directory_left directory.old memory.old cache.now answer.old (Flush (narrowed unit) (narrowed block))) × (memory.new ≡ memory_left directory.old memory.old cache.now answer.old (Flush (narrowed unit) (narrowed block))) × (answer.new ≡ answer_left directory.old memory.old cache.now answer.old (Flush (narrowed unit) (narrowed block))) }
{
    if answer.len() < 18 {
        return Refusal::NoRoom.into();
    }
    let d = decode(directory);
    let called = machine::flush(d, memory, cache, capped(unit.into()), capped(block.into()));
    hand_over(called, directory, answer)
}

// Which store has the newest bytes of block, and where.
#[unsafe(no_mangle)]
pub extern "C" fn trainer_peek(
    directory: &[u8],
    memory: &[u8],
    cache: &[u8],
    block: u32,
    store: &mut u32,
    offset: &mut u32,
) -> u32
    ensures { (result ≡ peek_returned directory.now memory.now cache.now block) × (store.new ≡ store_left directory.now memory.now cache.now block store.old) × (offset.new ≡ offset_left directory.now memory.now cache.now block offset.old) }
{
    let d = decode(directory);
    let b: u8 = capped(block.into());
    match check_peek(d, memory, cache, b) {
        Ok(()) => {
            let unit = owner(d.slots, b);
            let address = 32 * u32::from(b);
            if unit < 4 {
                *store = 1;
                *offset = cache_place(unit, address);
            } else {
                *store = 0;
                *offset = address;
            }
            0
        }
        Err(refusal) => refusal.into(),
    }
}
