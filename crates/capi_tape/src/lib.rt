// The tape for programs in other languages: `include/trainer.h` declares these functions. Slices cross as pointer and length, all else as numbers.
// Each function is total, and a refused call writes nothing but what its contract says.
#![tactic(auto)]

ghost use Rattle.std.specs.Prelude.{◌≡◌, ℕ};
ghost use Rattle.order.specs.Refusal.{number_of};
ghost use Rattle.record_numbers.specs.Entry.{record_from, count_or};
ghost use Rattle.capi_tape.specs.Calls.{read_returned, numbers_left, next_left, write_returned, space_left, written_left};

use order::Refusal;
use record_numbers::record_from;
use tape_writer::{numbers_of, write_record};

// Reads the record at a place of the tape.
#[tactic(auto, unfolding(crate::specs::Calls::read_returned, crate::specs::Calls::next_left, crate::specs::Calls::numbers_left, crate::specs::Calls::filled, tape_format::specs::Record::record_told))]
#[unsafe(no_mangle)]
pub extern "C" fn trainer_read_record(
    tape: &[u8],
    place: usize,
    next: &mut usize,
    numbers: &mut [u64],
) -> u32
    ensures { (result ≡ read_returned tape.now place numbers.old) × (next.new ≡ next_left tape.now place numbers.old next.old) × (numbers.new ≡ numbers_left tape.now place numbers.old) }
{
    if numbers.len() < 7 {
        return Refusal::NoRoom.into();
    }
    match tape::read_record(tape, place) {
        Ok(Some((record, after))) => {
            numbers[..7].copy_from_slice(&numbers_of(record).values);
            *next = after;
            0
        }
        Ok(None) => {
            *next = place;
            0
        }
        Err(refused) => {
            *next = refused.place;
            refused.refusal.into()
        }
    }
}

// Writes the record that numbers name: how many bytes it takes.
#[tactic(auto, unfolding(crate::specs::Calls::write_returned, crate::specs::Calls::space_left, crate::specs::Calls::written_left, record_numbers::specs::Entry::count_or))]
fn write_from(numbers: &[u64], space: &mut [u8]) -> Result<usize, Refusal>
    ensures { (number_of result ≡ write_returned (record_from numbers.now) space.old) × (space.new ≡ space_left (record_from numbers.now) space.old) × ((w : ℕ) → count_or result w ≡ written_left (record_from numbers.now) space.old w) }
{
    let record = record_from(numbers)?;
    write_record(record, space)
}

// Writes the record that seven numbers name.
#[tactic(auto, unfolding(record_numbers::specs::Entry::count_or))]
#[unsafe(no_mangle)]
pub extern "C" fn trainer_write_record(
    numbers: &[u64],
    space: &mut [u8],
    written: &mut usize,
) -> u32
    ensures { (result ≡ write_returned (record_from numbers.now) space.old) × (space.new ≡ space_left (record_from numbers.now) space.old) × (written.new ≡ written_left (record_from numbers.now) space.old written.old) }
{
    match write_from(numbers, space) {
        Ok(count) => {
            *written = count;
            0
        }
        Err(refusal) => refusal.into(),
    }
}
