// The size of a record for programs in other languages, as `capi_tape` has the tape's other calls. A part of its own: in each part the functions below have one caller,
// and are compiled into it.
#![tactic(auto)]

ghost use Rattle.std.specs.Prelude.{◌≡◌, ℕ};
ghost use Rattle.order.specs.Refusal.{number_of};
ghost use Rattle.record_numbers.specs.Entry.{record_from, count_or};
ghost use Rattle.capi_size.specs.Calls.{size_returned, size_left};

use order::Refusal;
use record_numbers::record_from;
use tape_writer::record_size;

// How many bytes the record takes that numbers name.
#[tactic(auto, unfolding(crate::specs::Calls::size_returned, crate::specs::Calls::size_left, record_numbers::specs::Entry::count_or))]
fn size_from(numbers: &[u64]) -> Result<usize, Refusal>
    ensures { (number_of result ≡ size_returned (record_from numbers.now)) × ((w : ℕ) → count_or result w ≡ size_left (record_from numbers.now) w) }
{
    match record_from(numbers) {
        Ok(record) => record_size(record),
        Err(refusal) => Err(refusal),
    }
}

// How many bytes the record takes that seven numbers name.
#[tactic(auto, unfolding(record_numbers::specs::Entry::count_or))]
#[unsafe(no_mangle)]
pub extern "C" fn trainer_record_size(numbers: &[u64], size: &mut usize) -> u32
    ensures { (result ≡ size_returned (record_from numbers.now)) × (size.new ≡ size_left (record_from numbers.now) size.old) }
{
    match size_from(numbers) {
        Ok(bytes) => {
            *size = bytes;
            0
        }
        Err(refusal) => refusal.into(),
    }
}
