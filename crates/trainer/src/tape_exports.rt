// The tape for programs in other languages.
ghost use Rattle.std.specs.Prelude.{◌≡◌};
ghost use Rattle.record_numbers.specs.Entry.{record_from};
ghost use Rattle.capi_tape.specs.Calls.{read_returned, numbers_left, next_left, write_returned, space_left, written_left};

// Reads the record at a place of the tape.
#[unsafe(no_mangle)]
pub extern "C" fn trainer_read_record(
    tape: &[u8],
    place: usize,
    next: &mut usize,
    numbers: &mut [u64],
) -> u32
    ensures { (result ≡ read_returned tape.now place numbers.old) × (next.new ≡ next_left tape.now place numbers.old next.old) × (numbers.new ≡ numbers_left tape.now place numbers.old) }
{
    capi_tape::trainer_read_record(tape, place, next, numbers)
}

// Writes the record that seven numbers name.
#[unsafe(no_mangle)]
pub extern "C" fn trainer_write_record(
    numbers: &[u64],
    space: &mut [u8],
    written: &mut usize,
) -> u32
    ensures { (result ≡ write_returned (record_from numbers.now) space.old) × (space.new ≡ space_left (record_from numbers.now) space.old) × (written.new ≡ written_left (record_from numbers.now) space.old written.old) }
{
    capi_tape::trainer_write_record(numbers, space, written)
}
