// The size of a record for programs in other languages.
ghost use Rattle.std.specs.Prelude.{◌≡◌};
ghost use Rattle.record_numbers.specs.Entry.{record_from};
ghost use Rattle.capi_size.specs.Calls.{size_returned, size_left};

// How many bytes the record takes that seven numbers name.
#[unsafe(no_mangle)]
pub extern "C" fn trainer_record_size(numbers: &[u64], size: &mut usize) -> u32
    ensures { (result ≡ size_returned (record_from numbers.now)) × (size.new ≡ size_left (record_from numbers.now) size.old) }
{
    capi_size::trainer_record_size(numbers, size)
}
