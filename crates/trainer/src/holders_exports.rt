// The call for a block's holders for programs in other languages.
ghost use Rattle.std.specs.Prelude.{◌≡◌};
ghost use Rattle.capi_holders.specs.Holders.{holders_returned, set_left, count_left};

// The set of the units that hold block, and how many they are.
#[unsafe(no_mangle)]
pub extern "C" fn trainer_holders(
    directory: &[u8],
    block: u32,
    set: &mut u32,
    count: &mut u32,
) -> u32
    ensures { (result ≡ holders_returned directory.now block) × (set.new ≡ set_left directory.now block set.old) × (count.new ≡ count_left directory.now block count.old) }
{
    capi_holders::trainer_holders(directory, block, set, count)
}
