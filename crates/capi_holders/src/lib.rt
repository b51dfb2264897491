// The call for a block's holders for programs in other languages: `include/trainer.h` declares it. Slices cross as pointer and length, all else as numbers.
#![tactic(auto)]

ghost use Rattle.std.specs.Prelude.{◌≡◌};
ghost use Rattle.capi_holders.specs.Holders.{holders_returned, set_left, count_left};

use crossing::capped;
use layout::decode;

// The set of the units that hold block, and how many they are.
#[unsafe(no_mangle)]
pub extern "C" fn trainer_holders(
    directory: &[u8],
    block: u32,
    set: &mut u32,
    count: &mut u32,
) -> u32
    ensures { (result ≡ holders_returned directory.now block) × (set.new ≡ set_left directory.now block set.old) × (count.new ≡ count_left directory.now block count.old) }
{
    match holders::holders(decode(directory), capped(block.into())) {
        Ok(held) => {
            *set = held.set.into();
            *count = held.count;
            0
        }
        Err(refusal) => refusal.into(),
    }
}
