// A whole list of accesses in one call, for programs in other languages: `include/trainer.h` declares this function. The accesses are four numbers each.
#![tactic(auto)]

ghost use Rattle.std.specs.Prelude.{◌≡◌, cond, eqb};
ghost use Rattle.layout.specs.Directory.{directory_put};
ghost use Rattle.capi_batch.specs.Batch.{called, directory_left};

use batch_numbers::run_numbers;
use batch_rules::Outcome;
use layout::{decode, encode};

// The directory that a list left, where it made an access.
fn put_directory(r: Outcome, directory: &mut [u8])
    ensures { directory.new ≡ cond (eqb r.index 0) directory.old (directory_put r.directory directory.old) }
{
    if r.index != 0 {
        encode(r.directory, directory);
    }
}

// The accesses of the list in turn, up to the first refused one. `index` is how many were made, `orders` how many orders they gave.
#[unsafe(no_mangle)]
pub extern "C" fn trainer_batch(
    directory: &mut [u8],
    memory: &mut [u8],
    cache: &mut [u8],
    accesses: &[u32],
    values: &mut [u32],
    index: &mut u32,
    orders: &mut u32,
) -> u32
    ensures { (result ≡ (called directory.old memory.old cache.old accesses.now values.old).outcome.refusal) × (index.new ≡ (called directory.old memory.old cache.old accesses.now values.old).outcome.index) × (orders.new ≡ (called directory.old memory.old cache.old accesses.now values.old).outcome.orders) × (directory.new ≡ directory_left directory.old (called directory.old memory.old cache.old accesses.now values.old).outcome) × (memory.new ≡ (called directory.old memory.old cache.old accesses.now values.old).memory) × (cache.new ≡ (called directory.old memory.old cache.old accesses.now values.old).cache) × (values.new ≡ (called directory.old memory.old cache.old accesses.now values.old).values) }
{
    let d = decode(directory);
    let r = run_numbers(accesses, values, d, memory, cache);
    put_directory(r, directory);
    *index = r.index as u32;
    *orders = r.orders as u32;
    r.refusal.into()
}
