// A whole list of accesses in one call, for programs in other languages.
ghost use Rattle.std.specs.Prelude.{◌≡◌};
ghost use Rattle.capi_batch.specs.Batch.{called, directory_left};

// The accesses of the list in turn, up to the first refused one. `index` is how many were made, `orders` how many orders they gave.
#[unsafe(no_mangle)]
pub extern "C" fn trainer_batch(
    directory: &mut [u8],
    memory: &mut [u8],
    cache: &mut [u8],
    accesses: &[u32],
    values: &mut [u32],
    index: &mut u32,
    orders: &mut u32,
) -> u32
    ensures { (result ≡ (called directory.old memory.old cache.old accesses.now values.old).outcome.refusal) × (index.new ≡ (called directory.old memory.old cache.old accesses.now values.old).outcome.index) × (orders.new ≡ (called directory.old memory.old cache.old accesses.now values.old).outcome.orders) × (directory.new ≡ directory_left directory.old (called directory.old memory.old cache.old accesses.now values.old).outcome) × (memory.new ≡ (called directory.old memory.old cache.old accesses.now values.old).memory) × (cache.new ≡ (called directory.old memory.old cache.old accesses.now values.old).cache) × (values.new ≡ (called directory.old memory.old cache.old accesses.now values.old).values) }
{
    capi_batch::trainer_batch(directory, memory, cache, accesses, values, index, orders)
}
