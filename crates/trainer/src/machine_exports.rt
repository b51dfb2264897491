// The cache machine's calls for programs in other languages.
ghost use Rattle.std.specs.Prelude.{◌≡◌};
ghost use Rattle.coherence.specs.declared.Call.TheVariants.{Load, Store, Flush};
ghost use Rattle.capi_machine.specs.Call.{narrowed, returned, directory_left, memory_left, cache_left, answer_left};
ghost use Rattle.capi_machine.specs.Place.{peek_returned, store_left, offset_left};

// Unit loads the word at address.
#[unsafe(no_mangle)]
pub extern "C" fn trainer_load(
    directory: &mut [u8],
    memory: &mut [u8],
    cache: &mut [u8],
    unit: u32,
    address: u32,
    answer: &mut [u32],
) -> u32
    ensures { (result ≡ returned directory.old memory.old cache.old answer.old (Load (narrowed unit) address)) × (directory.new ≡ directory_left directory.old memory.old cache.old answer.old (Load (narrowed unit) address)) × (memory.new ≡ memory_left directory.old memory.old cache.old answer.old (Load (narrowed unit) address)) × (cache.new ≡ cache_left directory.old memory.old cache.old answer.old (Load (narrowed unit) address)) × (answer.new ≡ answer_left directory.old memory.old cache.old answer.old (Load (narrowed unit) address)) }
{
    capi_machine::trainer_load(directory, memory, cache, unit, address, answer)
}

// Unit stores value at address.
#[unsafe(no_mangle)]
pub extern "C" fn trainer_store(
    directory: &mut [u8],
    memory: &mut [u8],
    cache: &mut [u8],
    unit: u32,
    address: u32,
    value: u32,
    answer: &mut [u32],
) -> u32
    ensures { (result ≡ returned directory.old memory.old cache.old answer.old (Store (narrowed unit) address value)) × (directory.new ≡ directory_left directory.old memory.old cache.old answer.old (Store (narrowed unit) address value)) × (memory.new ≡ memory_left directory.old memory.old cache.old answer.old (Store (narrowed unit) address value)) × (cache.new ≡ cache_left directory.old memory.old cache.old answer.old (Store (narrowed unit) address value)) × (answer.new ≡ answer_left directory.old memory.old cache.old answer.old (Store (narrowed unit) address value)) }
{
    capi_machine::trainer_store(directory, memory, cache, unit, address, value, answer)
}

// Unit flushes block.
#[unsafe(no_mangle)]
pub extern "C" fn trainer_flush(
    directory: &mut [u8],
    memory: &mut [u8],
    cache: &[u8],
    unit: u32,
    block: u32,
    answer: &mut [u32],
) -> u32
    ensures { (result ≡ returned directory.old memory.old cache.now answer.old (Flush (narrowed unit) (narrowed block))) × (directory.new ≡ directory_left directory.old memory.old cache.now answer.old (Flush (narrowed unit) (narrowed block))) × (memory.new ≡ memory_left directory.old memory.old cache.now answer.old (Flush (narrowed unit) (narrowed block))) × (answer.new ≡ answer_left directory.old memory.old cache.now answer.old (Flush (narrowed unit) (narrowed block))) }
{
    capi_machine::trainer_flush(directory, memory, cache, unit, block, answer)
}

// Which store has the newest bytes of block, and where.
#[unsafe(no_mangle)]
pub extern "C" fn trainer_peek(
    directory: &[u8],
    memory: &[u8],
    cache: &[u8],
    block: u32,
    store: &mut u32,
    offset: &mut u32,
) -> u32
    ensures { (result ≡ peek_returned directory.now memory.now cache.now block) × (store.new ≡ store_left directory.now memory.now cache.now block store.old) × (offset.new ≡ offset_left directory.now memory.now cache.now block offset.old) }
{
    capi_machine::trainer_peek(directory, memory, cache, block, store, offset)
}
