// The cache machine: cold start, loads, stores and flushes. Each call tests its inputs, and answers and leaves what the
// definitions of `coherence` say, for every input. A call takes slots, settings and sets of holders apart,
// and its answer puts them together.
// Directory and stores stand apart in each signature, here and in the crates around: C lends `trainer_load`, `trainer_store` and `trainer_flush` the stores as
// slices of any length, and the clauses name each store as it was and as it is left. The parts of a fetch are called in `load` and in `store`: a function for
// both would take nine values and give back the holder and the orders.
#![tactic(auto)]

ghost use Rattle.std.specs.Prelude.{◌≡◌, IfErr};
ghost use Rattle.coherence.specs.declared.Call.TheVariants.{Load, Store, Flush};
ghost use Rattle.coherence.specs.Slots.{cold_directory};
ghost use Rattle.coherence.specs.Calls.{answer, memory_after, cache_after, start_answer, cache_started, told, started};
ghost use Rattle.machine.specs.Start.{refusal_alone};

use blocks::{clear, evict_bytes, fetch_bytes, put_word, word_at};
use coherence::{Accepted, Call, Directory, Settings, Slot};
use holder_sets::{claimed_sets, fetched_sets, flushed_sets};
use order::{Command, Refusal};
use orders::{accepted, eviction_orders, fetch_orders, no_orders, one_order};
use refusal::{check_call, is_address, is_sized};
use slots::{
    cache_place, claimed, fetched, has_modified, holds_block, is_through, owner, place_of,
    set_slot, slot_at,
};
use write_through::store_through;

// The directory of a cold start, whether or not it is refused.
pub use slots::cold_directory;

// Why a cold start is refused, and the directory that it has all the same.
#[derive(Clone, Copy)]
pub struct StartRefused {
    pub refusal: Refusal,
    pub directory: Directory,
}

// All slots invalid and all sets of holders empty, with the chosen settings, and the cache store all zeros. Refused, it leaves the cache store as it was.
pub fn cold_start(
    settings: Settings,
    memory: &[u8],
    cache: &mut [u8],
) -> Result<Directory, StartRefused>
    ensures { (started settings (refusal_alone result) ≡ start_answer settings memory.now cache.old) × (cache.new ≡ cache_started memory.now cache.old) × IfErr result (λ e. e.directory ≡ cold_directory settings) }
{
    let directory = cold_directory(settings);
    if !is_sized(memory, cache) {
        return Err(StartRefused {
            refusal: Refusal::WrongSize,
            directory,
        });
    }
    clear(cache);
    Ok(directory)
}

// A load. A refused one leaves all as it was.
pub fn load(
    directory: Directory,
    memory: &mut [u8],
    cache: &mut [u8],
    unit: u8,
    address: u32,
) -> Result<Accepted, Refusal>
    ensures { (told directory result ≡ answer directory memory.old cache.old (Load unit address)) × (memory.new ≡ memory_after directory memory.old cache.old (Load unit address)) × (cache.new ≡ cache_after directory memory.old cache.old (Load unit address)) }
{
    check_call(directory, memory, cache, unit, is_address(address))?;
    let Directory {
        slots,
        settings,
        holders,
    } = directory;
    let block = (address / 32) as u8;
    let n = place_of(unit, block);
    let slot = slot_at(slots, n);
    let at = cache_place(unit, address);
    if holds_block(slot, block) {
        let value = word_at(cache, at);
        return Ok(accepted(value, no_orders(), slots, settings, holders));
    }
    let holder = owner(slots, block);
    fetch_bytes(slot, holder, memory, cache, n, block);
    let value = word_at(cache, at);
    let orders = fetch_orders(settings.steal, slot, holder, unit, Command::Read, block);
    let left = fetched(slots, n, holder, block);
    let sets = fetched_sets(holders, slot, unit, block);
    Ok(accepted(value, orders, left, settings, sets))
}

// A store. A refused one leaves all as it was.
pub fn store(
    directory: Directory,
    memory: &mut [u8],
    cache: &mut [u8],
    unit: u8,
    address: u32,
    value: u32,
) -> Result<Accepted, Refusal>
    ensures { (told directory result ≡ answer directory memory.old cache.old (Store unit address value)) × (memory.new ≡ memory_after directory memory.old cache.old (Store unit address value)) × (cache.new ≡ cache_after directory memory.old cache.old (Store unit address value)) }
{
    check_call(directory, memory, cache, unit, is_address(address))?;
    let Directory {
        slots,
        settings,
        holders,
    } = directory;
    let block = (address / 32) as u8;
    if is_through(settings, unit) {
        return Ok(store_through(directory, memory, cache, unit, block, address, value));
    }
    let n = place_of(unit, block);
    let slot = slot_at(slots, n);
    let at = cache_place(unit, address);
    if has_modified(slot, block) {
        put_word(cache, at, value);
        return Ok(accepted(0, no_orders(), slots, settings, holders));
    }
    let left = claimed(slots, unit, block);
    let sets = claimed_sets(holders, slot, unit, block);
    if holds_block(slot, block) {
        put_word(cache, at, value);
        let orders = one_order(unit, Command::Invalidate, block);
        return Ok(accepted(0, orders, left, settings, sets));
    }
    let holder = owner(slots, block);
    fetch_bytes(slot, holder, memory, cache, n, block);
    put_word(cache, at, value);
    let orders = fetch_orders(
        settings.steal,
        slot,
        holder,
        unit,
        Command::ModifiedRead,
        block,
    );
    Ok(accepted(0, orders, left, settings, sets))
}

// A flush: the block leaves the unit's cache, after a copyback where it is EM. A refused one leaves all as it was.
pub fn flush(
    directory: Directory,
    memory: &mut [u8],
    cache: &[u8],
    unit: u8,
    block: u8,
) -> Result<Accepted, Refusal>
    ensures { (told directory result ≡ answer directory memory.old cache.now (Flush unit block)) × (memory.new ≡ memory_after directory memory.old cache.now (Flush unit block)) × (cache.now ≡ cache_after directory memory.old cache.now (Flush unit block)) }
{
    check_call(directory, memory, cache, unit, block <= 63)?;
    let Directory {
        slots,
        settings,
        holders,
    } = directory;
    let n = place_of(unit, block);
    let slot = slot_at(slots, n);
    if !holds_block(slot, block) {
        return Ok(accepted(0, no_orders(), slots, settings, holders));
    }
    evict_bytes(slot, memory, cache, n);
    let orders = eviction_orders(slot, unit);
    let left = set_slot(slots, n, Slot::Invalid);
    let sets = flushed_sets(holders, unit, block);
    Ok(accepted(0, orders, left, settings, sets))
}

// One access, given as a value.
pub fn run(
    directory: Directory,
    memory: &mut [u8],
    cache: &mut [u8],
    call: Call,
) -> Result<Accepted, Refusal>
    ensures { (told directory result ≡ answer directory memory.old cache.old call) × (memory.new ≡ memory_after directory memory.old cache.old call) × (cache.new ≡ cache_after directory memory.old cache.old call) }
{
    match call {
        Call::Load { unit, address } => load(directory, memory, cache, unit, address),
        Call::Store {
            unit,
            address,
            value,
        } => store(directory, memory, cache, unit, address, value),
        Call::Flush { unit, block } => flush(directory, memory, cache, unit, block),
    }
}
