// Blocks of 32 bytes and words of 4 bytes in a lent store, and the bytes that an access moves. Where a store has no such block or word, nothing is moved,
// and the word reads as 0.
#![tactic(auto)]

ghost use Rattle.std.specs.Prelude.{◌≡◌, cond, length, replicate};
ghost use Rattle.blocks.specs.Moves.{copied, word_in, word_put, evicted_memory, yielded_memory, fetched_memory, fetched_cache};

use coherence::Slot;
use slots::place_of;

// Inlined, since a call of its own costs `mix` 3 %.
#[inline]
#[tactic(auto, unfolding(crate::specs::Moves::copied, crate::specs::Moves::has_block))]
pub fn copy_block(source: &[u8], from: usize, store: &mut [u8], to: usize)
    ensures { store.new ≡ copied source.now from store.old to }
{
    if from < source.len() / 32 && to < store.len() / 32 {
        store[32 * to..32 * to + 32].copy_from_slice(&source[32 * from..32 * from + 32]);
    }
}

#[tactic(auto, unfolding(crate::specs::Moves::word_in, crate::specs::Moves::has_word, coherence::specs::Bytes::word_at))]
pub fn word_at(store: &[u8], at: u32) -> u32
    ensures { result ≡ word_in store.now at }
{
    let i = at as usize;
    if i + 4 <= store.len() {
        u32::from_be_bytes([store[i], store[i + 1], store[i + 2], store[i + 3]])
    } else {
        0
    }
}

#[tactic(auto, unfolding(crate::specs::Moves::word_put, crate::specs::Moves::has_word), using(crate::proofs::Copies::word_copied))]
pub fn put_word(store: &mut [u8], at: u32, word: u32)
    ensures { store.new ≡ word_put store.old at word }
{
    let i = at as usize;
    if i + 4 <= store.len() {
        store[i..i + 4].copy_from_slice(&word.to_be_bytes());
    }
}

// The same where `held`, else nothing. Public, and total like `put_word`: its clause stands.
pub fn put_word_if(held: bool, store: &mut [u8], at: u32, word: u32)
    ensures { store.new ≡ cond held (word_put store.old at word) store.old }
{
    if held {
        put_word(store, at, word);
    }
}

pub fn clear(store: &mut [u8])
    ensures { store.new ≡ replicate (length store.old) 0 }
{
    store.fill(0);
}

// The bytes of slot n go to memory where it is EM.
#[tactic(auto, unfolding(crate::specs::Moves::evicted_memory))]
pub fn evict_bytes(slot: Slot, memory: &mut [u8], cache: &[u8], n: usize)
    ensures { memory.new ≡ evicted_memory n slot memory.old cache.now }
{
    if let Slot::Modified(old) = slot {
        copy_block(cache, n, memory, usize::from(old));
    }
}

// Where `holder` is a unit, its bytes of the block go to memory.
#[tactic(auto, unfolding(crate::specs::Moves::yielded_memory))]
pub fn yield_bytes(holder: u8, memory: &mut [u8], cache: &[u8], block: u8)
    ensures { memory.new ≡ yielded_memory block holder memory.old cache.now }
{
    if holder < 4 {
        copy_block(cache, place_of(holder, block), memory, usize::from(block));
    }
}

// Slot n is emptied, the holder copies the block back, and the slot is filled from memory.
#[tactic(auto, unfolding(crate::specs::Moves::fetched_memory, crate::specs::Moves::fetched_cache))]
pub fn fetch_bytes(slot: Slot, holder: u8, memory: &mut [u8], cache: &mut [u8], n: usize, block: u8)
    ensures { (memory.new ≡ fetched_memory n block slot holder memory.old cache.old) × (cache.new ≡ fetched_cache n block slot holder memory.old cache.old) }
{
    evict_bytes(slot, memory, cache, n);
    yield_bytes(holder, memory, cache, block);
    copy_block(memory, usize::from(block), cache, n);
}
