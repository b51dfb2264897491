// Peek: where the newest bytes of a block stand, in the machine as the calls have left it.
#![tactic(auto)]

ghost use Rattle.std.specs.Prelude.{◌≡◌, cond, ◌+◌};
ghost use Rattle.order.specs.Refusal.{number_of};
ghost use Rattle.coherence.specs.Refusal.{peek_refusal};
ghost use Rattle.coherence.specs.Peek.{peeked, peek_from_cache, peek_offset};

use coherence::Directory;
use order::Refusal;
use refusal::check_call;
use slots::{owner, place_of};

// Peek's tests are those of a call by one of the units.
#[tactic(auto, using(crate::proofs::PeekLaws::tests_are))]
pub fn check_peek(
    directory: Directory,
    memory: &[u8],
    cache: &[u8],
    block: u8,
) -> Result<(), Refusal>
    ensures { number_of result ≡ peek_refusal directory memory.now cache.now block }
{
    check_call(directory, memory, cache, 0, block <= 63)
}

// The newest bytes of the block, themselves: in the cache store where a unit has it EM, else in memory. An empty part of memory if refused: document 01,
// `peeked` and `peek_offset` have it so.
#[tactic(auto, using(crate::proofs::PeekLaws::place_small))]
pub fn peek<'a>(directory: Directory, memory: &'a [u8], cache: &'a [u8], block: u8) -> &'a [u8]
    ensures { (result.now ≡ peeked directory memory.now cache.now block) × (result.ref_ptr.0 ≡ cond (peek_from_cache directory memory.now cache.now block) cache.entry.ref_ptr.0 memory.entry.ref_ptr.0) × (result.ref_ptr.1 ≡ cond (peek_from_cache directory memory.now cache.now block) cache.entry.ref_ptr.1 memory.entry.ref_ptr.1 + peek_offset directory memory.now cache.now block) }
{
    if check_peek(directory, memory, cache, block).is_err() {
        return &memory[0..0];
    }
    let unit = owner(directory.slots, block);
    if unit < 4 {
        let at = 32 * place_of(unit, block);
        &cache[at..at + 32]
    } else {
        let at = 32 * usize::from(block);
        &memory[at..at + 32]
    }
}
