// The tests of a call, in their order, and the refusal of the first that fails. Directory and stores stand apart, as `machine` says.
#![tactic(auto)]

ghost use Rattle.std.specs.Prelude.{◌≡◌};
ghost use Rattle.order.specs.Refusal.{number_of};
ghost use Rattle.coherence.specs.Refusal.{sized, is_address, call_refusal};

use coherence::Directory;
use order::Refusal;
use soundness::is_sound;

#[tactic(auto, unfolding(coherence::specs::Refusal::sized))]
pub fn is_sized(memory: &[u8], cache: &[u8]) -> bool
    ensures { result ≡ sized memory.now cache.now }
{
    memory.len() == 2048 && cache.len() == 2048
}

#[tactic(auto, unfolding(coherence::specs::Refusal::is_address))]
pub fn is_address(address: u32) -> bool
    ensures { result ≡ is_address address }
{
    address % 4 == 0 && address <= 2044
}

// Refuses as the first test that fails. `good` says that the address or block is one of the machine's.
#[tactic(auto, unfolding(coherence::specs::Refusal::is_unit), using(coherence::proofs::RefusalLaws::call_tests))]
pub fn check_call(
    directory: Directory,
    memory: &[u8],
    cache: &[u8],
    unit: u8,
    good: bool,
) -> Result<(), Refusal>
    ensures { number_of result ≡ call_refusal directory memory.now cache.now unit good }
{
    if !is_sized(memory, cache) {
        return Err(Refusal::WrongSize);
    }
    if !is_sound(directory) {
        return Err(Refusal::BrokenDirectory);
    }
    if unit > 3 {
        return Err(Refusal::NoUnit);
    }
    if good {
        Ok(())
    } else {
        Err(Refusal::BadAddress)
    }
}
