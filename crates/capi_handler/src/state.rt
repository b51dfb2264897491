// The handler's state as three numbers: last high unit, last low unit, and the lock's owner, 8 for none. The numbers are the C interface's: `trainer_arbitrate`
// in `include/trainer.h` lists them.
ghost use Rattle.std.specs.Prelude.{◌≡◌, ◌++◌, ◌≤◌, length, drop};
ghost use Rattle.capi_handler.specs.State.{state_size, lock_number, lock_from, state_numbers, state_from, class_granted, unit_granted};

use crossing::capped;
use handler::{Class, Grant, State};

#[tactic(auto, unfolding(crate::specs::State::lock_number))]
fn lock_number(lock: Option<u8>) -> u32
    ensures { result ≡ lock_number lock }
{
    lock.unwrap_or(8).into()
}

#[tactic(auto, unfolding(crate::specs::State::lock_from))]
fn lock_from(n: u32) -> Option<u8>
    ensures { result ≡ lock_from n }
{
    (n != 8).then_some(capped(n.into()))
}

// The state that the first three numbers stand for. What stands for none becomes one that the handler refuses.
#[tactic(auto, unfolding(crate::specs::State::state_from, crate::specs::State::state_of))]
pub(crate) fn state_from(numbers: &[u32]) -> State
    requires { state_size ≤ length numbers.now }
    ensures { result ≡ state_from numbers.now }
{
    State {
        last_high: capped(numbers[0].into()),
        last_low: capped(numbers[1].into()),
        lock: lock_from(numbers[2]),
    }
}

#[tactic(auto, unfolding(crate::specs::State::state_numbers))]
pub(crate) fn put_state(state: State, out: &mut [u32])
    requires { state_size ≤ length out.old }
    ensures { out.new ≡ state_numbers state ++ drop state_size out.old }
{
    out[..3].copy_from_slice(&[
        state.last_high.into(),
        state.last_low.into(),
        lock_number(state.lock),
    ]);
}

// 0 nobody, 1 by RQH, 2 by RQL, as `trainer_arbitrate` gives it to C.
#[tactic(auto, unfolding(crate::specs::State::class_granted, crate::specs::State::class_told))]
pub(crate) fn class_granted(grant: Option<Grant>) -> u32
    ensures { result ≡ class_granted grant }
{
    match grant.map(|grant| grant.class) {
        None => 0,
        Some(Class::High) => 1,
        Some(Class::Low) => 2,
    }
}

#[tactic(auto, unfolding(crate::specs::State::unit_granted))]
pub(crate) fn unit_granted(grant: Option<Grant>) -> u32
    ensures { result ≡ unit_granted grant }
{
    grant.map_or(0, |grant| grant.unit.into())
}
