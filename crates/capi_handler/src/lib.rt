// The bus handler for programs in other languages: `include/trainer.h` declares these functions. Its state crosses as three numbers in a lent slice, all
// else as numbers. Each function is total, and a refused call writes nothing.
#![tactic(auto)]

mod state;

ghost use Rattle.std.specs.Prelude.{◌≡◌};
ghost use Rattle.capi_handler.specs.Arbitrate.{fresh_returned, fresh_state, arbitrate_returned, arbitrate_state, arbitrate_class, arbitrate_unit};

use crossing::capped;
use handler::State;
use order::Refusal;
use state::{class_granted, put_state, state_from, unit_granted};

// The state of a handler that has granted nothing yet.
#[tactic(auto, unfolding(crate::specs::Arbitrate::fresh_returned, crate::specs::Arbitrate::fresh_state))]
#[unsafe(no_mangle)]
pub extern "C" fn trainer_handler(state: &mut [u32]) -> u32
    ensures { (result ≡ fresh_returned state.old) × (state.new ≡ fresh_state state.old) }
{
    if state.len() < 3 {
        return Refusal::NoRoom.into();
    }
    put_state(State::fresh(), state);
    0
}

// One call of the handler: RQH, RQL, and LCK asserted (1) or not (0). A set of units that 16 bits do not hold becomes 65,535, which the handler refuses too.
#[tactic(auto, unfolding(crate::specs::Arbitrate::arbitrate_returned, crate::specs::Arbitrate::arbitrate_state, crate::specs::Arbitrate::arbitrate_class, crate::specs::Arbitrate::arbitrate_unit, crate::specs::Arbitrate::arbitrated, handler::specs::Handler::told), using(order::proofs::RefusalLaws::number_not_0))]
#[unsafe(no_mangle)]
pub extern "C" fn trainer_arbitrate(
    state: &mut [u32],
    high: u32,
    low: u32,
    lck: u32,
    class: &mut u32,
    unit: &mut u32,
) -> u32
    ensures { (result ≡ arbitrate_returned state.old high low lck) × (state.new ≡ arbitrate_state state.old high low lck) × (class.new ≡ arbitrate_class state.old high low lck class.old) × (unit.new ≡ arbitrate_unit state.old high low lck unit.old) }
{
    if state.len() < 3 {
        return Refusal::NoRoom.into();
    }
    if lck > 1 {
        return Refusal::FieldRange.into();
    }
    let mut handler = state_from(state);
    match handler.arbitrate(capped(high.into()), capped(low.into()), lck == 1) {
        Ok(grant) => {
            put_state(handler, state);
            *class = class_granted(grant);
            *unit = unit_granted(grant);
            0
        }
        Err(refusal) => refusal.into(),
    }
}
