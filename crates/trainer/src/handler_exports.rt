// The bus handler for programs in other languages.
ghost use Rattle.std.specs.Prelude.{◌≡◌};
ghost use Rattle.capi_handler.specs.Arbitrate.{fresh_returned, fresh_state, arbitrate_returned, arbitrate_state, arbitrate_class, arbitrate_unit};

// The state of a handler that has granted nothing yet.
#[unsafe(no_mangle)]
pub extern "C" fn trainer_handler(state: &mut [u32]) -> u32
    ensures { (result ≡ fresh_returned state.old) × (state.new ≡ fresh_state state.old) }
{
    capi_handler::trainer_handler(state)
}

// One call of the handler: RQH, RQL, and LCK asserted (1) or not (0).
#[unsafe(no_mangle)]
pub extern "C" fn trainer_arbitrate(
    state: &mut [u32],
    high: u32,
    low: u32,
    lck: u32,
    class: &mut u32,
    unit: &mut u32,
) -> u32
    ensures { (result ≡ arbitrate_returned state.old high low lck) × (state.new ≡ arbitrate_state state.old high low lck) × (class.new ≡ arbitrate_class state.old high low lck class.old) × (unit.new ≡ arbitrate_unit state.old high low lck unit.old) }
{
    capi_handler::trainer_arbitrate(state, high, low, lck, class, unit)
}
