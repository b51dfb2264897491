// Rows of the bus and of its handler. Each answer begins with the number of the refusal.
use crate::rows::{Row, show_all};
use std::io;

// A word, and a set of parity bits to check it with: its parity, the wrong bytes, how many.
pub(crate) fn parity(to: &impl Print, given: Row) -> io::Result<()> {
    let data = given.values[0];
    let set = given.small()[1];
    let mut wrong = 0u32;
    let mut count = 0u32;
    let refusal = capi_bus::trainer_check(data, set, &mut wrong, &mut count);
    show_all(to, &[refusal, capi_bus::trainer_parity(data), wrong, count])
}

// RA and BCT: the words, the set of positions.
pub(crate) fn lanes(to: &impl Print, given: Row) -> io::Result<()> {
    let n = given.small();
    let mut words = 0u32;
    let mut positions = 0u32;
    let refusal = capi_bus::trainer_lanes(n[0], n[1], &mut words, &mut positions);
    show_all(to, &[refusal, words, positions])
}

// The cycles, the cycle, and locked or not: BS, BUR, ET, ET at the request.
pub(crate) fn transfer(to: &impl Print, given: Row) -> io::Result<()> {
    let n = given.small();
    let mut bs = 0u32;
    let mut bur = 0u32;
    let mut et = 0u32;
    let mut request = 0u32;
    let refusal = capi_bus::trainer_plan(
        n[0],
        n[1],
        n[2],
        &mut bs,
        &mut bur,
        &mut et,
        &mut request,
    );
    show_all(to, &[refusal, bs, bur, et, request])
}

// A code: its class, the carried number, whether a bus error is reported.
pub(crate) fn answer(to: &impl Print, given: Row) -> io::Result<()> {
    let n = given.small();
    let mut class = 0u32;
    let mut carried = 0u32;
    let mut error = 0u32;
    let refusal = capi_bus::trainer_class(n[0], &mut class, &mut carried, &mut error);
    show_all(to, &[refusal, class, carried, error])
}

// A class and the number that it carries: the code.
pub(crate) fn class(to: &impl Print, given: Row) -> io::Result<()> {
    let n = given.small();
    let mut code = 0u32;
    let refusal = capi_bus::trainer_code(n[0], n[1], &mut code);
    show_all(to, &[refusal, code])
}

fn fresh(to: &impl Print, state: &mut [u32]) -> io::Result<()> {
    show_all(to, &[capi_handler::trainer_handler(state)])?;
    show_all(to, state)
}

fn arbitrate(to: &impl Print, state: &mut [u32], high: u32, low: u32, lck: u32) -> io::Result<()> {
    let mut grant = 0u32;
    let mut unit = 0u32;
    let refusal = capi_handler::trainer_arbitrate(state, high, low, lck, &mut grant, &mut unit);
    show_all(to, &[refusal, grant, unit])?;
    show_all(to, state)
}

// Last high, last low, owner (8: none), RQH, RQL, LCK: the grant (0 nobody, 1 high, 2 low), the unit, and the state after it. With no number, the
// state of a fresh handler.
pub(crate) fn handler(to: &impl Print, given: Row) -> io::Result<()> {
    let n = given.small();
    let mut state = [n[0], n[1], n[2]];
    if given.count == 0 {
        fresh(to, &mut state)
    } else {
        arbitrate(to, &mut state, n[3], n[4], n[5])
    }
}
