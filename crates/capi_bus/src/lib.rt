// Parity, lanes, signals and answer codes for programs in other languages: `include/trainer.h` declares these functions. Everything crosses as
// numbers. Each function is total, and a refused call writes nothing.
#![tactic(auto)]

mod class;

ghost use Rattle.std.specs.Prelude.{◌≡◌};
ghost use Rattle.order.specs.Flag.{flag};
ghost use Rattle.order.specs.Refusal.{number_of};
ghost use Rattle.bus.specs.Parity.{parity_of, check_of};
ghost use Rattle.bus.specs.Lanes.{lanes_of};
ghost use Rattle.bus.specs.Answer.{class_of, is_error};
ghost use Rattle.capi_bus.specs.Bus.{left, left_of, most, plan_from};
ghost use Rattle.capi_bus.specs.Class.{class_number, carried_of, class_from, code_asked, code_left};

use bus::answer::Class;
use bus::transfer::SignalPlan;
use class::{carried_of, class_from, class_number};
use order::Refusal;

// The eight parity bits of a word.
#[unsafe(no_mangle)]
pub extern "C" fn trainer_parity(word: u64) -> u32
    ensures { result ≡ parity_of word }
{
    bus::parity::parity(word).into()
}

// The bytes of a word that are wrong beside a set of parity bits.
#[tactic(auto, unfolding(crate::specs::Bus::left, crate::specs::Bus::most))]
#[unsafe(no_mangle)]
pub extern "C" fn trainer_check(word: u64, set: u32, wrong: &mut u32, count: &mut u32) -> u32
    ensures { (result ≡ most 255 set) × (wrong.new ≡ left (most 255 set) (check_of word set).wrong wrong.old) × (count.new ≡ left (most 255 set) (check_of word set).count count.old) }
{
    let Ok(set) = u8::try_from(set) else {
        return Refusal::FieldRange.into();
    };
    let found = bus::parity::check(word, set);
    *wrong = found.wrong.into();
    *count = found.count;
    0
}

// The words and positions of a register access.
#[tactic(auto, unfolding(crate::specs::Bus::left_of))]
#[unsafe(no_mangle)]
pub extern "C" fn trainer_lanes(ra: u32, bct: u32, words: &mut u32, positions: &mut u32) -> u32
    ensures { (result ≡ number_of (lanes_of ra bct)) × (words.new ≡ left_of (lanes_of ra bct) (λ l. l.words) words.old) × (positions.new ≡ left_of (lanes_of ra bct) (λ l. l.positions) positions.old) }
{
    match bus::lanes::lanes(ra, bct) {
        Ok(lanes) => {
            *words = lanes.words.into();
            *positions = lanes.positions.into();
            0
        }
        Err(refusal) => refusal.into(),
    }
}

// The levels in one cycle of a transfer, and that of ET at the request.
#[tactic(auto, unfolding(crate::specs::Bus::left_of, order::specs::Flag::flag))]
#[unsafe(no_mangle)]
pub extern "C" fn trainer_plan(
    cycles: u32,
    cycle: u32,
    locked: u32,
    bs: &mut u32,
    bur: &mut u32,
    et: &mut u32,
    et_at_request: &mut u32,
) -> u32
    ensures { (result ≡ number_of (plan_from cycles cycle locked)) × (bs.new ≡ left_of (plan_from cycles cycle locked) (λ p. flag p.bs) bs.old) × (bur.new ≡ left_of (plan_from cycles cycle locked) (λ p. flag p.bur) bur.old) × (et.new ≡ left_of (plan_from cycles cycle locked) (λ p. flag p.et) et.old) × (et_at_request.new ≡ left_of (plan_from cycles cycle locked) (λ p. flag p.et_at_request) et_at_request.old) }
{
    match plan_from(cycles, cycle, locked) {
        Ok(plan) => {
            *bs = plan.bs.into();
            *bur = plan.bur.into();
            *et = plan.et.into();
            *et_at_request = plan.et_at_request.into();
            0
        }
        Err(refusal) => refusal.into(),
    }
}

// `locked` is 1 or 0.
#[tactic(auto, unfolding(crate::specs::Bus::plan_from))]
fn plan_from(cycles: u32, cycle: u32, locked: u32) -> Result<SignalPlan, Refusal>
    ensures { result ≡ plan_from cycles cycle locked }
{
    if locked > 1 {
        return Err(Refusal::FieldRange);
    }
    bus::transfer::plan(cycles, cycle, locked == 1)
}

// The class of an answer code, and whether the asker reports a bus error.
#[tactic(auto, unfolding(crate::specs::Bus::left, crate::specs::Bus::most, order::specs::Flag::flag))]
#[unsafe(no_mangle)]
pub extern "C" fn trainer_class(
    code: u32,
    class: &mut u32,
    carried: &mut u32,
    error: &mut u32,
) -> u32
    ensures { (result ≡ most 255 code) × (class.new ≡ left (most 255 code) (class_number (class_of code)) class.old) × (carried.new ≡ left (most 255 code) (carried_of (class_of code)) carried.old) × (error.new ≡ left (most 255 code) (flag (is_error code)) error.old) }
{
    let Ok(code) = u8::try_from(code) else {
        return Refusal::FieldRange.into();
    };
    let found = Class::from(code);
    *class = class_number(found);
    *carried = carried_of(found);
    *error = bus::answer::is_error(code).into();
    0
}

// The code of a class.
#[tactic(auto, unfolding(crate::specs::Class::code_left))]
#[unsafe(no_mangle)]
pub extern "C" fn trainer_code(class: u32, carried: u32, code: &mut u32) -> u32
    ensures { (result ≡ number_of (code_asked (class_from class carried))) × (code.new ≡ code_left (code_asked (class_from class carried)) code.old) }
{
    match code_asked(class_from(class, carried)) {
        Ok(c) => {
            *code = c.into();
            0
        }
        Err(refusal) => refusal.into(),
    }
}

#[tactic(auto, unfolding(crate::specs::Class::code_asked))]
fn code_asked(class: Option<Class>) -> Result<u8, Refusal>
    ensures { result ≡ code_asked class }
{
    class.ok_or(Refusal::FieldRange)?.try_into()
}
