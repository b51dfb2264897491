// Parity, lanes, signals and answer codes for programs in other languages.
ghost use Rattle.std.specs.Prelude.{◌≡◌};
ghost use Rattle.order.specs.Flag.{flag};
ghost use Rattle.order.specs.Refusal.{number_of};
ghost use Rattle.bus.specs.Parity.{parity_of, check_of};
ghost use Rattle.bus.specs.Lanes.{lanes_of};
ghost use Rattle.bus.specs.Answer.{class_of, is_error};
ghost use Rattle.capi_bus.specs.Bus.{left, left_of, most, plan_from};
ghost use Rattle.capi_bus.specs.Class.{class_number, carried_of, class_from, code_asked, code_left};

// The eight parity bits of a word.
#[unsafe(no_mangle)]
pub extern "C" fn trainer_parity(word: u64) -> u32
    ensures { result ≡ parity_of word }
{
    capi_bus::trainer_parity(word)
}

// The bytes of a word that are wrong beside a set of parity bits.
#[unsafe(no_mangle)]
pub extern "C" fn trainer_check(word: u64, set: u32, wrong: &mut u32, count: &mut u32) -> u32
    ensures { (result ≡ most 255 set) × (wrong.new ≡ left (most 255 set) (check_of word set).wrong wrong.old) × (count.new ≡ left (most 255 set) (check_of word set).count count.old) }
{
    capi_bus::trainer_check(word, set, wrong, count)
}

// The words and positions of a register access.
#[unsafe(no_mangle)]
pub extern "C" fn trainer_lanes(ra: u32, bct: u32, words: &mut u32, positions: &mut u32) -> u32
    ensures { (result ≡ number_of (lanes_of ra bct)) × (words.new ≡ left_of (lanes_of ra bct) (λ l. l.words) words.old) × (positions.new ≡ left_of (lanes_of ra bct) (λ l. l.positions) positions.old) }
{
    capi_bus::trainer_lanes(ra, bct, words, positions)
}

// The levels in one cycle of a transfer, and that of ET at the request.
#[unsafe(no_mangle)]
pub extern "C" fn trainer_plan(
    cycles: u32,
    cycle: u32,
    locked: u32,
    bs: &mut u32,
    bur: &mut u32,
    et: &mut u32,
    et_at_request: &mut u32,
) -> u32
    ensures { (result ≡ number_of (plan_from cycles cycle locked)) × (bs.new ≡ left_of (plan_from cycles cycle locked) (λ p. flag p.bs) bs.old) × (bur.new ≡ left_of (plan_from cycles cycle locked) (λ p. flag p.bur) bur.old) × (et.new ≡ left_of (plan_from cycles cycle locked) (λ p. flag p.et) et.old) × (et_at_request.new ≡ left_of (plan_from cycles cycle locked) (λ p. flag p.et_at_request) et_at_request.old) }
{
    capi_bus::trainer_plan(cycles, cycle, locked, bs, bur, et, et_at_request)
}

// The class of an answer code, and whether the asker reports a bus error.
#[unsafe(no_mangle)]
pub extern "C" fn trainer_class(
    code: u32,
    class: &mut u32,
    carried: &mut u32,
    error: &mut u32,
) -> u32
    ensures { (result ≡ most 255 code) × (class.new ≡ left (most 255 code) (class_number (class_of code)) class.old) × (carried.new ≡ left (most 255 code) (carried_of (class_of code)) carried.old) × (error.new ≡ left (most 255 code) (flag (is_error code)) error.old) }
{
    capi_bus::trainer_class(code, class, carried, error)
}

// The code of a class.
#[unsafe(no_mangle)]
pub extern "C" fn trainer_code(class: u32, carried: u32, code: &mut u32) -> u32
    ensures { (result ≡ number_of (code_asked (class_from class carried))) × (code.new ≡ code_left (code_asked (class_from class carried)) code.old) }
{
    capi_bus::trainer_code(class, carried, code)
}
