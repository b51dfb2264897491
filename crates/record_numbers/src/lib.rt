// A tape's record from seven numbers, as a program in another language gives them: its kind, its fields, and any numbers behind them.
#![tactic(auto)]

ghost use Rattle.std.specs.Prelude.{◌≡◌, Ok, Err, cond, leb, eqb};
ghost use Rattle.order.specs.declared.Refusal.TheVariants.{FieldRange};
ghost use Rattle.record_numbers.specs.Entry.{store_from, order_from, answer_from, register_from, loaded_from, record_from};

use crossing::capped;
use order::{Command, Order, Refusal};
use tape_format::Record;

// The C functions test a flag of theirs by themselves, each in its place among their tests.
fn flag_from(number: u64) -> Result<bool, Refusal>
    ensures { result ≡ cond (leb number 1) (Ok (eqb number 1)) (Err FieldRange) }
{
    match number {
        0 => Ok(false),
        1 => Ok(true),
        _ => Err(Refusal::FieldRange),
    }
}

// `map_err` with each number: the contract of one function for both types would have to speak of `try_from_gives`, and be longer than what it saves.
#[tactic(auto, unfolding(crate::specs::Entry::store_from))]
fn store_from(unit: u64, address: u64, value: u64) -> Result<Record, Refusal>
    ensures { result ≡ store_from unit address value }
{
    let value = u32::try_from(value).map_err(|_| Refusal::FieldRange)?;
    Ok(Record::Store(capped(unit), capped(address), value))
}

#[tactic(auto, unfolding(crate::specs::Entry::order_from, crate::specs::Entry::order_with))]
fn order_from(unit: u64, command: u64, block: u64, retried: u64) -> Result<Record, Refusal>
    ensures { result ≡ order_from unit command block retried }
{
    Ok(Record::Order(Order {
        unit: capped(unit),
        command: Command::try_from(command)?,
        block: capped(block),
        retried: flag_from(retried)?,
    }))
}

#[tactic(auto, unfolding(crate::specs::Entry::answer_from))]
fn answer_from(from: u64, to: u64, aid: u64, code: u64) -> Result<Record, Refusal>
    ensures { result ≡ answer_from from to aid code }
{
    Ok(Record::Answer {
        from: capped(from),
        to: capped(to),
        aid: u8::try_from(aid).map_err(|_| Refusal::FieldRange)?,
        code: u8::try_from(code).map_err(|_| Refusal::FieldRange)?,
    })
}

#[tactic(auto, unfolding(crate::specs::Entry::register_from))]
fn register_from(
    from: u64,
    to: u64,
    aid: u64,
    write: u64,
    ra: u64,
    bct: u64,
) -> Result<Record, Refusal>
    ensures { result ≡ register_from from to aid write ra bct }
{
    Ok(Record::Register {
        from: capped(from),
        to: capped(to),
        aid: u8::try_from(aid).map_err(|_| Refusal::FieldRange)?,
        write: flag_from(write)?,
        ra: u32::try_from(ra).map_err(|_| Refusal::FieldRange)?,
        bct: capped(bct),
    })
}

#[tactic(auto, unfolding(crate::specs::Entry::loaded_from))]
fn loaded_from(unit: u64, value: u64) -> Result<Record, Refusal>
    ensures { result ≡ loaded_from unit value }
{
    let value = u32::try_from(value).map_err(|_| Refusal::FieldRange)?;
    Ok(Record::Loaded(capped(unit), value))
}

#[tactic(auto, unfolding(crate::specs::Entry::record_from, crate::specs::Entry::kind_from))]
pub fn record_from(numbers: &[u64]) -> Result<Record, Refusal>
    ensures { result ≡ record_from numbers.now }
{
    if numbers.len() != 7 {
        return Err(Refusal::FieldRange);
    }
    // By the kind's number, as the papers' table has it: an enum between would be matched again at once.
    match *numbers {
        [0, unit, address, ..] => Ok(Record::Load(capped(unit), capped(address))),
        [1, unit, address, value, ..] => store_from(unit, address, value),
        [2, unit, block, ..] => Ok(Record::Flush(capped(unit), capped(block))),
        [3, unit, command, block, retried, ..] => order_from(unit, command, block, retried),
        [4, from, to, aid, code, ..] => answer_from(from, to, aid, code),
        [5, from, to, aid, write, ra, bct] => register_from(from, to, aid, write, ra, bct),
        [6, unit, value, ..] => loaded_from(unit, value),
        [8, cycles, ..] => Ok(Record::Stamp(cycles)),
        _ => Err(Refusal::UnknownKind),
    }
}
