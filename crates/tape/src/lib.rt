// Reading a record, one function for each kind (document 01, "The tape"; document 02, T-04). Each takes the fields in the table's order, a line for a field; the
// first number that is refused ends it. The place goes from line to line as a number: a cursor with a method would hold the same two and say no more.
#![tactic(auto, unfolding(tape_format::specs::Record::load, tape_format::specs::Record::store, tape_format::specs::Record::flush, tape_format::specs::Record::order, tape_format::specs::Record::answer, tape_format::specs::Record::register, tape_format::specs::Record::loaded, tape_format::specs::Record::stamp, tape_format::specs::Record::fields_at, tape_format::specs::Record::and_then, tape_format::specs::Record::and_command))]

ghost use Rattle.std.specs.Prelude.{◌≡◌};
ghost use Rattle.tape_format.specs.Record.{fields_at, load, store, flush, answer, register, loaded, stamp, kind_at, record_at};

pub use number::Refused;
use number::read_number;
use order::{Command, Order, Refusal};
use tape_field::field;
use tape_format::{Record, Rule};

// Kind 0: unit, address.
fn read_load(tape: &[u8], at: usize) -> Result<Option<(Record, usize)>, Refused>
    ensures { result ≡ fields_at load tape.now at }
{
    let (unit, at) = field(tape, at, Rule::Unit)?;
    let (address, at) = field(tape, at, Rule::Address)?;
    Ok(Some((Record::Load(unit as u8, address as u32), at)))
}

// Kind 1: unit, address, value.
fn read_store(tape: &[u8], at: usize) -> Result<Option<(Record, usize)>, Refused>
    ensures { result ≡ fields_at store tape.now at }
{
    let (unit, at) = field(tape, at, Rule::Unit)?;
    let (address, at) = field(tape, at, Rule::Address)?;
    let (value, at) = field(tape, at, Rule::Word)?;
    Ok(Some((Record::Store(unit as u8, address as u32, value as u32), at)))
}

// Kind 2: unit, block.
fn read_flush(tape: &[u8], at: usize) -> Result<Option<(Record, usize)>, Refused>
    ensures { result ≡ fields_at flush tape.now at }
{
    let (unit, at) = field(tape, at, Rule::Unit)?;
    let (block, at) = field(tape, at, Rule::Block)?;
    Ok(Some((Record::Flush(unit as u8, block as u8), at)))
}

// Kind 3: unit, command, block, retried.
fn read_order(tape: &[u8], at: usize) -> Result<Option<(Record, usize)>, Refused>
    ensures { result ≡ fields_at Rattle.tape_format.specs.Record.order tape.now at }
{
    let (unit, command_at) = field(tape, at, Rule::Unit)?;
    let (number, block_at) = read_number(tape, command_at)?;
    let command = Command::try_from(number).map_err(|refusal| Refused {
        refusal,
        place: command_at,
    })?;
    let (block, at) = field(tape, block_at, Rule::Block)?;
    let (retried, at) = field(tape, at, Rule::Retried(command))?;
    let order = Order {
        unit: unit as u8,
        command,
        block: block as u8,
        retried: retried == 1,
    };
    Ok(Some((Record::Order(order), at)))
}

// Kind 4: from, to, AID, code.
fn read_answer(tape: &[u8], at: usize) -> Result<Option<(Record, usize)>, Refused>
    ensures { result ≡ fields_at answer tape.now at }
{
    let (from, at) = field(tape, at, Rule::From)?;
    let (to, at) = field(tape, at, Rule::To(from))?;
    let (aid, at) = field(tape, at, Rule::Byte)?;
    let (code, at) = field(tape, at, Rule::Byte)?;
    let answer = Record::Answer {
        from: from as u8,
        to: to as u8,
        aid: aid as u8,
        code: code as u8,
    };
    Ok(Some((answer, at)))
}

// Kind 5: from, to, AID, write, RA, BCT.
fn read_register(tape: &[u8], at: usize) -> Result<Option<(Record, usize)>, Refused>
    ensures { result ≡ fields_at register tape.now at }
{
    let (from, at) = field(tape, at, Rule::From)?;
    let (to, at) = field(tape, at, Rule::To(from))?;
    let (aid, at) = field(tape, at, Rule::Byte)?;
    let (write, at) = field(tape, at, Rule::Flag)?;
    let (ra, at) = field(tape, at, Rule::Word)?;
    let (bct, at) = field(tape, at, Rule::Bct)?;
    let register = Record::Register {
        from: from as u8,
        to: to as u8,
        aid: aid as u8,
        write: write == 1,
        ra: ra as u32,
        bct: bct as u8,
    };
    Ok(Some((register, at)))
}

// Kind 6: unit, value.
fn read_loaded(tape: &[u8], at: usize) -> Result<Option<(Record, usize)>, Refused>
    ensures { result ≡ fields_at loaded tape.now at }
{
    let (unit, at) = field(tape, at, Rule::Unit)?;
    let (value, at) = field(tape, at, Rule::Word)?;
    Ok(Some((Record::Loaded(unit as u8, value as u32), at)))
}

// Kind 8: cycles.
fn read_stamp(tape: &[u8], at: usize) -> Result<Option<(Record, usize)>, Refused>
    ensures { result ≡ fields_at stamp tape.now at }
{
    let (cycles, at) = field(tape, at, Rule::Cycles)?;
    Ok(Some((Record::Stamp(cycles), at)))
}

// The record of a kind that stands at `start`, with its fields at `at`. By the kind's number, as the papers' table has it: an enum between would be matched
// again at once.
#[tactic(auto, unfolding(tape_format::specs::Record::kind_at, tape_format::specs::Record::layout_of))]
fn read_kind(
    tape: &[u8],
    start: usize,
    kind: u64,
    at: usize,
) -> Result<Option<(Record, usize)>, Refused>
    ensures { result ≡ kind_at tape.now start kind at }
{
    match kind {
        0 => read_load(tape, at),
        1 => read_store(tape, at),
        2 => read_flush(tape, at),
        3 => read_order(tape, at),
        4 => read_answer(tape, at),
        5 => read_register(tape, at),
        6 => read_loaded(tape, at),
        8 => read_stamp(tape, at),
        _ => Err(Refused {
            refusal: Refusal::UnknownKind,
            place: start,
        }),
    }
}

// The record that starts at `at`, with the place after it; none at the tape's end.
#[tactic(auto, unfolding(tape_format::specs::Record::record_at, tape_format::specs::Record::and_then))]
pub fn read_record(tape: &[u8], at: usize) -> Result<Option<(Record, usize)>, Refused>
    ensures { result ≡ record_at tape.now at }
{
    if at == tape.len() {
        return Ok(None);
    }
    let (kind, first) = read_number(tape, at)?;
    read_kind(tape, at, kind, first)
}
