// Writing records, and how many bytes one takes (document 01, "The tape"; document 02, T-04 and T-06).
#![tactic(auto)]

ghost use Rattle.std.specs.Prelude.{◌≡◌, ◌∷◌, ◌≤◌, length, take};
ghost use Rattle.tape_format.specs.Record.{kind_of, fields_of};
ghost use Rattle.tape_writer.specs.Numbers.{padded};
ghost use Rattle.tape_format.specs.Write.{valid, written_of, space_after};
ghost use Rattle.tape_format.specs.Size.{size_told};

use number_writer::{numbers_size, write_numbers};
use order::{Order, Refusal};
use tape_field::allows;
use tape_format::{Record, Rule};

// The numbers that a record is spelled as: the first `count` of `values`, and 0 behind them. With no heap there is no list of their own length, and the C function
// `trainer_read_record` puts all seven.
#[derive(Clone, Copy)]
pub struct Numbers {
    pub count: usize,
    pub values: [u64; 7],
}

impl Numbers {
    #[tactic(auto, using(crate::proofs::NumbersLaws::padded_part))]
    fn new<const N: usize>(numbers: [u64; N]) -> Numbers
        requires { N ≤ 7 }
        ensures { (result.count ≡ N) × (result.values ≡ padded numbers.entry) }
    {
        let mut values = [0; 7];
        values[..N].copy_from_slice(&numbers);
        Numbers { count: N, values }
    }

    fn as_slice(&self) -> &[u64]
        requires { self.now.count ≤ 7 }
        ensures { result.now ≡ take self.now.count self.now.values }
    {
        &self.values[..self.count]
    }
}

// The numbers of a record: its kind and its fields.
#[tactic(auto, unfolding(tape_format::specs::Record::kind_of, tape_format::specs::Record::fields_of), using(order::proofs::FlagLaws::flag_from_bool))]
pub fn numbers_of(item: Record) -> Numbers
    ensures { (result.count ≡ length (kind_of item ∷ fields_of item)) × (result.values ≡ padded (kind_of item ∷ fields_of item)) }
{
    match item {
        Record::Load(unit, address) => Numbers::new([0, unit.into(), address.into()]),
        Record::Store(unit, address, value) => {
            Numbers::new([1, unit.into(), address.into(), value.into()])
        }
        Record::Flush(unit, block) => Numbers::new([2, unit.into(), block.into()]),
        Record::Order(
            Order {
                unit,
                command,
                block,
                retried,
            },
        ) => Numbers::new([
            3,
            unit.into(),
            u8::from(command).into(),
            block.into(),
            retried.into(),
        ]),
        Record::Answer {
            from,
            to,
            aid,
            code,
        } => Numbers::new([4, from.into(), to.into(), aid.into(), code.into()]),
        Record::Register {
            from,
            to,
            aid,
            write,
            ra,
            bct,
        } => Numbers::new([
            5,
            from.into(),
            to.into(),
            aid.into(),
            write.into(),
            ra.into(),
            bct.into(),
        ]),
        Record::Loaded(unit, value) => Numbers::new([6, unit.into(), value.into()]),
        Record::Stamp(cycles) => Numbers::new([8, cycles]),
    }
}

// Every field is in its range. Those that a byte or 32 bits hold whole need no test; the test of a stamp is always passed, and gives the proof its range.
#[tactic(auto, unfolding(tape_format::specs::Write::valid, tape_format::specs::Record::layout_of, tape_format::specs::Record::kind_of, tape_format::specs::Record::fields_of, tape_format::specs::Record::fits, tape_format::specs::Record::fits_command, tape_format::specs::Record::load, tape_format::specs::Record::store, tape_format::specs::Record::flush, tape_format::specs::Record::order, tape_format::specs::Record::answer, tape_format::specs::Record::register, tape_format::specs::Record::loaded, tape_format::specs::Record::stamp, tape_format::specs::Field::allowed), using(order::proofs::FlagLaws::flag_from_bool, order::proofs::CommandLaws::command_of_number, tape_format::proofs::WriteLaws::valid_register))]
fn valid(item: Record) -> bool
    ensures { result ≡ valid item }
{
    match item {
        Record::Load(unit, address) | Record::Store(unit, address, _) => {
            allows(Rule::Unit, unit.into()) && allows(Rule::Address, address.into())
        }
        Record::Flush(unit, block) => {
            allows(Rule::Unit, unit.into()) && allows(Rule::Block, block.into())
        }
        Record::Order(
            Order {
                unit,
                command,
                block,
                retried,
            },
        ) => {
            allows(Rule::Unit, unit.into())
                && allows(Rule::Block, block.into())
                && allows(Rule::Retried(command), retried.into())
        }
        Record::Answer { from, to, .. } => {
            allows(Rule::From, from.into()) && allows(Rule::To(from.into()), to.into())
        }
        Record::Register { from, to, bct, .. } => {
            allows(Rule::From, from.into())
                && allows(Rule::To(from.into()), to.into())
                && allows(Rule::Bct, bct.into())
        }
        Record::Loaded(unit, _) => allows(Rule::Unit, unit.into()),
        Record::Stamp(cycles) => allows(Rule::Cycles, cycles),
    }
}

// How many bytes a record takes: the least space that `write_record` accepts.
#[tactic(auto, unfolding(tape_format::specs::Size::size_told, tape_format::specs::Size::record_size), using(crate::proofs::NumbersLaws::few))]
pub fn record_size(item: Record) -> Result<usize, Refusal>
    ensures { result ≡ size_told item }
{
    if valid(item) {
        Ok(numbers_size(numbers_of(item).as_slice()))
    } else {
        Err(Refusal::FieldRange)
    }
}

// Writes a record at the start of `out`.
#[tactic(auto, unfolding(tape_format::specs::Write::written_of, tape_format::specs::Write::space_after, tape_format::specs::Write::bytes_of), using(crate::proofs::NumbersLaws::few))]
pub fn write_record(item: Record, out: &mut [u8]) -> Result<usize, Refusal>
    ensures { (result ≡ written_of item (length out.old)) × (out.new ≡ space_after item out.old) }
{
    if !valid(item) {
        return Err(Refusal::FieldRange);
    }
    let size = write_numbers(numbers_of(item).as_slice(), out);
    if out.len() < size {
        return Err(Refusal::NoRoom);
    }
    Ok(size)
}
