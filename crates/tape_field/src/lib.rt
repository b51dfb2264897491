// The fields of a record: which numbers each may hold (document 01, "The tape"; document 02, T-04).
#![tactic(auto)]

ghost use Rattle.std.specs.Prelude.{◌≡◌, ◌≤◌, IfOk};
ghost use Rattle.tape_format.specs.Field.{retried_most, allowed, most_of, field_at};

use number::{Refused, read_number};
use order::{Command, Refusal};
use tape_format::Rule;

// Only a read, a modified read and a memory write can be retried.
#[tactic(auto, unfolding(tape_format::specs::Field::retried_most))]
fn retried_most(command: Command) -> u64
    ensures { result ≡ retried_most command }
{
    u64::from(matches!(
        command,
        Command::Read | Command::ModifiedRead | Command::MemoryWrite
    ))
}

#[tactic(auto, unfolding(tape_format::specs::Field::allowed))]
pub fn allows(rule: Rule, n: u64) -> bool
    ensures { result ≡ allowed rule n }
{
    match rule {
        Rule::Unit => n <= 3,
        Rule::Address => n <= 2044 && n % 4 == 0,
        Rule::Word => n <= 4294967295,
        Rule::Block => n <= 63,
        Rule::Retried(command) => n <= retried_most(command),
        Rule::From => n <= 7,
        Rule::To(from) => n <= 7 && n != from,
        Rule::Byte => n <= 255,
        Rule::Flag => n <= 1,
        Rule::Bct => n <= 7,
        Rule::Cycles => n <= 18446744073709551615,
    }
}

// The number that starts at `at`, if the rule allows it, with the place after it.
#[tactic(auto, unfolding(tape_format::specs::Field::field_at, tape_format::specs::Field::ruled), using(tape_format::proofs::FieldLaws::allowed_most))]
pub fn field(tape: &[u8], at: usize, rule: Rule) -> Result<(u64, usize), Refused>
    ensures answer { result ≡ field_at rule tape.now at }
    ensures most { IfOk result (λ p. p.0 ≤ most_of rule) }
{
    let (value, next) = read_number(tape, at)?;
    if !allows(rule, value) {
        return Err(Refused {
            refusal: Refusal::FieldRange,
            place: at,
        });
    }
    Ok((value, next))
}
