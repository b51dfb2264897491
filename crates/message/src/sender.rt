// The sending board's side: a message in operations, full ones first.
ghost use Rattle.std.specs.Prelude.{◌≡◌, ◌+◌, ◌*◌, ◌<◌, ◌≤◌, length};
ghost use Rattle.order.specs.Refusal.{number_of};
ghost use Rattle.message_rules.specs.Sender.{send_refusal, division_told, division, sequence_of, part_of, operation_at, sequence_found, part_found, part_offset};

use crate::operation::is_source;
use message_rules::{Sequence, Source};
use order::Refusal;

// How many operations the message makes.
#[tactic(auto, unfolding(message_rules::specs::Sender::division, message_rules::specs::Sender::operation_count), using(order::proofs::RefusalLaws::number_pos))]
pub fn divide(message: &[u8], source: Source) -> Result<usize, Refusal>
    ensures { division_told result ≡ division message.now source.sender source.aid }
{
    check(message, source)?;
    Ok(message.len().div_ceil(256))
}

// How many operations the message makes: none if it is refused.
fn count(message: &[u8], source: Source) -> usize
    ensures { result ≡ (division message.now source.sender source.aid).operations }
{
    divide(message, source).unwrap_or(0)
}

// What operation `k` of the message is, counted from 0. Nothing past the last.
#[tactic(auto, unfolding(message_rules::specs::Sender::sequence_found, message_rules::specs::Operation::operation), using(message_rules::proofs::SenderTests::operation_found, message_rules::proofs::SenderTests::operation_none))]
pub fn sequence_at(message: &[u8], source: Source, k: usize) -> Option<Sequence>
    ensures { result ≡ sequence_found (operation_at message.now source.sender source.aid k) }
{
    let operations = count(message, source);
    if k < operations {
        Some(sequence_of(operations, k))
    } else {
        None
    }
}

// The bytes of operation `k` themselves: a part of the message. An empty part at its start past the last.
#[tactic(auto, unfolding(message_rules::specs::Sender::part_found, message_rules::specs::Sender::part_offset, message_rules::specs::Operation::operation), using(message_rules::proofs::SenderTests::operation_found, message_rules::proofs::SenderTests::operation_none, message_rules::proofs::SenderTests::start_within))]
pub fn part_at(message: &[u8], source: Source, k: usize) -> &[u8]
    ensures { (result.now ≡ part_found (operation_at message.now source.sender source.aid k)) × (result.ref_ptr.0 ≡ message.entry.ref_ptr.0) × (result.ref_ptr.1 ≡ message.entry.ref_ptr.1 + part_offset message.now source.sender source.aid k) }
{
    if k < count(message, source) {
        part_of(message, k)
    } else {
        &message[..0]
    }
}

// The first test that fails refuses the message.
#[tactic(auto, using(message_rules::proofs::SenderTests::send_tests))]
fn check(message: &[u8], source: Source) -> Result<(), Refusal>
    ensures { number_of result ≡ send_refusal message.now source.sender source.aid }
{
    if message.is_empty() || !is_source(source) {
        return Err(Refusal::FieldRange);
    }
    if message.len() > 4096 {
        return Err(Refusal::NoRoom);
    }
    Ok(())
}

// The bytes of operation `k` of a message that reaches so far.
#[tactic(auto, using(message_rules::proofs::SenderTests::part_front))]
fn part_of(message: &[u8], k: usize) -> &[u8]
    requires { 256 * k ≤ length message.now }
    ensures { (result.now ≡ part_of message.now k) × (result.ref_ptr.0 ≡ message.entry.ref_ptr.0) × (result.ref_ptr.1 ≡ message.entry.ref_ptr.1 + 256 * k) }
{
    let rest = &message[256 * k..];
    &rest[..rest.len().min(256)]
}

#[tactic(auto, unfolding(message_rules::specs::Sender::sequence_of))]
fn sequence_of(operations: usize, k: usize) -> Sequence
    requires { k < operations }
    ensures { result ≡ sequence_of operations k }
{
    if operations == 1 {
        Sequence::Single
    } else if k == 0 {
        Sequence::First
    } else if k + 1 == operations {
        Sequence::Last
    } else {
        Sequence::Middle
    }
}
