// The receiving board's side: one operation at a time.
ghost use Rattle.std.specs.Prelude.{◌≡◌};
ghost use Rattle.order.specs.Refusal.{number_of};
ghost use Rattle.message.specs.Given.{given};
ghost use Rattle.message_rules.specs.Receiver.{state_allowed, in_range, in_turn, is_expected, start_of, receive_refusal, receipt_told, receipt, store_after};

use crate::operation::{Operation, is_end, is_source, is_start};
use message_rules::{Accepted, Received, Receiver, Sequence, Source};
use order::Refusal;
use text::space::put_word;

// One operation. Its bytes go into the store behind those of the same message. A refused one leaves receiver and store as they were.
#[tactic(auto, using(crate::proofs::ReceiveLaws::answers))]
pub fn receive(
    receiver: Receiver,
    store: &mut [u8],
    operation: Operation<'_>,
) -> Result<Accepted, Refusal>
    ensures answer { receipt_told receiver result ≡ receipt receiver store.old (given operation.entry) }
    ensures store { store.new ≡ store_after receiver store.old (given operation.entry) }
{
    check(receiver, store, operation)?;
    let Operation {
        sequence,
        source,
        bytes,
    } = operation;
    let start = start_of(receiver);
    let count = start + put_word(store, start, bytes);
    let message = Some(Received { source, count });
    let (receiver, completion) = if is_end(sequence) {
        (None, message)
    } else {
        (message, None)
    };
    Ok(Accepted {
        receiver,
        completion,
    })
}

// The first test that fails refuses the operation.
#[tactic(auto, unfolding(message_rules::specs::Operation::operation), using(message_rules::proofs::ReceiverTests::receive_tests, message_rules::proofs::ReceiverTests::start_small, message_rules::proofs::ReceiverTests::size_small))]
fn check(receiver: Receiver, store: &[u8], operation: Operation<'_>) -> Result<(), Refusal>
    ensures { number_of result ≡ receive_refusal receiver store.now (given operation.entry) }
{
    let Operation {
        sequence,
        source,
        bytes,
    } = operation;
    if store.len() != 4096 {
        return Err(Refusal::WrongSize);
    }
    if !is_allowed(receiver) {
        return Err(Refusal::BadState);
    }
    if !is_in_range(source, bytes.len()) {
        return Err(Refusal::FieldRange);
    }
    if !is_in_turn(receiver, sequence) {
        return Err(Refusal::OutOfTurn);
    }
    if !is_expected(receiver, source) {
        return Err(Refusal::OtherSource);
    }
    if start_of(receiver) + bytes.len() > 4096 {
        return Err(Refusal::NoRoom);
    }
    Ok(())
}

#[tactic(auto, unfolding(message_rules::specs::Receiver::state_allowed))]
fn is_allowed(receiver: Receiver) -> bool
    ensures { result ≡ state_allowed receiver }
{
    receiver.is_none_or(|message| is_source(message.source) && (1..=4096).contains(&message.count))
}

#[tactic(auto, unfolding(message_rules::specs::Receiver::in_range))]
fn is_in_range(source: Source, size: usize) -> bool
    ensures { result ≡ in_range source.sender source.aid size }
{
    is_source(source) && (1..=256).contains(&size)
}

#[tactic(auto, unfolding(message_rules::specs::Receiver::in_turn))]
fn is_in_turn(receiver: Receiver, sequence: Sequence) -> bool
    ensures { result ≡ in_turn receiver sequence }
{
    is_start(sequence) == receiver.is_none()
}

#[tactic(auto, unfolding(message_rules::specs::Receiver::is_expected))]
fn is_expected(receiver: Receiver, source: Source) -> bool
    ensures { result ≡ is_expected receiver source.sender source.aid }
{
    receiver.is_none_or(|message| source == message.source)
}

#[tactic(auto, unfolding(message_rules::specs::Receiver::start_of))]
fn start_of(receiver: Receiver) -> usize
    ensures { result ≡ start_of receiver }
{
    receiver.map_or(0, |message| message.count)
}
