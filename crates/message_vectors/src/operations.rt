// Single operations to a receiver in any state: what it accepts, each refusal, and the order of the refusals.
use crate::print::{Bytes, Completion, Name, State};
use crate::store::{OTHER, fill, show_changed};
use message::Operation;
use message_rules::{Received, Receiver, Sequence, Source};
use std::io;

// Bytes of a message: the sender, the AID, and how many.
type Of = (u8, u16, usize);

type Row = (Option<Of>, usize, Sequence, Of);

// A row for each operation: what the receiver has of a message, None where it is idle; the store's size; and the operation, its sequence and its bytes.
const OPERATIONS: [Row; 58] = [
    // "First and Single start only from idle, at byte 0"; "Each operation carries 1 to 256 bytes"; "a sender above 7, an AID above 255"
    (None, 4096, Sequence::Single, (7, 255, 256)),
    (None, 4096, Sequence::Single, (0, 0, 1)),
    (None, 4096, Sequence::First, (7, 255, 256)),
    (None, 4096, Sequence::First, (0, 0, 1)),
    // "Middle and Last need pending and go on at its count"; "a count outside 1 to 4,096"; "a whole message is at most 4,096"
    (Some((0, 0, 1)), 4096, Sequence::Middle, (0, 0, 1)),
    (Some((0, 0, 1)), 4096, Sequence::Last, (0, 0, 256)),
    (Some((7, 255, 3840)), 4096, Sequence::Middle, (7, 255, 256)),
    (Some((7, 255, 3840)), 4096, Sequence::Last, (7, 255, 256)),
    (Some((7, 255, 4095)), 4096, Sequence::Middle, (7, 255, 1)),
    (Some((7, 255, 4095)), 4096, Sequence::Last, (7, 255, 1)),
    // 1 alone: "kept in a lent store of that size"
    (None, 4095, Sequence::Single, (7, 255, 1)),
    (Some((7, 255, 1)), 4097, Sequence::Last, (7, 255, 1)),
    // 10 alone, which only a count of 0 is: to a pending sender above 7 or AID above 255 an operation with the same is 8 too, and one with
    // another 11; a count above 4,096 is 9 too; and First and Single are 12.
    (Some((7, 255, 0)), 4096, Sequence::Middle, (7, 255, 1)),
    // 8 alone: "length, or an operation's sender above 7 or AID above 255"
    (None, 4096, Sequence::Single, (7, 255, 0)),
    (None, 4096, Sequence::First, (7, 255, 257)),
    (None, 4096, Sequence::Single, (8, 255, 1)),
    (None, 4096, Sequence::First, (7, 256, 1)),
    (Some((7, 255, 1)), 4096, Sequence::Middle, (7, 255, 0)),
    (Some((7, 255, 1)), 4096, Sequence::Last, (7, 255, 257)),
    // 12 alone: "out of turn"
    (Some((7, 255, 1)), 4096, Sequence::First, (7, 255, 1)),
    (Some((7, 255, 1)), 4096, Sequence::Single, (7, 255, 1)),
    (None, 4096, Sequence::Middle, (7, 255, 1)),
    (None, 4096, Sequence::Last, (7, 255, 1)),
    // 11 alone: "other sender or AID"
    (Some((7, 255, 1)), 4096, Sequence::Middle, (6, 255, 1)),
    (Some((7, 255, 1)), 4096, Sequence::Last, (7, 254, 1)),
    // 9 alone: "over 4,096"
    (Some((7, 255, 4096)), 4096, Sequence::Middle, (7, 255, 1)),
    (Some((7, 255, 3841)), 4096, Sequence::Last, (7, 255, 256)),
    // 1 before 10, 8, 12, 11 and 9
    (Some((7, 255, 0)), 4095, Sequence::Middle, (7, 255, 1)),
    (None, 4097, Sequence::Single, (7, 255, 257)),
    (Some((7, 255, 1)), 4095, Sequence::First, (7, 255, 1)),
    (Some((7, 255, 1)), 4095, Sequence::Middle, (6, 255, 1)),
    (Some((7, 255, 4096)), 4097, Sequence::Last, (7, 255, 1)),
    // 10 before 8: a sender above 7, an AID above 255, and a count of 0 with an empty operation
    (Some((8, 255, 1)), 4096, Sequence::Middle, (8, 255, 1)),
    (Some((7, 256, 1)), 4096, Sequence::Last, (7, 256, 1)),
    (Some((7, 255, 0)), 4096, Sequence::Middle, (7, 255, 0)),
    // 10 before 12
    (Some((7, 255, 0)), 4096, Sequence::First, (7, 255, 1)),
    // 10 before 11: a sender above 7, an AID above 255, and a count of 0
    (Some((8, 255, 1)), 4096, Sequence::Middle, (7, 255, 1)),
    (Some((7, 256, 1)), 4096, Sequence::Last, (7, 255, 1)),
    (Some((7, 255, 0)), 4096, Sequence::Middle, (6, 255, 1)),
    // 10 before 9
    (Some((7, 255, 4097)), 4096, Sequence::Middle, (7, 255, 1)),
    // 8 before 12
    (None, 4096, Sequence::Middle, (7, 255, 0)),
    (Some((7, 255, 1)), 4096, Sequence::Single, (7, 255, 257)),
    // 8 before 11: a sender above 7 and an AID above 255 are always other ones
    (Some((7, 255, 1)), 4096, Sequence::Middle, (8, 255, 1)),
    (Some((7, 255, 1)), 4096, Sequence::Last, (7, 256, 1)),
    (Some((7, 255, 1)), 4096, Sequence::Middle, (6, 255, 0)),
    // 8 before 9
    (Some((7, 255, 3840)), 4096, Sequence::Middle, (7, 255, 257)),
    // 12 before 11 and 9. First and Single have nothing to match and start at byte 0: only 12 speaks of them, whatever is pending.
    (Some((7, 255, 1)), 4096, Sequence::First, (6, 255, 1)),
    (Some((7, 255, 1)), 4096, Sequence::Single, (7, 254, 1)),
    (Some((7, 255, 4096)), 4096, Sequence::First, (7, 255, 1)),
    (Some((7, 255, 3841)), 4096, Sequence::Single, (7, 255, 256)),
    // 11 before 9
    (Some((7, 255, 3841)), 4096, Sequence::Last, (7, 254, 256)),
    // all six at once; then without the first of them, and so on
    (Some((8, 255, 4097)), 4095, Sequence::First, (7, 255, 257)),
    (Some((8, 255, 4097)), 4096, Sequence::First, (7, 255, 257)),
    (Some((6, 255, 4096)), 4096, Sequence::First, (7, 255, 257)),
    (Some((6, 255, 4096)), 4096, Sequence::First, (7, 255, 256)),
    (Some((6, 255, 4096)), 4096, Sequence::Middle, (7, 255, 256)),
    (Some((7, 255, 4096)), 4096, Sequence::Middle, (7, 255, 256)),
    (Some((7, 255, 3840)), 4096, Sequence::Middle, (7, 255, 256)),
];

// One operation: what it is, then the answer. Gives back the receiver for the next.
pub(crate) fn operation(
    to: &impl Print,
    receiver: Receiver,
    store: &mut [u8],
    operation: Operation<'_>,
) -> io::Result<Receiver> {
    let given = Bytes(Received {
        source: operation.source,
        count: operation.bytes.len(),
    });
    print!(to; "{} {given}: refusal ", Name(operation.sequence))?;
    let (refusal, next, completion) = match message::receive(receiver, store, operation) {
        Ok(accepted) => (0, accepted.receiver, accepted.completion),
        Err(refusal) => (u32::from(refusal), receiver, None),
    };
    print!(to; "{refusal} {} {}", State(next), Completion(completion))?;
    Ok(next)
}

fn row(to: &impl Print, row: Row) -> io::Result<()> {
    let (pending, size, sequence, (sender, aid, length)) = row;
    let receiver = pending.map(|(sender, aid, count)| Received {
        source: Source { sender, aid },
        count,
    });
    let mut bytes = [0u8; 257];
    fill(&mut bytes);
    let given = Operation {
        sequence,
        source: Source { sender, aid },
        bytes: &bytes[..length.min(257)],
    };
    let mut store = [OTHER; 4097];
    let store = &mut store[..size.min(4097)];
    print!(to; "receiver {} store {size} ", State(receiver))?;
    operation(to, receiver, store, given)?;
    show_changed(to, store)?;
    println!(to)
}

pub(crate) fn run_operations(to: &impl Print) -> io::Result<()> {
    for values in OPERATIONS {
        row(to, values)?;
    }
    Ok(())
}
