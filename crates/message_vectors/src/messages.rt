// Whole messages, cut by the sender and given to one receiver.
use crate::operations::operation;
use crate::print::{Bytes, Name};
use crate::store::{OTHER, fill, missing, show_changed};
use message::Operation;
use message_rules::{Received, Receiver, Source};
use std::io;

// A row for each message: the sender, the AID, and how many bytes.
const MESSAGES: [(u8, u16, usize); 16] = [
    // "cuts a message above 256 bytes into First, Middle and Last operations; any other is Single"; "full operations first"
    (0, 0, 1),
    (7, 255, 256),
    (7, 255, 257),
    (3, 200, 512),
    (3, 200, 513),
    (7, 255, 4096),
    // "refuses an empty message, or a sender or AID out of range, with 8"
    (7, 255, 0),
    (8, 255, 1),
    (7, 256, 1),
    (8, 256, 257),
    // "then one over 4,096 bytes with 9"
    (7, 255, 4097),
    // both parts of 8; 8 before 9. No message is both empty and over 4,096 bytes.
    (8, 255, 0),
    (7, 256, 0),
    (8, 255, 4097),
    (7, 256, 4097),
    (255, 65535, 4097),
];

// Operation `k` of the message. Gives back the receiver for the next.
fn give(
    to: &impl Print,
    receiver: Receiver,
    store: &mut [u8],
    whole: &[u8],
    source: Source,
    k: usize,
) -> io::Result<Receiver> {
    let Some(sequence) = message::sequence_at(whole, source, k) else {
        return Ok(receiver);
    };
    print!(to; "operation {k} ")?;
    let part = Operation {
        sequence,
        source,
        bytes: message::part_at(whole, source, k),
    };
    let next = operation(to, receiver, store, part)?;
    println!(to)?;
    Ok(next)
}

// What is found at an index past the last operation, and how many bytes.
fn past(to: &impl Print, whole: &[u8], source: Source, k: usize) -> io::Result<()> {
    print!(to; " past {k} ")?;
    match message::sequence_at(whole, source, k) {
        Some(sequence) => print!(to; "{}", Name(sequence))?,
        None => print!(to; "nothing")?,
    }
    print!(to; " {}", message::part_at(whole, source, k).len())
}

fn send(to: &impl Print, whole: &[u8], source: Source) -> io::Result<()> {
    let (refusal, operations) = match message::divide(whole, source) {
        Ok(operations) => (0, operations),
        Err(refusal) => (u32::from(refusal), 0),
    };
    let message = Bytes(Received {
        source,
        count: whole.len(),
    });
    println!(to; "message {message}: refusal {refusal} operations {operations}")?;
    let mut store = [OTHER; 4096];
    let mut receiver = None;
    for k in 0..operations {
        receiver = give(to, receiver, &mut store, whole, source, k)?;
    }
    print!(to; "store")?;
    show_changed(to, &store)?;
    if whole.len() <= 4096 {
        print!(to; " missing {}", missing(&store, whole))?;
    }
    past(to, whole, source, operations)?;
    past(to, whole, source, usize::MAX)?;
    println!(to)
}

pub(crate) fn run_messages(to: &impl Print) -> io::Result<()> {
    let mut whole = [0u8; 4097];
    fill(&mut whole);
    for (sender, aid, length) in MESSAGES {
        send(to, &whole[..length.min(4097)], Source { sender, aid })?;
    }
    Ok(())
}
