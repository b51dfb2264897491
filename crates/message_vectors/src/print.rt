// What is passed to sender and receiver, and what they answer, in words.
use message_rules::{Received, Receiver, Sequence};
use std::fmt;

// Bytes of a message: the sender, the AID, and how many.
#[derive(Clone, Copy)]
pub(crate) struct Bytes(pub(crate) Received);

impl fmt::Display for Bytes {
    fn fmt<W: fmt::Write>(&self, f: &mut fmt::Formatter<W>) -> fmt::Result {
        let Received { source, count } = self.0;
        write!(f, "{} {} {count}", source.sender, source.aid)
    }
}

#[derive(Clone, Copy)]
pub(crate) struct Name(pub(crate) Sequence);

impl fmt::Display for Name {
    fn fmt<W: fmt::Write>(&self, f: &mut fmt::Formatter<W>) -> fmt::Result {
        f.write_str(match self.0 {
            Sequence::Single => "single",
            Sequence::First => "first",
            Sequence::Middle => "middle",
            Sequence::Last => "last",
        })
    }
}

#[derive(Clone, Copy)]
pub(crate) struct State(pub(crate) Receiver);

impl fmt::Display for State {
    fn fmt<W: fmt::Write>(&self, f: &mut fmt::Formatter<W>) -> fmt::Result {
        match self.0 {
            None => f.write_str("idle"),
            Some(message) => write!(f, "pending {}", Bytes(message)),
        }
    }
}

#[derive(Clone, Copy)]
pub(crate) struct Completion(pub(crate) Option<Received>);

impl fmt::Display for Completion {
    fn fmt<W: fmt::Write>(&self, f: &mut fmt::Formatter<W>) -> fmt::Result {
        match self.0 {
            None => f.write_str("incomplete"),
            Some(message) => write!(f, "complete {}", Bytes(message)),
        }
    }
}
