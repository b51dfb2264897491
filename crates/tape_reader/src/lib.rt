// A reader: the tape together with a place on it (document 01, "The tape"). It is no `Iterator`: by `place_after` it stays where it is on a refusal.
#![tactic(auto)]

ghost use Rattle.std.specs.Prelude.{◌≡◌};
ghost use Rattle.tape_format.specs.Record.{record_at};
ghost use Rattle.tape_format.specs.Reader.{place_after};

use tape::{Refused, read_record};
use tape_format::Record;

#[derive(Clone, Copy, Debug, PartialEq, Eq)]
pub struct Reader<'a> {
    pub tape: &'a [u8],
    pub place: usize,
}

impl<'a> Reader<'a> {
    // A reader at a place of a tape.
    pub fn new(tape: &'a [u8], place: usize) -> Reader<'a>
        ensures { (result.tape ≡ tape.entry) × (result.place ≡ place) }
    {
        Reader { tape, place }
    }

    // The reader's place.
    pub fn place(self) -> usize
        ensures { result ≡ self.entry.place }
    {
        self.place
    }

    // The record at the reader's place, with the place after it; none at the tape's end.
    pub fn next(self) -> Result<Option<(Record, usize)>, Refused>
        ensures { result ≡ record_at self.entry.tape.now self.entry.place }
    {
        read_record(self.tape, self.place)
    }

    // The reader moved past that record; where it was, at the tape's end and on a refusal.
    #[tactic(auto, unfolding(tape_format::specs::Reader::place_after))]
    pub fn advance(self) -> Reader<'a>
        ensures { (result.tape ≡ self.entry.tape) × (result.place ≡ place_after self.entry.place (record_at self.entry.tape.now self.entry.place)) }
    {
        match self.next() {
            Ok(Some((_, place))) => Reader { place, ..self },
            _ => self,
        }
    }
}

// The record that a reader at `place` finds: a plain slice and a number go in.
pub fn read_at(tape: &[u8], place: usize) -> Result<Option<(Record, usize)>, Refused>
    ensures { result ≡ record_at tape.now place }
{
    Reader::new(tape, place).next()
}
