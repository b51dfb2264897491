// What sender and receiver of a message take and answer (document 02, T-01). The rules are in specs/, the theorems in proofs/.
#![tactic(auto)]

ghost use Rattle.std.specs.Prelude.{◌≡◌};
ghost use Rattle.std.specs.Option.{ok_or};
ghost use Rattle.order.specs.declared.Refusal.TheVariants.{FieldRange};
ghost use Rattle.message_rules.specs.Operation.{sequence_number, sequence_numbered};

use order::Refusal;

// What an operation is of its message: Table 6, "Message sequence". Each has its number there.
#[derive(Clone, Copy, Debug, PartialEq, Eq)]
pub enum Sequence {
    Single = 0,
    First = 1,
    Middle = 2,
    Last = 3,
}

impl From<Sequence> for u32 {
    ghost from_gives = { λ sequence n. n ≡ sequence_number sequence };

    #[tactic(auto, unfolding(crate::specs::Operation::sequence_number))]
    fn from(sequence: Sequence) -> u32 {
        sequence as u32
    }
}

impl TryFrom<u32> for Sequence {
    type Error = Refusal;

    ghost try_from_gives = { λ n r. r ≡ ok_or (sequence_numbered n) FieldRange };

    #[tactic(auto, unfolding(crate::specs::Operation::sequence_numbered))]
    fn try_from(number: u32) -> Result<Sequence, Refusal> {
        match number {
            0 => Ok(Sequence::Single),
            1 => Ok(Sequence::First),
            2 => Ok(Sequence::Middle),
            3 => Ok(Sequence::Last),
            _ => Err(Refusal::FieldRange),
        }
    }
}

// Where a message comes from: its sender (BMID) and its AID.
#[derive(Clone, Copy, Debug, PartialEq, Eq)]
pub struct Source {
    pub sender: u8,
    pub aid: u16,
}

// What a receiver has of a message: where it comes from, and how many bytes.
#[derive(Clone, Copy, Debug, PartialEq, Eq)]
pub struct Received {
    pub source: Source,
    pub count: usize,
}

// What the receiving board keeps between operations: nothing when it is idle, or what it has of the message that is pending.
pub type Receiver = Option<Received>;

// The answer to an accepted operation: the receiver for the next operation, and the message if it is complete.
#[derive(Clone, Copy, Debug, PartialEq, Eq)]
pub struct Accepted {
    pub receiver: Receiver,
    pub completion: Option<Received>,
}
