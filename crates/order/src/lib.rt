// Bus orders and the refusals: what the tape and the machine both speak of.
#![tactic(auto)]

ghost use Rattle.std.specs.Prelude.{◌≡◌};
ghost use Rattle.std.specs.Option.{ok_or};
ghost use Rattle.order.specs.Command.{command_number, command_of};
ghost use Rattle.order.specs.Refusal.{refusal_number};
ghost use Rattle.order.specs.declared.Refusal.TheVariants.{FieldRange};

// Why something is refused: document 01, "Numbers of refusal". Each has its number there.
#[derive(Clone, Copy, Debug, PartialEq, Eq)]
pub enum Refusal {
    WrongSize = 1,
    BrokenDirectory = 2,
    NoUnit = 3,
    BadAddress = 4,
    Cut = 5,
    BadNumber = 6,
    UnknownKind = 7,
    FieldRange = 8,
    NoRoom = 9,
    // Document 01's "bad handler state"; a message receiver's state too.
    BadState = 10,
    // Document 02, T-01: an operation of another sender, or with another AID, than the message that is being received.
    OtherSource = 11,
    // Document 02, T-01: an operation that starts a message within another, or goes on with none.
    OutOfTurn = 12,
    // Document 02, T-14: an address cycle whose halves differ.
    HalvesDiffer = 17,
    // Document 02, T-12: what can't be opened or read.
    Unreadable = 18,
}

impl From<Refusal> for u32 {
    ghost from_gives = { λ refusal n. n ≡ refusal_number refusal };

    fn from(refusal: Refusal) -> u32 {
        refusal as u32
    }
}

// What an order asks of the bus. Each command has its number on the tape.
#[derive(Clone, Copy, Debug, PartialEq, Eq)]
pub enum Command {
    Read = 0,
    ModifiedRead = 1,
    Invalidate = 2,
    Copyback = 3,
    MemoryWrite = 4,
}

impl From<Command> for u8 {
    ghost from_gives = { λ command n. n ≡ command_number command };

    #[tactic(auto, unfolding(crate::specs::Command::command_number))]
    fn from(command: Command) -> u8 {
        command as u8
    }
}

impl TryFrom<u64> for Command {
    type Error = Refusal;

    ghost try_from_gives = { λ n r. r ≡ ok_or (command_of n) FieldRange };

    #[tactic(auto, unfolding(crate::specs::Command::command_of))]
    fn try_from(number: u64) -> Result<Command, Refusal> {
        match number {
            0 => Ok(Command::Read),
            1 => Ok(Command::ModifiedRead),
            2 => Ok(Command::Invalidate),
            3 => Ok(Command::Copyback),
            4 => Ok(Command::MemoryWrite),
            _ => Err(Refusal::FieldRange),
        }
    }
}

// One order on the bus: the unit that gives it, and whether it was answered with a retry.
#[derive(Clone, Copy, Debug, PartialEq, Eq)]
pub struct Order {
    pub unit: u8,
    pub command: Command,
    pub block: u8,
    pub retried: bool,
}
