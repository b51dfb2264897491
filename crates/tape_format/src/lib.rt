// What a tape's records are. The format, what reading and writing one answer, and its laws are in specs/, the theorems in proofs/.
#![tactic(auto)]

use order::{Command, Order};

// The rule of a field. A `Retried` goes by the order's command, and a `To` by the record's `from`.
#[derive(Clone, Copy, Debug, PartialEq, Eq)]
pub enum Rule {
    Unit,
    Address,
    Word,
    Block,
    Retried(Command),
    From,
    To(u64),
    Byte,
    Flag,
    Bct,
    Cycles,
}

// Its accesses are no `Call`: the tape's crates stand below the machine's, and `reading::access_of` says which call a record asks.
#[derive(Clone, Copy, Debug, PartialEq, Eq)]
pub enum Record {
    Load(u8, u32),
    Store(u8, u32, u32),
    Flush(u8, u8),
    Order(Order),
    Answer {
        from: u8,
        to: u8,
        aid: u8,
        code: u8,
    },
    Register {
        from: u8,
        to: u8,
        aid: u8,
        write: bool,
        ra: u32,
        bct: u8,
    },
    Loaded(u8, u32),
    Stamp(u64),
}
