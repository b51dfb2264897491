// What the cache machine's calls take and answer. Its rules and demand 3 are in specs/, the theorems in proofs/.
#![tactic(auto)]

use order::Order;

// One slot of a unit's cache, after document 01, "The directory": invalid (I), shared and unmodified (SU), or exclusive and
// modified (EM). The valid cases carry the block number; an invalid slot has none to carry, and its block counts as 0.
#[derive(Clone, Copy, Debug, PartialEq, Eq)]
pub enum Slot {
    Invalid,
    Shared(u8),
    Modified(u8),
}

// A slot as an array of slots holds it. It stays a struct: `slot_at`, `set_slot` and the theorems over a directory's slots speak of its field.
#[derive(Clone, Copy)]
pub struct Entry {
    pub slot: Slot,
}

// What a processor board's cache does with a store: a copyback cache keeps the word until a copyback, a write-through cache (ISO/IEC 14576, 2.1,
// item 26) gives it to memory at once.
#[derive(Clone, Copy, Debug, PartialEq, Eq)]
pub enum Kind {
    Copyback,
    WriteThrough,
}

// A board as an array of boards holds it. It stays a struct: `through` and the theorems on settings speak of its field.
#[derive(Clone, Copy)]
pub struct Board {
    pub kind: Kind,
}

// What is chosen at cold start and stays: the board of each unit, and whether a unit whose read or modified read was retried takes the block during the
// holder's copyback (document 02, T-13).
#[derive(Clone, Copy)]
pub struct Settings {
    pub boards: [Board; 4],
    pub steal: bool,
}

// The slots of all four units, slot s of unit u being number 16 u + s; the settings; and for each block the set of units that hold it, unit 0 having
// weight 1, unit 3 weight 8.
#[derive(Clone, Copy)]
pub struct Directory {
    pub slots: [Entry; 64],
    pub settings: Settings,
    pub holders: [u8; 64],
}

// One call of the machine.
#[derive(Clone, Copy)]
pub enum Call {
    Load { unit: u8, address: u32 },
    Store { unit: u8, address: u32, value: u32 },
    Flush { unit: u8, block: u8 },
}

// A call's orders in sequence: the first `count` places of the list. The theorem `AnswersOrders` and the definition `packed` speak of the two, and with no
// heap there is no list of its own length.
#[derive(Clone, Copy)]
pub struct Orders {
    pub count: usize,
    pub list: [Order; 4],
}

// What an accepted call answers: the value that was loaded, the call's orders, and the directory that it leaves.
#[derive(Clone, Copy)]
pub struct Accepted {
    pub value: u32,
    pub orders: Orders,
    pub directory: Directory,
}
