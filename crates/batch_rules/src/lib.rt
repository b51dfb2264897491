// What a list of accesses in one call takes and answers (document 02, T-03). Its rules are in specs/, the theorems in proofs/.
#![tactic(auto)]

use coherence::{Call, Directory};

// An access as a list holds it: a list is a slice of structs, as document 01 asks and `run_batch` takes it.
#[derive(Clone, Copy)]
pub struct Access {
    pub call: Call,
}

// What a list of accesses answers. `refusal` is 0 if the whole list was accepted; it is a number, since `batch_outcome::refused_by` takes any. On a
// refusal too, `index` is how many accesses were made, which is the index of the refused one or the list's length, `orders` counts the orders of those
// made, and `directory` is the one that they leave.
#[derive(Clone, Copy)]
pub struct Outcome {
    pub refusal: u8,
    pub index: usize,
    pub orders: usize,
    pub directory: Directory,
}
