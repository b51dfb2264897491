// The rules of the bus that need no cache: parity, register lanes, the signals of a transfer, answer codes.
#![tactic(auto)]

pub mod answer;
pub mod lanes;
pub mod parity;
pub mod transfer;
