// Text written into a lent space: fixed words, and numbers in decimal. By hand: `write!` into a slice puts the first bytes where not all have room, and by
// `placed` it is all of them or none.
#![tactic(auto)]

pub mod decimal;
pub mod space;
