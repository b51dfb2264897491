// The directory as a caller in another language lends it.
#![tactic(auto)]

mod directory;

pub use directory::{decode, encode, encode_left};
