// Sums, bits and ranges of numbers: definitions and laws that several crates share, and no code.
#![tactic(auto)]
