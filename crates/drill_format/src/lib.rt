// What a drill prints and answers is defined in specs/, and its laws are in proofs/.
#![tactic(auto)]
