// Document 01's values to try that are proved, P1 to P12: the statement is in specs/, its proof in proofs/. No code.
#![tactic(auto)]
