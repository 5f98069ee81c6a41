// Posits of any word size and exponent size: definitions (specs/) and their laws (proofs/). There is no code to run.
#![tactic(auto)]
