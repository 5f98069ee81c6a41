// The promises, as theorems over the contracts and the definitions: there is no code here, and the theorems are in proofs/.
#![tactic(auto)]
