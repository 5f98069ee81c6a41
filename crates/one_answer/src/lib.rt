// One promise, one answer: no code. The proofs of this crate show of every public function that its contract leaves it one answer.
#![tactic(auto)]
