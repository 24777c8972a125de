// Demand 3, one theorem about every list of calls: specs/Demand3.antt states it, proofs/Theorem.antt proves it.
#![tactic(auto)]
