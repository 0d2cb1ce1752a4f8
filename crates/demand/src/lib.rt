// Demand 3 of the code. This crate has no function: what is promised of every list of calls is specs/, and
// its proof is proofs/.
#![tactic(auto)]
