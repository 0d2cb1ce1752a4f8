// Demand 3 as one statement about every list of commands, and its proof: no day sticks, no store overfills. This crate has no function: what a reader must
// believe is specs/, and what is proved of it is proofs/.
#![tactic(auto)]
