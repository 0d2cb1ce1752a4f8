// The lines of the day printer. This crate has no function: what a reader must
// believe is specs/, and what is proved of it is proofs/.
#![tactic(auto)]
