// Numbers, lists and sums, and the limits of a plan. This crate has no function: what a reader must
// believe is specs/, and what is proved of it is proofs/.
#![tactic(auto)]
