// A good activation order: the best postorder, and that none of its kind has a lower peak. This crate has no function: what a reader must
// believe is specs/, and what is proved of it is proofs/.
#![tactic(auto)]
