// "A plan": its tree, the need of a step and the peak of an activation order. A store is left open. This crate has no function: what a reader must
// believe is specs/, and what is proved of it is proofs/.
#![tactic(auto)]
