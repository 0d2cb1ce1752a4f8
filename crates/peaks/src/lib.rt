// The step that sets the peak: of BEGIN's answer, and of the desk's own list. This crate has no function: what a reader must
// believe is specs/, and what is proved of it is proofs/.
#![tactic(auto)]
