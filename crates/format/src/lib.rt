// "Commands": the bytes of each, and that they are read back as they were written. This crate has no function: what a reader must
// believe is specs/, and what is proved of it is proofs/.
#![tactic(auto)]
