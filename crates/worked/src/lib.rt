// Cases worked out by computing: the † table, days, streams and orders. No crate of code rests on this one. This crate has no function: what a reader must
// believe is specs/, and what is proved of it is proofs/.
#![tactic(auto)]
