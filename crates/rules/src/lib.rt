// The rules of document 01: a plan as commands leave it, the grounds for refusing, what an accepted command
// does, what may be asked, and a day. This crate has no function: what a reader must
// believe is specs/, and what is proved of it is proofs/.
#![tactic(auto)]
