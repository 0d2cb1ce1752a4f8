// "Booking": booking ahead, starting and sharing out, in a store that is left open, and what holds of the
// books between them. This crate has no function: what a reader must
// believe is specs/, and what is proved of it is proofs/.
#![tactic(auto)]
