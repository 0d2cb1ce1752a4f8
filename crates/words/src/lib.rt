// The words of a plan: its limits, and where everything lies.
#![tactic(auto)]

mod named;
pub mod order;
pub mod phase;
pub mod plan;
pub mod standing;
