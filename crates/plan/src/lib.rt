// The command function of a plan, where its words stand.
#![tactic(auto)]

mod obey;

pub use obey::command;
