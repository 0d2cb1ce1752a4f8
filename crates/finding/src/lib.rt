// An activation order found from a plan's tree: "the order that finishes each subtree before turning
// to its neighbour". What is kept of the tasks on the way stands in the scratch array of `children`.
#![tactic(auto)]

mod arranging;
mod finding;
mod joining;
mod reaching;

pub use finding::find_order;
