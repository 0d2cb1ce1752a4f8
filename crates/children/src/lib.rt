// The children of every task, linked in the scratch array: each list by falling number as it is made,
// and by falling key once it is sorted, "equal ones by lower number".
#![tactic(auto)]

mod listing;
mod merging;
pub mod scratch;
mod sorting;

pub use listing::list_children;
pub use sorting::sort_children;
