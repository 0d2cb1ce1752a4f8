// BEGIN, DONE, 08 and FETCH: a day begins, goes on where a task has ended or the cold room has another
// bound, and is over with the fetch.
#![tactic(auto)]

mod advance;
pub mod begin;
pub mod fetch;
pub mod report;
pub mod resize;
