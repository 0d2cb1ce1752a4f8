// What a command answers, and what a tool that writes into a lent list does: inside the library, and as
// plain numbers for other languages.
#![tactic(auto)]

mod accepted;
mod flat;

pub use accepted::Accepted;

// "An accepted command answers number 0, the bytes used and how many steps it starts"; "A refusal answers
// its number, with bytes used, starts and every other count 0".
#[repr(C)]
#[derive(Clone, Copy)]
pub struct Answer {
    pub number: u8,
    pub used: usize,
    pub starts: usize,
    pub peak: u64,
    pub by: u16,
    pub offers: usize,
}

// What is answered by a tool that writes to the front of a lent list: how many entries it wrote, bytes of
// a plan or step numbers of an order. On a refusal nothing is written.
#[repr(C)]
#[derive(Clone, Copy)]
pub struct Wrote {
    pub number: u8,
    pub count: usize,
}
