// The activation order and the execution order, and where a plan keeps each.
ghost use Rattle.std.specs.Prelude.{◌≡◌};
ghost use Rattle.words.specs.Kept.{counted_word, order_base, place_column};

use crate::plan::Plan;

#[derive(Clone, Copy, PartialEq, Eq)]
pub enum Order {
    Activation,
    Execution,
}

impl Order {
    // The word of the head that counts its entries.
    pub fn counted(self) -> usize
        ensures { result ≡ counted_word self }
    {
        match self {
            Order::Activation => Plan::RANKED,
            Order::Execution => Plan::PLACED,
        }
    }

    // Where its entries begin.
    pub fn base(self) -> usize
        ensures { result ≡ order_base self }
    {
        match self {
            Order::Activation => Plan::ACTIVATION,
            Order::Execution => Plan::EXECUTION,
        }
    }

    // The column in which each task has its place.
    pub fn column(self) -> usize
        ensures { result ≡ place_column self }
    {
        match self {
            Order::Activation => Plan::RANK,
            Order::Execution => Plan::PLACE,
        }
    }
}
