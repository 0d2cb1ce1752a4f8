// Small functions on numbers that every layer uses.
#![tactic(auto)]

mod thousandths;

ghost use Rattle.std.specs.Prelude.{◌≡◌};
ghost use Rattle.numbers.specs.Sums.{within};

pub use thousandths::fullness;

// Whether x is a number from 1 to a limit.
pub fn is_within(x: usize, limit: usize) -> bool
    ensures { result ≡ within x limit }
{
    (1..=limit).contains(&x)
}
