// What is told of an outcome as plain numbers.
ghost use Rattle.std.specs.Prelude.{◌≡◌};
ghost use Rattle.answer.specs.Told.{told, told_count};

use crate::{Accepted, Answer, Wrote};
use refusal::Refusal;

impl From<Result<Accepted, Refusal>> for Answer {
    ghost from_gives = { λ outcome answer. answer ≡ told outcome };

    fn from(outcome: Result<Accepted, Refusal>) -> Answer {
        match outcome {
            Ok(accepted) => Answer {
                number: 0,
                used: accepted.used,
                starts: accepted.starts,
                peak: accepted.peak,
                by: accepted.by,
                offers: accepted.offers,
            },
            Err(refusal) => Answer {
                number: u8::from(refusal),
                used: 0,
                starts: 0,
                peak: 0,
                by: 0,
                offers: 0,
            },
        }
    }
}

impl From<Result<usize, Refusal>> for Wrote {
    ghost from_gives = { λ outcome wrote. wrote ≡ told_count outcome };

    fn from(outcome: Result<usize, Refusal>) -> Wrote {
        match outcome {
            Ok(count) => Wrote { number: 0, count },
            Err(refusal) => Wrote {
                number: u8::from(refusal),
                count: 0,
            },
        }
    }
}
