// The desk's answer as plain numbers, for other languages.
ghost use Rattle.std.specs.Prelude.{◌≡◌};
ghost use Rattle.desk.specs.Records.{told};

use crate::DeskAnswer;
use refusal::Refusal;
use survey::Peaked;

impl From<Result<Peaked, Refusal>> for DeskAnswer {
    ghost from_gives = { λ outcome answer. answer ≡ told outcome };

    fn from(outcome: Result<Peaked, Refusal>) -> DeskAnswer {
        match outcome {
            Ok(peak) => DeskAnswer {
                number: 0,
                peak: peak.trays,
                by: peak.task,
            },
            Err(refusal) => DeskAnswer {
                number: u8::from(refusal),
                peak: 0,
                by: 0,
            },
        }
    }
}
