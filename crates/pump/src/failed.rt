// Why the day printer ends before its input does.
ghost use Rattle.std.specs.Prelude.{Some};
ghost use Rattle.pump.specs.Message.{message};

use std::error::Error;
use std::fmt;

// Its lines could not be written, an offset would not fit 64 bits, or its input could not be read.
#[derive(Clone, Copy, Debug, PartialEq, Eq)]
pub enum Failed {
    Write,
    TooLong,
    Read,
}

impl fmt::Display for Failed {
    ghost output = { λ failed. Some (message failed) };

    fn fmt<W: fmt::Write>(&self, f: &mut fmt::Formatter<W>) -> fmt::Result {
        match self {
            Failed::Write => write!(f, "printer: write failed"),
            Failed::TooLong => write!(f, "printer: input too long"),
            Failed::Read => write!(f, "printer: read failed"),
        }
    }
}

impl Error for Failed {}
