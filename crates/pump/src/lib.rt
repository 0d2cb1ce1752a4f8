// The day printer: commands from a reader, lines to a writer. What is printed is decided by `step`;
// here bytes are read and written.
#![tactic(auto)]

ghost use Rattle.std.specs.Prelude.{◌≡◌, ◌+◌, ◌<◌, length, IfSome, IfErr, OnOk, OnErr};
ghost use Rattle.std.specs.Io.KnownBytes.{Appends};
ghost use Rattle.texts.specs.Printer as rules;
ghost use Rattle.pump.specs.Written.{WritesFront};

mod failed;
mod room;

pub use failed::Failed;
use position::Position;
use printing::Verdict;
use room::refill;
use std::io::{self, Read, Write};
use stepping::step;
use words::plan::Plan;

// How many bytes are read, and how many are written, at once at most.
const ROOM: usize = 65_536;

// Prints what comes on standard input to standard output, as `print_day` does. What has failed is
// told on standard error.
pub fn run<R: Input + Print + Eprint>(rt: &R) {
    let printed = print_day(&mut rt.reader(), &mut io::writer(rt));
    if let Err(failed) = printed {
        // Where that cannot be written either, nobody is left to be told.
        let _ = eprintln!(rt; "{failed}");
    }
}

// Prints until the input ends, a command is refused, or reading or writing fails. It answers as it
// goes: the lines of all commands that have come are written before more input is waited for. An
// input whose offsets do not fit 64 bits is not read to its end; there is no other bound.
pub fn print_day<R: Read, W: Write>(input: &mut R, output: &mut W) -> Result<(), Failed>
    ensures printed { OnOk result (IfSome (R.remaining input.old)
        (λ stream. Appends (W.contents output.old) (W.contents output.new) (rules.print stream))) }
    ensures cut_short { OnErr result (IfSome (R.remaining input.old)
        (λ stream. WritesFront (rules.print stream) (W.contents output.old) (W.contents output.new))) }
    ensures too_long { result ≡ Err Failed.TooLong → IfSome (R.remaining input.old)
        (λ stream. rules.max_offset < length stream + ROOM) }
{
    let mut bytes = [0u8; ROOM];
    let mut lines = [0u8; ROOM];
    let mut starts = [0u16; Plan::LEAST_STARTS];
    let mut plan = Plan::new();
    let mut position = Position::start();
    loop {
        let stepped = step(&mut plan, &bytes, position, &mut starts, &mut lines);
        put_out(output, &lines[..stepped.written])?;
        position = stepped.position;
        match stepped.verdict {
            Verdict::GoesOn => {}
            Verdict::Waits => {
                if !position.is_counted(&bytes) {
                    return Err(Failed::TooLong);
                }
                let Ok(refilled) = refill(input, &mut bytes, position) else {
                    return Err(Failed::Read);
                };
                position = refilled;
            }
            Verdict::Stops => return Ok(()),
        }
    }
}

// Lines go out at once, and none of them is kept back.
fn put_out<W: Write>(output: &mut W, lines: &[u8]) -> Result<(), Failed>
    ensures ok { OnOk result (Appends (W.contents output.old) (W.contents output.new) lines.now) }
    ensures err { OnErr result (WritesFront lines.now (W.contents output.old) (W.contents output.new)) }
    ensures kind { IfErr result (λ failed. failed ≡ Failed.Write) }
{
    let mut left = lines;
    while !left.is_empty() {
        match output.write(left) {
            Ok(0) | Err(_) => return Err(Failed::Write),
            Ok(count) => left = &left[count..],
        }
    }
    output.flush().map_err(|_| Failed::Write)
}
