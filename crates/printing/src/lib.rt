// One turn of the day printer over the part of its input that has come so far.
#![tactic(auto)]

mod accepted;

ghost use Rattle.std.specs.Prelude.{◌≡◌};
ghost use Rattle.texts.specs.Printer as rules;
ghost use Rattle.codec.specs.Meaning.{decoded};
ghost use Rattle.answer.specs.Meaning.{plan_of};
ghost use Rattle.answer.specs.ValidPlan.{ValidPlan};
ghost use Rattle.printing.specs.Taken.{Taken};

use accepted::accepted_line;
use codec::{Read, decode};
use lines::refused_line;
use plan::command;
use refusal::Refusal;
use words::plan::Plan;

// What a turn decides.
#[derive(Clone, Copy, PartialEq, Eq)]
pub enum Verdict {
    // the next command is to be asked
    GoesOn,
    // more input is to be read
    Waits,
    // the day printer is to stop
    Stops,
}

// What a turn answers: the bytes of the input that it used, the bytes of the buffer that it wrote,
// and its verdict.
#[derive(Clone, Copy, PartialEq, Eq)]
pub struct Turned {
    pub used: usize,
    pub written: usize,
    pub verdict: Verdict,
}

impl Turned {
    // Nothing is used or written.
    fn idle(verdict: Verdict) -> Self
        ensures { result ≡ record { used = 0; written = 0; verdict = verdict } }
    {
        Turned {
            used: 0,
            written: 0,
            verdict,
        }
    }
}

// "no byte is left, or operands are cut short": they may still come, unless the input has ended.
#[tactic(auto, unfolding(texts::specs::Printer::is_awaited))]
fn is_awaited(is_last: bool, asked: Result<Read, Refusal>) -> bool
    ensures { result ≡ rules.is_awaited is_last (decoded asked) }
{
    !is_last && matches!(asked, Err(Refusal::CutShort))
}

// One turn: the command at a place of the part is asked of the plan, and its line stands at the
// front of the buffer. That place is `offset` bytes from the start of the input; `is_last` says that
// the input ends with this part. They are no `Position`, which has only the places and offsets that
// the day printer comes to: a caller may ask at any.
pub fn turn(
    plan: &mut Plan,
    part: &[u8],
    place: usize,
    offset: u64,
    is_last: bool,
    starts: &mut [u16],
    buffer: &mut [u8],
) -> Turned
    requires { ValidPlan plan.old.words }
    ensures { Taken plan.old.words
        (rules.turn (plan_of plan.old.words) (record { stream = part.now; place = place; list = starts.old }) offset is_last)
        buffer.old result plan.new.words starts.new buffer.new }
{
    let asked = decode(part, place);
    if is_awaited(is_last, asked) {
        return Turned::idle(Verdict::Waits);
    }
    if part.len() <= place {
        return Turned::idle(Verdict::Stops);
    }
    match command(plan, part, place, starts) {
        Err(refusal) => Turned {
            used: 0,
            written: refused_line(buffer, u8::from(refusal), offset),
            verdict: Verdict::Stops,
        },
        Ok(accepted) => {
            // What is accepted was read.
            let read = asked.unwrap();
            Turned {
                used: accepted.used,
                written: accepted_line(plan, read.command, accepted, starts, buffer),
                verdict: Verdict::GoesOn,
            }
        }
    }
}
