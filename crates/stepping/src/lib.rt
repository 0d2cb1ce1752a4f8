// One step of the day printer over the bytes at hand.
#![tactic(auto)]

ghost use Rattle.std.specs.Prelude.{length, take};
ghost use Rattle.texts.specs.Printer as rules;
ghost use Rattle.answer.specs.Meaning.{plan_of};
ghost use Rattle.answer.specs.ValidPlan.{ValidPlan};
ghost use Rattle.position.specs.Standing.{position_of, Stands};
ghost use Rattle.stepping.specs.Stepped.{Step};

use lines::LONGEST_LINE;
use position::Position;
use printing::{Verdict, turn};
use words::plan::Plan;

// What a step answers: the place of the next command, the bytes of the buffer that it wrote, and its
// verdict.
#[derive(Clone, Copy)]
pub struct Stepped {
    pub position: Position,
    pub written: usize,
    pub verdict: Verdict,
}

// One step: all turns over the bytes at hand, until one waits or stops, or the buffer has less room
// left than the longest line has bytes. The lines stand at the front of the buffer, one behind the
// other.
pub fn step(
    plan: &mut Plan,
    input: &[u8],
    position: Position,
    starts: &mut [u16],
    output: &mut [u8],
) -> Stepped
    requires { ValidPlan plan.old.words × Stands position (length input.now) }
    ensures { Step position
        (rules.step (plan_of plan.old.words) (take position.filled input.now) starts.old
        (length output.old) (position_of position))
        output.old result plan.new.words starts.new output.new }
{
    let at_hand = &input[..position.filled()];
    let mut position = position;
    let mut written = 0;
    // How many turns there are hangs on what each of them uses and writes: they are no range of numbers.
    while LONGEST_LINE <= output.len() - written {
        let turned = turn(
            plan,
            at_hand,
            position.place(),
            position.offset(),
            position.is_last(),
            starts,
            &mut output[written..],
        );
        position = position.moved(turned.used);
        written += turned.written;
        if turned.verdict != Verdict::GoesOn {
            return Stepped {
                position,
                written,
                verdict: turned.verdict,
            };
        }
    }
    Stepped {
        position,
        written,
        verdict: Verdict::GoesOn,
    }
}
