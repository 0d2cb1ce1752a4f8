// The line of an accepted command.
ghost use Rattle.std.specs.Prelude.{◌≡◌, Ok};
ghost use Rattle.rules.specs.Question as rules;
ghost use Rattle.texts.specs.Text.{line};
ghost use Rattle.codec.specs.Meaning.{command_of};
ghost use Rattle.words.specs.Contents.{contents};
ghost use Rattle.answer.specs.Told.{told};
ghost use Rattle.answer.specs.Meaning.{answered_of, plan_of};
ghost use Rattle.answer.specs.ValidPlan.{ValidPlan};
ghost use Rattle.lines.specs.Line.{Line};

use answer::Accepted;
use codec::Command;
use lines::{Figures, begin_line, done_line, fetch_line, places_line};
use question::{booked, fullness, in_use};
use words::plan::Plan;

// What the questions answer of a plan.
fn figures(plan: &Plan) -> Figures
    requires { ValidPlan plan.now.words }
    ensures { result ≡ record {
      booked = rules.booked (plan_of plan.now.words);
      used = rules.in_use (plan_of plan.now.words);
      full = rules.fullness (plan_of plan.now.words);
    } }
{
    Figures {
        booked: booked(plan),
        used: in_use(plan),
        full: fullness(plan),
    }
}

// It is put to the front of the buffer: a line of BEGIN, DONE, FETCH or 08, and nothing for the others.
// The figures are those of the plan that the command leaves.
pub(crate) fn accepted_line(
    plan: &Plan,
    command: Command,
    accepted: Accepted,
    starts: &[u16],
    buffer: &mut [u8],
) -> usize
    requires { ValidPlan plan.now.words }
    ensures { Line
        (line (command_of command) (answered_of (told (Ok accepted)) (contents plan.now.words) starts.now))
        accepted.starts buffer.old buffer.new result }
{
    let started = &starts[..accepted.starts.min(starts.len())];
    match command {
        Command::Begin => begin_line(buffer, accepted.peak, accepted.by, figures(plan), started),
        Command::Done(task) => done_line(buffer, task, accepted.offers, figures(plan), started),
        Command::Fetch => fetch_line(buffer, booked(plan)),
        Command::Places(bound) => places_line(buffer, bound, figures(plan), started),
        Command::Plan { .. }
        | Command::Task { .. }
        | Command::Activation(_)
        | Command::Execution(_) => 0,
    }
}
