// One command, asked in bytes.
ghost use Rattle.std.specs.Prelude.{◌≤◌, length};
ghost use Rattle.numbers.specs.Limits.{least_starts};
ghost use Rattle.codec.specs.Meaning.{command_of};
ghost use Rattle.answer.specs.Told.{told};
ghost use Rattle.answer.specs.ValidPlan.{ValidPlan, Judged, Commanded};

use answer::Accepted;
use codec::{Command, Read, decode};
use day::begin::begin;
use day::fetch::fetch;
use day::report::report;
use day::resize::resize;
use opening::{add_task, open};
use ordering::append;
use refusal::Refusal;
use words::order::Order;
use words::plan::Plan;

// The answer to a command that was read.
fn obey(plan: &mut Plan, read: Read, starts: &mut [u16]) -> Result<Accepted, Refusal>
    requires { ValidPlan plan.old.words × (least_starts ≤ length starts.old) }
    ensures { Judged plan.old.words (command_of read.command) read.used starts.old (told result) plan.new.words starts.new }
{
    let used = read.used;
    match read.command {
        Command::Plan { n, p, bound } => open(plan, n, p, bound, used),
        Command::Task { parent, work, out } => add_task(plan, parent, work, out, used),
        Command::Activation(task) => append(plan, Order::Activation, task, used),
        Command::Execution(task) => append(plan, Order::Execution, task, used),
        Command::Begin => begin(plan, used, starts),
        Command::Done(task) => report(plan, task, used, starts),
        Command::Fetch => fetch(plan, used),
        Command::Places(bound) => resize(plan, bound, used, starts),
    }
}

// The answer to the command at a place of a stream; the plan is changed where it stands, and the
// tasks that it starts stand at the front of the start list.
pub fn command(
    plan: &mut Plan,
    stream: &[u8],
    place: usize,
    starts: &mut [u16],
) -> Result<Accepted, Refusal>
    requires { ValidPlan plan.old.words }
    ensures { Commanded plan.old.words (record { stream = stream.now; place = place; list = starts.old }) (told result) plan.new.words starts.new }
{
    if starts.len() < Plan::LEAST_STARTS {
        return Err(Refusal::FewStarts);
    }
    let read = decode(stream, place)?;
    obey(plan, read, starts)
}
