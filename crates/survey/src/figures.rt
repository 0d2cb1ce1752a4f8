// BEGIN's figures: the need of each task, and how many children it waits for.
ghost use Rattle.std.specs.Prelude.{◌≡◌, ◌+◌, ◌*◌, set};
ghost use Rattle.numbers.specs.Lists.{at};
ghost use Rattle.words.specs.Layout.{row};
ghost use Rattle.words.specs.Contents.{contents};
ghost use Rattle.survey.specs.Prepare.{MayAdd, MayWeigh, weighed, MayPrepare, Prepared};

use cells::Cells;
use words::plan::Plan;

// A word of a row grows.
fn add(plan: &mut Plan, line: usize, column: usize, more: u32)
    requires { MayAdd line column more plan.old.words }
    ensures { plan.new.words ≡ set plan.old.words (row * line + column) (at plan.old.words (row * line + column) + more) }
{
    let old = plan.cell(line, column);
    plan.set_cell(line, column, old + more);
}

// A task adds its work and its out to its own need, and its out and itself to the need and the
// children of its parent. The root's parent is row 0, nobody's: there the sums are the root's, as the
// need and the children of 0 are in the rules.
fn weigh(plan: &mut Plan, task: usize)
    requires { MayWeigh task (contents plan.old.words) }
    ensures { contents plan.new.words ≡ weighed task (contents plan.old.words) }
{
    let parent = plan.cell(task, Plan::PARENT) as usize;
    let work = plan.cell(task, Plan::CHILLED + Plan::WORK);
    let out = plan.cell(task, Plan::CHILLED + Plan::OUT);
    add(plan, task, Plan::CHILLED + Plan::NEED, work + out);
    add(plan, parent, Plan::CHILLED + Plan::NEED, out);
    add(plan, parent, Plan::UNENDED, 1);
}

// The figures of a day on which nothing has happened.
pub fn prepare(plan: &mut Plan)
    requires { MayPrepare (contents plan.old.words) }
    ensures { Prepared (contents plan.old.words) (contents plan.new.words) }
{
    let n = plan.cell(Plan::HEAD, Plan::SIZE) as usize;
    for task in 1..n + 1 {
        weigh(plan, task);
    }
}
