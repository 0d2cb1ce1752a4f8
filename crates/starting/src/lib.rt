// Starting: while a processor is free, the first ready task in the execution order runs.
#![tactic(auto)]

ghost use Rattle.words.specs.Contents.{contents};
ghost use Rattle.starting.specs.Started.{MayRun, OneStarted, MayStart, Started};

use cells::Cells;
use ready::{first_ready, remove};
use store::Store;
use words::plan::Plan;
use words::standing::Standing;

// The ready task at a place of the execution order runs.
fn run(plan: &mut Plan, place: usize) -> u16
    requires { MayRun place (contents plan.old.words) }
    ensures { OneStarted place (contents plan.old.words) (contents plan.new.words) result }
{
    let task = plan.entry(Plan::EXECUTION, place) as usize;
    let active = plan.cell(Plan::HEAD, Plan::ACTIVE);
    remove(plan, place);
    plan.set_standing(task, Standing::Started);
    plan.set_cell(Plan::HEAD, Plan::ACTIVE, active + 1);
    Store::CHILLED.load(plan, task);
    task as u16
}

// Starts ready tasks, and writes them to the front of the start list.
pub fn start_ready(plan: &mut Plan, starts: &mut [u16]) -> usize
    requires { MayStart (contents plan.old.words) starts.old }
    ensures { Started (contents plan.old.words) (contents plan.new.words) starts.old starts.new result }
{
    let processors = plan.cell(Plan::HEAD, Plan::PROCESSORS);
    let active = plan.cell(Plan::HEAD, Plan::ACTIVE);
    let free = (processors - active) as usize;
    for (count, start) in starts[..free].iter_mut().enumerate() {
        let Some(place) = first_ready(plan) else {
            return count;
        };
        *start = run(plan, place);
    }
    free
}
