// Why a task is not starting. The plan is only read, in at most one pass over its tasks.
#![tactic(auto)]

ghost use Rattle.std.specs.Prelude.{◌≡◌, ◌≤◌};
ghost use Rattle.numbers.specs.Limits.{max_tasks};
ghost use Rattle.numbers.specs.Lists.{at};
ghost use Rattle.numbers.specs.Sums.{lowest_to};
ghost use Rattle.books.specs.Booking.{is_unended_child};
ghost use Rattle.whys.specs.Why as rules;
ghost use Rattle.words.specs.Contents.{contents};
ghost use Rattle.answer.specs.Meaning.{plan_of};
ghost use Rattle.answer.specs.ValidPlan.{ValidPlan};
ghost use Rattle.reason.specs.Meaning.{reason_of, answered};
ghost use Rattle.reason.specs.Asked.{AskedWaiting, Asked};

use cells::Cells;
use measure::is_within;
use refusal::Refusal;
use store::Store;
use words::phase::Phase;
use words::plan::Plan;
use words::standing::Standing;

// What the cook is told of a task.
#[derive(Clone, Copy, PartialEq, Eq)]
pub enum Reason {
    Ended,
    Running,
    // the first waiting task, and the places that it lacks
    NotBooked { first: u16, lack: u32 },
    // the lowest-numbered child that has not ended
    Unfed(u16),
    NoProcessor,
}

// Whether a task is a child of another and has not ended.
fn is_unended_child(plan: &Plan, task: usize, child: usize) -> bool
    requires { child ≤ max_tasks }
    ensures { result ≡ is_unended_child (at (contents plan.now.words).parents) (at (contents plan.now.words).standings) task child }
{
    plan.cell(child, Plan::PARENT) as usize == task && !plan.stands(child, Standing::Finished)
}

// "the lowest-numbered unended child", 0 where all have ended.
fn unended_child(plan: &Plan, task: usize) -> u16
    requires { (contents plan.now.words).size ≤ max_tasks }
    ensures { result ≡ lowest_to (is_unended_child (at (contents plan.now.words).parents) (at (contents plan.now.words).standings) task) (contents plan.now.words).size }
{
    let n = plan.cell(Plan::HEAD, Plan::SIZE) as usize;
    for child in 1..n + 1 {
        if is_unended_child(plan, task, child) {
            return child as u16;
        }
    }
    0
}

// "not booked, with the first waiting step in the activation order and the number of trays that step
// lacks"
fn not_booked(plan: &Plan) -> Reason
    requires { AskedWaiting plan.now.words }
    ensures { reason_of result ≡ rules.not_booked (rules.first_waiting (plan_of plan.now.words))
        (rules.lacks (plan_of plan.now.words) (rules.first_waiting (plan_of plan.now.words))) }
{
    let next = plan.cell(Plan::HEAD, Plan::NEXT) as usize;
    let first = plan.entry(Plan::ACTIVATION, next) as u16;
    let units = Store::CHILLED.missing(plan, first as usize);
    let lack = Store::CHILLED.shortage(plan, units);
    Reason::NotBooked { first, lack }
}

// "the first that is true"
fn first_true(plan: &Plan, task: usize) -> Reason
    requires { Asked plan.now.words task }
    ensures { reason_of result ≡ rules.why (plan_of plan.now.words) task }
{
    if plan.stands(task, Standing::Finished) {
        return Reason::Ended;
    }
    if plan.stands(task, Standing::Started) {
        return Reason::Running;
    }
    if plan.stands(task, Standing::Waiting) {
        return not_booked(plan);
    }
    if plan.cell(task, Plan::UNENDED) != 0 {
        return Reason::Unfed(unended_child(plan, task));
    }
    Reason::NoProcessor
}

// "3 outside running, then 4 for the step"
pub fn why(plan: &Plan, task: u16) -> Result<Reason, Refusal>
    requires { ValidPlan plan.now.words }
    ensures { answered result ≡ rules.why (plan_of plan.now.words) task }
{
    if !plan.is_in(Phase::Running) {
        return Err(Refusal::OutOfTurn);
    }
    let task = task as usize;
    if !is_within(task, plan.cell(Plan::HEAD, Plan::SIZE) as usize) {
        return Err(Refusal::OutsideLimits);
    }
    Ok(first_true(plan, task))
}
