// BEGIN: the day begins, if the plan is in order and fits.
ghost use Rattle.std.specs.Prelude.{◌≡◌, ◌≤◌, length};
ghost use Rattle.format.specs.Command as rules;
ghost use Rattle.numbers.specs.Limits.{least_starts};
ghost use Rattle.words.specs.Contents.{contents};
ghost use Rattle.answer.specs.Told.{told};
ghost use Rattle.answer.specs.ValidPlan.{ValidPlan, Judged};
ghost use Rattle.day.specs.Day.{begins, MayBegin, Begun};

use crate::advance::advance;
use answer::Accepted;
use cells::Cells;
use ordering::complete;
use refusal::Refusal;
use survey::{prepare, survey};
use words::order::Order;
use words::phase::Phase;
use words::plan::Plan;

// Whether the plan waits for its BEGIN: both orders are whole, or the activation order alone is given.
fn is_in_turn(plan: &Plan) -> bool
    ensures { result ≡ begins (contents plan.now.words) }
{
    if !plan.is_in(Phase::Orders) || !plan.is_complete(Order::Activation) {
        return false;
    }
    plan.cell(Plan::HEAD, Plan::PLACED) == 0 || plan.is_complete(Order::Execution)
}

// The day begins: booking ahead and starting follow.
fn start_day(plan: &mut Plan, starts: &mut [u16]) -> usize
    requires { MayBegin (contents plan.old.words) starts.old }
    ensures { Begun (contents plan.old.words) (contents plan.new.words) starts.old starts.new result }
{
    prepare(plan);
    let started = advance(plan, starts);
    plan.set_phase(Phase::Running);
    started
}

pub fn begin(plan: &mut Plan, used: usize, starts: &mut [u16]) -> Result<Accepted, Refusal>
    requires { ValidPlan plan.old.words × (least_starts ≤ length starts.old) }
    ensures { Judged plan.old.words rules.begin used starts.old (told result) plan.new.words starts.new }
{
    if !is_in_turn(plan) {
        return Err(Refusal::OutOfTurn);
    }
    let peak = survey(plan)?;
    let bound = plan.cell(Plan::HEAD, Plan::CHILLED + Plan::BOUND);
    if (bound as u64) < peak.trays {
        return Err(Refusal::PeakAboveBound);
    }
    complete(plan);
    let started = start_day(plan, starts);
    Ok(Accepted {
        used,
        starts: started,
        peak: peak.trays,
        by: peak.task,
        offers: 0,
    })
}
