// What may be asked of a plan at any time.
#![tactic(auto)]

ghost use Rattle.std.specs.Prelude.{◌≡◌};
ghost use Rattle.numbers.specs.Sums.{only};
ghost use Rattle.rules.specs.Phase as phases;
ghost use Rattle.words.specs.Contents.{contents};
ghost use Rattle.rules.specs.Question as rules;
ghost use Rattle.answer.specs.Meaning.{plan_of};
ghost use Rattle.answer.specs.ValidPlan.{ValidPlan};

use cells::Cells;
use words::phase::Phase;
use words::plan::Plan;

// A figure of the cold room, 0 where no trays of the plan lie in it.
fn while_held(plan: &Plan, figure: u32) -> u32
    ensures { result ≡ only (phases.holds_trays (contents plan.now.words).phase) figure }
{
    if plan.holds_trays() { figure } else { 0 }
}

// "Phases: empty, steps, orders, running, over", and ready
#[tactic(auto, unfolding(words::specs::Contents::contents))]
pub fn phase(plan: &Plan) -> u32
    ensures { result ≡ (plan_of plan.now.words).phase }
{
    plan.cell(Plan::HEAD, Plan::PHASE)
}

// "Booked trays, trays in use and fullness can be asked of the plan at any time, and are 0 outside
// running"; they "are answered in ready as in running".
pub fn booked(plan: &Plan) -> u32
    requires { ValidPlan plan.now.words }
    ensures { result ≡ rules.booked (plan_of plan.now.words) }
{
    let total = plan.cell(Plan::HEAD, Plan::CHILLED + Plan::TOTAL);
    while_held(plan, total)
}

pub fn in_use(plan: &Plan) -> u32
    requires { ValidPlan plan.now.words }
    ensures { result ≡ rules.in_use (plan_of plan.now.words) }
{
    let used = plan.cell(Plan::HEAD, Plan::CHILLED + Plan::USED);
    while_held(plan, used)
}

// In thousandths of the memory bound.
pub fn fullness(plan: &Plan) -> u32
    requires { ValidPlan plan.now.words }
    ensures { result ≡ rules.fullness (plan_of plan.now.words) }
{
    let bound = plan.cell(Plan::HEAD, Plan::CHILLED + Plan::BOUND);
    while_held(plan, measure::fullness(booked(plan), bound))
}

// "four counts, waiting, booked, running, ended; four zeros outside running and over"; "ready shows
// the same standing as over"
pub fn standing(plan: &Plan) -> [u32; 4]
    requires { ValidPlan plan.now.words }
    ensures { result ≡ rules.standing (plan_of plan.now.words) }
{
    if phase(plan) < Phase::Running as u32 {
        return [0, 0, 0, 0];
    }
    let size = plan.cell(Plan::HEAD, Plan::SIZE);
    let next = plan.cell(Plan::HEAD, Plan::NEXT);
    let active = plan.cell(Plan::HEAD, Plan::ACTIVE);
    let ended = plan.cell(Plan::HEAD, Plan::ENDED);
    [size - next, next - active - ended, active, ended]
}
