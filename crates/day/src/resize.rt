// 08: the cold room has other places, a new M.
ghost use Rattle.std.specs.Prelude.{◌≡◌, ◌≤◌, length};
ghost use Rattle.format.specs.Command as rules;
ghost use Rattle.numbers.specs.Limits.{least_starts};
ghost use Rattle.rules.specs.Grounds.{ground_for};
ghost use Rattle.words.specs.Contents.{contents};
ghost use Rattle.answer.specs.Meaning.{plan_of};
ghost use Rattle.refusal.specs.Number.{number_in};
ghost use Rattle.answer.specs.Told.{told};
ghost use Rattle.answer.specs.ValidPlan.{ValidPlan, Judged};
ghost use Rattle.day.specs.Day.{MayResize, Resized};

use crate::advance::advance;
use answer::Accepted;
use cells::Cells;
use refusal::Refusal;
use survey::survey;
use words::phase::Phase;
use words::plan::Plan;

// The ground against a new bound: "3; then 9 if below the peak; then 13 if below the booked trays". The
// peak is that of the whole activation order, whoever has ended.
fn may_resize(plan: &Plan, bound: u32) -> Result<(), Refusal>
    requires { ValidPlan plan.now.words }
    ensures { number_in result ≡ ground_for (plan_of plan.now.words) (rules.places bound) }
{
    if !plan.is_in(Phase::Running) {
        return Err(Refusal::OutOfTurn);
    }
    let peak = survey(plan)?;
    if (bound as u64) < peak.trays {
        return Err(Refusal::PeakAboveBound);
    }
    if bound < plan.cell(Plan::HEAD, Plan::CHILLED + Plan::TOTAL) {
        return Err(Refusal::BoundBelowBooked);
    }
    Ok(())
}

// "then booking ahead and starting follow", within the new bound.
fn advance_within(plan: &mut Plan, bound: u32, starts: &mut [u16]) -> usize
    requires { MayResize (contents plan.old.words) bound starts.old }
    ensures { Resized (contents plan.old.words) bound (contents plan.new.words) starts.old starts.new result }
{
    plan.set_cell(Plan::HEAD, Plan::CHILLED + Plan::BOUND, bound);
    advance(plan, starts)
}

// "the starts are answered as for DONE, with no offers".
pub fn resize(
    plan: &mut Plan,
    bound: u32,
    used: usize,
    starts: &mut [u16],
) -> Result<Accepted, Refusal>
    requires { ValidPlan plan.old.words × (least_starts ≤ length starts.old) }
    ensures { Judged plan.old.words (rules.places bound) used starts.old (told result) plan.new.words starts.new }
{
    may_resize(plan, bound)?;
    let started = advance_within(plan, bound, starts);
    Ok(Accepted {
        starts: started,
        ..Accepted::plain(used)
    })
}
