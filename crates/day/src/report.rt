// DONE: a task has ended.
ghost use Rattle.std.specs.Prelude.{◌≡◌, ◌≤◌, length};
ghost use Rattle.format.specs.Command as rules;
ghost use Rattle.numbers.specs.Limits.{least_starts};
ghost use Rattle.words.specs.Contents.{contents};
ghost use Rattle.refusal.specs.Number.{number_in};
ghost use Rattle.answer.specs.Told.{told};
ghost use Rattle.answer.specs.ValidPlan.{ValidPlan, Judged};
ghost use Rattle.rules.specs.Grounds.{ground_for};
ghost use Rattle.answer.specs.Meaning.{plan_of};
ghost use Rattle.dispatch.specs.Ended.{MayEnd};
ghost use Rattle.day.specs.Day.{MayGoOn, WentOn, made_ready};

use crate::advance::advance;
use answer::Accepted;
use cells::Cells;
use dispatch::{end_root, finish};
use measure::is_within;
use refusal::Refusal;
use words::phase::Phase;
use words::plan::Plan;
use words::standing::Standing;

// What is counted of a report that is accepted.
#[derive(Clone, Copy)]
pub(crate) struct Counted {
    pub(crate) starts: usize,
    pub(crate) offers: usize,
}

// The ground against a report.
fn may_report(plan: &Plan, task: usize) -> Result<(), Refusal>
    requires { ValidPlan plan.now.words }
    ensures { number_in result ≡ ground_for (plan_of plan.now.words) (rules.done task) }
{
    if !plan.is_in(Phase::Running) {
        return Err(Refusal::OutOfTurn);
    }
    if !is_within(task, plan.cell(Plan::HEAD, Plan::SIZE) as usize) {
        return Err(Refusal::OutsideLimits);
    }
    if !plan.stands(task, Standing::Started) {
        return Err(Refusal::NotRunning);
    }
    Ok(())
}

// "DONE shares out, books ahead and starts": a task that has a parent.
fn go_on(plan: &mut Plan, task: usize, starts: &mut [u16]) -> Counted
    requires { MayGoOn (contents plan.old.words) task starts.old }
    ensures { WentOn (contents plan.old.words) task (contents plan.new.words) starts.old starts.new result.starts result.offers }
{
    let offers = finish(plan, task);
    let started = advance(plan, starts);
    Counted {
        starts: started,
        offers,
    }
}

// "When the root ends, its out remains booked and in use, and the phase is a new one, ready."
fn make_ready(plan: &mut Plan, root: usize)
    requires { MayEnd root (contents plan.old.words) }
    ensures { contents plan.new.words ≡ made_ready root (contents plan.old.words) }
{
    end_root(plan, root);
    plan.set_phase(Phase::Ready);
}

pub fn report(
    plan: &mut Plan,
    task: u16,
    used: usize,
    starts: &mut [u16],
) -> Result<Accepted, Refusal>
    requires { ValidPlan plan.old.words × (least_starts ≤ length starts.old) }
    ensures { Judged plan.old.words (rules.done task) used starts.old (told result) plan.new.words starts.new }
{
    let task = task as usize;
    may_report(plan, task)?;
    if plan.cell(task, Plan::PARENT) == 0 {
        make_ready(plan, task);
        return Ok(Accepted::plain(used));
    }
    let counted = go_on(plan, task, starts);
    Ok(Accepted {
        starts: counted.starts,
        offers: counted.offers,
        ..Accepted::plain(used)
    })
}
