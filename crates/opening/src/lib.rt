// PLAN and STEP: a plan is opened, and its tasks are given.
#![tactic(auto)]

ghost use Rattle.std.specs.Prelude.{◌≡◌, cond, eqb};
ghost use Rattle.rules.specs.Phase as phases;
ghost use Rattle.words.specs.Kept.{phase_number};
ghost use Rattle.answer.specs.Told.{told};
ghost use Rattle.format.specs.Command as rules;
ghost use Rattle.opening.specs.Cleared.{MayClear, Cleared, MayEmpty, Emptied};
ghost use Rattle.answer.specs.ValidPlan.{ValidPlan, Obeyed};

use answer::Accepted;
use cells::Cells;
use measure::is_within;
use refusal::Refusal;
use words::phase::Phase;
use words::plan::Plan;

// Sets the words from one to another to 0.
fn clear(plan: &mut Plan, from: usize, to: usize)
    requires { MayClear from to plan.old.words }
    ensures { Cleared from to plan.old.words plan.new.words }
{
    plan.words[from..to].fill(0);
}

// Clears what the old plan has used: the rows of its tasks, the head and the ready set.
fn empty(plan: &mut Plan, tasks: usize)
    requires { MayEmpty tasks plan.old.words }
    ensures { Emptied tasks plan.old.words plan.new.words }
{
    clear(plan, 0, Plan::ROW * (tasks + 1));
    clear(plan, Plan::ROW * Plan::HEAD, Plan::ACTIVATION);
    clear(plan, Plan::READY_SET, Plan::WORDS);
}

// "PLAN: drop the old plan, open a new one"
pub fn open(
    plan: &mut Plan,
    n: u16,
    processors: u8,
    bound: u32,
    used: usize,
) -> Result<Accepted, Refusal>
    requires { ValidPlan plan.old.words }
    ensures { Obeyed plan.old.words (rules.plan n processors bound) used (told result) plan.new.words }
{
    if plan.holds_trays() {
        return Err(Refusal::OutOfTurn);
    }
    if !is_within(n as usize, Plan::MAX_TASKS) {
        return Err(Refusal::OutsideLimits);
    }
    if !is_within(processors as usize, Plan::MAX_PROCESSORS) {
        return Err(Refusal::OutsideLimits);
    }
    let tasks = plan.cell(Plan::HEAD, Plan::SIZE) as usize;
    empty(plan, tasks);
    plan.set_phase(Phase::Steps);
    plan.set_cell(Plan::HEAD, Plan::SIZE, n as u32);
    plan.set_cell(Plan::HEAD, Plan::PROCESSORS, processors as u32);
    plan.set_cell(Plan::HEAD, Plan::GIVEN, 1);
    plan.set_cell(Plan::HEAD, Plan::CHILLED + Plan::BOUND, bound);
    Ok(Accepted::plain(used))
}

// "the n-th leads to orders"
fn phase_after(given: u32, size: u32) -> Phase
    ensures { phase_number result ≡ cond (eqb given size) phases.orders phases.steps }
{
    if given == size {
        Phase::Orders
    } else {
        Phase::Steps
    }
}

// "STEP: the next step; the first is step 1"
pub fn add_task(
    plan: &mut Plan,
    parent: u16,
    work: u16,
    out: u16,
    used: usize,
) -> Result<Accepted, Refusal>
    requires { ValidPlan plan.old.words }
    ensures { Obeyed plan.old.words (rules.task parent work out) used (told result) plan.new.words }
{
    if !plan.is_in(Phase::Steps) {
        return Err(Refusal::OutOfTurn);
    }
    let size = plan.cell(Plan::HEAD, Plan::SIZE);
    if size < parent as u32 {
        return Err(Refusal::OutsideLimits);
    }
    let given = plan.cell(Plan::HEAD, Plan::GIVEN);
    let task = given as usize;
    plan.set_cell(task, Plan::PARENT, parent as u32);
    plan.set_cell(task, Plan::CHILLED + Plan::WORK, work as u32);
    plan.set_cell(task, Plan::CHILLED + Plan::OUT, out as u32);
    plan.set_cell(Plan::HEAD, Plan::GIVEN, given + 1);
    plan.set_phase(phase_after(given, size));
    Ok(Accepted::plain(used))
}
