// Grounds 7 and 8. Each counts the tasks that pass a test.
ghost use Rattle.std.specs.Prelude.{◌≡◌, ◌≤◌, take};
ghost use Rattle.tree.specs.Tree.{roots};
ghost use Rattle.numbers.specs.Sums.{count_to};
ghost use Rattle.numbers.specs.Lists.{at};
ghost use Rattle.numbers.specs.Limits.{max_tasks};
ghost use Rattle.tree.specs.Peak;
ghost use Rattle.refusal.specs.Number.{number_in};
ghost use Rattle.words.specs.Contents.{contents};
ghost use Rattle.survey.specs.Survey.{RankedIn, order_ground};
ghost use Rattle.survey.specs.Checks.{is_late, Parented};

use cells::Cells;
use refusal::Refusal;
use words::plan::Plan;

// How many tasks have no parent.
pub fn roots(plan: &Plan, n: usize) -> usize
    requires { n ≤ max_tasks }
    ensures { result ≡ roots n (at (contents plan.now.words).parents) }
{
    (1..n + 1)
        .filter(|&task| plan.cell(task, Plan::PARENT) == 0)
        .count()
}

// Whether a task has a parent whose rank is not above its own.
fn is_late(plan: &Plan, task: usize) -> bool
    requires { (task ≤ max_tasks) × (at (contents plan.now.words).parents task ≤ max_tasks) }
    ensures { result ≡ is_late (at (contents plan.now.words).parents) (at (contents plan.now.words).ranks) task }
{
    let parent = plan.cell(task, Plan::PARENT) as usize;
    parent != 0 && plan.cell(parent, Plan::RANK) <= plan.cell(task, Plan::RANK)
}

// How many tasks have a parent that does not stand later.
fn late(plan: &Plan, n: usize) -> usize
    requires { Parented n (at (contents plan.now.words).parents) }
    ensures { result ≡ count_to (is_late (at (contents plan.now.words).parents) (at (contents plan.now.words).ranks)) n }
{
    (1..n + 1).filter(|&task| is_late(plan, task)).count()
}

// The ground against the order.
pub(crate) fn ground(plan: &Plan, n: usize) -> Result<(), Refusal>
    requires { RankedIn n (contents plan.now.words) }
    ensures { number_in result ≡ order_ground n (at (contents plan.now.words).parents) (take n (contents plan.now.words).activation) }
{
    if roots(plan, n) != 1 {
        return Err(Refusal::NotOneRoot);
    }
    if late(plan, n) != 0 {
        return Err(Refusal::ParentFirst);
    }
    Ok(())
}
