// The order that is found, from a plan's tree.
ghost use Rattle.std.specs.Prelude.{◌≡◌, ◌++◌, drop};
ghost use Rattle.numbers.specs.Lists.{at};
ghost use Rattle.postorders.specs.Postorder.{best_postorder};
ghost use Rattle.postorders.specs.Find as rules;
ghost use Rattle.words.specs.Contents.{contents};
ghost use Rattle.answer.specs.Meaning.{plan_of, wrote_of};
ghost use Rattle.answer.specs.Told.{told_count};
ghost use Rattle.answer.specs.ValidPlan.{ValidPlan};
ghost use Rattle.refusal.specs.Number.{number_in};
ghost use Rattle.children.specs.Scratch.{queue, field};
ghost use Rattle.finding.specs.Finding.{AllReached, MayFind, Finds};

use crate::arranging::{arrange, write_order};
use crate::reaching::reach;
use cells::Cells;
use children::list_children;
use children::scratch::{Column, Scratch};
use refusal::Refusal;
use survey::roots;
use words::phase::Phase;
use words::plan::Plan;

// Where all tasks are reached from the root: its order at the front of the list.
fn write_found(plan: &Plan, scratch: &mut Scratch, n: usize, list: &mut [u16])
    requires { (n ≡ (contents plan.now.words).size) × AllReached (contents plan.now.words).size (at (contents plan.now.words).parents)
        (at (contents plan.now.words).stores.chilled.works) (at (contents plan.now.words).stores.chilled.outs) scratch.old.cells list.old }
    ensures { list.new ≡ best_postorder (contents plan.now.words).size (contents plan.now.words).size
        (at (contents plan.now.words).parents) (at (contents plan.now.words).stores.chilled.works)
        (at (contents plan.now.words).stores.chilled.outs) (field queue scratch.old.cells 0)
        ++ drop (contents plan.now.words).size list.old }
{
    arrange(plan, scratch, n);
    let root = scratch.get(Column::Queue, 0);
    write_order(scratch, root, list, n);
}

// Where one task has no parent: the order at the front of the list, unless the chain of parents of some
// task never reaches it, or the list is too short.
fn find_rooted(plan: &Plan, list: &mut [u16]) -> Result<(), Refusal>
    requires { MayFind (contents plan.now.words).size (at (contents plan.now.words).parents) (at (contents plan.now.words).stores.chilled.works)
        (at (contents plan.now.words).stores.chilled.outs) }
    ensures { Finds (contents plan.now.words).size (at (contents plan.now.words).parents)
        (at (contents plan.now.words).stores.chilled.works) (at (contents plan.now.words).stores.chilled.outs) list.old
        list.new (number_in result) }
{
    let n = plan.cell(Plan::HEAD, Plan::SIZE) as usize;
    let mut scratch = Scratch::new();
    list_children(plan, n, &mut scratch);
    if reach(plan, &mut scratch) != n {
        return Err(Refusal::RootUnreached);
    }
    if list.len() < n {
        return Err(Refusal::ShortList);
    }
    write_found(plan, &mut scratch, n, list);
    Ok(())
}

// "3 until all steps are given; then 7; then 12 if some step's chain of parents never reaches the root;
// then 11 if the list has fewer than n entries."
pub fn find_order(plan: &Plan, list: &mut [u16]) -> Result<usize, Refusal>
    requires { ValidPlan plan.now.words }
    ensures { wrote_of (told_count result) list.new ≡ rules.find_order (plan_of plan.now.words) list.old }
{
    if plan.is_in(Phase::Empty) || plan.is_in(Phase::Steps) {
        return Err(Refusal::OutOfTurn);
    }
    let n = plan.cell(Plan::HEAD, Plan::SIZE) as usize;
    if roots(plan, n) != 1 {
        return Err(Refusal::NotOneRoot);
    }
    find_rooted(plan, list)?;
    Ok(n)
}
