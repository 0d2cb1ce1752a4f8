// The order of a task's subtree: its children's orders one after another, and then the task.
ghost use Rattle.std.specs.Prelude.{◌≡◌, length};
ghost use Rattle.numbers.specs.Lists.{at};
ghost use Rattle.words.specs.Contents.{contents};
ghost use Rattle.children.specs.Scratch.{cells};
ghost use Rattle.children.specs.Linked.{Linked};
ghost use Rattle.finding.specs.Joining.{peak_along, MayWeigh, Joined};
ghost use Rattle.finding.specs.Arranging.{MayJoin, HasJoined};

use cells::Cells;
use children::scratch::{Column, Scratch};
use children::sort_children;
use words::plan::Plan;

// The peak of a subtree: each child's order begins at the level that those before it leave.
fn subtree_peak(plan: &Plan, scratch: &Scratch, task: usize) -> usize
    requires { MayWeigh (at (contents plan.now.words).stores.chilled.works) (at (contents plan.now.words).stores.chilled.outs) scratch.now.cells task }
    ensures { result ≡ peak_along (at (contents plan.now.words).stores.chilled.works) (at (contents plan.now.words).stores.chilled.outs)
        scratch.now.cells task }
{
    let mut best: usize = 0;
    let mut level = 0;
    for child in scratch.children(task) {
        best = best.max(level + scratch.get(Column::SubtreePeak, child));
        level += plan.cell(child, Plan::CHILLED + Plan::OUT) as usize;
    }
    let work = plan.cell(task, Plan::CHILLED + Plan::WORK) as usize;
    let out = plan.cell(task, Plan::CHILLED + Plan::OUT) as usize;
    best.max(level + work + out)
}

// The orders of the children are linked one behind the other, from nobody's entry on, and the task
// behind them. An order ends with its own task, so that its last entry is known. Entries are written on
// the way, which nothing that borrows the scratch array allows: the next sibling is read by hand.
fn link_orders(scratch: &mut Scratch, task: usize)
    requires { Linked scratch.old.cells task × (length scratch.old.cells ≡ cells) }
    ensures { Joined scratch.old.cells task scratch.new.cells }
{
    let mut last = 0;
    let mut child = scratch.get(Column::First, task);
    while child != 0 {
        let head = scratch.get(Column::Head, child);
        scratch.put(Column::After, last, head);
        last = child;
        child = scratch.get(Column::Sibling, child);
    }
    scratch.put(Column::After, last, task);
    let head = scratch.get(Column::After, 0);
    scratch.put(Column::Head, task, head);
}

// A task's turn, where its children have had theirs: the order and the peak of its subtree.
pub(crate) fn join(plan: &Plan, scratch: &mut Scratch, task: usize)
    requires { MayJoin (contents plan.now.words).size (at (contents plan.now.words).parents) (at (contents plan.now.words).stores.chilled.works)
        (at (contents plan.now.words).stores.chilled.outs) task scratch.old.cells }
    ensures { HasJoined (contents plan.now.words).size (at (contents plan.now.words).parents)
        (at (contents plan.now.words).stores.chilled.works) (at (contents plan.now.words).stores.chilled.outs) task
        scratch.old.cells scratch.new.cells }
{
    sort_children(plan, scratch, task);
    link_orders(scratch, task);
    let peak = subtree_peak(plan, scratch, task);
    scratch.put(Column::SubtreePeak, task, peak);
}
