// The tasks whose chain of parents reaches the root, parents before their children.
ghost use Rattle.numbers.specs.Lists.{at};
ghost use Rattle.words.specs.Contents.{contents};
ghost use Rattle.finding.specs.Reaching.{MayAppend, Appended, MayReach, Reached};

use children::scratch::{Column, Scratch};
use words::plan::Plan;

// The children of a task go behind those that are reached. The queue is written on the way, which nothing
// that borrows the scratch array allows: the next sibling is read by hand.
fn reach_children(scratch: &mut Scratch, task: usize, count: usize) -> usize
    requires { MayAppend scratch.old.cells task count }
    ensures { Appended scratch.old.cells task count scratch.new.cells result }
{
    let mut next = count;
    let mut child = scratch.get(Column::First, task);
    while child != 0 {
        scratch.put(Column::Queue, next, child);
        next += 1;
        child = scratch.get(Column::Sibling, child);
    }
    next
}

// From the root on, the children of each task that is reached. How many are reached is answered. The
// contract names the plan's parents; the code goes by the lists of children.
pub(crate) fn reach(plan: &Plan, scratch: &mut Scratch) -> usize
    requires { MayReach (contents plan.now.words).size (at (contents plan.now.words).parents) scratch.old.cells }
    ensures { Reached (contents plan.now.words).size (at (contents plan.now.words).parents) scratch.old.cells
        scratch.new.cells result }
{
    let root = scratch.get(Column::First, 0);
    scratch.put(Column::Queue, 0, root);
    // the queue grows while it is read
    let mut count = 1;
    let mut k = 0;
    while k < count {
        let task = scratch.get(Column::Queue, k);
        count = reach_children(scratch, task, count);
        k += 1;
    }
    count
}
