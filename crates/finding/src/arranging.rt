// The orders of all subtrees: a task has its turn once its children have had theirs.
ghost use Rattle.std.specs.Prelude.{◌≡◌, ◌++◌, drop};
ghost use Rattle.numbers.specs.Lists.{at};
ghost use Rattle.words.specs.Contents.{contents};
ghost use Rattle.finding.specs.Arranging.{MayArrange, AllArranged};
ghost use Rattle.finding.specs.Writing.{order_from, MayWrite};

use crate::joining::join;
use children::scratch::{Column, Scratch};
use words::plan::Plan;

// From the last task reached to the root.
pub(crate) fn arrange(plan: &Plan, scratch: &mut Scratch, n: usize)
    requires { (n ≡ (contents plan.now.words).size) × MayArrange (contents plan.now.words).size (at (contents plan.now.words).parents)
        (at (contents plan.now.words).stores.chilled.works) (at (contents plan.now.words).stores.chilled.outs) scratch.old.cells }
    ensures { AllArranged (contents plan.now.words).size (at (contents plan.now.words).parents)
        (at (contents plan.now.words).stores.chilled.works) (at (contents plan.now.words).stores.chilled.outs)
        scratch.old.cells scratch.new.cells }
{
    for place in (0..n).rev() {
        let task = scratch.get(Column::Queue, place);
        join(plan, scratch, task);
    }
}

// The order of the root's subtree, at the front of the list.
pub(crate) fn write_order(scratch: &Scratch, root: usize, list: &mut [u16], n: usize)
    requires { MayWrite n scratch.now.cells root list.old }
    ensures { list.new ≡ order_from n scratch.now.cells root ++ drop n list.old }
{
    let mut task = scratch.get(Column::Head, root);
    for place in 0..n {
        list[place] = task as u16;
        task = scratch.get(Column::After, task);
    }
}
