// The children of every task, as a list of links.
ghost use Rattle.std.specs.Prelude.{◌≡◌, ◌+◌, ◌≤◌, set};
ghost use Rattle.numbers.specs.Lists.{at};
ghost use Rattle.numbers.specs.Limits.{max_tasks};
ghost use Rattle.words.specs.Contents.{contents};
ghost use Rattle.children.specs.Scratch.{first, sibling};
ghost use Rattle.children.specs.Listing.{MayList, Listed};

use crate::scratch::{Column, Scratch};
use cells::Cells;
use words::plan::Plan;

// A child goes to the front of its parent's list.
fn add_child(scratch: &mut Scratch, parent: usize, child: usize)
    requires { (parent ≤ max_tasks) × (child ≤ max_tasks) }
    ensures { scratch.new.cells ≡ set (set scratch.old.cells (sibling + child)
        (at scratch.old.cells (first + parent))) (first + parent) child }
{
    let next = scratch.get(Column::First, parent);
    scratch.put(Column::Sibling, child, next);
    scratch.put(Column::First, parent, child);
}

// Every task in the list of its parent, and the root in that of nobody: each list is by falling number.
pub fn list_children(plan: &Plan, n: usize, scratch: &mut Scratch)
    requires { MayList n (at (contents plan.now.words).parents) scratch.old.cells }
    ensures { Listed n (at (contents plan.now.words).parents) scratch.new.cells }
{
    for task in 1..n + 1 {
        let parent = plan.cell(task, Plan::PARENT) as usize;
        add_child(scratch, parent, task);
    }
}
