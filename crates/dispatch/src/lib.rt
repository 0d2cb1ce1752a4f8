// Sharing out: a task ends, and what it held goes up from parent to parent.
#![tactic(auto)]

ghost use Rattle.std.specs.Prelude.{◌≡◌};
ghost use Rattle.words.specs.Contents.{contents};
ghost use Rattle.dispatch.specs.Climb.{MayClimb, DidClimb};
ghost use Rattle.dispatch.specs.Ended.{MayEnd, ended, MayFeed, Fed, root_ended};
ghost use Rattle.dispatch.specs.Finished.{MayFinish, Finished};

use cells::Cells;
use ready::insert;
use store::Store;
use words::plan::Plan;
use words::standing::Standing;

// What a climb comes to.
#[derive(Clone, Copy)]
struct Passed {
    // the tasks on the way, each one offer
    offers: usize,
    // what is left of R, and free
    left: u32,
}

// "Then climb from parent to parent, from j's parent on, ending at the first of: past the root, a
// step that is waiting, R is 0." `below` is j and `units` is R. The figures still have R in them, and
// lose it where the climb passes or stops at a waiting task.
fn climb(plan: &mut Plan, store: Store, below: usize, units: u32) -> Passed
    requires { MayClimb store.offset below units (contents plan.old.words) }
    ensures { DidClimb below units (contents plan.old.words) (contents plan.new.words) result.offers result.left }
{
    let mut i = plan.cell(below, Plan::PARENT) as usize;
    let mut left = units;
    let mut offers = 0;
    while i != 0 && left != 0 {
        if plan.stands(i, Standing::Waiting) {
            store.rest(plan, i, left);
            break;
        }
        left = store.pass(plan, i, left);
        offers += 1;
        i = plan.cell(i, Plan::PARENT) as usize;
    }
    Passed { offers, left }
}

// The parent waits for one child fewer, and is ready where it waits for none and is booked.
fn feed(plan: &mut Plan, parent: usize)
    requires { MayFeed parent (contents plan.old.words) }
    ensures { Fed parent (contents plan.old.words) (contents plan.new.words) }
{
    let unended = plan.cell(parent, Plan::UNENDED) - 1;
    plan.set_cell(parent, Plan::UNENDED, unended);
    if unended == 0 && plan.stands(parent, Standing::Activated) {
        let place = plan.cell(parent, Plan::PLACE) as usize;
        insert(plan, place);
    }
}

// The task is an ended one, and one fewer runs.
fn end(plan: &mut Plan, task: usize)
    requires { MayEnd task (contents plan.old.words) }
    ensures { contents plan.new.words ≡ ended task (contents plan.old.words) }
{
    let active = plan.cell(Plan::HEAD, Plan::ACTIVE);
    let ended = plan.cell(Plan::HEAD, Plan::ENDED);
    plan.set_standing(task, Standing::Finished);
    plan.set_cell(Plan::HEAD, Plan::ACTIVE, active - 1);
    plan.set_cell(Plan::HEAD, Plan::ENDED, ended + 1);
}

// "When step j ends, its booked trays, call them R, are taken from it. If it has a parent, the
// parent is given j's out, and R falls by it. .. What is left of R is free. The answer carries the
// number of offers made."
pub fn finish(plan: &mut Plan, task: usize) -> usize
    requires { MayFinish (contents plan.old.words) task }
    ensures { Finished (contents plan.old.words) task (contents plan.new.words) result }
{
    let parent = plan.cell(task, Plan::PARENT) as usize;
    end(plan, task);
    feed(plan, parent);
    let units = Store::CHILLED.release(plan, task);
    let passed = climb(plan, Store::CHILLED, task, units);
    Store::CHILLED.free(plan, passed.left);
    passed.offers
}

// "When the root ends, its out remains booked and in use": what else it held is free, and nobody is
// above it to be offered anything.
pub fn end_root(plan: &mut Plan, task: usize)
    requires { MayEnd task (contents plan.old.words) }
    ensures { contents plan.new.words ≡ root_ended task (contents plan.old.words) }
{
    end(plan, task);
    let out = plan.cell(task, Plan::CHILLED + Plan::OUT);
    Store::CHILLED.hold_alone(plan, task, out);
}
