// The level of a store as the tasks of the activation order run one at a time, and the largest sum
// with its task.
ghost use Rattle.std.specs.Prelude.{◌≡◌, ◌+◌, ◌^◌, ◌<◌, take};
ghost use Rattle.numbers.specs.Lists.{at};
ghost use Rattle.tree.specs.Peak;
ghost use Rattle.words.specs.Contents.{contents, store_contents};
ghost use Rattle.survey.specs.Level.{AtRow, kept_out, MayFeed, Fed, MayRun, MayPeak, meant, higher};

use cells::Cells;
use store::Store;
use words::plan::Plan;

// A row for each task, and row 0 for nobody.
const ROWS: usize = Plan::MAX_TASKS + 1;

// A sum, and the task that runs then.
#[derive(Clone, Copy, PartialEq, Eq)]
pub struct Peaked {
    pub trays: u64,
    pub task: u16,
}

// Adds the out of each task to the entry of its parent.
fn feed(plan: &Plan, store: Store, n: usize, fed: &mut [u64; ROWS])
    requires { MayFeed n store.offset plan.now.words fed.old }
    ensures { Fed n (at (contents plan.now.words).parents) (at (store_contents store.offset plan.now.words).outs) fed.new }
{
    for task in 1..n + 1 {
        let parent = plan.cell(task, Plan::PARENT) as usize;
        let out = plan.cell(task, store.offset + Plan::OUT) as u64;
        fed[parent] += out;
    }
}

// The higher sum once another task has run: of equals the earlier.
fn highest_of(best: Peaked, trays: u64, task: u16) -> Peaked
    ensures { meant result ≡ higher (meant best) (record { trays = trays; task = task }) }
{
    if best.trays < trays {
        return Peaked { trays, task };
    }
    best
}

// What the store holds while a task runs: its work and its out, and what was there.
fn sum(plan: &Plan, store: Store, task: usize, level: u64) -> u64
    requires { AtRow store.offset task × (level < 2 ^ 63) }
    ensures { result ≡ level + at (store_contents store.offset plan.now.words).works task + at (store_contents store.offset plan.now.words).outs task }
{
    let work = plan.cell(task, store.offset + Plan::WORK) as u64;
    let out = plan.cell(task, store.offset + Plan::OUT) as u64;
    level + work + out
}

// What a task leaves in the store: its out, but nothing where it is the root.
fn kept_out(plan: &Plan, store: Store, task: usize) -> u64
    requires { AtRow store.offset task }
    ensures { (result ≡ kept_out (at (contents plan.now.words).parents task) (at (store_contents store.offset plan.now.words).outs task))
        × (result < 2 ^ 32) }
{
    let out = plan.cell(task, store.offset + Plan::OUT) as u64;
    if plan.cell(task, Plan::PARENT) == 0 {
        0
    } else {
        out
    }
}

// The largest sum along the order and its task, with the outs of the children of each task at hand.
fn highest(plan: &Plan, store: Store, n: usize, fed: &[u64; ROWS]) -> Peaked
    requires { MayRun n store.offset plan.now.words fed.now }
    ensures { meant result ≡ Peak.peaked n (at (contents plan.now.words).parents) (at (store_contents store.offset plan.now.words).works)
        (at (store_contents store.offset plan.now.words).outs) (take n (contents plan.now.words).activation) }
{
    // No sum is below 0, and where all are 0 the first is the earliest.
    let first = plan.entry(Plan::ACTIVATION, 0) as u16;
    let mut best = Peaked {
        trays: 0,
        task: first,
    };
    let mut level = 0;
    for place in 0..n {
        let task = plan.entry(Plan::ACTIVATION, place) as usize;
        best = highest_of(best, sum(plan, store, task, level), task as u16);
        level = level + kept_out(plan, store, task) - fed[task];
    }
    best
}

// The peak of the activation order with its task, where it is valid.
pub(crate) fn peak(plan: &Plan, store: Store, n: usize) -> Peaked
    requires { MayPeak n store.offset plan.now.words }
    ensures { meant result ≡ Peak.peaked n (at (contents plan.now.words).parents) (at (store_contents store.offset plan.now.words).works)
        (at (store_contents store.offset plan.now.words).outs) (take n (contents plan.now.words).activation) }
{
    let mut fed = [0u64; ROWS];
    feed(plan, store, n, &mut fed);
    highest(plan, store, n, &fed)
}
