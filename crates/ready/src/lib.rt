// The ready set: a bit for each place of the execution order. The first place of the set is found by
// two looks.
#![tactic(auto)]

ghost use Rattle.std.specs.Prelude.{◌≡◌, true, false, ◌<◌};
ghost use Rattle.words.specs.Layout.{words, entries};
ghost use Rattle.words.specs.Contents.{contents};
ghost use Rattle.words.specs.Marks.{MayChange, Changed, FirstMarked, Marked};
ghost use Rattle.ready.specs.Flipped.{Flipped};

use cells::Cells;
use words::plan::Plan;

// Adds a place that is not in the set, and takes one that is.
fn flip(plan: &mut Plan, place: usize)
    requires { ((contents plan.old.words).extent ≡ words) × (place < entries) }
    ensures { Flipped place (contents plan.old.words) (contents plan.new.words) }
{
    let block = place / Plan::BITS;
    let word = plan.entry(Plan::READY_SET, block);
    let flipped = word ^ (1 << (place % Plan::BITS));
    plan.set_entry(Plan::READY_SET, block, flipped);
    if word == 0 || flipped == 0 {
        let filled = plan.entry(Plan::FILLED, 0);
        plan.set_entry(Plan::FILLED, 0, filled ^ (1 << block));
    }
}

// Adds a place that is not in the set.
pub fn insert(plan: &mut Plan, place: usize)
    requires { MayChange place false (contents plan.old.words) }
    ensures { Changed place true (contents plan.old.words) (contents plan.new.words) }
{
    flip(plan, place);
}

// Takes a place from the set.
pub fn remove(plan: &mut Plan, place: usize)
    requires { MayChange place true (contents plan.old.words) }
    ensures { Changed place false (contents plan.old.words) (contents plan.new.words) }
{
    flip(plan, place);
}

// The first place of the set.
pub fn first_ready(plan: &Plan) -> Option<usize>
    requires { Marked (contents plan.now.words) }
    ensures { FirstMarked (contents plan.now.words) result }
{
    let filled = plan.entry(Plan::FILLED, 0);
    if filled == 0 {
        return None;
    }
    let block = filled.trailing_zeros() as usize;
    let word = plan.entry(Plan::READY_SET, block);
    Some(Plan::BITS * block + word.trailing_zeros() as usize)
}
