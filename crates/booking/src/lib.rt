// Booking ahead: the next tasks of the activation order get the memory that they miss.
#![tactic(auto)]

ghost use Rattle.words.specs.Contents.{contents};
ghost use Rattle.store.specs.Kept.{Kept};
ghost use Rattle.booking.specs.Booked.{MayActivate, DidActivate, SomeWait, BookedNext, BookedAhead};

use cells::Cells;
use ready::insert;
use store::Store;
use words::plan::Plan;
use words::standing::Standing;

// A task becomes booked, and is ready where all its children have ended.
fn activate(plan: &mut Plan, task: usize)
    requires { MayActivate task (contents plan.old.words) }
    ensures { DidActivate task (contents plan.old.words) (contents plan.new.words) }
{
    plan.set_standing(task, Standing::Activated);
    if plan.cell(task, Plan::UNENDED) == 0 {
        let place = plan.cell(task, Plan::PLACE) as usize;
        insert(plan, place);
    }
}

// "Look at the first waiting step in the activation order. .. If B + missing is at most M, it gets
// them and becomes booked": whether it is.
fn book_next(plan: &mut Plan, next: usize) -> bool
    requires { SomeWait (contents plan.old.words) next }
    ensures { BookedNext plan.old.words plan.new.words (contents plan.old.words) (contents plan.new.words) result }
{
    let task = plan.entry(Plan::ACTIVATION, next) as usize;
    let units = Store::CHILLED.missing(plan, task);
    if !Store::CHILLED.has_room(plan, units) {
        return false;
    }
    Store::CHILLED.grant(plan, task, units);
    activate(plan, task);
    plan.set_cell(Plan::HEAD, Plan::NEXT, next as u32 + 1);
    true
}

// "and the next is looked at. Otherwise booking ahead stops. No later step is tried."
pub fn book_ahead(plan: &mut Plan)
    requires { Kept (contents plan.old.words) }
    ensures { BookedAhead (contents plan.old.words) (contents plan.new.words) }
{
    let n = plan.cell(Plan::HEAD, Plan::SIZE) as usize;
    let first = plan.cell(Plan::HEAD, Plan::NEXT) as usize;
    for next in first..n {
        if !book_next(plan, next) {
            break;
        }
    }
}
