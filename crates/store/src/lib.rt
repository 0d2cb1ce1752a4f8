// One store of a plan.
#![tactic(auto)]

ghost use Rattle.std.specs.Prelude.{◌≡◌, ◌+◌, ◌-◌, ◌^◌, ◌≤◌, ◌<◌, leb};
ghost use Rattle.numbers.specs.Lists.{at};
ghost use Rattle.words.specs.Layout.{words};
ghost use Rattle.words.specs.Contents.{contents};
ghost use Rattle.store.specs.Store as stores;

use cells::Cells;
use words::plan::Plan;

// A store lies at an offset in the row of each task, and in the head. A second store is another offset.
#[derive(Clone, Copy)]
pub struct Store {
    pub offset: usize,
}

impl Store {
    pub const CHILLED: Store = Store {
        offset: Plan::CHILLED,
    };

    // "its need less (its own booked trays plus the subtree figures of its children), never below 0"
    pub fn missing(self, plan: &Plan, task: usize) -> u32
        requires { stores.AtTask self.offset task (contents plan.now.words) }
        ensures { result ≡ at (stores.store_at self.offset (contents plan.now.words)).needs task - at (stores.store_at self.offset (contents plan.now.words)).figures task }
    {
        let need = plan.cell(task, self.offset + Plan::NEED);
        let figure = plan.cell(task, self.offset + Plan::FIGURE);
        need.saturating_sub(figure)
    }

    // "If B + missing is at most M": what is booked is within the bound, so that the difference says it.
    pub fn has_room(self, plan: &Plan, units: u32) -> bool
        requires { stores.AtStore self.offset × ((stores.store_at self.offset (contents plan.now.words)).total ≤ (stores.store_at self.offset (contents plan.now.words)).bound) }
        ensures { result ≡ leb ((stores.store_at self.offset (contents plan.now.words)).total + units) (stores.store_at self.offset (contents plan.now.words)).bound }
    {
        let bound = plan.cell(Plan::HEAD, self.offset + Plan::BOUND);
        let total = plan.cell(Plan::HEAD, self.offset + Plan::TOTAL);
        units <= bound - total
    }

    // "the number of trays that step lacks": what B + missing has above M.
    pub fn shortage(self, plan: &Plan, units: u32) -> u32
        requires { stores.AtStore self.offset × ((stores.store_at self.offset (contents plan.now.words)).total ≤ (stores.store_at self.offset (contents plan.now.words)).bound) }
        ensures { result ≡ (stores.store_at self.offset (contents plan.now.words)).total + units - (stores.store_at self.offset (contents plan.now.words)).bound }
    {
        let bound = plan.cell(Plan::HEAD, self.offset + Plan::BOUND);
        let total = plan.cell(Plan::HEAD, self.offset + Plan::TOTAL);
        units.saturating_sub(bound - total)
    }

    // "it gets them": what a task misses, with its figure and its parent's.
    pub fn grant(self, plan: &mut Plan, task: usize, units: u32)
        requires { stores.MayGrant self.offset task units (contents plan.old.words) }
        ensures { contents plan.new.words ≡ stores.with_store_at self.offset (stores.granted (at (contents plan.old.words).parents task) task units) (contents plan.old.words) }
    {
        let parent = plan.cell(task, Plan::PARENT) as usize;
        let total = plan.cell(Plan::HEAD, self.offset + Plan::TOTAL);
        let booked = plan.cell(task, self.offset + Plan::BOOKED);
        let figure = plan.cell(task, self.offset + Plan::FIGURE) + units;
        plan.set_cell(Plan::HEAD, self.offset + Plan::TOTAL, total + units);
        plan.set_cell(task, self.offset + Plan::BOOKED, booked + units);
        plan.set_cell(task, self.offset + Plan::FIGURE, figure);
        grow(plan, parent, self.offset + Plan::FIGURE, figure);
    }

    // What a task brings into use as it starts.
    pub fn load(self, plan: &mut Plan, task: usize)
        requires { stores.AtTask self.offset task (contents plan.old.words) × ((stores.store_at self.offset (contents plan.old.words)).used + (at (stores.store_at self.offset (contents plan.old.words)).works task + at (stores.store_at self.offset (contents plan.old.words)).outs task) < 2 ^ 32) }
        ensures { contents plan.new.words ≡ stores.with_store_at self.offset (stores.loaded task) (contents plan.old.words) }
    {
        let work = plan.cell(task, self.offset + Plan::WORK);
        let out = plan.cell(task, self.offset + Plan::OUT);
        let used = plan.cell(Plan::HEAD, self.offset + Plan::USED);
        plan.set_cell(Plan::HEAD, self.offset + Plan::USED, used + (work + out));
    }

    // "Each step i on the way is one offer": what is left of R behind it.
    pub fn pass(self, plan: &mut Plan, task: usize, left: u32) -> u32
        requires { stores.MayPass self.offset task left (contents plan.old.words) }
        ensures { (contents plan.new.words ≡ stores.with_store_at self.offset (stores.passed task left) (contents plan.old.words))
            × (result ≡ left - stores.gift task left (stores.store_at self.offset (contents plan.old.words))) }
    {
        let figure = plan.cell(task, self.offset + Plan::FIGURE) - left;
        let need = plan.cell(task, self.offset + Plan::NEED);
        let gift = need.saturating_sub(figure);
        let booked = plan.cell(task, self.offset + Plan::BOOKED);
        plan.set_cell(task, self.offset + Plan::BOOKED, booked + gift);
        plan.set_cell(task, self.offset + Plan::FIGURE, figure + gift);
        left - gift
    }

    // What is left of R at a waiting task is in no figure from there on.
    pub fn rest(self, plan: &mut Plan, task: usize, left: u32)
        requires { stores.AtTask self.offset task (contents plan.old.words) × (left ≤ at (stores.store_at self.offset (contents plan.old.words)).figures task) }
        ensures { contents plan.new.words ≡ stores.with_store_at self.offset (stores.rested task left) (contents plan.old.words) }
    {
        let figure = plan.cell(task, self.offset + Plan::FIGURE);
        plan.set_cell(task, self.offset + Plan::FIGURE, figure - left);
    }

    // "When step j ends, its booked trays, call them R, are taken from it. If it has a parent, the
    // parent is given j's out, and R falls by it": what is left of R.
    pub fn release(self, plan: &mut Plan, task: usize) -> u32
        requires { stores.MayRelease self.offset task (contents plan.old.words) }
        ensures { (contents plan.new.words ≡ stores.with_store_at self.offset (stores.released (at (contents plan.old.words).parents task) task) (contents plan.old.words))
            × (result ≡ at (stores.store_at self.offset (contents plan.old.words)).booked task - at (stores.store_at self.offset (contents plan.old.words)).outs task) }
    {
        let parent = plan.cell(task, Plan::PARENT) as usize;
        let held = plan.cell(task, self.offset + Plan::BOOKED);
        let out = plan.cell(task, self.offset + Plan::OUT);
        let need = plan.cell(task, self.offset + Plan::NEED);
        let used = plan.cell(Plan::HEAD, self.offset + Plan::USED);
        plan.set_cell(Plan::HEAD, self.offset + Plan::USED, used - need + out);
        plan.set_cell(task, self.offset + Plan::BOOKED, 0);
        plan.set_cell(task, self.offset + Plan::FIGURE, 0);
        grow(plan, parent, self.offset + Plan::BOOKED, out);
        held - out
    }

    // "When the root ends, its out remains booked and in use", and FETCH "frees it": what one task holds
    // is all that is booked, and all that is in use.
    pub fn hold_alone(self, plan: &mut Plan, task: usize, units: u32)
        requires { stores.AtTask self.offset task (contents plan.old.words) }
        ensures { contents plan.new.words ≡ stores.with_store_at self.offset (stores.held_alone task units) (contents plan.old.words) }
    {
        plan.set_cell(task, self.offset + Plan::BOOKED, units);
        plan.set_cell(Plan::HEAD, self.offset + Plan::TOTAL, units);
        plan.set_cell(Plan::HEAD, self.offset + Plan::USED, units);
    }

    // "What is left of R is free."
    pub fn free(self, plan: &mut Plan, left: u32)
        requires { stores.AtStore self.offset × ((contents plan.old.words).extent ≡ words) × (left ≤ (stores.store_at self.offset (contents plan.old.words)).total) }
        ensures { contents plan.new.words ≡ stores.with_store_at self.offset (stores.freed left) (contents plan.old.words) }
    {
        let total = plan.cell(Plan::HEAD, self.offset + Plan::TOTAL);
        plan.set_cell(Plan::HEAD, self.offset + Plan::TOTAL, total - left);
    }
}

// An entry grows, where there is a task to have it.
fn grow(plan: &mut Plan, task: usize, column: usize, more: u32)
    requires { stores.MayGrow task column more plan.old.words }
    ensures { stores.Grown task column more plan.old.words plan.new.words }
{
    if task != 0 {
        let old = plan.cell(task, column);
        plan.set_cell(task, column, old + more);
    }
}
