// The planners' desk: the peak of the caller's own records, with the task that sets it. The records
// are only read: they are written into the rows of a plan, which is surveyed as at BEGIN.
#![tactic(auto)]

mod flat;
mod room;

ghost use Rattle.std.specs.Prelude.{◌≡◌, replicate};
ghost use Rattle.peaks.specs.Desk.{desk};
ghost use Rattle.words.specs.Layout.{words};
ghost use Rattle.desk.specs.Records.{step_records, answer_of, told};

use cells::Cells;
use measure::is_within;
use refusal::Refusal;
pub use survey::Peaked;
use survey::survey;
use words::plan::Plan;

// "A record is parent, work and out": one task (step).
#[repr(C)]
#[derive(Clone, Copy)]
pub struct TaskRecord {
    pub parent: u16,
    pub work: u16,
    pub out: u16,
}

// What the desk is answered: the number of a ground, or 0, the peak, and `by`, the task that sets it.
// Both are 0 on a refusal.
#[repr(C)]
#[derive(Clone, Copy)]
pub struct DeskAnswer {
    pub number: u8,
    pub peak: u64,
    pub by: u16,
}

// What the desk is answered for the records, which are written into an empty room.
fn answer(records: &[TaskRecord], activation: &[u16], room: &mut Plan) -> Result<Peaked, Refusal>
    requires { room.old.words ≡ replicate words 0 }
    ensures { desk (step_records records.now) activation.now ≡ answer_of (told result) }
{
    let n = records.len();
    if activation.len() != n {
        return Err(Refusal::OutsideLimits);
    }
    if !is_within(n, Plan::MAX_TASKS) {
        return Err(Refusal::OutsideLimits);
    }
    if !room::write_rows(room, records) {
        return Err(Refusal::OutsideLimits);
    }
    if !room::is_listed(n, activation) {
        return Err(Refusal::OutsideLimits);
    }
    room.set_cell(Plan::HEAD, Plan::SIZE, n as u32);
    room::write_order(room, activation);
    if !room::is_distinct(room, activation) {
        return Err(Refusal::Repeated);
    }
    survey(room)
}

// The room becomes an empty plan.
fn empty(room: &mut Plan)
    ensures { room.new.words ≡ replicate words 0 }
{
    room.words = [0u32; Plan::WORDS];
}

// "The planners' desk may ask the peak of its own list of step records, one record a step, with an
// activation list beside it. .. Both lists are only read." The rows of a plan are laid out in the room
// that the caller lends; whatever was there, it is left empty.
pub fn peak(records: &[TaskRecord], activation: &[u16], room: &mut Plan) -> Result<Peaked, Refusal>
    ensures { (desk (step_records records.now) activation.now ≡ answer_of (told result)) × (room.new.words ≡ replicate words 0) }
{
    empty(room);
    let answered = answer(records, activation, room);
    empty(room);
    answered
}
