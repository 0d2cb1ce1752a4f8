// The plan of the desk, in the words that the caller lends: the rows of the tasks and the activation
// order with its ranks.
ghost use Rattle.std.specs.Prelude.{◌≡◌, true, ◌≤◌, leb, length, replicate};
ghost use Rattle.numbers.specs.Sums.{every_to, within};
ghost use Rattle.numbers.specs.Lists.{every, distinct};
ghost use Rattle.numbers.specs.Limits.{max_tasks};
ghost use Rattle.peaks.specs.Desk.{desk_tasks};
ghost use Rattle.words.specs.Layout.{words};
ghost use Rattle.words.specs.Contents.{contents};
ghost use Rattle.desk.specs.Records.{step_records};
ghost use Rattle.desk.specs.Room.{AtRow, with_row, RowsWritten, MayWriteOrder, Ranked, OrderWritten};

use crate::TaskRecord;
use cells::Cells;
use measure::is_within;
use words::plan::Plan;

// Writes the row of a task, and says whether its parent is one of n tasks or nobody.
fn write_row(room: &mut Plan, n: usize, task: usize, entry: &TaskRecord) -> bool
    requires { AtRow task (contents room.old.words) }
    ensures { (result ≡ leb entry.now.parent n)
        × (contents room.new.words ≡ with_row task entry.now.parent entry.now.work entry.now.out (contents room.old.words)) }
{
    room.set_cell(task, Plan::PARENT, entry.parent as u32);
    room.set_cell(task, Plan::CHILLED + Plan::WORK, entry.work as u32);
    room.set_cell(task, Plan::CHILLED + Plan::OUT, entry.out as u32);
    entry.parent as usize <= n
}

// Writes the rows of the tasks, and says whether each parent is one of them or nobody.
pub(crate) fn write_rows(room: &mut Plan, records: &[TaskRecord]) -> bool
    requires { (length records.now ≤ max_tasks) × (room.old.words ≡ replicate words 0) }
    ensures { (result ≡ every_to (λ i. leb ((desk_tasks (step_records records.now)).parent i) (length records.now)) (length records.now))
        × (result ≡ true → RowsWritten (desk_tasks (step_records records.now)) (contents room.new.words)) }
{
    for (place, entry) in records.iter().enumerate() {
        if !write_row(room, records.len(), place + 1, entry) {
            return false;
        }
    }
    true
}

// Whether each entry of the order is one of n tasks.
pub(crate) fn is_listed(n: usize, activation: &[u16]) -> bool
    ensures { result ≡ every (λ i. within i n) activation.now }
{
    activation.iter().all(|&task| is_within(task as usize, n))
}

// Writes the order, and its place as the rank of each task; of one that stands twice, the later.
pub(crate) fn write_order(room: &mut Plan, activation: &[u16])
    requires { MayWriteOrder activation.now (contents room.old.words) }
    ensures { OrderWritten activation.now (contents room.old.words) (contents room.new.words) }
{
    for (place, &task) in activation.iter().enumerate() {
        room.set_entry(Plan::ACTIVATION, place, task as u32);
        room.set_cell(task as usize, Plan::RANK, place as u32);
    }
}

// Whether each entry of the order stands at the rank of its task, so that none stands twice.
pub(crate) fn is_distinct(room: &Plan, activation: &[u16]) -> bool
    requires { Ranked activation.now (contents room.now.words).ranks }
    ensures { result ≡ distinct activation.now }
{
    for (place, &task) in activation.iter().enumerate() {
        if room.cell(task as usize, Plan::RANK) as usize != place {
            return false;
        }
    }
    true
}
