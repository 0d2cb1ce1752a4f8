// The planners' desk: "its own list of step records", which other languages pass as a pointer and a
// length.
ghost use Rattle.std.specs.Prelude.{◌≡◌, replicate};
ghost use Rattle.peaks.specs.Desk.{desk};
ghost use Rattle.words.specs.Layout.{words};
ghost use Rattle.desk.specs.Records.{step_records, answer_of};

use desk::{DeskAnswer, TaskRecord, peak};
use words::plan::Plan;

// "Both lists are only read." Whatever was in the room, it is left an empty plan.
#[unsafe(no_mangle)]
pub extern "C" fn cephlouk_records_peak(
    records: &[TaskRecord],
    activation: &[u16],
    room: &mut Plan,
) -> DeskAnswer
    ensures { (desk (step_records records.now) activation.now
        ≡ answer_of result) × (room.new.words ≡ replicate words 0) }
{
    DeskAnswer::from(peak(records, activation, room))
}
