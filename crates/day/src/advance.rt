// Booking ahead and starting, the end of BEGIN, of DONE and of 08.
ghost use Rattle.words.specs.Contents.{contents};
ghost use Rattle.starting.specs.Started.{MayStart};
ghost use Rattle.day.specs.Advanced.{Advanced};

use booking::book_ahead;
use starting::start_ready;
use words::plan::Plan;

// How many tasks it starts.
pub(crate) fn advance(plan: &mut Plan, starts: &mut [u16]) -> usize
    requires { MayStart (contents plan.old.words) starts.old }
    ensures { Advanced (contents plan.old.words) (contents plan.new.words) starts.old starts.new result }
{
    book_ahead(plan);
    start_ready(plan, starts)
}
