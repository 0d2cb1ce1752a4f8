// What the lines of BEGIN, DONE and 08 go on with: the figures, and the tasks that were started.
ghost use Rattle.texts.specs.Text.{spaced, listed, figures};
ghost use Rattle.put.specs.Pages.{Puts};
ghost use Rattle.lines.specs.Line.{told};

use put::Page;

// The trays booked and in use, and the fullness.
#[derive(Clone, Copy)]
pub struct Figures {
    pub booked: u32,
    pub used: u32,
    pub full: u32,
}

impl Figures {
    // They go ahead of the tasks that were started.
    pub(crate) fn put(self, started: &[u16], page: &mut Page)
        ensures { Puts (told figures self started.now) page.old page.new }
    {
        page.text(b" booked=");
        page.decimal(self.booked as u64);
        page.text(b" used=");
        page.decimal(self.used as u64);
        page.text(b" full=");
        page.decimal(self.full as u64);
        page.text(b" start");
        listed(started, page);
        page.byte(b'\n');
    }
}

// Each task behind a space.
fn spaced(tasks: &[u16], page: &mut Page)
    ensures { Puts (spaced tasks.now) page.old page.new }
{
    for task in tasks {
        page.byte(b' ');
        page.decimal(*task as u64);
    }
}

// The tasks, or `-` where there is none.
fn listed(tasks: &[u16], page: &mut Page)
    ensures { Puts (listed tasks.now) page.old page.new }
{
    if tasks.is_empty() {
        page.text(b" -");
    } else {
        spaced(tasks, page);
    }
}
