// The lines of the day printer. Each is written to the front of a lent buffer, as much of it as
// there is room for, and the answer is the number of bytes written.
#![tactic(auto)]

mod tail;

ghost use Rattle.std.specs.Prelude.{length};
ghost use Rattle.texts.specs.Text.{begin_line, done_line, fetch_line, places_line, refused_line};
ghost use Rattle.lines.specs.Line.{Line, told};

use put::Page;
pub use tail::Figures;

// No line has more bytes.
pub const LONGEST_LINE: usize = 512;

// The line of an accepted BEGIN: the peak, the task that sets it, the figures, and the tasks started.
pub fn begin_line(buffer: &mut [u8], peak: u64, by: u16, figures: Figures, started: &[u16]) -> usize
    ensures { Line (told (begin_line (record { trays = peak; task = by })) figures started.now)
        (length started.now) buffer.old buffer.new result }
{
    let mut page = Page::new(buffer, 0);
    page.text(b"begin peak=");
    page.decimal(peak);
    page.text(b" by=");
    page.decimal(by as u64);
    figures.put(started, &mut page);
    page.place()
}

// The line of an accepted DONE: the task finished, the offers made, and the rest as for BEGIN.
pub fn done_line(
    buffer: &mut [u8],
    task: u16,
    offers: usize,
    figures: Figures,
    started: &[u16],
) -> usize
    ensures { Line (told (done_line task offers) figures started.now)
        (length started.now) buffer.old buffer.new result }
{
    let mut page = Page::new(buffer, 0);
    page.text(b"done ");
    page.decimal(task as u64);
    page.text(b" offers=");
    page.decimal(offers as u64);
    figures.put(started, &mut page);
    page.place()
}

// The line of an accepted FETCH.
pub fn fetch_line(buffer: &mut [u8], booked: u32) -> usize
    ensures { Line (fetch_line booked) 0 buffer.old buffer.new result }
{
    let mut page = Page::new(buffer, 0);
    page.text(b"fetch booked=");
    page.decimal(booked as u64);
    page.byte(b'\n');
    page.place()
}

// The line of an accepted 08: the new bound, and the rest as for BEGIN.
pub fn places_line(buffer: &mut [u8], bound: u32, figures: Figures, started: &[u16]) -> usize
    ensures { Line (told (places_line bound) figures started.now)
        (length started.now) buffer.old buffer.new result }
{
    let mut page = Page::new(buffer, 0);
    page.text(b"places M=");
    page.decimal(bound as u64);
    figures.put(started, &mut page);
    page.place()
}

// The line of a refusal: its number, and the byte offset of the command.
pub fn refused_line(buffer: &mut [u8], number: u8, offset: u64) -> usize
    ensures { Line (refused_line number offset) 0 buffer.old buffer.new result }
{
    let mut page = Page::new(buffer, 0);
    page.text(b"refused ");
    page.decimal(number as u64);
    page.text(b" at ");
    page.decimal(offset);
    page.byte(b'\n');
    page.place()
}
