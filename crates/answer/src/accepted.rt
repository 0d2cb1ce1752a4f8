// The answer to a command that is accepted.
ghost use Rattle.std.specs.Prelude.{◌≡◌};

// "the bytes used and how many steps it starts. The peak is answered by BEGIN only, offers by DONE only;
// elsewhere both are 0." "The peak shall always come with its step": `by` is the task that sets it, and 0
// where no peak is answered.
#[derive(Clone, Copy, PartialEq, Eq)]
pub struct Accepted {
    pub used: usize,
    pub starts: usize,
    pub peak: u64,
    pub by: u16,
    pub offers: usize,
}

impl Accepted {
    // A command that starts nothing.
    pub fn plain(used: usize) -> Self
        ensures { result ≡ record { used = used; starts = 0; peak = 0; by = 0; offers = 0 } }
    {
        Accepted {
            used,
            starts: 0,
            peak: 0,
            by: 0,
            offers: 0,
        }
    }
}
