// "In the running phase a step is waiting, booked, running or ended." A row has the standing of its task as
// a number.
#[derive(Clone, Copy, PartialEq, Eq)]
pub enum Standing {
    Waiting = 0,
    Activated = 1,
    Started = 2,
    Finished = 3,
}
