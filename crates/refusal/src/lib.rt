// "Grounds for refusing": why a command, or what the plan or the desk is asked, is refused.
#![tactic(auto)]

ghost use Rattle.std.specs.Prelude.{◌≡◌};
ghost use Rattle.refusal.specs.Number.{number_of};

// The grounds, each with its number.
#[derive(Clone, Copy, PartialEq, Eq)]
pub enum Refusal {
    // no byte is left, or operands are cut short
    CutShort = 1,
    UnknownByte = 2,
    // the command, or what is asked, is not in turn
    OutOfTurn = 3,
    // a number is outside its limits
    OutsideLimits = 4,
    // the step is already in that order
    Repeated = 5,
    // DONE for a step that is not running
    NotRunning = 6,
    // the steps with parent 0 are not exactly one
    NotOneRoot = 7,
    // some step does not stand before its parent in the activation order
    ParentFirst = 8,
    PeakAboveBound = 9,
    // the start list is too short
    FewStarts = 10,
    // the lent list is too short for what is to be written
    ShortList = 11,
    // some step's chain of parents never reaches the root
    RootUnreached = 12,
    // fewer places are given than trays are booked
    BoundBelowBooked = 13,
}

impl From<Refusal> for u8 {
    ghost from_gives = { λ refusal number. number ≡ number_of refusal };

    fn from(refusal: Refusal) -> u8 {
        refusal as u8
    }
}
