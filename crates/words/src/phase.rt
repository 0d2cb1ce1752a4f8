// The phases of a plan, and in which of them trays of it lie in the cold room.
ghost use Rattle.std.specs.Prelude.{◌≡◌};
ghost use Rattle.rules.specs.Phase as phases;

// "Phases: empty, steps, orders, running, over", and "a new one, ready". A plan has its phase as a number
// among its words.
#[derive(Clone, Copy, PartialEq, Eq)]
pub enum Phase {
    Empty = 0,
    Steps = 1,
    Orders = 2,
    Running = 3,
    Over = 4,
    Ready = 5,
}

// Whether trays of a plan in that phase may lie in the cold room: from BEGIN to FETCH. No other number has any.
#[tactic(auto, unfolding(rules::specs::Phase::holds_trays))]
pub fn holds_trays(phase: u32) -> bool
    ensures { result ≡ phases.holds_trays phase }
{
    phase == Phase::Running as u32 || phase == Phase::Ready as u32
}
