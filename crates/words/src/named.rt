// The words of the head that have a name: the phase of a plan, and how far it is given.
ghost use Rattle.std.specs.Prelude.{◌≡◌, ◌+◌, ◌*◌, ◌<◌, eqb, set};
ghost use Rattle.numbers.specs.Lists.{at};
ghost use Rattle.rules.specs.Phase as phases;
ghost use Rattle.words.specs.Contents.{contents, head_word};
ghost use Rattle.words.specs.Kept.{counted_word, phase_number};
ghost use Rattle.words.specs.Layout.{head_base, row};

use crate::order::Order;
use crate::phase::{Phase, holds_trays};
use crate::plan::Plan;

impl Plan {
    // A word of the head.
    fn head(&self, column: usize) -> u32
        requires { column < row }
        ensures { result ≡ head_word column self.now.words }
    {
        self.words[Plan::ROW * Plan::HEAD + column]
    }

    // Whether it is in that phase.
    #[tactic(auto, unfolding(crate::specs::Contents::contents))]
    pub fn is_in(&self, phase: Phase) -> bool
        ensures { result ≡ eqb (contents self.now.words).phase (phase_number phase) }
    {
        self.head(Plan::PHASE) == phase as u32
    }

    // Whether trays of it may lie in the cold room.
    #[tactic(auto, unfolding(crate::specs::Contents::contents))]
    pub fn holds_trays(&self) -> bool
        ensures { result ≡ phases.holds_trays (contents self.now.words).phase }
    {
        holds_trays(self.head(Plan::PHASE))
    }

    // Whether an order has an entry for each task.
    #[tactic(auto, unfolding(crate::specs::Contents::contents))]
    pub fn is_complete(&self, order: Order) -> bool
        ensures { result ≡ eqb (head_word (counted_word order) self.now.words) (contents self.now.words).size }
    {
        self.head(order.counted()) == self.head(Plan::SIZE)
    }

    pub fn set_phase(&mut self, phase: Phase)
        ensures { self.new.words ≡ set self.old.words head_base (phase_number phase) }
    {
        self.words[Plan::ROW * Plan::HEAD + Plan::PHASE] = phase as u32;
    }
}
