// Where the day printer stands in its input: the bytes at hand, the next command among them, and
// its offset.
#![tactic(auto)]

ghost use Rattle.std.specs.Prelude.{◌≡◌, ◌+◌, ◌^◌, ◌<◌, length, drop};
ghost use Rattle.std.proofs.Math.Seq.{paste};
ghost use Rattle.texts.specs.Printer as rules;
ghost use Rattle.position.specs.Standing.{position_of, Stands};

// The bytes at hand are the first `filled` of a buffer. The next command is at `place` among them,
// `offset` bytes from the start of the input, and `is_last` says that the input ends with them.
#[derive(Clone, Copy)]
pub struct Position {
    place: usize,
    filled: usize,
    offset: u64,
    is_last: bool,
}

impl Position {
    // Nothing has come yet.
    pub fn start() -> Self
        ensures { position_of result ≡ rules.start }
    {
        Position {
            place: 0,
            filled: 0,
            offset: 0,
            is_last: false,
        }
    }

    // How many bytes are at hand.
    pub fn filled(self) -> usize
        ensures { result ≡ (position_of self).filled }
    {
        self.filled
    }

    // The place of the next command among them.
    pub fn place(self) -> usize
        ensures { result ≡ (position_of self).place }
    {
        self.place
    }

    // Its offset from the start of the input.
    pub fn offset(self) -> u64
        ensures { result ≡ (position_of self).offset }
    {
        self.offset
    }

    // The input ends with the bytes at hand.
    pub fn is_last(self) -> bool
        ensures { result ≡ (position_of self).is_last }
    {
        self.is_last
    }

    // The offsets of a buffer's bytes from here on can be counted.
    #[tactic(auto, unfolding(texts::specs::Printer::is_counted))]
    pub fn is_counted(self, buffer: &[u8]) -> bool
        ensures { result ≡ rules.is_counted (length buffer.now) (position_of self) }
    {
        self.offset <= u64::MAX - buffer.len() as u64
    }

    // Bytes at hand were used.
    #[tactic(auto, unfolding(texts::specs::Printer::moved))]
    pub fn moved(self, used: usize) -> Self
        requires { (self.place + used < 2 ^ 64) × (self.offset + used < 2 ^ 64) }
        ensures { position_of result ≡ rules.moved used (position_of self) }
    {
        Position {
            place: self.place + used,
            offset: self.offset + used as u64,
            ..self
        }
    }

    // A read gave bytes behind those at hand, none where the input has ended.
    #[tactic(auto, unfolding(texts::specs::Printer::fed))]
    pub fn fed(self, count: usize) -> Self
        requires { self.filled + count < 2 ^ 64 }
        ensures { position_of result ≡ rules.fed count (position_of self) }
    {
        Position {
            filled: self.filled + count,
            is_last: count == 0,
            ..self
        }
    }
}

// The bytes at hand from the next command on go to the front of the buffer.
#[tactic(auto, unfolding(texts::specs::Printer::fronted))]
pub fn to_front(buffer: &mut [u8], position: Position) -> Position
    requires { Stands position (length buffer.old) }
    ensures { (position_of result ≡ rules.fronted (position_of position))
        × (buffer.new ≡ paste buffer.old 0 (drop position.place buffer.old) result.filled) }
{
    buffer.copy_within(position.place..position.filled, 0);
    Position {
        place: 0,
        filled: position.filled - position.place,
        ..position
    }
}
