// Pieces of a list of bytes. Each is put into a lent buffer behind the one before, as much of it as
// there is room for.
#![tactic(auto)]

ghost use Rattle.std.specs.Prelude.{◌≡◌, [], ◌∷◌};
ghost use Rattle.format.specs.Command.{little};
ghost use Rattle.texts.specs.Text.{decimal};
ghost use Rattle.put.specs.Pages.{Puts};

// A lent buffer, and the place of the next piece in it.
#[derive(Drop)]
pub struct Page<'a> {
    buffer: &'a mut [u8],
    place: usize,
}

impl<'a> Page<'a> {
    // From a place of a buffer on.
    pub fn new(buffer: &'a mut [u8], place: usize) -> Page<'a>
        ensures same_buffer { result.buffer.ghost_name ≡ buffer.entry.ghost_name }
        ensures unwritten { result.buffer.now ≡ buffer.old }
        ensures at_place { result.place ≡ place }
    {
        Page { buffer, place }
    }

    // The place behind all that was put: how many bytes there was room for.
    pub fn place(&self) -> usize
        ensures { result ≡ self.now.place }
    {
        self.place
    }

    pub fn byte(&mut self, value: u8)
        ensures { Puts (value ∷ []) self.old self.new }
    {
        let place = self.place;
        let next = if place < self.buffer.len() {
            self.buffer[place] = value;
            place + 1
        } else {
            place
        };
        // once, on both ways: set on one alone, a plan takes half as long again to be written out
        self.place = next;
    }

    pub fn text(&mut self, bytes: &[u8])
        ensures { Puts bytes.now self.old self.new }
    {
        for x in bytes {
            self.byte(*x);
        }
    }

    // A number in decimal: the digits of its tenth part, and then its last digit.
    pub fn decimal(&mut self, x: u64)
        ensures { Puts (decimal x) self.old self.new }
    {
        if 10 <= x {
            self.decimal(x / 10);
        }
        self.byte(b'0' + (x % 10) as u8);
    }

    // A number in a fixed width, lowest byte first; what does not fit the width is left out.
    pub fn little(&mut self, width: usize, x: u64)
        ensures { Puts (little width x) self.old self.new }
    {
        let mut rest = x;
        for _ in 0..width {
            self.byte((rest % 256) as u8);
            rest /= 256;
        }
    }
}
