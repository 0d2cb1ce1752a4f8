// "A reader keeps the lent command stream and how far it has come, and hands out one command after
// another."
#![tactic(auto)]

ghost use Rattle.std.specs.Prelude.{◌≡◌};
ghost use Rattle.format.specs.Command as rules;
ghost use Rattle.codec.specs.Meaning.{decoded};
ghost use Rattle.reader.specs.Onward.{onward};

use codec::{Read, decode};
use refusal::Refusal;

// A stream that is lent, and the place of the next command in it.
#[derive(Clone, Copy)]
pub struct Reader<'a> {
    bytes: &'a [u8],
    place: usize,
}

// The place `used` bytes further on, and the end of the stream where it has no such place.
#[tactic(auto, unfolding(crate::specs::Onward::onward))]
fn ahead(stream: &[u8], place: usize, used: usize) -> usize
    ensures { result ≡ onward stream.now place used }
{
    place.saturating_add(used).min(stream.len())
}

impl<'a> Reader<'a> {
    // A reader at the start of a stream. A plan keeps no reader, so that the next one may be set on
    // other bytes with the same plan.
    pub fn new(bytes: &'a [u8]) -> Reader<'a>
        ensures { (result.bytes ≡ bytes.entry) × (result.place ≡ 0) }
    {
        Reader { bytes, place: 0 }
    }

    // A reader that has come to a place of a stream.
    pub fn at(bytes: &'a [u8], place: usize) -> Reader<'a>
        ensures { (result.bytes ≡ bytes.entry)
            × (result.place ≡ onward bytes.now 0 place) }
    {
        Reader {
            bytes,
            place: ahead(bytes, 0, place),
        }
    }

    // How far it has come.
    pub fn place(self) -> usize
        ensures { result ≡ self.entry.place }
    {
        self.place
    }

    // The next command. The reader stays where it is until it is moved on.
    pub fn next(self) -> Result<Read, Refusal>
        ensures { decoded result ≡ rules.decode self.entry.bytes.now self.entry.place }
    {
        decode(self.bytes, self.place)
    }

    // "It moves on by the bytes used, so a refused command is still the next one."
    pub fn moved(self, used: usize) -> Reader<'a>
        ensures { (result.bytes ≡ self.entry.bytes)
            × (result.place ≡ onward self.entry.bytes.now self.entry.place used) }
    {
        Reader {
            place: ahead(self.bytes, self.place, used),
            ..self
        }
    }
}

// The command that stands at a place of a stream: a reader is set there and asked for the next. It
// serves callers that keep the place as a number.
pub fn next_at(stream: &[u8], place: usize) -> Result<Read, Refusal>
    ensures { decoded result ≡ rules.decode stream.now place }
{
    Reader::at(stream, place).next()
}
