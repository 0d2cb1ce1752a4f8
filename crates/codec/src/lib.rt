// Bytes to commands and back: "A command is one byte and operands of fixed width, lowest byte first."
#![tactic(auto)]

ghost use Rattle.std.specs.Prelude.{◌≡◌, ◌≤◌, ◌<◌, ◌^◌, ◌∷◌, drop};
ghost use Rattle.format.specs.Command as rules;
ghost use Rattle.put.specs.Pages.{Puts};
ghost use Rattle.codec.specs.Meaning.{command_of, decoded};

use put::Page;
use refusal::Refusal;

#[derive(Clone, Copy, PartialEq, Eq)]
pub enum Command {
    // PLAN: n, p and M
    Plan { n: u16, p: u8, bound: u32 },
    // STEP: the next task
    Task { parent: u16, work: u16, out: u16 },
    // next in the activation order, and in the execution order
    Activation(u16),
    Execution(u16),
    Begin,
    // this task has ended
    Done(u16),
    // the trolley is fetched
    Fetch,
    // other places of the cold room: a new M
    Places(u32),
}

// What is read at a place of a stream: a command, and the bytes that it uses.
#[derive(Clone, Copy, PartialEq, Eq)]
pub struct Read {
    pub command: Command,
    pub used: usize,
}

// What follows the first `count` bytes: nothing, where there are fewer.
fn after(given: &[u8], count: usize) -> &[u8]
    ensures { result.now ≡ drop count given.now }
{
    &given[count.min(given.len())..]
}

// The number in the first `WIDTH` bytes, the lowest first. A byte past the end counts as 0.
fn number<const WIDTH: usize>(given: &[u8]) -> u64
    requires { WIDTH ≤ 4 }
    ensures lowest_first { result ≡ rules.number WIDTH given.now }
    ensures fits { result < 256 ^ WIDTH }
{
    let mut sum = 0;
    // what the next byte counts: behind the fourth more than 32 bits hold
    let mut unit: u64 = 1;
    for place in 0..WIDTH {
        sum += unit * given.get(place).copied().unwrap_or(0) as u64;
        unit *= 256;
    }
    sum
}

// A command with `width` bytes of operands, or "operands are cut short" (1).
fn whole(given: &[u8], width: usize, command: Command) -> Result<Read, Refusal>
    ensures { decoded result ≡ rules.whole given.now width (command_of command) }
{
    if given.len() < width {
        return Err(Refusal::CutShort);
    }
    Ok(Read {
        command,
        used: 1 + width,
    })
}

// The table of commands: the byte picks operand width and meaning; "the byte is none of 01 to 06" (2);
// 07 "leaves the unknown ones", and 08 "is known".
#[inline(always)]
fn table(byte: u8, given: &[u8]) -> Result<Read, Refusal>
    ensures { decoded result ≡ rules.table byte given.now }
{
    match byte {
        1 => whole(
            given,
            7,
            Command::Plan {
                n: number::<2>(given) as u16,
                p: number::<1>(after(given, 2)) as u8,
                bound: number::<4>(after(given, 3)) as u32,
            },
        ),
        2 => whole(
            given,
            6,
            Command::Task {
                parent: number::<2>(given) as u16,
                work: number::<2>(after(given, 2)) as u16,
                out: number::<2>(after(given, 4)) as u16,
            },
        ),
        3 => whole(given, 2, Command::Activation(number::<2>(given) as u16)),
        4 => whole(given, 2, Command::Execution(number::<2>(given) as u16)),
        5 => whole(given, 0, Command::Begin),
        6 => whole(given, 2, Command::Done(number::<2>(given) as u16)),
        7 => whole(given, 0, Command::Fetch),
        8 => whole(given, 4, Command::Places(number::<4>(given) as u32)),
        _ => Err(Refusal::UnknownByte),
    }
}

// The command at a place of a stream, or "no byte is left" (1).
#[inline(always)]
#[tactic(auto, unfolding(format::specs::Command::decode))]
pub fn decode(stream: &[u8], place: usize) -> Result<Read, Refusal>
    ensures { decoded result ≡ rules.decode stream.now place }
{
    let byte = *stream.get(place).ok_or(Refusal::CutShort)?;
    table(byte, &stream[place + 1..])
}

// The byte of a command and its first operand.
fn start(byte: u8, operand: u16, page: &mut Page)
    ensures { Puts (byte ∷ rules.little 2 operand) page.old page.new }
{
    page.byte(byte);
    page.little(2, operand as u64);
}

// The bytes of a command, put on a page.
#[inline(always)]
pub fn encode(command: Command, page: &mut Page)
    ensures { Puts (rules.bytes (command_of command)) page.old page.new }
{
    match command {
        Command::Plan { n, p, bound } => {
            start(1, n, page);
            page.little(1, p as u64);
            page.little(4, bound as u64);
        }
        Command::Task { parent, work, out } => {
            start(2, parent, page);
            page.little(2, work as u64);
            page.little(2, out as u64);
        }
        Command::Activation(task) => start(3, task, page),
        Command::Execution(task) => start(4, task, page),
        Command::Begin => page.byte(5),
        Command::Done(task) => start(6, task, page),
        Command::Fetch => page.byte(7),
        Command::Places(bound) => {
            page.byte(8);
            page.little(4, bound as u64);
        }
    }
}
