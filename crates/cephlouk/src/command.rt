// Commands as plain numbers: to bytes and back, so that no caller puts bytes together by hand.
ghost use Rattle.std.specs.Prelude.{◌≡◌};
ghost use Rattle.format.specs.Command as rules;
ghost use Rattle.codec.specs.Meaning.{command_of, decoded};
ghost use Rattle.answer.specs.Meaning.{wrote_of};
ghost use Rattle.answer.specs.Told.{told_count};
ghost use Rattle.cephlouk.specs.FlatCommand as flat;

use answer::Wrote;
use codec::{Command, Read, decode, encode};
use put::Page;
use refusal::Refusal;

// The byte of a command, and its operands by their names. What a command does not have is 0 where it is
// told, and not looked at where it is given.
#[repr(C)]
#[derive(Clone, Copy)]
pub struct FlatCommand {
    pub byte: u8,
    pub p: u8,
    pub n: u16,
    pub task: u16,
    pub parent: u16,
    pub work: u16,
    pub out: u16,
    pub bound: u32,
}

// What stands at a place of a stream: the ground of a refusal, or 0, the bytes used and the command. In a
// refusal all but the number is 0.
#[repr(C)]
#[derive(Clone, Copy)]
pub struct FlatDecoded {
    pub number: u8,
    pub used: usize,
    pub command: FlatCommand,
}

impl FlatCommand {
    // A byte with no operands.
    fn bare(byte: u8) -> Self
        ensures { result ≡ flat.bare byte }
    {
        FlatCommand {
            byte,
            p: 0,
            n: 0,
            task: 0,
            parent: 0,
            work: 0,
            out: 0,
            bound: 0,
        }
    }

    // A byte whose operand is a task.
    fn of_task(byte: u8, task: u16) -> Self
        ensures { result ≡ flat.of_task byte task }
    {
        FlatCommand {
            task,
            ..FlatCommand::bare(byte)
        }
    }
}

// The numbers of a command, case by case.
impl From<Command> for FlatCommand {
    ghost from_gives = { λ command told. told ≡ flat.flat_command (command_of command) };

    fn from(command: Command) -> FlatCommand {
        match command {
            Command::Plan { n, p, bound } => FlatCommand {
                n,
                p,
                bound,
                ..FlatCommand::bare(1)
            },
            Command::Task { parent, work, out } => FlatCommand {
                parent,
                work,
                out,
                ..FlatCommand::bare(2)
            },
            Command::Activation(task) => FlatCommand::of_task(3, task),
            Command::Execution(task) => FlatCommand::of_task(4, task),
            Command::Begin => FlatCommand::bare(5),
            Command::Done(task) => FlatCommand::of_task(6, task),
            Command::Fetch => FlatCommand::bare(7),
            Command::Places(bound) => FlatCommand {
                bound,
                ..FlatCommand::bare(8)
            },
        }
    }
}

// The command that the numbers name, with how many bytes it has, or "the byte is none of .." (2).
impl TryFrom<FlatCommand> for Read {
    type Error = Refusal;

    ghost try_from_gives = { λ given read. decoded read ≡ flat.known (flat.named given) };

    fn try_from(given: FlatCommand) -> Result<Read, Refusal> {
        match given.byte {
            1 => Ok(Read {
                command: Command::Plan {
                    n: given.n,
                    p: given.p,
                    bound: given.bound,
                },
                used: 8,
            }),
            2 => Ok(Read {
                command: Command::Task {
                    parent: given.parent,
                    work: given.work,
                    out: given.out,
                },
                used: 7,
            }),
            3 => Ok(Read {
                command: Command::Activation(given.task),
                used: 3,
            }),
            4 => Ok(Read {
                command: Command::Execution(given.task),
                used: 3,
            }),
            5 => Ok(Read {
                command: Command::Begin,
                used: 1,
            }),
            6 => Ok(Read {
                command: Command::Done(given.task),
                used: 3,
            }),
            7 => Ok(Read {
                command: Command::Fetch,
                used: 1,
            }),
            8 => Ok(Read {
                command: Command::Places(given.bound),
                used: 5,
            }),
            _ => Err(Refusal::UnknownByte),
        }
    }
}

impl From<Result<Read, Refusal>> for FlatDecoded {
    ghost from_gives = { λ outcome told. told ≡ flat.flat_decoded (decoded outcome) };

    fn from(outcome: Result<Read, Refusal>) -> FlatDecoded {
        match outcome {
            Ok(read) => FlatDecoded {
                number: 0,
                used: read.used,
                command: FlatCommand::from(read.command),
            },
            Err(refusal) => FlatDecoded {
                number: u8::from(refusal),
                used: 0,
                command: FlatCommand::bare(0),
            },
        }
    }
}

// A command that is named goes to the front of a list that has room for it: how many bytes it has.
fn encode_named(given: FlatCommand, list: &mut [u8]) -> Result<usize, Refusal>
    ensures { wrote_of (told_count result) list.new ≡ flat.encode given list.old }
{
    let read = Read::try_from(given)?;
    if list.len() < read.used {
        return Err(Refusal::ShortList);
    }
    let mut page = Page::new(list, 0);
    encode(read.command, &mut page);
    Ok(page.place())
}

// The bytes of a command, to the front of a lent list, which a refusal leaves as it was: 2 where the byte
// is unknown, then 11 where the list is shorter than the command.
#[unsafe(no_mangle)]
pub extern "C" fn cephlouk_encode(command: FlatCommand, list: &mut [u8]) -> Wrote
    ensures { wrote_of result list.new ≡ flat.encode command list.old }
{
    Wrote::from(encode_named(command, list))
}

// The command at a place of a stream.
#[unsafe(no_mangle)]
pub extern "C" fn cephlouk_decode(stream: &[u8], place: usize) -> FlatDecoded
    ensures { result ≡ flat.flat_decoded (rules.decode stream.now place) }
{
    FlatDecoded::from(decode(stream, place))
}
