// Room for more input.
ghost use Rattle.std.specs.Prelude.{◌-◌, ◌<◌, length};
ghost use Rattle.position.specs.Standing.{Stands};
ghost use Rattle.pump.specs.Filled.{Filled};

use position::{Position, to_front};
use std::io::{self, Read};

// The bytes at hand from the next command on go to the front of the buffer, and what one read gives
// is put behind them: the position afterwards. There is room for more, so that no byte comes only
// where the input has ended.
pub(crate) fn refill<R: Read>(
    reader: &mut R,
    buffer: &mut [u8],
    position: Position,
) -> io::Result<Position>
    requires { Stands position (length buffer.old) × (position.filled - position.place < length buffer.old) }
    ensures { Filled buffer.old position (R.remaining reader.old) buffer.new (R.remaining reader.new) result }
{
    let position = to_front(buffer, position);
    let left = position.filled();
    let count = reader.read(&mut buffer[left..])?;
    Ok(position.fed(count))
}
