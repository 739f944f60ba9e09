//! One line: read, taken, and put behind those that are gathered.

ghost use Rattle.std.specs.Prelude.{◌≡◌, IfErr, IfOk};
ghost use Rattle.std.specs.Io.Buffered.{reader_remaining};
ghost use Rattle.line_server.specs.declared.fault.ServeFault.TheVariants.{Memory};
ghost use Rattle.line_server.specs.Turns.{TakesOrEnds, IsLineTurn};

use crate::fault::{End, ServeFault};
use crate::reading::read_line;
use crate::room::Room;
use crate::taking::{Next, TakesLines};
use std::io::BufRead;

/// Has the line taken that stands in the room, and puts its answer there. Answers whether it is
/// to be kept, where it does not end the run.
fn take_line<T: TakesLines>(taker: &mut T, room: &mut Room) -> Result<Option<bool>, ServeFault>
    ensures taken { IfOk result (λ kept. TakesOrEnds T.step T.ends taker.old room.old.line.items kept
        room.new.answer.items taker.new) }
    ensures line { room.new.line.items ≡ room.old.line.items }
    ensures kept { room.new.kept.items ≡ room.old.kept.items }
    ensures told { room.new.told.items ≡ room.old.told.items }
    ensures fault { IfErr result (λ e. e ≡ Memory) }
{
    room.answer.clear();
    match taker.take(&room.line, &mut room.answer)? {
        Next::End => Ok(None),
        Next::Keep => Ok(Some(true)),
        Next::Answer => Ok(Some(false)),
    }
}

/// Reads a line, has it taken, and gathers what is kept of it and its answer.
pub(crate) fn turn<T: TakesLines, R: BufRead>(
    taker: &mut T,
    requests: &mut R,
    room: &mut Room,
) -> Result<Option<End>, ServeFault>
    ensures { IsLineTurn T.step T.ends taker.old (R.remaining requests.old) room.old.kept.items room.old.told.items
        result taker.new (R.remaining requests.new) room.new.kept.items room.new.told.items }
{
    if !read_line(requests, &mut room.line)? {
        return Ok(Some(End::Input));
    }
    let Some(is_kept) = take_line(taker, room)? else {
        return Ok(Some(End::Asked));
    };
    match room.gather(is_kept) {
        Ok(()) => Ok(None),
        Err(fault) => Err(fault),
    }
}
