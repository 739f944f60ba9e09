//! Lines.

ghost use Rattle.std.specs.Prelude.{◌≡◌, [], List, Some, IfOk, IfSome};
ghost use Rattle.edit_script.specs.Words.{Word, HasWords};
ghost use Rattle.edit_script.specs.Commands.{IsLine};
ghost use Rattle.edit_script.specs.Handed.{IsInRoom, NamesChanges, said};
ghost use Rattle.edit_script.specs.Reading.{IsReadAs, line_at};

use crate::blanks::{behind_blanks, is_end, split_front};
use crate::command::command;
use crate::fault::LineFault;
use crate::room::Room;
use command_parts::Edit;

/// The command that a line says, none where it has no words, with a room that is empty.
fn read_line(line: &[u8], room: &mut Room) -> Result<Option<Edit>, LineFault>
    requires bytes { room.now.bytes.items ≡ [] }
    requires changes { room.now.changes.items ≡ [] }
    ensures read { IsReadAs (said room.new) result (line_at line.now) }
    ensures inside { IfOk result (λ x. IfSome x (IsInRoom room.new)) }
    ensures changes { IfOk result (λ x. IfSome x (NamesChanges room.new)) }
{
    if is_end(line) {
        return Ok(None);
    }
    let (name, mut rest) = split_front(behind_blanks(line));
    let edit = command(name, &mut rest, room)?;
    Ok(Some(edit))
}

/// The command that a line says, none where it has no words. The bytes and the changes that it hands in are put into
/// the room, in place of what was there, and the command names their place in it.
///
/// # Errors
///
/// `NoCommand`, where the line has words that are no command. `Memory`,
/// where memory was refused, or there are 2^32 changes or more.
pub fn parse_line(line: &[u8], room: &mut Room) -> Result<Option<Edit>, LineFault>
    // What is read stands in the line.
    ensures found { IfOk result (λ x. IsLine (said room.new x) × HasWords line.now (said room.new x)) }
    // What stands in the line is read, unless memory runs out.
    ensures only { (ws : List Word) → IsLine ws → HasWords line.now ws → IsReadAs (said room.new) result (Some ws) }
    ensures inside { IfOk result (λ x. IfSome x (IsInRoom room.new)) }
    ensures changes { IfOk result (λ x. IfSome x (NamesChanges room.new)) }
{
    room.clear();
    read_line(line, room)
}
