//! Commands from the words behind their names.

ghost use Rattle.std.specs.Prelude.{◌≡◌, [], IfOk};
ghost use Rattle.edit_script.specs.Handed.{IsInRoom, NamesChanges, words_in};
ghost use Rattle.edit_script.specs.Commands.{IsNamed};
ghost use Rattle.edit_script.specs.Reading.{IsReadAs, end_at, named_at};

use crate::blanks::is_end;
use crate::changes::changes;
use crate::fault::LineFault;
use crate::number::{number8, number32, number64};
use crate::quoted::quoted_bytes;
use crate::room::Room;
use command_parts::Edit;
use command_parts::codes::{
    BACK, BALANCE, CUT, DELETE, FILL, INSERT, JOIN, MANY, NEW, OPEN, PASTE, REPLACE,
};

/// The code of the command of this name.
#[tactic(auto, using(std::proofs::lemmas::Slice::Eq::text_from_reads))]
fn code_of(name: &[u8]) -> Option<u8>
    ensures { IsNamed name.now result }
{
    match name {
        b"new" => Some(NEW),
        b"open" => Some(OPEN),
        b"insert" => Some(INSERT),
        b"delete" => Some(DELETE),
        b"replace" => Some(REPLACE),
        b"paste" => Some(PASTE),
        b"join" => Some(JOIN),
        b"cut" => Some(CUT),
        b"fill" => Some(FILL),
        b"back" => Some(BACK),
        b"balance" => Some(BALANCE),
        b"many" => Some(MANY),
        _ => None,
    }
}

/// A command behind whose words the line ends.
fn ended(edit: Edit, line: &[u8]) -> Result<Edit, LineFault>
    ensures end { IsReadAs (λ _. []) result (end_at line.now) }
    ensures same { IfOk result (λ e. e ≡ edit) }
{
    if is_end(line) {
        Ok(edit)
    } else {
        Err(LineFault::NoCommand)
    }
}

/// The command of this name, from the words behind it. What it hands in is put into the room.
pub fn command(name: &[u8], line: &mut &[u8], room: &mut Room) -> Result<Edit, LineFault>
    requires bytes { room.now.bytes.items ≡ [] }
    requires changes { room.now.changes.items ≡ [] }
    ensures read { IsReadAs (words_in room.new.bytes.items room.new.changes.items) result
        (named_at name.now line.old.now) }
    ensures inside { IfOk result (IsInRoom room.new) }
    ensures changes { IfOk result (NamesChanges room.new) }
{
    let code = code_of(name).ok_or(LineFault::NoCommand)?;
    let bytes = &mut room.bytes;
    #[rattlefmt::skip]
    match code {
        NEW => ended(Edit::New, line),
        OPEN => ended(Edit::Open { s: number32(line)? }, line),
        INSERT => ended(Edit::Insert { r: number32(line)?, p: number64(line)?, a: 0, n: quoted_bytes(line, bytes)? }, line),
        DELETE => ended(Edit::Delete { r: number32(line)?, p: number64(line)?, n: number64(line)? }, line),
        REPLACE => ended(Edit::Replace {
            r: number32(line)?, p: number64(line)?, m: number64(line)?, a: 0, n: quoted_bytes(line, bytes)? }, line),
        PASTE => ended(Edit::Paste {
            r: number32(line)?, p: number64(line)?, q: number32(line)?, i: number64(line)?, n: number64(line)? }, line),
        JOIN => ended(Edit::Join { r: number32(line)?, q: number32(line)? }, line),
        CUT => ended(Edit::Cut { r: number32(line)?, i: number64(line)?, n: number64(line)? }, line),
        FILL => ended(Edit::Fill { r: number32(line)?, p: number64(line)?, c: number8(line)?, n: number64(line)? }, line),
        BACK => ended(Edit::Back { r: number32(line)? }, line),
        BALANCE => ended(Edit::Balance { r: number32(line)? }, line),
        MANY => Ok(Edit::Many { r: number32(line)?, first: 0, count: changes(line, room)? }),
        _ => Err(LineFault::NoCommand),
    }
}
