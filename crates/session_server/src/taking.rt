//! A line taken by a session.

ghost use Rattle.std.specs.Prelude.{◌≡◌, length, OnOk, IfOk, IfErr};
ghost use Rattle.edit_script.specs.Handed.{IsInRoom, words_in};
ghost use Rattle.edit_script.specs.Applied.{TakesWords, RefusesWords};
ghost use Rattle.session_server.specs.Outcomes.{ComesTo};

use crate::outcome::Outcome;
use command_parts::Edit;
use edit_commands::{EditFault, Session};
use edit_script::{LineFault, Room, Stop, handed, parse_line};

/// Makes the revision of a command that was read into a room, and answers its number.
fn apply_edit(session: &mut Session, edit: &Edit, room: &Room) -> Result<u32, EditFault>
    requires { IsInRoom room.now edit.now }
    ensures number { IfOk result (λ k. k ≡ length session.old.revisions) }
    ensures made { OnOk result
        (TakesWords session.old (words_in room.now.bytes.items room.now.changes.items edit.now) session.new) }
    ensures refused { IfErr result
        (λ e. RefusesWords session.old (words_in room.now.bytes.items room.now.changes.items edit.now) e session.new) }
{
    session.apply(handed(edit, room))
}

/// What a line comes to.
pub(crate) fn take_line(session: &mut Session, line: &[u8], room: &mut Room) -> Outcome
    ensures { ComesTo session.old line.now result session.new }
{
    match parse_line(line, room) {
        Err(LineFault::NoCommand) => Outcome::Stopped(Stop::NoCommand),
        Err(LineFault::Memory) => Outcome::Stopped(Stop::Memory),
        Ok(None) => Outcome::Nothing,
        Ok(Some(edit)) => match apply_edit(session, &edit, room) {
            Ok(k) => Outcome::Made(k),
            Err(EditFault::Memory) => Outcome::Stopped(Stop::Memory),
            Err(fault) => Outcome::Stopped(Stop::Refused(fault)),
        },
    }
}
