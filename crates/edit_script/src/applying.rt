//! Scripts applied to sessions.

ghost use Rattle.std.specs.Prelude.{◌≡◌, ◌+◌, ◌<◌, ◌≤◌, ◌∷◌, Some, None, length, OnOk, IfErr, IfSome};
ghost use Rattle.std.specs.Option.{option_map};
ghost use Rattle.edit_script.specs.Handed.{IsInRoom, words_in};
ghost use Rattle.edit_script.specs.Applied.{TakesWords, RefusesWords, TakesLine, StopsLine, TakesLines, lines_of, lines_left};

use crate::fault::{LineFault, Stop, Stopped};
use crate::handing::handed;
use crate::line::parse_line;
use crate::room::Room;
use command_parts::Edit;
use edit_commands::{EditFault, Session};
use work_progress::{Progress, Untold};

/// Makes the revision of a command that was read into a room.
fn apply_edit(session: &mut Session, edit: &Edit, room: &Room) -> Result<(), EditFault>
    requires { IsInRoom room.now edit.now }
    ensures made { OnOk result
        (TakesWords session.old (words_in room.now.bytes.items room.now.changes.items edit.now) session.new) }
    ensures refused { IfErr result
        (λ e. RefusesWords session.old (words_in room.now.bytes.items room.now.changes.items edit.now) e session.new) }
{
    session.apply(handed(edit, room))?;
    Ok(())
}

/// Makes the revision that a line asks for, if it asks for one.
fn apply_line(session: &mut Session, line: &[u8], room: &mut Room) -> Result<(), Stop>
    ensures taken { OnOk result (TakesLine session.old line.now session.new) }
    ensures stopped { IfErr result (λ why. StopsLine session.old line.now why session.new) }
{
    match parse_line(line, room) {
        Err(LineFault::NoCommand) => Err(Stop::NoCommand),
        Err(LineFault::Memory) => Err(Stop::Memory),
        Ok(None) => Ok(()),
        Ok(Some(edit)) => match apply_edit(session, &edit, room) {
            Ok(()) => Ok(()),
            Err(EditFault::Memory) => Err(Stop::Memory),
            Err(fault) => Err(Stop::Refused(fault)),
        },
    }
}

/// A script's first line, and what is left behind its end.
fn split_line(script: &[u8]) -> (&[u8], Option<&[u8]>)
    ensures parts { lines_of script.now ≡ result.0.now ∷ lines_left (option_map (λ rest. rest.now) result.1) }
    ensures shorter { IfSome result.1 (λ rest. length rest.now < length script.now) }
{
    match script.iter().position(|b| *b == b'\n') {
        Some(end) => (&script[..end], Some(&script[end + 1..])),
        None => (script, None),
    }
}

/// Applies the commands of a script to a session, line by line. The room is for what a line hands in.
///
/// # Errors
///
/// The first line that is not taken, and why: it has words that are no command, the session refused its command, or
/// memory was. The commands of the lines before it are applied then.
pub fn apply_script(session: &mut Session, script: &[u8], room: &mut Room) -> Result<(), Stopped>
    ensures { TakesLines session.old 0 (lines_of script.now) result session.new }
{
    apply_script_told(session, script, room, &mut Untold)
}

/// Does what `apply_script` does, and tells before each line how many of the script's bytes are done.
///
/// # Errors
///
/// As those of `apply_script`.
pub fn apply_script_told<P: Progress>(
    session: &mut Session,
    script: &[u8],
    room: &mut Room,
    progress: &mut P,
) -> Result<(), Stopped>
    ensures { TakesLines session.old 0 (lines_of script.now) result session.new }
{
    progress.begin(script.len() as u64);
    let mut number = 0;
    let mut left = Some(script);
    while let Some(rest) = left {
        progress.tell(script.len().saturating_sub(rest.len()) as u64);
        let (line, behind) = split_line(rest);
        number += 1;
        match apply_line(session, line, room) {
            Ok(()) => left = behind,
            Err(why) => return Err(Stopped { line: number, why }),
        }
    }
    Ok(())
}
