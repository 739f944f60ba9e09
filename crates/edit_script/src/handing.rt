//! Commands to be handed to a session.

ghost use Rattle.std.specs.Prelude.{◌≡◌, ◌+◌, ◌≤◌, length, take, drop};
ghost use Rattle.edit_commands.specs.Refusals.{TakesAll};
ghost use Rattle.edit_script.specs.Handed.{IsInRoom, words_in, words_handed};

use crate::room::Room;
use command_parts::Edit;
use edit_commands::Command;

/// The `n` bytes of a pool from place `a` on.
pub fn span(pool: &[u8], a: u64, n: u64) -> &[u8]
    requires { a + n ≤ length pool.now }
    ensures value { result.now ≡ take n (drop a pool.now) }
    ensures len { length result.now ≡ n }
{
    let (a, n) = (a as usize, n as usize);
    &pool[a..a + n]
}

/// A command that hands in what stands in the room that it was read into.
pub fn handed<'a>(edit: &Edit, room: &'a Room) -> Command<'a>
    requires { IsInRoom room.now edit.now }
    ensures words { words_handed result ≡ words_in room.now.bytes.items room.now.changes.items edit.now }
    ensures takes { TakesAll result }
{
    #[rattlefmt::skip]
    match *edit {
        Edit::New => Command::New,
        Edit::Open { s } => Command::Open { s },
        Edit::Insert { r, p, a, n } => Command::Insert { r, p, bytes: span(&room.bytes, a, n) },
        Edit::Delete { r, p, n } => Command::Delete { r, p, n },
        Edit::Replace { r, p, m, a, n } => Command::Replace { r, p, m, bytes: span(&room.bytes, a, n) },
        Edit::Paste { r, p, q, i, n } => Command::Paste { r, p, q, i, n },
        Edit::Join { r, q } => Command::Join { r, q },
        Edit::Cut { r, i, n } => Command::Cut { r, i, n },
        Edit::Fill { r, p, c, n } => Command::Fill { r, p, c: c as u8, n },
        Edit::Back { r } => Command::Back { r },
        Edit::Balance { r } => Command::Balance { r },
        Edit::Many { r, .. } => Command::Many { r, changes: &room.changes, bytes: &room.bytes },
    }
}
