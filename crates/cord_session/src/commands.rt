//! Commands as C hands them in, and why they are refused, as numbers.

ghost use Rattle.std.specs.Prelude.{◌≡◌, ◌==◌, IfSome};
ghost use Rattle.std.specs.List.{sum_by};
ghost use Rattle.edit_commands.specs.Refusals.{TakesAll};
ghost use Rattle.cord_session.specs.Commands.{edit_number, told_command};

use crate::codes::{
    EMPTY_TEXT, MANY_REVISIONS, MANY_ROWS, MANY_SPLICES, NO_REVISION, NO_SOURCE, SPLICE_COUNT,
};
use command_parts::codes::{
    BACK, BALANCE, CUT, DELETE, FILL, INSERT, JOIN, MANY, NEW, OPEN, PASTE, REPLACE,
};
use cord_store::codes::{MANY_PIECES, MEMORY, RANGE};
use cord_store::node_number;
use edit_commands::{Change, Command, EditFault};

/// A command. Fields that its code does not ask for may be anything.
#[repr(C)]
#[derive(Clone, Copy, Drop)]
pub struct CordCommand<'a> {
    /// Which command it is, by the code of an image.
    pub code: u8,
    /// A fill's byte.
    pub byte: u8,
    /// A revision.
    pub r: u32,
    /// Another, or a source.
    pub q: u32,
    /// A place in `r`.
    pub p: u64,
    /// A place in `q`, or in `r`.
    pub i: u64,
    /// So many bytes.
    pub n: u64,
    pub bytes: &'a [u8],
    /// Changes, which take these bytes.
    pub changes: &'a [Change],
}

/// Whether changes take so many bytes.
fn takes_all(changes: &[Change], total: u64) -> bool
    ensures { result ≡ (sum_by (λ c. c.n) changes.now == total) }
{
    let mut left = total;
    let mut rest = changes;
    'all: while let Some((first, behind)) = rest.split_first() {
        if first.n > left {
            return false;
        }
        left -= first.n;
        rest = behind;
    }
    left == 0
}

/// The command that these numbers name, where they name one.
pub fn told<'a>(command: &CordCommand<'a>) -> Option<Command<'a>>
    ensures value { result ≡ told_command command.now }
    ensures takes { IfSome result TakesAll }
{
    let CordCommand {
        code,
        byte,
        r,
        q,
        p,
        i,
        n,
        bytes,
        changes,
    } = *command;
    match code {
        NEW => Some(Command::New),
        OPEN => Some(Command::Open { s: q }),
        INSERT => Some(Command::Insert { r, p, bytes }),
        DELETE => Some(Command::Delete { r, p, n }),
        REPLACE => Some(Command::Replace { r, p, m: n, bytes }),
        PASTE => Some(Command::Paste { r, p, q, i, n }),
        JOIN => Some(Command::Join { r, q }),
        CUT => Some(Command::Cut { r, i, n }),
        FILL => Some(Command::Fill { r, p, c: byte, n }),
        BACK => Some(Command::Back { r }),
        BALANCE => Some(Command::Balance { r }),
        MANY if takes_all(changes, bytes.len() as u64) => {
            Some(Command::Many { r, changes, bytes })
        }
        _ => None,
    }
}

/// The number of a refusal.
pub fn edit_number(fault: EditFault) -> u32
    ensures { result ≡ edit_number fault }
{
    match fault {
        EditFault::NoRevision => NO_REVISION,
        EditFault::NoSource => NO_SOURCE,
        EditFault::Range => RANGE,
        EditFault::EmptyText => EMPTY_TEXT,
        EditFault::TooManyRevisions => MANY_REVISIONS,
        EditFault::TooManyRows => MANY_ROWS,
        EditFault::Node(fault) => node_number(fault),
        EditFault::TooManyPieces => MANY_PIECES,
        EditFault::SpliceCount => SPLICE_COUNT,
        EditFault::TooManySplices => MANY_SPLICES,
        EditFault::Memory => MEMORY,
    }
}
