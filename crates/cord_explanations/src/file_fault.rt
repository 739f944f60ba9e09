//! Why a file could not be read or written.

ghost use Rattle.std.specs.Prelude.{◌≡◌, IfSome};

use crate::explaining::{Explanation, failure, with_code};
use crate::sentence::Sentence;
use std::alloc::Global;
use std::io::{Error, ErrorKind};

/// The sentence about a file that could not be written.
fn unwritten(why: ErrorKind) -> &'static str {
    match why {
        ErrorKind::NotFound => "% could not be written: its folder is not there",
        ErrorKind::PermissionDenied =>
            "% could not be written: the rights of the file or of its folder are against it",
        ErrorKind::StorageFull => "% could not be written: its disk is full",
        ErrorKind::QuotaExceeded => "% could not be written: this user's room is used up",
        ErrorKind::FileTooLarge => "% could not be written: it would be longer than a file may be",
        ErrorKind::ReadOnlyFilesystem => "% could not be written: its disk is only read",
        ErrorKind::BrokenPipe => "% could not be written: it is a pipe that nobody reads any more",
        ErrorKind::IsADirectory => "% could not be written: it is a folder",
        ErrorKind::NotADirectory => "% could not be written: it is below what is no folder",
        ErrorKind::WouldBlock => "% could not be written: another run writes it",
        _ => "% could not be written: #",
    }
}

/// The sentence about a file that could not be read.
fn unread(why: ErrorKind) -> &'static str {
    match why {
        ErrorKind::NotFound
        | ErrorKind::PermissionDenied
        | ErrorKind::IsADirectory
        | ErrorKind::NotADirectory
        | ErrorKind::FilesystemLoop => failure(why),
        _ => "% could not be read to its end: #",
    }
}

/// What `read` or `write` means where it is about this file, which the system could not read or write for this reason.
/// There is nothing to tell where memory has no room for it.
pub fn explained_file<'a>(
    alloc: Global,
    code: &'a str,
    name: &str,
    why: Error,
) -> Option<Explanation<'a>>
    ensures code { IfSome result (λ e. e.code ≡ code.entry) }
{
    let text = if code == "write" {
        unwritten(why.kind())
    } else {
        unread(why.kind())
    };
    let reason = format!(in alloc; "{why}").ok()?;
    let sentence = Sentence::new(alloc, text, name, &reason)?;
    Some(with_code(code, sentence))
}
