//! What is told of a revision behind its command.

ghost use Rattle.std.specs.Prelude.{◌≡◌, [], if◌then◌else◌, codes, IfOk, string_bytes};
ghost use Rattle.edit_script.specs.Scripts.{comment_of, noted_in};

use std::alloc::{AllocError, Global};

/// What is told of a revision: its number, its text's length in bytes, its
/// rope's depth, whether it is marked as balanced, and how many rows it has.
#[derive(Clone, Copy, Debug, PartialEq, Eq)]
pub struct Note {
    pub number: u32,
    pub len: u64,
    pub depth: u8,
    pub mark: bool,
    pub rows: u32,
}

/// What tells that a root is marked.
fn balanced(mark: bool) -> &'static str
    ensures { result.now ≡ (if mark then codes ", balanced" else []) }
{
    if mark { ", balanced" } else { "" }
}

/// The comment behind a revision's command, as ` # 2: 7 bytes, depth 1, balanced, 3 rows`.
///
/// # Errors
///
/// `AllocError` where no memory was given for it.
pub fn comment_text(alloc: Global, note: &Note) -> Result<String, AllocError>
    ensures { IfOk result (λ text. string_bytes text ≡ comment_of (noted_in note.now)) }
{
    let Note {
        number,
        len,
        depth,
        mark,
        rows,
    } = *note;
    let balanced = balanced(mark);
    format!(in alloc; " # {number}: {len} bytes, depth {depth}{balanced}, {rows} rows")
}
