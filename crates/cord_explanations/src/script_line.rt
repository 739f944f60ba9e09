//! What a line of a script says, looked at once more when its end is explained.

use crate::looking::line;
use crate::sentence::Sentence;
use crate::wrong_word::wrong_word;
use command_parts::Edit;
use edit_script::{Room, parse_line};
use leaf_buffer::BLOCK_SIZE;
use std::alloc::AllocGlobal;
use std::fs::Files;

/// Whether a command puts in more bytes at a place than a session takes.
fn puts_in_too_many(edit: &Edit, room: &Room) -> bool {
    let most = BLOCK_SIZE as u64;
    match *edit {
        Edit::Insert { n, .. } | Edit::Replace { n, .. } => n > most,
        Edit::Many { .. } => room.changes.iter().any(|change| change.n > most),
        Edit::New
        | Edit::Open { .. }
        | Edit::Delete { .. }
        | Edit::Paste { .. }
        | Edit::Join { .. }
        | Edit::Cut { .. }
        | Edit::Fill { .. }
        | Edit::Back { .. }
        | Edit::Balance { .. } => false,
    }
}

/// What a command goes past, and which revisions it names: `insert 4 9 "x"` is behind the end of 4.
fn past_end(edit: &Edit) -> Option<(&'static str, u32, u32)> {
    let (text, revision, other) = match *edit {
        Edit::Insert { r, .. } | Edit::Fill { r, .. } => {
            ("% names a place behind the end of revision #", r, r)
        }
        Edit::Delete { r, .. } | Edit::Replace { r, .. } | Edit::Cut { r, .. } => {
            ("% names bytes behind the end of revision #", r, r)
        }
        Edit::Paste { r, q, .. } => (
            "% names a place or bytes behind the end of revision # or #",
            r,
            q,
        ),
        Edit::Many { r, .. } => (
            "% has changes that are out of order, or behind the end of revision #",
            r,
            r,
        ),
        Edit::New
        | Edit::Open { .. }
        | Edit::Join { .. }
        | Edit::Back { .. }
        | Edit::Balance { .. } => return None,
    };
    Some((text, revision, other))
}

/// Which word of a line is wrong, if one is.
fn wrong<R: Files + AllocGlobal>(rt: &R, about: &str, line: &[u8]) -> Option<Sentence> {
    let line = String::from_utf8_lossy(rt.alloc(), line).ok()?;
    let word = wrong_word(&line)?;
    let about = format!(in rt.alloc(); "{about} is no command: {word}").ok()?;
    Sentence::new(rt.alloc(), "%", &about, "")
}

/// What the command of a line asks for that is refused by the name of this code.
fn refused<R: Files + AllocGlobal>(
    rt: &R,
    about: &str,
    name: &str,
    line: &[u8],
) -> Option<Sentence> {
    let mut room = Room::new(rt.alloc());
    let edit = parse_line(line, &mut room).ok()??;
    if name == "E3" {
        let (text, revision, other) = past_end(&edit)?;
        let numbers = format!(in rt.alloc(); "{revision},{other}").ok()?;
        return Sentence::new(rt.alloc(), text, about, &numbers);
    }
    if puts_in_too_many(&edit, &room) {
        return Sentence::new(
            rt.alloc(),
            "% puts in more than 65,536 bytes at a place",
            about,
            "",
        );
    }
    None
}

/// What a line of a script says of the code by which it was not taken.
pub fn seen_in_line<R: Files + AllocGlobal>(
    rt: &R,
    script: &str,
    name: &str,
    number: &str,
) -> Option<Sentence> {
    let line = line(rt, script, number)?;
    let about = format!(in rt.alloc(); "line {number} of {script}").ok()?;
    match name {
        "P" => wrong(rt, &about, &line),
        "E3" | "N1" => refused(rt, &about, name, &line),
        _ => None,
    }
}
