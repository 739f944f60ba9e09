//! Which file the last text of an image was committed from, as a file beside the image keeps it.

use crate::committing::Committing;
use crate::digests::{tell, tell_unwritten};
use crate::side_file::{Found, found_at, write_by};
use cord_tools::ToolFault;
use image_files::Mode;
use std::alloc::AllocError;
use std::fs;
use std::path::Path;

/// The most bytes of what is kept: a number, and the name of a file.
const MOST: u64 = 512;

/// The name of a file in its folder, where a link is followed.
fn name_of(rt: &HostRuntime, file: &str) -> Result<String, ToolFault> {
    let whole = fs::canonicalize(rt, file);
    let path = match &whole {
        Ok(whole) => whole.as_str(),
        Err(_) => file,
    };
    let name = Path::new(path).file_name().unwrap_or(path);
    Ok(String::from_str(rt.alloc(), name)?)
}

/// The line of an image that has so many bytes, whose last text a file had.
fn line_of(rt: &HostRuntime, size: u64, file: &str) -> Result<String, ToolFault> {
    let name = name_of(rt, file)?;
    Ok(format!(in rt.alloc(); "{size} {name}\n")?)
}

/// Whether a text is such a line, or what is left of one where a run was killed, or the power failed.
fn is_begun(text: &str) -> bool {
    // Of a file that was not yet written the system may keep the length alone.
    let text = text.trim_end_matches('\0');
    match text.split_once(' ') {
        Some((size, _)) => size.parse::<u64>().is_ok(),
        None => text.is_empty() || text.parse::<u64>().is_ok(),
    }
}

/// Whether the last text of an image of so many bytes was committed from this file.
///
/// # Errors
///
/// `Memory`.
pub fn is_committed_from(
    rt: &HostRuntime,
    image: &str,
    size: u64,
    file: &str,
) -> Result<bool, ToolFault> {
    let name = format!(in rt.alloc(); "{image}.committed")?;
    let line = line_of(rt, size, file)?;
    Ok(match found_at(rt, &name, MOST)? {
        Found::Text(found) => found.as_str() == line.as_str(),
        Found::Nothing | Found::Other => false,
    })
}

/// Whether a shell takes a word as it stands.
fn is_plain(word: &str) -> bool {
    for c in word.chars() {
        if !c.is_ascii_alphanumeric() && !matches!(c, '.' | '_' | '/' | '-') {
            return false;
        }
    }
    !word.is_empty()
}

/// Puts a word behind others, in quotes where a shell would take it for something else.
fn push_word(line: &mut String, word: &str) -> Result<(), AllocError> {
    line.push(' ')?;
    if is_plain(word) {
        return line.push_str(word);
    }
    line.push('\'')?;
    for c in word.chars() {
        match c {
            '\'' => line.push_str("'\\''")?,
            _ => line.push(c)?,
        }
    }
    line.push('\'')
}

/// The command that shows a revision of an image over its sources.
fn show_command(
    rt: &HostRuntime,
    words: Committing<'_>,
    revision: u32,
) -> Result<String, AllocError> {
    let mut line = String::from_str(rt.alloc(), "cordkit show")?;
    let mut has_sign = words.image.starts_with('-');
    for source in words.sources {
        has_sign = has_sign || source.starts_with('-');
    }
    if has_sign {
        line.push_str(" --")?;
    }
    push_word(&mut line, words.image)?;
    push_word(&mut line, format!(in rt.alloc(); "{revision}")?.as_str())?;
    for source in words.sources {
        push_word(&mut line, source)?;
    }
    Ok(line)
}

/// Tells on standard error that a text was taken out which was not committed from the file.
///
/// # Errors
///
/// `Memory`.
pub fn tell_other(rt: &HostRuntime, words: Committing<'_>, revision: u32) -> Result<(), ToolFault> {
    let command = show_command(rt, words, revision)?;
    let Committing { image, file, .. } = words;
    let sentence = format!(in rt.alloc();
        "revision {revision} of {image} was not committed from {file}: \
        what it had and {file} has not is taken out, and {command} still gives it"
    )?;
    tell(rt, &sentence)
}

/// Whether a name is free, or has such a line, or a part of one.
fn may_have_line(rt: &HostRuntime, name: &str) -> Result<bool, ToolFault> {
    Ok(match found_at(rt, name, MOST)? {
        Found::Nothing => true,
        Found::Text(found) => is_begun(&found),
        Found::Other => false,
    })
}

/// Writes beside an image which file its last text was committed from.
fn write_beside(rt: &HostRuntime, image: &str, file: &str) -> Result<(), ToolFault> {
    let metadata = fs::metadata(rt, image).map_err(|_| ToolFault::Write)?;
    if !metadata.is_file() {
        return Ok(());
    }
    let name = format!(in rt.alloc(); "{image}.committed")?;
    let part = format!(in rt.alloc(); "{name}.new")?;
    if !may_have_line(rt, &name)? || !may_have_line(rt, &part)? {
        return Err(ToolFault::Write);
    }
    let line = line_of(rt, metadata.len(), file)?;
    // What an earlier run left of it is written anew.
    let _ = fs::remove_file(rt, &part);
    write_by(rt, &part, &name, Mode::of_replaced(&metadata), &line)
}

/// Keeps beside an image that is in its place which file its last text was committed from. Something else that stands
/// there stays. Where it cannot be written, that is told, and the next commit tells that the text came from elsewhere.
pub fn keep_committed(rt: &HostRuntime, image: &str, file: &str) {
    match write_beside(rt, image, file) {
        // There is no other place to tell that there is no memory.
        Ok(()) | Err(ToolFault::Memory) => {}
        Err(_) => tell_unwritten(rt, image, ".committed"),
    }
}

/// The same of a file that was not there, and got the last text of an image.
pub fn keep_restored(rt: &HostRuntime, image: &str, file: &str) {
    if let Ok(whole) = fs::canonicalize(rt, image) {
        keep_committed(rt, whole.as_str(), file);
    }
}
