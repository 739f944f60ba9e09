//! Small files that stand beside an image and tell something of it.

use crate::text_file::made;
use cord_tools::ToolFault;
use image_files::{Mode, state_at};
use std::fs;
use std::io::{self, ErrorKind, Write};

/// What stands under a name.
#[derive(Drop)]
pub enum Found {
    Nothing,
    Text(String),
    /// No file, or one that is longer, or cannot be read as text.
    Other,
}

/// What stands under this name, where that is a text of at most so many bytes.
///
/// # Errors
///
/// `Memory`.
pub fn found_at(rt: &HostRuntime, name: &str, most: u64) -> Result<Found, ToolFault> {
    match fs::metadata(rt, name) {
        Ok(metadata) if metadata.is_file() && metadata.len() <= most => {}
        Err(error) if error.kind() == ErrorKind::NotFound => return Ok(Found::Nothing),
        _ => return Ok(Found::Other),
    }
    match fs::read_to_string(rt, name) {
        Ok(text) => Ok(Found::Text(text)),
        Err(error) if error.kind() == ErrorKind::OutOfMemory => Err(ToolFault::Memory),
        Err(_) => Ok(Found::Other),
    }
}

/// Writes a new file of this mode.
fn write_new(rt: &HostRuntime, name: &str, mode: Mode, text: &str) -> io::Result<()> {
    let mut file = made(rt, name, mode)?;
    file.write_all(text.as_bytes())
}

/// Writes a file under the name `part`, which is free, and then gives it its own name.
///
/// # Errors
///
/// `Write`. What stood under its own name stays then.
pub fn write_by(
    rt: &HostRuntime,
    part: &str,
    name: &str,
    mode: Mode,
    text: &str,
) -> Result<(), ToolFault> {
    let written = match write_new(rt, part, mode, text) {
        Ok(()) => fs::rename(rt, part, name),
        Err(error) => Err(error),
    };
    if written.is_err() {
        // What stays is replaced by the next one.
        let _ = fs::remove_file(rt, part);
    }
    written.map_err(|_| ToolFault::Write)
}
