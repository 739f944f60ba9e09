//! What an image takes the place of, and keeps by another name.

use crate::faults::Faults;
use crate::file_state::state_at;
use crate::opening::sync_folder;
use crate::twin::have_same_bytes;
use cord_tools::ToolFault;
use std::fs::{self, File};
use std::io::{self, ErrorKind};

/// An image that gives up its name gets one of so many others.
const NAMES: u32 = 999;

/// Whether bytes would be lost where a file takes the place of what is at a path.
pub fn would_be_lost(rt: &HostRuntime, part: &str, path: &str) -> bool {
    match fs::symlink_metadata(rt, path) {
        Ok(found) if found.is_file() && found.len() > 0 => !have_same_bytes(rt, part, path),
        _ => false,
    }
}

/// Whether two names are of one file.
fn are_of_one(rt: &HostRuntime, one: &str, other: &str) -> bool {
    match (state_at(rt, one), state_at(rt, other)) {
        (Some(first), Some(second)) => first.has_bytes_of(second),
        _ => false,
    }
}

/// Moves what is at a path to a name, if that is free. Answers whether it was.
fn move_to(rt: &HostRuntime, path: &str, name: &str, faults: &Faults) -> Result<bool, ToolFault> {
    // The name is taken first, so that no other file is moved over.
    match File::create_new(rt, name) {
        Err(error) if error.kind() == ErrorKind::AlreadyExists => return Ok(false),
        Err(error) => return Err(faults.unwritten(name, error)),
        Ok(_) => {}
    }
    if let Err(error) = fs::rename(rt, path, name) {
        // What stays is empty.
        let _ = fs::remove_file(rt, name);
        return Err(faults.unwritten(name, error));
    }
    Ok(true)
}

/// Gives what is at a path a name, if that is free: a second one, or its only one where the device
/// has no links. Answers whether it has the name.
fn keep_as(rt: &HostRuntime, path: &str, name: &str, faults: &Faults) -> Result<bool, ToolFault> {
    match fs::hard_link(rt, path, name) {
        Ok(()) => Ok(true),
        Err(_) if state_at(rt, name).is_some() => Ok(are_of_one(rt, name, path)),
        Err(_) => move_to(rt, path, name, faults),
    }
}

/// Gives what is at a path a name that is free, and answers it: until another file takes its place it has both.
///
/// # Errors
///
/// `Write`, where that fails, or no name is free: it is at its path then. `Memory`.
pub fn keep(rt: &HostRuntime, path: &str, faults: &Faults) -> Result<String, ToolFault> {
    for n in 1..=NAMES {
        let name = format!(in rt.alloc(); "{path}.saved-{n}")?;
        if keep_as(rt, path, name.as_str(), faults)? {
            // The name stands before the old one is given to another file.
            sync_folder(rt, path);
            return Ok(name);
        }
    }
    Err(faults.unwritten(path, io::Error::other("each of its other names is taken")))
}

/// Takes a name back from what was at a path, whose place no other file took.
pub fn bring_back(rt: &HostRuntime, path: &str, name: &str) {
    // What stays has both names, or the one that is told nowhere.
    let _ = if are_of_one(rt, name, path) {
        fs::remove_file(rt, name)
    } else if state_at(rt, path).is_none() {
        fs::rename(rt, name, path)
    } else {
        Ok(())
    };
}
