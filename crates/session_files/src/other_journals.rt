//! What other sessions keep beside an image: no two of them go on from one.

use crate::journal_front::{KEYS_FRONT_SIZE, LINES_FRONT_SIZE};
use cord_tools::ToolFault;
use image_files::Faults;
use std::fs::{self, TryLockError};
use std::io::ErrorKind;

/// Where a name leads to, as a path without links; the name, where it leads nowhere.
pub fn place_of(rt: &HostRuntime, path: &str) -> Result<String, ToolFault> {
    match fs::canonicalize(rt, path) {
        Ok(whole) => Ok(String::from_str(rt.alloc(), whole.as_str())?),
        Err(error) if error.kind() == ErrorKind::OutOfMemory => Err(ToolFault::Memory),
        Err(_) => Ok(String::from_str(rt.alloc(), path)?),
    }
}

/// Whether another run has a file locked.
fn is_locked(rt: &HostRuntime, name: &str, faults: &Faults) -> Result<bool, ToolFault> {
    match fs::open(rt, name) {
        Ok(file) => Ok(matches!(file.try_lock_shared(), Err(TryLockError::WouldBlock))),
        Err(error) if error.kind() == ErrorKind::NotFound => Ok(false),
        Err(error) => Err(faults.unread(name, error)),
    }
}

/// So many bytes a regular file has; none, where there is no such file.
fn size_of(rt: &HostRuntime, name: &str) -> Result<Option<u64>, ToolFault> {
    match fs::metadata(rt, name) {
        Ok(metadata) if metadata.is_file() => Ok(Some(metadata.len())),
        Err(error) if error.kind() == ErrorKind::OutOfMemory => Err(ToolFault::Memory),
        Ok(_) | Err(_) => Ok(None),
    }
}

/// Refuses a journal of this name that another run has locked, or that is longer than its front.
fn refuse_kept(rt: &HostRuntime, name: &str, front: u64, faults: &Faults) -> Result<(), ToolFault> {
    match size_of(rt, name)? {
        None => Ok(()),
        Some(size) if size > front => Err(ToolFault::KeysInUse),
        Some(_) if is_locked(rt, name, faults)? => Err(ToolFault::KeysInUse),
        Some(_) => Ok(()),
    }
}

/// Refuses an image beside which lines of a session are kept, or are set aside while it is saved.
pub fn refuse_lines(rt: &HostRuntime, image: &str, faults: &Faults) -> Result<(), ToolFault> {
    let place = place_of(rt, image)?;
    let lines = format!(in rt.alloc(); "{place}.lines")?;
    refuse_kept(rt, &lines, LINES_FRONT_SIZE, faults)?;
    let aside = format!(in rt.alloc(); "{lines}.saved")?;
    refuse_kept(rt, &aside, LINES_FRONT_SIZE, faults)
}

/// Refuses an image beside which keys of a session are kept, or that is just being saved by one.
fn refuse_keys_at(rt: &HostRuntime, image: &str, faults: &Faults) -> Result<(), ToolFault> {
    let keys = format!(in rt.alloc(); "{image}.keys")?;
    refuse_kept(rt, &keys, KEYS_FRONT_SIZE, faults)?;
    let aside = format!(in rt.alloc(); "{keys}.saved")?;
    refuse_kept(rt, &aside, u64::MAX, faults)
}

/// The same, beside the image by its own name and by the one that a link leads to.
pub fn refuse_keys(
    rt: &HostRuntime,
    image: &str,
    place: &str,
    faults: &Faults,
) -> Result<(), ToolFault> {
    refuse_keys_at(rt, image, faults)?;
    if image == place {
        return Ok(());
    }
    refuse_keys_at(rt, place, faults)
}
