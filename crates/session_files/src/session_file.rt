//! The file of a session: what there was when it began. A session
//! that goes on finds it, and it goes once the image is saved.

use cord_tools::ToolFault;
use image_files::{Faults, FileBirth, FileState, Moment};
use std::alloc::{AllocError, Global};
use std::io::ErrorKind;
use std::{fs, io};

/// What a session began with.
#[derive(Clone, Copy)]
pub struct Beginning {
    pub keys: FileBirth,
    /// What was there of the image.
    pub image: Option<FileState>,
}

/// The numbers of a text, which spaces part, where it has nothing else.
fn numbers(alloc: Global, text: &str) -> Result<Option<Vec<u64>>, AllocError> {
    let mut numbers = Vec::new(alloc);
    for word in text.split_ascii_whitespace() {
        match word.parse::<u64>() {
            Ok(number) => numbers.push(number)?,
            Err(_) => return Ok(None),
        }
    }
    Ok(Some(numbers))
}

/// What a session began with whose file has these numbers.
fn parsed(numbers: &[u64]) -> Option<Beginning> {
    let (keys, image) = numbers.split_first_chunk::<3>()?;
    let [device, inode, born] = *keys;
    let keys = FileBirth {
        device,
        inode,
        born,
    };
    let image = match image {
        [] => None,
        [
            device,
            inode,
            size,
            modified_seconds,
            modified_nanoseconds,
            changed_seconds,
            changed_nanoseconds,
        ] => Some(FileState {
            device: *device,
            inode: *inode,
            size: *size,
            modified: Moment {
                seconds: *modified_seconds,
                nanoseconds: *modified_nanoseconds,
            },
            changed: Moment {
                seconds: *changed_seconds,
                nanoseconds: *changed_nanoseconds,
            },
        }),
        _ => return None,
    };
    Some(Beginning { keys, image })
}

/// What a session began with that goes on, as its file tells. Where the file is not there, or was
/// cut before the end of its line, the session begins: a key is taken once the line is whole.
///
/// # Errors
///
/// `Read`, where the file cannot be read, or has something else. `Memory`.
pub fn read_beginning(
    rt: &HostRuntime,
    path: &str,
    faults: &Faults,
) -> Result<Option<Beginning>, ToolFault> {
    let text = match fs::read_to_string(rt, path) {
        Ok(text) => text,
        Err(error) if error.kind() == ErrorKind::NotFound => return Ok(None),
        Err(error) => return Err(faults.unread(path, error)),
    };
    let found = match numbers(rt.alloc(), &text)? {
        Some(numbers) if text.ends_with('\n') => parsed(&numbers),
        Some(_) => return Ok(None),
        None => None,
    };
    match found {
        Some(beginning) => Ok(Some(beginning)),
        None => Err(faults.unread(path, io::Error::other("it is no file of a session"))),
    }
}

/// The numbers of what a session began with.
fn told_numbers(alloc: Global, beginning: &Beginning) -> Result<String, AllocError> {
    let FileBirth {
        device,
        inode,
        born,
    } = beginning.keys;
    let keys = format!(in alloc; "{device} {inode} {born}")?;
    let Some(image) = beginning.image else {
        return format!(in alloc; "{keys}\n");
    };
    let FileState {
        device,
        inode,
        size,
        modified,
        changed,
    } = image;
    format!(in alloc; "{keys} {device} {inode} {size} {modified} {changed}\n")
}

/// Writes the file of a session that begins.
///
/// # Errors
///
/// `Write`, where that fails. `Memory`.
pub fn write_beginning(
    rt: &HostRuntime,
    path: &str,
    beginning: &Beginning,
    faults: &Faults,
) -> Result<(), ToolFault> {
    let numbers = told_numbers(rt.alloc(), beginning)?;
    match fs::write(rt, path, numbers) {
        Ok(()) => Ok(()),
        Err(error) => Err(faults.unwritten(path, error)),
    }
}
