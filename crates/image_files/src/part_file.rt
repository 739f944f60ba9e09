//! The file beside an image, in which that is written first. Its name is taken away, or given to
//! another file, by a run alone that has a lock on what it names.

use crate::file_state::is_named;
use crate::modes::Mode;
use std::fs::{self, File, TryLockError};
use std::io::{self, ErrorKind};
use std::os::unix::fs::OpenOptionsExt;
use std::thread;
use std::time::Duration;

/// A lock that another run has is tried so many times, after so many milliseconds each.
const TRIES: usize = 400;

const PAUSE_MILLISECONDS: u64 = 5;

/// The error where another run has the file.
fn busy() -> io::Error {
    io::Error::from(ErrorKind::WouldBlock)
}

/// Whether it is that error.
fn is_busy(error: &io::Error) -> bool {
    error.kind() == ErrorKind::WouldBlock
}

/// Lets other runs go on.
pub fn pause(rt: &HostRuntime) {
    thread::sleep(rt, Duration::from_millis(PAUSE_MILLISECONDS));
}

/// Locks a file. Answers whether another one has it locked; where the system knows no locks, none has.
fn is_locked(file: &File) -> bool {
    matches!(file.try_lock(), Err(TryLockError::WouldBlock))
}

/// Locks a file once no other run has it locked. Answers whether that came in time.
pub fn lock_in_turn(rt: &HostRuntime, file: &File) -> bool {
    for _ in 0..TRIES {
        if !is_locked(file) {
            return true;
        }
        pause(rt);
    }
    false
}

/// Takes away a link that leads nowhere.
fn remove_link(rt: &HostRuntime, part: &str) -> io::Result<()> {
    match fs::symlink_metadata(rt, part) {
        Ok(found) if found.is_symlink() => fs::remove_file(rt, part),
        _ => Ok(()),
    }
}

/// Takes a file away that another run left, where none has it.
fn remove_left(rt: &HostRuntime, part: &str) -> io::Result<()> {
    let left = match fs::open(rt, part) {
        Ok(left) => left,
        Err(error) if error.kind() == ErrorKind::NotFound => return remove_link(rt, part),
        Err(_) => return Err(busy()),
    };
    if is_locked(&left) || !is_named(rt, part, &left) {
        return Err(busy());
    }
    fs::remove_file(rt, part)
}

/// Takes a file away that another run left, once none has it.
pub fn remove_in_turn(rt: &HostRuntime, part: &str) {
    for _ in 0..TRIES {
        match remove_left(rt, part) {
            Err(error) if is_busy(&error) => pause(rt),
            _ => return,
        }
    }
}

/// Makes the file, and locks it. One that another run left is taken away first, and not written
/// to: it may be the image itself by a second name.
fn make(rt: &HostRuntime, part: &str, mode: Mode) -> io::Result<File> {
    remove_left(rt, part)?;
    let mut options = File::options();
    options.read(true).write(true).create_new(true);
    options.mode(mode.asked());
    let file = match options.open(rt, part) {
        Err(error) if error.kind() == ErrorKind::AlreadyExists => return Err(busy()),
        file => file?,
    };
    // A run that took it for one that was left has it then, or has taken it away.
    if is_locked(&file) || !is_named(rt, part, &file) {
        return Err(busy());
    }
    if let Err(error) = mode.give(&file) {
        // What stays is replaced by the next image.
        let _ = fs::remove_file(rt, part);
        return Err(error);
    }
    Ok(file)
}

/// Makes the file with a lock and this mode, once no other run has one there.
///
/// # Errors
///
/// `WouldBlock`, where another run has it for two seconds. What the system says.
pub fn make_in_turn(rt: &HostRuntime, part: &str, mode: Mode) -> io::Result<File> {
    for _ in 0..TRIES {
        match make(rt, part, mode) {
            Err(error) if is_busy(&error) => pause(rt),
            made => return made,
        }
    }
    Err(busy())
}
