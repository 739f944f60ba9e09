//! The descriptors of standard input, standard output and standard error.

use std::fs::{File, OpenOptions};
use std::os::fd::AsRawFd;

const NULL_DEVICE: &str = "/dev/null";

/// A folder that is always there: what is opened where there is no null device.
const ROOT: &str = "/";

/// The numbers of standard input, and of the last standard stream.
const STANDARD_INPUT: i32 = 0;

const STANDARD_ERROR: i32 = 2;

/// What stands in the place of standard streams that were closed when the program began. A file that is opened gets the
/// lowest number that is free: without it an image would be standard output, and have the answer behind its bytes.
#[derive(Drop)]
pub struct StandardStreams {
    _input: Option<File>,
    _others: [Option<File>; 3],
}

/// Opens a file, where that can be.
fn opened(rt: &HostRuntime, path: &str, options: &OpenOptions) -> Option<File> {
    options.open(rt, path).ok()
}

/// A file that is not open for writing, if it gets the number of a standard stream.
fn unwritten(rt: &HostRuntime) -> Option<File> {
    let mut options = File::options();
    options.read(true);
    let file = match opened(rt, NULL_DEVICE, &options) {
        Some(file) => file,
        None => opened(rt, ROOT, &options)?,
    };
    if file.as_raw_fd() <= STANDARD_ERROR {
        Some(file)
    } else {
        None
    }
}

impl StandardStreams {
    /// Takes the numbers of those that are closed, until it is dropped. Standard input is not open
    /// for reading, and the others are not for writing: each use of them fails as it does closed.
    pub fn hold(rt: &HostRuntime) -> StandardStreams {
        let mut options = File::options();
        options.write(true);
        let (input, is_closed) = match opened(rt, NULL_DEVICE, &options) {
            Some(file) if file.as_raw_fd() == STANDARD_INPUT => (Some(file), true),
            Some(file) => (None, file.as_raw_fd() <= STANDARD_ERROR),
            None => (None, true),
        };
        let others = if is_closed {
            [unwritten(rt), unwritten(rt), unwritten(rt)]
        } else {
            [None, None, None]
        };
        StandardStreams {
            _input: input,
            _others: others,
        }
    }
}
