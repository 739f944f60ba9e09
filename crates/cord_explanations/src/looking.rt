//! The files of a run, looked at once more when its end is explained.

use cord_tools::may_replace;
use image_reader::{HEADER_SIZE, SOURCE_SIZE};
use lazy_file::SOURCE_LIMIT;
use std::alloc::AllocGlobal;
use std::fs::{self, Files};
use std::io::{ErrorKind, Read};

/// A file that cannot be read, and why.
#[derive(Clone, Copy)]
pub struct Unread<'a> {
    pub path: &'a str,
    pub why: ErrorKind,
}

/// Why a file cannot be read, if so. What is no regular file is not opened: a pipe might wait for one who writes to it.
fn failure<R: Files + AllocGlobal>(rt: &R, path: &str) -> Option<ErrorKind> {
    match fs::metadata(rt, path) {
        Err(error) => Some(error.kind()),
        Ok(metadata) if metadata.is_dir() => Some(ErrorKind::IsADirectory),
        Ok(metadata) if metadata.is_file() => match fs::open(rt, path) {
            Ok(_) => None,
            Err(error) => Some(error.kind()),
        },
        Ok(_) => None,
    }
}

/// The first of the files that cannot be read.
pub fn first_unread<'a, R: Files + AllocGlobal>(rt: &R, paths: &[&'a str]) -> Option<Unread<'a>> {
    for path in paths {
        if let Some(why) = failure(rt, path) {
            return Some(Unread { path, why });
        }
    }
    None
}

/// How many bytes a file has, if it is a regular one.
pub fn len<R: Files + AllocGlobal>(rt: &R, path: &str) -> Option<u64> {
    let metadata = fs::metadata(rt, path).ok()?;
    if metadata.is_file() {
        Some(metadata.len())
    } else {
        None
    }
}

/// The first of the files that is too long for a source.
pub fn first_too_long<'a, R: Files + AllocGlobal>(rt: &R, paths: &[&'a str]) -> Option<&'a str> {
    for path in paths {
        if let Some(len) = len(rt, path) {
            if len > SOURCE_LIMIT {
                return Some(path);
            }
        }
    }
    None
}

/// The first bytes of a regular file, so many at most.
fn front<R: Files + AllocGlobal>(rt: &R, path: &str, most: u64) -> Option<Vec<u8>> {
    len(rt, path)?;
    let mut bytes = Vec::new(rt.alloc());
    let file = fs::open(rt, path).ok()?;
    file.take(most).read_to_end(&mut bytes).ok()?;
    Some(bytes)
}

/// Whether an image may stand here: there is no file, an empty one, or one that begins as an image.
pub fn is_image<R: Files + AllocGlobal>(rt: &R, path: &str) -> bool {
    match front(rt, path, 8) {
        Some(bytes) => may_replace(&bytes).is_ok(),
        None => true,
    }
}

/// From how many sources an image was made.
pub fn source_count<R: Files + AllocGlobal>(rt: &R, image: &str) -> Option<u32> {
    let bytes = front(rt, image, HEADER_SIZE as u64)?;
    if bytes.len() < 16 {
        return None;
    }
    Some(u32::from_be_bytes([bytes[12], bytes[13], bytes[14], bytes[15]]))
}

/// How long a source was when the image was made.
pub fn source_len<R: Files + AllocGlobal>(rt: &R, image: &str, source: u8) -> Option<u64> {
    let at = HEADER_SIZE + SOURCE_SIZE * source as usize;
    let bytes = front(rt, image, (at + SOURCE_SIZE) as u64)?;
    if bytes.len() < at + SOURCE_SIZE {
        return None;
    }
    let field = &bytes[at..at + 8];
    Some(u64::from_be_bytes([
        field[0], field[1], field[2], field[3], field[4], field[5], field[6], field[7],
    ]))
}

/// A line of a script, the first being line 1.
pub fn line<R: Files + AllocGlobal>(rt: &R, script: &str, number: &str) -> Option<Vec<u8>> {
    let number = number.parse::<usize>().ok()?;
    let script = front(rt, script, u64::MAX)?;
    let mut lines = script.split(|b| *b == b'\n');
    let line = lines.nth(number.checked_sub(1)?)?;
    Vec::from_slice(rt.alloc(), line).ok()
}
