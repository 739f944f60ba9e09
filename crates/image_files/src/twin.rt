//! Whether what is written is what a file has.

use std::fs::{self, File};
use std::io::{self, ErrorKind, Read};

/// So many bytes are compared at once.
const PART: usize = 4096;

/// A file that takes the bytes that it has, and no others.
#[derive(Drop)]
pub struct Twin {
    file: File,
}

impl Twin {
    /// The open file, from where it is read next.
    pub fn of(file: File) -> Twin {
        Twin { file }
    }

    /// Whether it has no byte behind those that it took.
    pub fn is_whole(&mut self) -> bool {
        matches!(self.file.read(&mut [0]), Ok(0))
    }
}

impl io::Write for Twin {
    fn write(&mut self, bytes: &[u8]) -> io::Result<usize> {
        let mut there = [0; PART];
        let n = bytes.len().min(PART);
        self.file.read_exact(&mut there[..n])?;
        if there[..n] == bytes[..n] {
            Ok(n)
        } else {
            Err(io::Error::from(ErrorKind::InvalidData))
        }
    }

    fn flush(&mut self) -> io::Result<()> {
        Ok(())
    }
}

/// Whether two files have the same bytes, and both can be read.
pub fn have_same_bytes(rt: &HostRuntime, one: &str, other: &str) -> bool {
    let (Ok(mut one), Ok(other)) = (fs::open(rt, one), fs::open(rt, other)) else {
        return false;
    };
    let mut twin = Twin::of(other);
    io::copy(&mut one, &mut twin).is_ok() && twin.is_whole()
}
