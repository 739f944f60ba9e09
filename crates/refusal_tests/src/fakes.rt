//! Writers and readers that take no memory, and two images as they are worked by hand.

use std::io;
use std::io::{ErrorKind, Read, Write};

/// How many bytes a writer has room for.
const ROOM: usize = 16_384;

/// Keeps what it takes.
#[derive(Drop)]
pub struct Taker {
    held: [u8; ROOM],
    count: usize,
}

impl Taker {
    pub(crate) fn new() -> Taker {
        Taker {
            held: [0; ROOM],
            count: 0,
        }
    }

    /// What it took.
    pub(crate) fn taken(&self) -> &[u8] {
        self.held.get(..self.count).unwrap_or(&[])
    }

    fn take(&mut self, byte: u8) {
        if let Some(place) = self.held.get_mut(self.count) {
            *place = byte;
            self.count += 1;
        }
    }
}

impl Write for Taker {
    fn write(&mut self, buf: &[u8]) -> io::Result<usize> {
        if buf.len() > ROOM.saturating_sub(self.count) {
            return Err(io::Error::from(ErrorKind::StorageFull));
        }
        for byte in buf {
            self.take(*byte);
        }
        Ok(buf.len())
    }

    fn flush(&mut self) -> io::Result<()> {
        Ok(())
    }
}

/// Gives its bytes, one a read.
#[derive(Clone, Copy, Debug)]
pub struct Giver<'a> {
    pub bytes: &'a [u8],
}

impl<'a> Read for Giver<'a> {
    fn read(&mut self, buf: &mut [u8]) -> io::Result<usize> {
        match (self.bytes.split_first(), buf.first_mut()) {
            (Some((byte, rest)), Some(place)) => {
                *place = *byte;
                self.bytes = rest;
                Ok(1)
            }
            _ => Ok(0),
        }
    }
}

/// The insertion of `abc`: its header, node, two revisions, row and pool.
pub const ONE_INSERT: &[u8] = b"CORDSESS\0\0\0\x01\0\0\0\0\0\0\0\x01\0\0\0\x02\
    \0\0\0\x01\0\0\0\0\0\0\0\0\0\0\0\x03\
    \x01\0\0\0\0\0\0\0\0\0\0\0\0\0\0\x03\0\0\0\0\0\0\0\0\
    \0\0\0\0\0\0\0\0\
    \x01\0\0\0\xff\xff\xff\xff\0\0\0\0\0\0\0\0\0\0\0\0\0\0\0\0\
    \0\0\0\0\0\0\0\0\0\0\0\0\0\0\0\0\0\0\0\0\0\0\0\0\
    \0\0\0\0\0\0\0\0\
    \x03\x01\0\0\0\0\0\0\0\0\0\0\0\0\0\0\0\0\0\0\0\0\0\0\
    \0\0\0\0\0\0\0\0\0\0\0\0\0\0\0\0\0\0\0\0\0\0\0\x03\
    \0\0\0\x01\0\0\0\0\
    \x02\0\0\0\0\0\0\0\0\0\0\0\0\0\0\x03\0\0\0\0\0\0\0\0\
    abc";

/// The insertion of `abc` in version 2.
pub const ONE_INSERT_IN_TWO: &[u8] = b"CORDSESS\0\0\0\x02\0\0\0\0\0\0\0\x01\0\0\0\x02\
    \0\0\0\x01\0\0\0\0\0\0\0\0\0\0\0\x03\
    \x01\0\0\0\0\0\0\0\0\0\0\0\0\0\0\x03\0\0\0\0\0\0\0\0\
    \0\0\0\0\0\0\0\0\
    \x01\0\0\0\xff\xff\xff\xff\0\0\0\0\0\0\0\0\0\0\0\0\0\0\0\0\
    \0\0\0\0\0\0\0\0\0\0\0\0\0\0\0\0\0\0\0\0\0\0\0\0\
    \0\0\0\0\0\0\0\0\
    \x03\x01\0\0\0\0\0\0\0\0\0\0\0\0\0\0\0\0\0\0\0\0\0\0\
    \0\0\0\0\0\0\0\0\0\0\0\0\0\0\0\0\0\0\0\0\0\0\0\x03\
    \0\0\0\x01\0\0\0\0\
    \x02\0\0\0\0\0\0\0\0\0\0\0\0\0\0\x03\0\0\0\0\0\0\0\0\
    abc";
