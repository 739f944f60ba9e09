//! Readers and writers that give and take as much as a test says, and sources of which one fails.

use lazy_file::{MemSources, SourceFault, Sources};
use std::io;
use std::io::{ErrorKind, Read, Write};

/// Gives its bytes, one a read. Where it has given `cut` of them, it fails once.
#[derive(Clone, Copy, Debug)]
pub struct Giver<'a> {
    pub bytes: &'a [u8],
    pub cut: Option<usize>,
    pub kind: ErrorKind,
}

impl<'a> Giver<'a> {
    /// One that does not fail.
    pub(crate) fn of(bytes: &'a [u8]) -> Giver<'a> {
        Giver {
            bytes,
            cut: None,
            kind: ErrorKind::BrokenPipe,
        }
    }

    /// One that fails behind so many bytes.
    pub(crate) fn cut_at(bytes: &'a [u8], cut: usize) -> Giver<'a> {
        Giver {
            bytes,
            cut: Some(cut),
            kind: ErrorKind::BrokenPipe,
        }
    }
}

impl<'a> Read for Giver<'a> {
    fn read(&mut self, buf: &mut [u8]) -> io::Result<usize> {
        if self.cut == Some(0) {
            self.cut = None;
            return Err(io::Error::from(self.kind));
        }
        match (self.bytes.split_first(), buf.first_mut()) {
            (Some((byte, rest)), Some(place)) => {
                *place = *byte;
                self.bytes = rest;
                self.cut = self.cut.map(|n| n.saturating_sub(1));
                Ok(1)
            }
            _ => Ok(0),
        }
    }
}

/// How a writer answers that has no room.
#[derive(Clone, Copy, Debug, PartialEq)]
pub enum Full {
    Fails,
    TakesNothing,
}

/// Takes `room` bytes, one a write. Its first write is interrupted.
#[derive(Drop)]
pub struct Taker {
    held: [u8; 512],
    count: usize,
    room: usize,
    full: Full,
    is_interrupted: bool,
}

impl Taker {
    pub(crate) fn with_room(room: usize, full: Full) -> Taker {
        Taker {
            held: [0; 512],
            count: 0,
            room,
            full,
            is_interrupted: true,
        }
    }

    /// What it took.
    pub(crate) fn taken(&self) -> &[u8] {
        self.held.get(..self.count).unwrap_or(&[])
    }

    fn take(&mut self, byte: u8) {
        if let Some(place) = self.held.get_mut(self.count) {
            *place = byte;
            self.count += 1;
        }
    }
}

impl Write for Taker {
    fn write(&mut self, buf: &[u8]) -> io::Result<usize> {
        if self.is_interrupted {
            self.is_interrupted = false;
            return Err(io::Error::from(ErrorKind::Interrupted));
        }
        match (buf.first(), self.full) {
            (Some(byte), _) if self.count < self.room => {
                self.take(*byte);
                Ok(1)
            }
            (_, Full::Fails) => Err(io::Error::from(ErrorKind::BrokenPipe)),
            (_, Full::TakesNothing) => Ok(0),
        }
    }

    fn flush(&mut self) -> io::Result<()> {
        Ok(())
    }
}

/// Files of which one, `broken`, fails once: where `left` of its reads have succeeded.
#[derive(Drop)]
pub struct Flaky<'a> {
    pub texts: MemSources<'a>,
    pub broken: u8,
    pub left: u64,
    pub failed: u64,
}

impl<'a> Sources for Flaky<'a> {
    ghost use Rattle.lazy_file.specs.SourceTexts.{stated_in_memory};
    ghost use Rattle.tool_tests.specs.Failing.{one_failing};

    ghost reading = { λ s. one_failing (stated_in_memory s.texts) s.broken s.failed };

    fn count(&self) -> u8 {
        self.texts.count()
    }

    fn len(&self, s: u8) -> u64 {
        self.texts.len(s)
    }

    #[tactic(auto, using(crate::proofs::FailingReads::reads_of_files))]
    fn read(&mut self, s: u8, off: u64, buffer: &mut [u8]) -> Result<(), SourceFault> {
        self.texts.read(s, off, buffer)?;
        if s == self.broken && self.failed == 0 {
            if self.left == 0 {
                self.failed = 1;
                return Err(SourceFault::Device);
            }
            self.left -= 1;
        }
        Ok(())
    }
}
