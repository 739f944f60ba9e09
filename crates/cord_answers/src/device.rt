//! A file in memory that records each read of it, and that may fail.

ghost use Rattle.std.specs.Prelude.{◌≡◌, ◌≤◌, length};

use crate::report::Report;
use anyhow::{Result, bail};
use lazy_file::{Device, DeviceError};
use std::alloc::Global;
use std::cell::{Cell, RefCell};

/// A read of a device: from where on, how many bytes were asked for, and how many came, if it did not fail.
#[derive(Clone, Copy)]
pub struct Read {
    off: u64,
    asked: usize,
    answer: Option<usize>,
}

/// What a device is watched by: its reads, and the number of the present turn.
#[derive(Drop)]
pub struct Watch {
    reads: RefCell<Vec<Read>>,
    turn: Cell<u64>,
    /// Whether a read could not be recorded.
    lost: Cell<bool>,
}

impl Watch {
    pub fn new(alloc: Global) -> Watch {
        Watch {
            reads: RefCell::new(Vec::new(alloc)),
            turn: Cell::new(0),
            lost: Cell::new(false),
        }
    }

    /// Begins a turn.
    pub fn begin(&self, turn: u64) {
        self.turn.set(turn);
    }

    fn note(&self, read: Read) {
        let is_noted = match self.reads.try_borrow_mut() {
            Ok(mut reads) => reads.push(read).is_ok(),
            Err(_) => false,
        };
        if !is_noted {
            self.lost.set(true);
        }
    }

    /// Forgets the reads.
    pub fn forget(&self) {
        if let Ok(mut reads) = self.reads.try_borrow_mut() {
            reads.clear();
        }
    }

    /// Reports the reads and forgets them: the place of each, where as many bytes as a block came; or `place+asked`;
    /// `=came` behind it where fewer came, `!` where the read failed.
    pub fn tell(&self, report: &mut Report) -> Result<()> {
        if self.lost.get() {
            bail!("a read was not recorded");
        }
        if let Ok(reads) = self.reads.try_borrow() {
            for read in reads.iter() {
                tell_read(*read, report)?;
            }
        }
        self.forget();
        Ok(())
    }
}

/// One read.
fn tell_read(read: Read, report: &mut Report) -> Result<()> {
    report.entry(" ", read.off)?;
    if read.asked != 4096 {
        report.entry("+", read.asked as u64)?;
    }
    match read.answer {
        None => report.words("!"),
        Some(came) if came == read.asked => Ok(()),
        Some(came) => report.entry("=", came as u64),
    }
}

/// How a device misbehaves.
#[derive(Clone, Copy)]
pub struct Trouble {
    /// A read fails that covers this byte.
    pub fails_at: Option<u64>,
    /// The file ends here.
    pub ends_at: Option<u64>,
}

pub const NO_TROUBLE: Trouble = Trouble {
    fails_at: None,
    ends_at: None,
};

/// A file whose reads are recorded. From a turn on it misbehaves; a read gives so many bytes at most.
#[derive(Drop)]
pub struct File<'a> {
    pub bytes: &'a [u8],
    pub watch: &'a Watch,
    pub trouble: Trouble,
    pub since: u64,
    pub most: usize,
    pub failed: u64,
}

impl File<'_> {
    /// The bytes from `off` on that a read gives, or none where it fails.
    fn found(&self, off: u64, asked: usize) -> Option<&[u8]> {
        let rest = self.bytes.get(off as usize..).unwrap_or(&[]);
        let part = rest.get(..asked.min(self.most)).unwrap_or(rest);
        if self.watch.turn.get() < self.since {
            return Some(part);
        }
        if self
            .trouble
            .fails_at
            .is_some_and(|byte| covers(off, asked, byte))
        {
            return None;
        }
        let end = self.trouble.ends_at.unwrap_or(u64::MAX);
        let left = end.saturating_sub(off).min(part.len() as u64) as usize;
        Some(part.get(..left).unwrap_or(part))
    }
}

/// Whether a byte is one of so many from `off` on.
fn covers(off: u64, asked: usize, byte: u64) -> bool {
    byte.checked_sub(off).is_some_and(|k| k < asked as u64)
}

/// The front of `buffer`, filled with as many of these bytes as it takes.
fn copy_front(part: &[u8], buffer: &mut [u8]) -> usize
    ensures few { result ≤ length buffer.old }
    ensures length { length buffer.new ≡ length buffer.old }
{
    let count = part.len().min(buffer.len());
    buffer[..count].copy_from_slice(&part[..count]);
    count
}

impl Device for File<'_> {
    type Book = ();

    ghost use Rattle.std.specs.Prelude.{length};
    ghost use Rattle.lazy_file.specs.DeviceTexts.{unstated};

    ghost reading = { λ d. record { stated = unstated (length d.bytes.now); failures = d.failed; calls = 0 } };

    fn size(&self) -> u64 {
        self.bytes.len() as u64
    }

    fn read_at(
        &mut self,
        _book: &mut (),
        off: u64,
        buffer: &mut [u8],
    ) -> Result<usize, DeviceError> {
        let asked = buffer.len();
        let answer = self.found(off, asked).map(|part| copy_front(part, buffer));
        self.watch.note(Read { off, asked, answer });
        if let Some(count) = answer {
            return Ok(count);
        }
        match self.failed.checked_add(1) {
            Some(failed) => {
                self.failed = failed;
                Err(DeviceError)
            }
            None => Ok(0),
        }
    }
}
