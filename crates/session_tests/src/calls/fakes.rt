//! Sources whose reads fail, and a writer that does.

use lazy_file::{Device, DeviceError, SourceFault, Sources};
use std::io;

/// The most bytes of a source.
pub const LONGEST: u64 = (1 << 40) - 1;

/// One source as long as a text may be, of which no read succeeds.
#[derive(Drop)]
pub struct Unreadable {
    pub is_read: bool,
}

impl Sources for Unreadable {
    ghost use Rattle.std.specs.Prelude.{[], ◌∷◌, None, false};
    ghost use Rattle.lazy_file.specs.declared.sources.TheConstants.{SOURCE_LIMIT};

    ghost reading = { λ _. record {
      stated = record { sizes = SOURCE_LIMIT ∷ []; texts = None ∷ []; never_fails = false };
      failures = λ _. 0;
    } };

    fn count(&self) -> u8 {
        1
    }

    fn len(&self, _s: u8) -> u64 {
        LONGEST
    }

    fn read(&mut self, s: u8, off: u64, buffer: &mut [u8]) -> Result<(), SourceFault> {
        self.is_read = true;
        if s > 0 || off > LONGEST || buffer.len() as u64 > LONGEST - off {
            return Err(SourceFault::BadSource);
        }
        Err(SourceFault::Short)
    }
}

/// Two sources of three bytes each, which state no text. One of them fails at its first read.
#[derive(Drop)]
pub struct FailsOnce {
    /// Which.
    pub failing: u8,
    pub has_failed: bool,
    /// How many reads there were of both.
    pub reads: u64,
}

impl FailsOnce {
    /// No read yet.
    pub(crate) fn of(failing: u8) -> FailsOnce {
        FailsOnce {
            failing,
            has_failed: false,
            reads: 0,
        }
    }
}

impl Sources for FailsOnce {
    ghost use Rattle.std.specs.Prelude.{[], ◌∷◌, None, false, nat_eq, ◌&&◌, if◌then◌else◌};

    ghost reading = { λ s. record {
      stated = record { sizes = 3 ∷ 3 ∷ []; texts = None ∷ None ∷ []; never_fails = false };
      failures = λ r. if nat_eq r s.failing && s.has_failed then 1 else 0;
    } };

    fn count(&self) -> u8 {
        2
    }

    fn len(&self, _s: u8) -> u64 {
        3
    }

    fn read(&mut self, s: u8, off: u64, buffer: &mut [u8]) -> Result<(), SourceFault> {
        self.reads = self.reads.saturating_add(1);
        if s > 1 || off > 3 || buffer.len() as u64 > 3 - off {
            return Err(SourceFault::BadSource);
        }
        if s == self.failing && !self.has_failed {
            self.has_failed = true;
            return Err(SourceFault::Device);
        }
        buffer.fill(b'x');
        Ok(())
    }
}

/// A file of the three bytes `abc`, whose first read fails.
#[derive(Clone, Copy)]
pub struct FailsFirst {
    pub calls: u64,
    pub failed: u64,
}

impl Device for FailsFirst {
    type Book = ();

    ghost use Rattle.lazy_file.specs.DeviceTexts.{unstated};

    ghost reading = { λ d. record { stated = unstated 3; failures = d.failed; calls = d.calls } };

    fn size(&self) -> u64 {
        3
    }

    fn read_at(
        &mut self,
        _book: &mut (),
        off: u64,
        buffer: &mut [u8],
    ) -> Result<usize, DeviceError> {
        self.calls = self.calls.saturating_add(1);
        if self.failed == 0 {
            self.failed = 1;
            return Err(DeviceError);
        }
        let rest = b"abc".get(off as usize..).unwrap_or(&[]);
        let count = rest.len().min(buffer.len());
        buffer[..count].copy_from_slice(&rest[..count]);
        Ok(count)
    }
}

/// A file that had five bytes when it was opened, and has three now.
#[derive(Clone, Copy)]
pub struct CutShort;

impl Device for CutShort {
    type Book = ();

    ghost use Rattle.lazy_file.specs.DeviceTexts.{unstated};

    ghost reading = { λ _. record { stated = unstated 5; failures = 0; calls = 0 } };

    fn size(&self) -> u64 {
        5
    }

    fn read_at(
        &mut self,
        _book: &mut (),
        off: u64,
        buffer: &mut [u8],
    ) -> Result<usize, DeviceError> {
        let rest = b"abc".get(off as usize..).unwrap_or(&[]);
        let count = rest.len().min(buffer.len());
        buffer[..count].copy_from_slice(&rest[..count]);
        Ok(count)
    }
}

/// Takes so many bytes, and then fails or takes nothing.
#[derive(Drop)]
pub struct Short<'a> {
    pub taken: &'a mut Vec<u8>,
    pub room: usize,
    pub fails: bool,
}

impl io::Write for Short<'_> {
    fn write(&mut self, bytes: &[u8]) -> io::Result<usize> {
        let n = bytes.len().min(self.room);
        let part = bytes.get(..n).unwrap_or_default();
        if (n == 0 && self.fails) || self.taken.extend_from_slice(part).is_err() {
            return Err(io::Error::from(io::ErrorKind::StorageFull));
        }
        self.room -= n;
        Ok(n)
    }

    fn flush(&mut self) -> io::Result<()> {
        Ok(())
    }
}
