//! What a source's bytes are read from.
ghost use Rattle.std.specs.Prelude.{◌≡◌};
ghost use Rattle.lazy_file.specs.DeviceTexts.{DeviceReading, ReadsAt};

use std::error::Error;
use std::fmt;

/// A read of a device failed.
#[derive(Clone, Copy, Debug, PartialEq, Eq)]
pub struct DeviceError;

impl fmt::Display for DeviceError {
    ghost use Rattle.std.specs.Prelude.{Some, codes};

    ghost output = { λ _. Some (codes "S1") };

    fn fmt<W: fmt::Write>(&self, f: &mut fmt::Formatter<W>) -> fmt::Result {
        f.write_str("S1")
    }
}

impl Error for DeviceError {}

/// What holds the bytes of one source. It has a size, and may state its text; how many reads of it have failed, and how
/// many were asked for, is known to contracts alone.
pub trait Device: Drop {
    /// What all devices of a kind count their reads in, if they do.
    type Book: Drop;

    ghost reading: { Self → DeviceReading };

    /// Its size in bytes.
    fn size(&self) -> u64
        ensures { result ≡ (reading self.now).stated.size };

    /// Reads bytes from place `off` on into the front of `buffer`, and answers how many: 0 only for an empty buffer or
    /// at the text's end. Neither the size nor the text changes.
    ///
    /// # Errors
    ///
    /// `DeviceError`, where one more read has failed, and no more than one. The buffer may hold any bytes then.
    fn read_at(
        &mut self,
        book: &mut Self::Book,
        off: u64,
        buffer: &mut [u8],
    ) -> Result<usize, DeviceError>
        ensures { ReadsAt (reading self.old) (reading self.new) off buffer.old buffer.new result };
}
