//! A file as a device.
ghost use Rattle.std.specs.Prelude.{◌≡◌, ◌<◌, ◌≤◌, IfOk, length};
ghost use Rattle.lazy_file.specs.DeviceTexts.{unstated};

use crate::device::{Device, DeviceError};
use std::fs::File;
use std::io::ErrorKind;
use std::os::unix::fs::FileExt;
use std::sync::ledger::{Book, Ledger, Share};

/// An open file and its size. It states no text, since others may change it. Its reads, and those that failed, are
/// counted in numbers that take no bytes and have no greatest value.
#[derive(Drop)]
pub struct FileDevice<L: Ledger> {
    file: File,
    size: u64,
    failed: Share<L>,
    called: Share<L>,
    ghost counts_failed: { 0 < failed.parts },
    ghost counts_called: { 0 < called.parts },
}

/// One read of a file, made again where it was interrupted.
fn read_on(file: &File, off: u64, buffer: &mut [u8]) -> Result<usize, DeviceError>
    ensures { IfOk result (λ count. count ≤ length buffer.new) }
{
    for _ in 0..u64::MAX {
        match file.read_at(buffer, off) {
            Ok(count) => return Ok(count),
            Err(error) if error.kind() == ErrorKind::Interrupted => {}
            Err(_) => return Err(DeviceError),
        }
    }
    Err(DeviceError)
}

impl<L: Ledger> FileDevice<L> {
    /// The first `size` bytes of an open file, whose failed reads and calls are counted by these shares of a book.
    pub fn new(file: File, size: u64, failed: Share<L>, called: Share<L>) -> FileDevice<L>
        requires failed { 0 < failed.parts }
        requires called { 0 < called.parts }
        ensures { (⟦<FileDevice<L> as Device>⟧.reading result).stated ≡ unstated size }
    {
        FileDevice {
            file,
            size,
            failed,
            called,
        }
    }
}

impl<L: Ledger> Device for FileDevice<L> {
    type Book = Book<L>;

    ghost reading = { λ d. record { stated = unstated d.size; failures = d.failed.amount; calls = d.called.amount } };

    fn size(&self) -> u64 {
        self.size
    }

    fn read_at(
        &mut self,
        book: &mut Book<L>,
        off: u64,
        buffer: &mut [u8],
    ) -> Result<usize, DeviceError> {
        book.add(&mut self.called, 1);
        let outcome = read_on(&self.file, off, buffer);
        if outcome.is_err() {
            book.add(&mut self.failed, 1);
        }
        outcome
    }
}
