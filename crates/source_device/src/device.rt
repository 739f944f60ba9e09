//! An open file, or bytes that were read, as one kind of device.
ghost use Rattle.std.specs.Prelude.{◌≡◌, ◌<◌, ◌≤◌, Some, length, take};
ghost use Rattle.lazy_file.specs.DeviceTexts.{AreBytesAt};
ghost use Rattle.source_device.specs.Devices.{source_reading};

use lazy_file::{Device, DeviceError};

/// What the bytes of a source come from.
#[derive(Drop)]
pub enum SourceDevice<F> {
    /// A file that tells its size: it is read where it lies.
    File(F),
    /// The bytes that were read of what tells no size, such as a pipe.
    Held(Vec<u8>),
}

/// Copies the bytes from place `off` on into the front of `buffer`, as many as there are and fit, and answers how many.
fn copy_from(bytes: &[u8], off: u64, buffer: &mut [u8]) -> usize
    ensures count { result ≤ length buffer.old }
    ensures bytes { AreBytesAt (Some bytes.now) off (take result buffer.new) }
    ensures end { result ≡ 0 → 0 < length buffer.old → length bytes.now ≤ off }
{
    let start = usize::try_from(off).unwrap_or(usize::MAX).min(bytes.len());
    let rest = &bytes[start..];
    let count = rest.len().min(buffer.len());
    buffer[..count].copy_from_slice(&rest[..count]);
    count
}

/// A file's size and reads are its own. Of held bytes the size is their number, and no read fails.
impl<F: Device> Device for SourceDevice<F> {
    type Book = F::Book;

    ghost reading = { source_reading F.reading };

    fn size(&self) -> u64 {
        match self {
            SourceDevice::File(file) => file.size(),
            SourceDevice::Held(bytes) => bytes.len() as u64,
        }
    }

    fn read_at(
        &mut self,
        book: &mut F::Book,
        off: u64,
        buffer: &mut [u8],
    ) -> Result<usize, DeviceError> {
        match self {
            SourceDevice::File(file) => file.read_at(book, off, buffer),
            SourceDevice::Held(bytes) => Ok(copy_from(bytes, off, buffer)),
        }
    }
}
