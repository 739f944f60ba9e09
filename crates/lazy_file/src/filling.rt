//! Reads of a device until a buffer is full.
ghost use Rattle.std.specs.Prelude.{◌+◌, ◌<◌, ◌^◌, length};
ghost use Rattle.lazy_file.specs.DeviceTexts.{FillsFrom};

use crate::device::Device;
use crate::faults::SourceFault;

/// Reads the device from place `off` on until `buffer` is full, by at most as many calls as it has bytes.
///
/// # Errors
///
/// `Device` where a read failed, `Short` where the device ended before.
pub(crate) fn fill<D: Device>(
    device: &mut D,
    book: &mut D::Book,
    off: u64,
    buffer: &mut [u8],
) -> Result<(), SourceFault>
    requires { off + length buffer.old < 2 ^ 64 }
    ensures { FillsFrom (D.reading device.old) (D.reading device.new) off buffer.new result }
{
    let mut done = 0;
    while done < buffer.len() {
        match device.read_at(book, off + done as u64, &mut buffer[done..]) {
            Ok(0) => return Err(SourceFault::Short),
            Ok(count) => done += count,
            Err(_) => return Err(SourceFault::Device),
        }
    }
    Ok(())
}
