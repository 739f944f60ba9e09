//! Writes of all the bytes that are there.

ghost use Rattle.std.specs.Prelude.{◌≡◌, ◌≤◌, length, take, [], OnOk, OnErr, IfOk, IsOk};
ghost use Rattle.std.specs.Io.KnownBytes.{Appends, Keeps};
ghost use Rattle.byte_output.specs.Prefix.{AppendsPrefix};

use std::io;
use std::io::ErrorKind;

/// The writer failed, or took no byte.
#[derive(Clone, Copy, Debug, PartialEq, Eq)]
pub struct WriteFault;

/// One write. It answers 0 where it was interrupted and is to be made again.
fn write_some<W: io::Write>(writer: &mut W, bytes: &[u8]) -> Result<usize, WriteFault>
    ensures count { IfOk result (λ n. n ≤ length bytes.now) }
    ensures ok { IfOk result
        (λ n. Appends (W.contents writer.old) (W.contents writer.new) (take n bytes.now)) }
    ensures err { OnErr result (Keeps (W.contents writer.old) (W.contents writer.new)) }
{
    match writer.write(bytes) {
        Ok(0) => Err(WriteFault),
        Ok(n) => Ok(n),
        Err(error) => {
            if error.kind() == ErrorKind::Interrupted {
                Ok(0)
            } else {
                Err(WriteFault)
            }
        }
    }
}

/// Writes all the bytes. No bytes are written without the writer.
///
/// # Errors
///
/// `WriteFault`, where the writer failed or took no byte. A prefix of the bytes was written then.
pub fn write_bytes<W: io::Write>(writer: &mut W, bytes: &[u8]) -> Result<(), WriteFault>
    ensures ok { OnOk result (Appends (W.contents writer.old) (W.contents writer.new) bytes.now) }
    ensures err { OnErr result
        (AppendsPrefix (W.contents writer.old) (W.contents writer.new) bytes.now) }
    ensures nothing { bytes.now ≡ [] → IsOk result }
{
    let mut done = 0;
    for _ in 0..u64::MAX {
        if done == bytes.len() {
            return Ok(());
        }
        done += write_some(writer, &bytes[done..])?;
    }
    Err(WriteFault)
}
