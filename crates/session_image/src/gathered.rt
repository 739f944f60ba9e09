//! Bytes gathered on the stack, so that a writer takes them in large pieces.

ghost use Rattle.std.specs.Prelude.{◌≡◌, ◌+◌, ◌≤◌, ◌++◌, [], length, OnOk, OnErr};
ghost use Rattle.std.specs.Io.KnownBytes.{Appends};
ghost use Rattle.byte_output.specs.Prefix.{AppendsPrefix};
ghost use Rattle.session_image.specs.Gathering.{WritesGathered, Flushes, output};

use crate::held::Held;
use byte_output::{WriteFault, write_bytes};
use std::io;

/// Writes what is held, and holds nothing then. Where the writer fails, what it did not take is lost.
fn write_out<W: io::Write, const N: usize>(
    held: &mut Held<N>,
    writer: &mut W,
) -> Result<(), WriteFault>
    ensures ok { OnOk result (Appends (W.contents writer.old) (W.contents writer.new) held.old) }
    ensures err { OnErr result
        (AppendsPrefix (W.contents writer.old) (W.contents writer.new) held.old) }
    ensures empty { held.new ≡ [] }
{
    let result = write_bytes(writer, held.as_slice());
    held.clear();
    result
}

/// A writer, and the bytes that it is to take next, `N` at most.
#[derive(Drop)]
pub(crate) struct Gathered<'w, W, const N: usize> {
    writer: &'w mut W,
    held: Held<N>,
}

impl<'w, W: io::Write, const N: usize> Gathered<'w, W, N> {
    /// Nothing is held at first.
    pub(crate) fn new(writer: &'w mut W) -> Gathered<'w, W, N>
        ensures same_reference { result.writer.ghost_name ≡ writer.entry.ghost_name }
        ensures same { result.writer.now ≡ writer.old }
        ensures empty { result.held ≡ [] }
    {
        Gathered {
            writer,
            held: Held::new(),
        }
    }

    /// Holds these bytes behind those that are held. Where there is no room those
    /// are written first, and then these too, if there are more than can be held.
    ///
    /// # Errors
    ///
    /// `WriteFault`, where the writer failed or took no byte.
    pub(crate) fn put(&mut self, bytes: &[u8]) -> Result<(), WriteFault>
        ensures { WritesGathered (output W.contents self.old) (output W.contents self.new) bytes.now result }
    {
        let room = self.held.room();
        // This is known where the code is made: a writer behind which nothing is held is handed the bytes straight.
        if N == 0 {
            return write_bytes(self.writer, bytes);
        }
        if bytes.len() <= room {
            self.held.push(bytes);
            return Ok(());
        }
        write_out(&mut self.held, self.writer)?;
        if bytes.len() <= N {
            self.held.push(bytes);
            return Ok(());
        }
        write_bytes(self.writer, bytes)
    }

    /// Writes what is held.
    ///
    /// # Errors
    ///
    /// `WriteFault`, where the writer failed or took no byte.
    pub(crate) fn flush(&mut self) -> Result<(), WriteFault>
        ensures { Flushes (output W.contents self.old) (output W.contents self.new) result }
    {
        // No more is held than there is room for, as the room says.
        let _room = self.held.room();
        // As in `put`: where there is no room nothing is held.
        if N == 0 {
            return Ok(());
        }
        write_out(&mut self.held, self.writer)
    }
}
