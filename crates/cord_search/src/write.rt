//! A text written to its end.

ghost use Rattle.std.specs.Prelude.{◌≡◌, ◌+◌, None, OnOk, OnErr, IsOk};
ghost use Rattle.std.specs.Io.KnownBytes.{Appends};
ghost use Rattle.rope_node.specs.Denotes.{IsRope, rope_len};
ghost use Rattle.lazy_file.specs.Readings.{fault_by, Reads};
ghost use Rattle.cord_position.specs.Fetched.{InCells, rope_cell};
ghost use Rattle.byte_output.specs.Prefix.{AppendsPrefix};
ghost use Rattle.cord_search.specs.Stated.{OfText};
ghost use Rattle.cord_search.specs.Faults.{put_source_fault};

use crate::fault::PutFault;
use crate::runs::{PIECE, WINDOW, next_window};
use byte_output::write_bytes;
use cord_position::Pos;
use lazy_file::Sources;
use rope_node::{NodeSpace, Rope, rope_len};
use std::alloc::Global;
use std::io;

/// Writes a rope's text, and nothing else. Where it fails, a prefix of the text was written.
///
/// # Errors
///
/// `Write`, where the writer failed or took no byte. A source's fault,
/// where a byte is one of that source and the read of it failed.
pub fn put<S: NodeSpace, T: Sources, W: io::Write>(
    alloc: Global,
    space: &S,
    sources: &mut T,
    x: Rope,
    writer: &mut W,
) -> Result<(), PutFault>
    requires { IsRope (S.table space.now) x }
    ensures ok { OnOk result (OfText (S.table space.now) (T.reading sources.old).stated x
        (Appends (W.contents writer.old) (W.contents writer.new))) }
    ensures err { OnErr result (OfText (S.table space.now) (T.reading sources.old).stated x
        (AppendsPrefix (W.contents writer.old) (W.contents writer.new))) }
    ensures nothing { x ≡ None → IsOk result }
    ensures reads { Reads (T.reading sources.old) (T.reading sources.new)
        (InCells (rope_cell (S.table space.now) x) 0 (rope_len (S.table space.now) x))
        (fault_by put_source_fault result) }
{
    let len = rope_len(space, x);
    let mut pos = Pos::set(alloc, space, x, 0);
    let mut buffer = [0; WINDOW];
    let mut done = 0;
    while done < len {
        let left = len - done;
        let need = left.min(PIECE as u64) as usize;
        let window = next_window(&pos, space, sources, x, need, left, &mut buffer)?;
        write_bytes(writer, window)?;
        let count = window.len() as u64;
        pos.skip(count);
        done += count;
    }
    Ok(())
}
