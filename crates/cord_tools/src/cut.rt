//! A part of a file.

ghost use Rattle.std.specs.Prelude.{◌≤◌, length};
ghost use Rattle.cord_tools.specs.Files.{CutsFile};

use crate::fault::ToolFault;
use crate::files::{part, store_of};
use cord_search::put;
use lazy_file::Sources;
use std::alloc::Global;
use std::io;

/// Writes at most `count` bytes of the first source, from its byte `start`
/// on, and nothing else. Where it fails, a prefix of them was written.
///
/// # Errors
///
/// `Write`, where the writer failed or took no byte. `Read`, where the source could not be read. `Memory`.
pub fn run_cut<T: Sources, W: io::Write>(
    alloc: Global,
    sources: &mut T,
    start: u64,
    count: u64,
    writer: &mut W,
) -> Result<(), ToolFault>
    requires { 1 ≤ length (T.reading sources.old).stated.sizes }
    ensures { CutsFile (T.reading sources.old) (T.reading sources.new) start count
        (W.contents writer.old) (W.contents writer.new) result }
{
    let mut store = store_of(alloc, sources)?;
    let rope = part(&mut store, 0, start, count)?;
    put(alloc, &store, sources, rope, writer)?;
    Ok(())
}
