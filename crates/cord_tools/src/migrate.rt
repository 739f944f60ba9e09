//! An image written anew in version 2.

ghost use Rattle.cord_tools.specs.Migrated.{MigratesImage};

use crate::fault::ToolFault;
use crate::input::read_image;
use lazy_file::Sources;
use session_checker::check_told;
use session_image::restate;
use std::alloc::Global;
use std::io;
use work_progress::{Progress, Untold};

/// Writes the image that the reader gives anew in version 2, with these sources, and nothing else, once it is checked
/// by at most so many looks at nodes, if there is a limit. What is written is accepted with the same sources, and its
/// texts are the image's. Room for `expected` bytes of the image is taken first.
///
/// # Errors
///
/// `Refused`, with the fault of a refused image. `Read`, where the reader failed, or a
/// source that a row compares, and `Memory`. Nothing was written then. `Write`, where
/// the writer failed or took no byte: a prefix of the image in version 2 was written.
pub fn run_migrate<R: io::Read + Drop, S: Sources, W: io::Write>(
    alloc: Global,
    reader: R,
    expected: u64,
    sources: &mut S,
    at_most: Option<u64>,
    writer: &mut W,
) -> Result<(), ToolFault>
    ensures { MigratesImage at_most S.reading sources.old sources.new (R.remaining reader)
        (W.contents writer.old) (W.contents writer.new) result }
{
    run_migrate_told(
        alloc,
        reader,
        expected,
        sources,
        at_most,
        writer,
        &mut Untold,
    )
}

/// Does what `run_migrate` does, and tells on the way how many of the
/// image's records are checked, and before it writes that they are.
///
/// # Errors
///
/// As those of `run_migrate`.
pub fn run_migrate_told<R: io::Read + Drop, S: Sources, W: io::Write, P: Progress>(
    alloc: Global,
    reader: R,
    expected: u64,
    sources: &mut S,
    at_most: Option<u64>,
    writer: &mut W,
    progress: &mut P,
) -> Result<(), ToolFault>
    ensures { MigratesImage at_most S.reading sources.old sources.new (R.remaining reader)
        (W.contents writer.old) (W.contents writer.new) result }
{
    let bytes = read_image(alloc, reader, expected)?;
    let image = check_told(&bytes, sources, at_most, progress)?;
    Ok(restate(image.image(), writer)?)
}
