//! The text of a revision.

ghost use Rattle.cord_tools.specs.Answers.{ShowsRevision};

use crate::fault::ToolFault;
use crate::input::read_image;
use cord_search::put;
use lazy_file::Sources;
use session_checker::{WantedRevision, check_at_most};
use std::alloc::Global;
use std::io;

/// Writes the text of revision `revision` of the image that the reader gives, with these
/// sources, and nothing else, once the image is checked by at most so many looks at
/// nodes, if there is a limit. Room for `expected` bytes of the image is taken first.
///
/// # Errors
///
/// As those of `run_show_wanted`.
pub fn run_show<R: io::Read + Drop, S: Sources, W: io::Write>(
    alloc: Global,
    reader: R,
    expected: u64,
    sources: &mut S,
    at_most: Option<u64>,
    revision: u64,
    writer: &mut W,
) -> Result<(), ToolFault>
    ensures { ShowsRevision at_most S.reading sources.old sources.new (R.remaining reader)
        (WantedRevision.Number revision) (W.contents writer.old) (W.contents writer.new) result }
{
    let wanted = WantedRevision::Number(revision);
    run_show_wanted(alloc, reader, expected, sources, at_most, wanted, writer)
}

/// Does what `run_show` does, of the wanted revision.
///
/// # Errors
///
/// `Refused`, with the fault of a refused image. `NoRevision`, where there is no such
/// revision. `Read`, where the reader failed, or a source that a row compares, and `Memory`.
/// Nothing was written then. `Write`, where the writer failed or took no byte. `Read` and
/// `Memory` also where a source's read failed so. Then a prefix of the text was written.
pub fn run_show_wanted<R: io::Read + Drop, S: Sources, W: io::Write>(
    alloc: Global,
    reader: R,
    expected: u64,
    sources: &mut S,
    at_most: Option<u64>,
    wanted: WantedRevision,
    writer: &mut W,
) -> Result<(), ToolFault>
    ensures { ShowsRevision at_most S.reading sources.old sources.new (R.remaining reader)
        wanted (W.contents writer.old) (W.contents writer.new) result }
{
    let bytes = read_image(alloc, reader, expected)?;
    let image = check_at_most(&bytes, sources, at_most)?;
    let count = image.revisions();
    let revision = wanted.number(count);
    if revision >= u64::from(count) {
        return Err(ToolFault::NoRevision);
    }
    let k = revision as u32;
    match image.root(k) {
        Some(root) => Ok(put(alloc, &image, sources, root, writer)?),
        None => Err(ToolFault::NoRevision),
    }
}
