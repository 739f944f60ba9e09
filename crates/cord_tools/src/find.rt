//! The first place of a pattern in a file.

ghost use Rattle.std.specs.Prelude.{◌≡◌, ◌↔◌, ◌⊎◌, ◌<◌, ◌≤◌, ◌++◌, length, drop, IfOk, IfErr, IsErrOf, OnOk};
ghost use Rattle.cord_search.specs.Places.{IsFirst};
ghost use Rattle.cord_search.specs.declared.pattern.TheConstants.{PATTERN_LIMIT};
ghost use Rattle.cord_tools.specs.Files.{FindsPattern, OfFile, file_cells, place_line};
ghost use Rattle.cord_tools.specs.Unread.{ToolReadsCells};
ghost use Rattle.cord_tools.specs.declared.fault.ToolFault.TheVariants.{Memory, PatternTooLong, Read};

use crate::fault::ToolFault;
use crate::files::{part, store_of};
use crate::status::Status;
use byte_output::write_bytes;
use cord_search::{PATTERN_LIMIT, find};
use itoa::write_digits;
use lazy_file::Sources;
use std::alloc::{AllocError, Global};
use std::io;

/// A place has up to so many digits.
const DIGITS: usize = 20;

/// Puts the line that tells a place behind the others.
pub fn push_line(lines: &mut Vec<u8>, place: u64) -> Result<(), AllocError>
    ensures { OnOk result (lines.new.items ≡ lines.old.items ++ place_line place) }
{
    let mut line = [b'\n'; DIGITS + 1];
    let start = write_digits(place, &mut line, DIGITS);
    lines.extend_from_slice(&line[start..])
}

/// The first place of the pattern in the first source, from its byte
/// `start` on. The fault is `PatternTooLong`, `Read` or `Memory`.
fn first_place<T: Sources>(
    alloc: Global,
    sources: &mut T,
    start: u64,
    pattern: &[u8],
) -> Result<Option<u64>, ToolFault>
    requires { 1 ≤ length (T.reading sources.old).stated.sizes }
    ensures found { IfOk result
        (λ found. OfFile (T.reading sources.old).stated 0 (λ t. IsFirst pattern.now t start found)) }
    ensures too_long { IsErrOf result PatternTooLong ↔ (PATTERN_LIMIT < length pattern.now) }
    ensures fault { IfErr result (λ e. (e ≡ PatternTooLong) ⊎ ((e ≡ Read) ⊎ (e ≡ Memory))) }
    ensures reads { ToolReadsCells (T.reading sources.old) (T.reading sources.new)
        (drop start (file_cells (T.reading sources.old).stated.sizes 0)) result }
{
    if pattern.len() > PATTERN_LIMIT {
        return Err(ToolFault::PatternTooLong);
    }
    let mut store = store_of(alloc, sources)?;
    let file = part(&mut store, 0, 0, u64::MAX)?;
    Ok(find(alloc, &store, sources, file, start, pattern)?)
}

/// Writes the line of the first place of the pattern in the first source, from its byte `start` on, and answers
/// `Success`. Where the pattern stands nowhere, it writes nothing, and answers `Failure`.
///
/// # Errors
///
/// `PatternTooLong` for a pattern of more than 4,096 bytes. `Write`, where the writer failed or took no byte: a prefix
/// of the line was written. `Read`, where the source could not be read. `Memory`.
pub fn run_find<T: Sources, W: io::Write>(
    alloc: Global,
    sources: &mut T,
    start: u64,
    pattern: &[u8],
    writer: &mut W,
) -> Result<Status, ToolFault>
    requires { 1 ≤ length (T.reading sources.old).stated.sizes }
    ensures { FindsPattern (T.reading sources.old) (T.reading sources.new) start pattern.now
        (W.contents writer.old) (W.contents writer.new) result }
{
    match first_place(alloc, sources, start, pattern)? {
        Some(place) => {
            let mut line = Vec::new(alloc);
            push_line(&mut line, place)?;
            write_bytes(writer, &line)?;
            Ok(Status::Success)
        }
        None => Ok(Status::Failure),
    }
}
