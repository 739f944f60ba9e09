//! All the places of a pattern in a file.

ghost use Rattle.std.specs.Prelude.{◌≡◌, ◌+◌, ◌<◌, ◌≤◌, ◌^◌, [], ◌∷◌, length, drop, slice_index, OnOk, IfOk, IfErr};
ghost use Rattle.memchr.specs.Find.{FindsNeedle};
ghost use Rattle.cord_search.specs.Places.{StandsAt};
ghost use Rattle.cord_tools.specs.AllPlaces.{FindsAll, FindsIn, FindsOn};
ghost use Rattle.cord_tools.specs.Files.{OfFile, file_cells};
ghost use Rattle.cord_tools.specs.Unread.{IsUnread, ToolReadsCells};
ghost use Rattle.cord_tools.specs.declared.status.Status.TheVariants.{Success};

use crate::fault::ToolFault;
use crate::find::push_line;
use crate::status::Status;
use byte_output::write_bytes;
use cord_search::PATTERN_LIMIT;
use lazy_file::Sources;
use memchr::memchr_iter;
use memchr::memmem::Finder;
use std::alloc::{AllocError, Global};
use std::io;
use work_progress::{Progress, Untold};

/// Bytes are searched by so many.
const WINDOW: usize = 65_536;

/// The first place of the pattern in these bytes from `at` on.
fn next_in(finder: &Finder<'_>, bytes: &[u8], at: usize) -> Option<usize>
    ensures { FindsNeedle bytes.now finder.now at result }
{
    if at > bytes.len() {
        return None;
    }
    match finder.find(&bytes[at..]) {
        Some(k) => Some(at + k),
        None => None,
    }
}

/// Puts down the lines of the pattern's places in these bytes, which are those of
/// a text from its place `first` on, and answers the place from which on to go on.
fn found_in(
    lines: &mut Vec<u8>,
    finder: &Finder<'_>,
    bytes: &[u8],
    first: u64,
) -> Result<u64, AllocError>
    requires empty { lines.old.items ≡ [] }
    requires limit { first + length bytes.now < 2 ^ 41 }
    requires short { length finder.now ≤ length bytes.now }
    ensures found { IfOk result (λ next. FindsIn finder.now bytes.now first next lines.new.items) }
    ensures next { IfOk result (λ next. first < next) }
{
    let need = finder.needle().len();
    let mut at = 0;
    'places: while let Some(k) = next_in(finder, bytes, at) {
        push_line(lines, first + k as u64)?;
        at = k + need.max(1);
    }
    let clear = bytes.len() + 1 - need;
    Ok(first + at.max(clear) as u64)
}

/// Puts down the lines of the places of a pattern of one byte, and answers the place from which on to go on.
fn found_byte(lines: &mut Vec<u8>, byte: u8, bytes: &[u8], first: u64) -> Result<u64, AllocError>
    requires empty { lines.old.items ≡ [] }
    requires limit { first + length bytes.now < 2 ^ 41 }
    requires some { 0 < length bytes.now }
    ensures found { IfOk result (λ next. FindsIn (byte ∷ []) bytes.now first next lines.new.items) }
    ensures next { IfOk result (λ next. first < next) }
{
    let mut places = memchr_iter(byte, bytes);
    'places: while let Some(place) = places.next() {
        push_line(lines, first + place as u64)?;
    }
    Ok(first + bytes.len() as u64)
}

/// Puts down the lines of a pattern's places in place of other lines,
/// by the search that is fast for it, and answers where to go on.
fn found_places(
    lines: &mut Vec<u8>,
    finder: &Finder<'_>,
    bytes: &[u8],
    first: u64,
) -> Result<u64, AllocError>
    requires limit { first + length bytes.now < 2 ^ 41 }
    requires short { length finder.now ≤ length bytes.now }
    ensures found { IfOk result (λ next. FindsIn finder.now bytes.now first next lines.new.items) }
    ensures next { IfOk result (λ next. first < next) }
{
    lines.clear();
    match finder.needle() {
        [byte] => found_byte(lines, *byte, bytes, first),
        _ => found_in(lines, finder, bytes, first),
    }
}

/// Reads bytes of the first source, from its byte `from` on. No bytes are read without the source.
fn read_part<T: Sources>(sources: &mut T, from: u64, part: &mut [u8]) -> Result<(), ToolFault>
    requires { from + length part.old ≤ slice_index (T.reading sources.old).stated.sizes 0 }
    ensures part { OnOk result (OfFile (T.reading sources.old).stated 0 (λ t. StandsAt part.new t from)) }
    ensures fault { IfErr result IsUnread }
    ensures reads { ToolReadsCells (T.reading sources.old) (T.reading sources.new)
        (drop from (file_cells (T.reading sources.old).stated.sizes 0)) result }
{
    if part.is_empty() {
        return Ok(());
    }
    Ok(sources.read(0, from, part)?)
}

/// Puts down the lines of the pattern's places in the first source from its byte `from` on, as far as the window takes
/// its bytes, in place of other lines, and answers the place from which on to go on.
fn found_from<T: Sources>(
    lines: &mut Vec<u8>,
    finder: &Finder<'_>,
    sources: &mut T,
    from: u64,
    window: &mut [u8],
) -> Result<u64, ToolFault>
    requires size { slice_index (T.reading sources.old).stated.sizes 0 < 2 ^ 40 }
    requires inside { from + length window.old ≤ slice_index (T.reading sources.old).stated.sizes 0 }
    requires short { length finder.now ≤ length window.old }
    ensures found { IfOk result (λ next.
        FindsOn (T.reading sources.old).stated finder.now from next lines.new.items) }
    ensures next { IfOk result (λ next. from < next) }
    ensures fault { IfErr result IsUnread }
    ensures reads { ToolReadsCells (T.reading sources.old) (T.reading sources.new)
        (drop from (file_cells (T.reading sources.old).stated.sizes 0)) result }
{
    read_part(sources, from, window)?;
    Ok(found_places(lines, finder, window, from)?)
}

/// Tells that the bytes before `from` are done, as long as no line was found.
fn tell_part<P: Progress>(progress: &mut P, lines: &[u8], from: u64) {
    match lines.first() {
        Some(_) => progress.end(),
        None => progress.tell(from),
    }
}

/// Does what `found_from` does, and tells how far it is as long as no line was found.
fn found_told<T: Sources, P: Progress>(
    lines: &mut Vec<u8>,
    finder: &Finder<'_>,
    sources: &mut T,
    from: u64,
    window: &mut [u8],
    progress: &mut P,
) -> Result<u64, ToolFault>
    requires size { slice_index (T.reading sources.old).stated.sizes 0 < 2 ^ 40 }
    requires inside { from + length window.old ≤ slice_index (T.reading sources.old).stated.sizes 0 }
    requires short { length finder.now ≤ length window.old }
    ensures found { IfOk result (λ next.
        FindsOn (T.reading sources.old).stated finder.now from next lines.new.items) }
    ensures next { IfOk result (λ next. from < next) }
    ensures fault { IfErr result IsUnread }
    ensures reads { ToolReadsCells (T.reading sources.old) (T.reading sources.new)
        (drop from (file_cells (T.reading sources.old).stated.sizes 0)) result }
{
    let found = found_from(lines, finder, sources, from, window);
    tell_part(progress, lines, from);
    found
}

/// Whether there was a place, where there was one before or these lines are of some.
fn status_with(status: Status, lines: &[u8]) -> Status
    ensures none { lines.now ≡ [] → result ≡ status }
    ensures some { 0 < length lines.now → result ≡ Success }
{
    if lines.is_empty() {
        status
    } else {
        Status::Success
    }
}

/// Writes the line of each place of the pattern in the first source, from its byte `start` on and each behind the end
/// of the one before, and answers `Success`. Where the pattern stands nowhere, it writes nothing, and answers
/// `Failure`. An empty pattern stands at each place up to the source's end.
///
/// # Errors
///
/// `PatternTooLong` for a pattern of more than 4,096 bytes. `Write`, where the writer
/// failed or took no byte: a prefix of the lines was written. `Read`, where the source
/// could not be read, and `Memory`: the lines of the first places were written.
pub fn run_find_all<T: Sources, W: io::Write>(
    alloc: Global,
    sources: &mut T,
    start: u64,
    pattern: &[u8],
    writer: &mut W,
) -> Result<Status, ToolFault>
    requires { 1 ≤ length (T.reading sources.old).stated.sizes }
    ensures { FindsAll (T.reading sources.old) (T.reading sources.new) start pattern.now
        (W.contents writer.old) (W.contents writer.new) result }
{
    run_find_all_told(alloc, sources, start, pattern, writer, &mut Untold)
}

/// Does what `run_find_all` does, and tells on the way how many of the source's
/// bytes are done, up to the first line, which it writes behind the end of that.
///
/// # Errors
///
/// As those of `run_find_all`.
pub fn run_find_all_told<T: Sources, W: io::Write, P: Progress>(
    alloc: Global,
    sources: &mut T,
    start: u64,
    pattern: &[u8],
    writer: &mut W,
    progress: &mut P,
) -> Result<Status, ToolFault>
    requires { 1 ≤ length (T.reading sources.old).stated.sizes }
    ensures { FindsAll (T.reading sources.old) (T.reading sources.new) start pattern.now
        (W.contents writer.old) (W.contents writer.new) result }
{
    if pattern.len() > PATTERN_LIMIT {
        return Err(ToolFault::PatternTooLong);
    }
    let finder = Finder::new(pattern);
    let size = sources.len(0);
    let end = (size + 1).saturating_sub(pattern.len() as u64);
    let mut buffer = [0; WINDOW];
    let mut lines = Vec::new(alloc);
    let mut status = Status::Failure;
    let mut from = start;
    progress.begin(size);
    while from < end {
        let n = (size - from).min(WINDOW as u64) as usize;
        let next = found_told(
            &mut lines,
            &finder,
            sources,
            from,
            &mut buffer[..n],
            progress,
        )?;
        write_bytes(writer, &lines)?;
        status = status_with(status, &lines);
        from = next;
    }
    progress.end();
    Ok(status)
}
