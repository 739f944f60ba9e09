//! Where the bytes of a text come from, run by run.

ghost use Rattle.std.specs.Prelude.{◌≡◌, ◌∷◌, ◌<◌, [], List, length, take, drop, Ok, OnOk};
ghost use Rattle.std.specs.Fmt.{decimal};
ghost use Rattle.command_parts.specs.declared.edit.Splice.{Splice};
ghost use Rattle.command_parts.specs.Commands.{with_splices};
ghost use Rattle.image_reader.specs.Accepted.{splices_before};
ghost use Rattle.edit_script.specs.Words.{Number, line_of};
ghost use Rattle.edit_script.specs.Commands.{front_of};
ghost use Rattle.script_tools.specs.declared.shown.LogTexts.TheVariants.{Brief};
ghost use Rattle.script_tools.specs.Logged.{WritesText, shown_on};
ghost use Rattle.script_tools.specs.Blamed.{BlamesImage, WritesBlame, WritesRuns, run_line, run_texts};

use crate::fault::{BlameFault, PieceFault};
use crate::shown::{LogTexts, write_piece, write_text};
use crate::wanted::BytesOfText;
use byte_origins::{Brought, OriginRun, Origins};
use command_parts::Edit;
use edit_script::{push_front, push_number};
use itoa::Buffer;
use lazy_file::Sources;
use session_checker::{Checked, check_told};
use std::alloc::{AllocError, Global};
use std::io;
use work_progress::{Progress, Untold};

/// The place of a run, what is told of it by numbers, and its command, in place of what the piece held.
fn put_run(piece: &mut Vec<u8>, place: u64, run: OriginRun, edit: &Edit) -> Result<(), AllocError>
    ensures { (splices : List Splice) → OnOk result (piece.new.items
        ≡ line_of (Number place ∷ Number run.len ∷ Number run.first.revision ∷ Number run.first.place
        ∷ front_of (with_splices splices edit.now))) }
{
    let mut digits = Buffer::new();
    piece.clear();
    piece.extend_from_slice(digits.format(place).as_bytes())?;
    push_number(piece, run.len)?;
    push_number(piece, u64::from(run.first.revision))?;
    push_number(piece, run.first.place)?;
    piece.push(b' ')?;
    push_front(piece, edit)
}

/// As many as there are of the `n` bytes of a pool from `a` on.
fn pool_bytes(pool: &[u8], a: u64, n: u64) -> &[u8]
    ensures { result.now ≡ take n (drop a pool.now) }
{
    let from = a.min(pool.len() as u64) as usize;
    let rest = &pool[from..];
    &rest[..n.min(rest.len() as u64) as usize]
}

/// Writes the bytes of a run as far as they are shown.
fn write_bytes_of<W: io::Write>(
    piece: &mut Vec<u8>,
    pool: &[u8],
    run: OriginRun,
    writer: &mut W,
) -> Result<(), PieceFault>
    ensures { WritesText (W.contents writer.old) (W.contents writer.new)
        (shown_on Brief (run_texts pool.now run)) result }
{
    match run.first.brought {
        Brought::Pool { a } => write_text(
            LogTexts::Brief,
            piece,
            pool_bytes(pool, a, run.len),
            writer,
        ),
        _ => Ok(()),
    }
}

/// Writes the line of a run that stands at a place of a text. The revisions before its own have `first` splices.
fn write_run<W: io::Write>(
    piece: &mut Vec<u8>,
    image: &Checked,
    first: u32,
    place: u64,
    run: OriginRun,
    writer: &mut W,
) -> Result<(), PieceFault>
    requires there { run.first.revision < length image.now.revisions }
    requires first { first ≡ splices_before image.now run.first.revision }
    ensures { WritesText (W.contents writer.old) (W.contents writer.new) (run_line image.now place run) result }
{
    let revision = image.image().revision(run.first.revision, first);
    put_run(piece, place, run, &revision.edit)?;
    write_piece(piece, writer)?;
    write_bytes_of(piece, image.image().pool(), run, writer)?;
    write_piece(b"\n", writer)
}

/// Writes the lines of the runs of `count` bytes of the text of revision `k` from `start` on.
fn write_runs<W: io::Write>(
    alloc: Global,
    image: &Checked,
    k: u32,
    start: u64,
    count: u64,
    writer: &mut W,
) -> Result<(), PieceFault>
    requires { k < length image.now.revisions }
    ensures { WritesRuns image.now k start count (W.contents writer.old) (W.contents writer.new) result }
{
    // The image's records are true, as this call says.
    let _count = image.revisions();
    let mut piece = Vec::new(alloc);
    let mut origins = Origins::of(alloc, image, k, start, count)?;
    let mut place = start;
    while let Some(run) = origins.next()? {
        let first = origins.splices_before(run.first.revision);
        write_run(&mut piece, image, first, place, run, writer)?;
        place += run.len;
    }
    Ok(())
}

/// Writes where the bytes of a revision come from, where the image has it.
fn blame_checked<W: io::Write>(
    alloc: Global,
    wanted: BytesOfText,
    image: &Checked,
    writer: &mut W,
) -> Result<(), BlameFault>
    ensures { WritesBlame wanted (W.contents writer.old) (W.contents writer.new) (Ok image.now) result }
{
    let count = image.revisions();
    let revision = wanted.revision.number(count);
    if revision >= u64::from(count) {
        return Err(BlameFault::NoRevision);
    }
    let k = revision as u32;
    match write_runs(alloc, image, k, wanted.start, wanted.count, writer) {
        Ok(()) => Ok(()),
        Err(PieceFault::Memory) => Err(BlameFault::Memory),
        Err(PieceFault::Write) => Err(BlameFault::Write),
    }
}

/// Writes where some bytes of a text come from, once its image is checked with these sources, by so many looks at nodes
/// at most, if there is a limit: a line for each run of bytes that came in side by side, as
/// `4 6 2 4 insert 1 4 "brown "`: its place in the text, how many bytes it has, the revision whose command put it in,
/// its place in that revision's text, and that command, by name and numbers. Where the bytes were handed in, at most
/// the first 60 are shown behind it. No run goes on where the next one begins.
///
/// # Errors
///
/// `Check`, with the fault of an image that is not accepted, and `NoRevision`, where it
/// has no such revision: nothing was written then. `Memory`, where memory was refused, and
/// `Write`, where the writer failed or took no byte: a prefix of the lines was written.
pub fn run_blame<S: Sources, W: io::Write>(
    alloc: Global,
    image: &[u8],
    sources: &mut S,
    at_most: Option<u64>,
    wanted: BytesOfText,
    writer: &mut W,
) -> Result<(), BlameFault>
    ensures { BlamesImage wanted at_most (S.reading sources.old) (S.reading sources.new) image.now
        (W.contents writer.old) (W.contents writer.new) result }
{
    run_blame_told(alloc, image, sources, at_most, wanted, writer, &mut Untold)
}

/// Does what `run_blame` does, and tells on the way how many of the
/// image's records are checked, and before it writes that they are.
///
/// # Errors
///
/// As those of `run_blame`.
pub fn run_blame_told<S: Sources, W: io::Write, P: Progress>(
    alloc: Global,
    image: &[u8],
    sources: &mut S,
    at_most: Option<u64>,
    wanted: BytesOfText,
    writer: &mut W,
    progress: &mut P,
) -> Result<(), BlameFault>
    ensures { BlamesImage wanted at_most (S.reading sources.old) (S.reading sources.new) image.now
        (W.contents writer.old) (W.contents writer.new) result }
{
    match check_told(image, sources, at_most, progress) {
        Ok(checked) => blame_checked(alloc, wanted, &checked, writer),
        Err(fault) => Err(BlameFault::Check(fault)),
    }
}
