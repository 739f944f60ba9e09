//! The script of an image.

// The lines `let _nodes = ..` and `let _count = ..` are for the proof:
// the value is an image whose records are true, as these calls say.

ghost use Rattle.std.specs.Prelude.{◌≡◌, ◌∷◌, ◌++◌, ◌+◌, ◌<◌, ◌≤◌, ◌^◌, [], List, length, take, drop, Ok, OnOk};
ghost use Rattle.std.specs.List.{AllByRecursion};
ghost use Rattle.rope_node.specs.Denotes.{IsRope, rope_depth};
ghost use Rattle.command_parts.specs.declared.edit.Splice.{Splice};
ghost use Rattle.command_parts.specs.Commands.{NamesSplices, full_edit, with_splices};
ghost use Rattle.image_reader.specs.Value.{IsImage, image_table};
ghost use Rattle.image_reader.specs.Accepted.{command_at, revision_at};
ghost use Rattle.session_checker.specs.Faithful.{EachRevision};
ghost use Rattle.edit_script.specs.Words.{Quoted, line_of};
ghost use Rattle.edit_script.specs.Commands.{StandsInside, front_of, quoted_texts, splice_words};
ghost use Rattle.edit_script.specs.Scripts.{comment_of, noted_in};
ghost use Rattle.script_tools.specs.Logged.{LogsImage, WritesLog, WritesText, log_of, noted_of, revision_line, shown_command, shown_on};

use crate::fault::{LogFault, PieceFault};
use crate::shown::{LogTexts, put_numbers, write_piece, write_text};
use command_parts::{Edit, Splice};
use edit_script::{Note, comment_text, push_front, span};
use image_reader::{Image, Revision};
use lazy_file::Sources;
use rope_node::{NodeSpace, Rope, rope_len};
use session_checker::{Checked, check_told};
use std::alloc::{AllocError, Global};
use std::io;
use work_progress::{Progress, Untold};

/// A command's name and its numbers, in place of what the piece held.
fn put_front(piece: &mut Vec<u8>, edit: &Edit) -> Result<(), AllocError>
    ensures { (splices : List Splice)
        → OnOk result (piece.new.items ≡ line_of (front_of (with_splices splices edit.now))) }
{
    piece.clear();
    push_front(piece, edit)
}

/// What is told of a revision, and the line's end, in place of what the piece held.
fn put_comment(alloc: Global, piece: &mut Vec<u8>, note: &Note) -> Result<(), AllocError>
    ensures { OnOk result (piece.new.items ≡ comment_of (noted_in note.now) ++ 10 ∷ []) }
{
    let comment = comment_text(alloc, note)?;
    piece.clear();
    piece.extend_from_slice(comment.as_bytes())?;
    Ok(piece.push(b'\n')?)
}

/// Writes the `n` bytes of an image's pool from `a` on, as a text of a command.
fn write_span<W: io::Write>(
    texts: LogTexts,
    piece: &mut Vec<u8>,
    image: &Image,
    a: u64,
    n: u64,
    writer: &mut W,
) -> Result<(), PieceFault>
    requires { a + n ≤ length image.now.pool }
    ensures { WritesText (W.contents writer.old) (W.contents writer.new)
        (shown_on texts (Quoted (take n (drop a image.now.pool)) ∷ [])) result }
{
    write_text(texts, piece, span(image.pool(), a, n), writer)
}

/// Writes the words of a splice.
fn write_splice<W: io::Write>(
    texts: LogTexts,
    piece: &mut Vec<u8>,
    image: &Image,
    splice: Splice,
    writer: &mut W,
) -> Result<(), PieceFault>
    requires { splice.a + splice.n ≤ length image.now.pool }
    ensures { WritesText (W.contents writer.old) (W.contents writer.new)
        (shown_on texts (splice_words image.now.pool (splice ∷ []))) result }
{
    put_numbers(piece, splice.p, splice.m)?;
    write_piece(piece, writer)?;
    write_span(texts, piece, image, splice.a, splice.n, writer)
}

/// Writes the words of `count` splices of an image from splice `first` on.
fn write_splices<W: io::Write>(
    texts: LogTexts,
    piece: &mut Vec<u8>,
    image: &Image,
    first: u32,
    count: u32,
    writer: &mut W,
) -> Result<(), PieceFault>
    requires there { first + count ≤ length image.now.splices }
    requires fit { first + count < 2 ^ 32 }
    requires inside { AllByRecursion (λ (s : Splice). s.a + s.n ≤ length image.now.pool)
        (take count (drop first image.now.splices)) }
    ensures { WritesText (W.contents writer.old) (W.contents writer.new)
        (shown_on texts (splice_words image.now.pool (take count (drop first image.now.splices)))) result }
{
    for i in 0..count {
        write_splice(texts, piece, image, image.splice(first + i), writer)?;
    }
    Ok(())
}

/// Writes the texts that a command hands in.
fn write_texts<W: io::Write>(
    texts: LogTexts,
    piece: &mut Vec<u8>,
    image: &Image,
    edit: &Edit,
    writer: &mut W,
) -> Result<(), PieceFault>
    requires named { NamesSplices image.now.splices edit.now }
    requires inside { StandsInside (length image.now.pool) (full_edit image.now.splices edit.now) }
    ensures { WritesText (W.contents writer.old) (W.contents writer.new)
        (shown_on texts (quoted_texts image.now.pool (full_edit image.now.splices edit.now))) result }
{
    match *edit {
        Edit::Insert { a, n, .. } => write_span(texts, piece, image, a, n, writer),
        Edit::Replace { a, n, .. } => write_span(texts, piece, image, a, n, writer),
        Edit::Many { first, count, .. } => {
            write_splices(texts, piece, image, first, count, writer)
        }
        Edit::New
        | Edit::Open { .. }
        | Edit::Delete { .. }
        | Edit::Paste { .. }
        | Edit::Join { .. }
        | Edit::Cut { .. }
        | Edit::Fill { .. }
        | Edit::Back { .. }
        | Edit::Balance { .. } => Ok(()),
    }
}

/// Writes a command.
fn write_command<W: io::Write>(
    texts: LogTexts,
    piece: &mut Vec<u8>,
    image: &Image,
    edit: &Edit,
    writer: &mut W,
) -> Result<(), PieceFault>
    requires named { NamesSplices image.now.splices edit.now }
    requires inside { StandsInside (length image.now.pool) (full_edit image.now.splices edit.now) }
    ensures { WritesText (W.contents writer.old) (W.contents writer.new)
        (shown_command texts image.now.pool (full_edit image.now.splices edit.now)) result }
{
    put_front(piece, edit)?;
    write_piece(piece, writer)?;
    write_texts(texts, piece, image, edit, writer)
}

/// The depth of a rope, 0 for nil.
fn depth_of(image: &Checked, root: Rope) -> u8
    requires { IsRope (image_table image.now) root }
    ensures { result ≡ rope_depth (image_table image.now) root }
{
    match root {
        None => 0,
        Some(node) => image.depth(node),
    }
}

/// What is told of revision `k`, which is this one.
fn note_of(image: &Checked, k: u32, revision: Revision) -> Note
    requires there { k < length image.now.revisions }
    requires revision { revision ≡ revision_at image.now k }
    ensures { noted_in result ≡ noted_of image.now k }
{
    let _count = image.revisions();
    Note {
        number: k,
        len: rope_len(image, revision.root),
        depth: depth_of(image, revision.root),
        mark: revision.mark,
        rows: revision.rows,
    }
}

/// Writes the line of revision `k`, which is this one.
fn write_revision<W: io::Write>(
    alloc: Global,
    texts: LogTexts,
    piece: &mut Vec<u8>,
    image: &Checked,
    k: u32,
    revision: Revision,
    writer: &mut W,
) -> Result<(), PieceFault>
    requires there { k < length image.now.revisions }
    requires revision { revision ≡ revision_at image.now k }
    requires inside { StandsInside (length image.now.pool) (command_at image.now k) }
    ensures { WritesText (W.contents writer.old) (W.contents writer.new) (revision_line texts image.now k) result }
{
    let _nodes = image.image().node_count();
    write_command(texts, piece, image.image(), &revision.edit, writer)?;
    put_comment(alloc, piece, &note_of(image, k, revision))?;
    write_piece(piece, writer)
}

/// Writes the lines of an image's revisions.
fn write_log<W: io::Write>(
    alloc: Global,
    texts: LogTexts,
    image: &Checked,
    writer: &mut W,
) -> Result<(), PieceFault>
    requires { EachRevision image.now (λ k. StandsInside (length image.now.pool) (command_at image.now k)) }
    ensures { WritesText (W.contents writer.old) (W.contents writer.new) (log_of texts image.now) result }
{
    let _nodes = image.image().node_count();
    let mut piece = Vec::new(alloc);
    let mut first = 0;
    for k in 0..image.revisions() {
        let revision = image.image().revision(k, first);
        write_revision(alloc, texts, &mut piece, image, k, revision, writer)?;
        first += revision.edit.splice_count();
    }
    Ok(())
}

/// Writes the script of an image that was checked.
fn log_checked<W: io::Write>(
    alloc: Global,
    texts: LogTexts,
    image: &Checked,
    writer: &mut W,
) -> Result<(), LogFault>
    requires { EachRevision image.now (λ k. StandsInside (length image.now.pool) (command_at image.now k)) }
    ensures { WritesLog texts (W.contents writer.old) (W.contents writer.new) (Ok image.now) result }
{
    match write_log(alloc, texts, image, writer) {
        Ok(()) => Ok(()),
        Err(PieceFault::Memory) => Err(LogFault::Memory),
        Err(PieceFault::Write) => Err(LogFault::Write),
    }
}

/// Writes the script of an image, once it is checked with these sources, by so many looks at nodes
/// at most, if there is a limit: a line for each revision, its command as `push_line` prints it and
/// behind it what is known of the revision, as ` # 2: 7 bytes, depth 1, balanced, 3 rows`; a
/// revision that is not marked as balanced has no word for that. Texts are shown as `texts` says.
/// However long a line is, a piece of it is in memory at a time, of at most 16,384 bytes of a text.
///
/// # Errors
///
/// `Check`, with the fault of an image that is not accepted: nothing was written then. `Memory`, where room for a piece
/// was refused, and `Write`, where the writer failed or took no byte: a prefix of the log was written.
pub fn run_log<S: Sources, W: io::Write>(
    alloc: Global,
    image: &[u8],
    sources: &mut S,
    at_most: Option<u64>,
    texts: LogTexts,
    writer: &mut W,
) -> Result<(), LogFault>
    ensures { LogsImage texts at_most (S.reading sources.old) (S.reading sources.new) image.now
        (W.contents writer.old) (W.contents writer.new) result }
{
    run_log_told(alloc, image, sources, at_most, texts, writer, &mut Untold)
}

/// Does what `run_log` does, and tells on the way how many of the
/// image's records are checked, and before it writes that they are.
///
/// # Errors
///
/// As those of `run_log`.
pub fn run_log_told<S: Sources, W: io::Write, P: Progress>(
    alloc: Global,
    image: &[u8],
    sources: &mut S,
    at_most: Option<u64>,
    texts: LogTexts,
    writer: &mut W,
    progress: &mut P,
) -> Result<(), LogFault>
    ensures { LogsImage texts at_most (S.reading sources.old) (S.reading sources.new) image.now
        (W.contents writer.old) (W.contents writer.new) result }
{
    match check_told(image, sources, at_most, progress) {
        Ok(checked) => log_checked(alloc, texts, &checked, writer),
        Err(fault) => Err(LogFault::Check(fault)),
    }
}
