//! The revisions of an image and their rows.

ghost use Rattle.std.specs.Prelude.{◌≡◌, OnOk, length, map, slice_get};
ghost use Rattle.edit_commands.specs.Session.{rows_of, splices_of_revision};
ghost use Rattle.std.specs.List.{flat_map, AllByRecursion};
ghost use Rattle.image_reader.specs.Spelling.{revision_spelling, row_spelling, splice_spelling};
ghost use Rattle.image_reader.specs.Value.{FitsRow, FitsSplice};
ghost use Rattle.session_image.specs.Gathering.{WritesGathered, output};
ghost use Rattle.session_image.specs.Written.{EditsFit, recorded_revision, rows_in, rows_or_none, splices_in, splices_or_none};

use crate::gathered::Gathered;
use crate::records::{revision_record, row_record, splice_record};
use byte_output::WriteFault;
use command_parts::Splice;
use edit_commands::Session;
use image_reader::Revision;
use span_certificate::Row;
use std::io;

/// The rows of a revision; none where there is no such revision.
fn rows_at(session: &Session, k: u32) -> &[Row]
    ensures { result.now ≡ rows_or_none (rows_of session.now k) }
{
    match session.rows(k) {
        None => &[],
        Some(rows) => rows,
    }
}

/// Revision `k` as it is recorded, where there is one.
fn recorded(session: &Session, k: u32) -> Option<Revision>
    ensures { result ≡ slice_get (map recorded_revision session.now.revisions) k }
{
    // The session keeps its rules, as its count says.
    let _count = session.count();
    Some(Revision {
        edit: session.edit(k)?,
        mark: session.mark(k)?,
        root: session.root(k)?,
        rows: session.rows(k)?.len() as u32,
    })
}

/// Writes the revisions.
pub(crate) fn write_revisions<W: io::Write, const N: usize>(
    session: &Session,
    writer: &mut Gathered<'_, W, N>,
) -> Result<(), WriteFault>
    ensures bytes { WritesGathered (output W.contents writer.old) (output W.contents writer.new)
        (flat_map revision_spelling (map recorded_revision session.now.revisions)) result }
    ensures fits { OnOk result (EditsFit session.now.revisions (length session.now.revisions)) }
{
    for k in 0..session.count() {
        if let Some(revision) = recorded(session, k) {
            let record = revision_record(revision);
            writer.put(record.as_slice())?;
        }
    }
    Ok(())
}

/// The splices of a revision; none where there is no such revision.
fn splices_at(session: &Session, k: u32) -> &[Splice]
    ensures { result.now ≡ splices_or_none (splices_of_revision session.now k) }
{
    match session.splices(k) {
        None => &[],
        Some(splices) => splices,
    }
}

/// How many splices and rows the revisions have together.
#[derive(Clone, Copy)]
pub(crate) struct Totals {
    pub(crate) splices: u32,
    pub(crate) rows: u32,
}

/// How many of each the revisions have. They are counted in one pass,
/// since most images are written after each save of a small text.
pub(crate) fn count_all(session: &Session) -> Totals
    ensures splices { result.splices ≡ length (splices_in session.now.revisions) }
    ensures rows { result.rows ≡ length (rows_in session.now.revisions) }
{
    let mut splices = 0;
    let mut rows = 0;
    for k in 0..session.count() {
        splices += splices_at(session, k).len() as u32;
        rows += rows_at(session, k).len() as u32;
    }
    Totals { splices, rows }
}

/// Writes the splices of one revision.
fn write_each_splice<W: io::Write, const N: usize>(
    splices: &[Splice],
    writer: &mut Gathered<'_, W, N>,
) -> Result<(), WriteFault>
    ensures bytes { WritesGathered (output W.contents writer.old) (output W.contents writer.new)
        (flat_map splice_spelling splices.now) result }
    ensures fits { OnOk result (AllByRecursion FitsSplice splices.now) }
{
    for splice in splices {
        let record = splice_record(*splice);
        writer.put(record.as_slice())?;
    }
    Ok(())
}

/// Writes the splices of all revisions, one after the other.
fn write_all_splices<W: io::Write, const N: usize>(
    session: &Session,
    writer: &mut Gathered<'_, W, N>,
) -> Result<(), WriteFault>
    ensures bytes { WritesGathered (output W.contents writer.old) (output W.contents writer.new)
        (flat_map splice_spelling (splices_in session.now.revisions)) result }
    ensures fits { OnOk result (AllByRecursion FitsSplice (splices_in session.now.revisions)) }
{
    for k in 0..session.count() {
        write_each_splice(splices_at(session, k), writer)?;
    }
    Ok(())
}

/// Writes the splices of all revisions, of which there are so
/// many together: where there are none, no revision is looked at.
pub(crate) fn write_splices<W: io::Write, const N: usize>(
    session: &Session,
    count: u32,
    writer: &mut Gathered<'_, W, N>,
) -> Result<(), WriteFault>
    requires { count ≡ length (splices_in session.now.revisions) }
    ensures bytes { WritesGathered (output W.contents writer.old) (output W.contents writer.new)
        (flat_map splice_spelling (splices_in session.now.revisions)) result }
    ensures fits { OnOk result (AllByRecursion FitsSplice (splices_in session.now.revisions)) }
{
    if count == 0 {
        return Ok(());
    }
    write_all_splices(session, writer)
}

/// Writes the rows of one revision.
fn write_each_row<W: io::Write, const N: usize>(
    rows: &[Row],
    writer: &mut Gathered<'_, W, N>,
) -> Result<(), WriteFault>
    ensures bytes { WritesGathered (output W.contents writer.old) (output W.contents writer.new)
        (flat_map row_spelling rows.now) result }
    ensures fits { OnOk result (AllByRecursion FitsRow rows.now) }
{
    for row in rows {
        let record = row_record(*row);
        writer.put(record.as_slice())?;
    }
    Ok(())
}

/// Writes the rows of all revisions, one after the other.
fn write_all_rows<W: io::Write, const N: usize>(
    session: &Session,
    writer: &mut Gathered<'_, W, N>,
) -> Result<(), WriteFault>
    ensures bytes { WritesGathered (output W.contents writer.old) (output W.contents writer.new)
        (flat_map row_spelling (rows_in session.now.revisions)) result }
    ensures fits { OnOk result (AllByRecursion FitsRow (rows_in session.now.revisions)) }
{
    for k in 0..session.count() {
        write_each_row(rows_at(session, k), writer)?;
    }
    Ok(())
}

/// Writes the rows of all revisions, of which there are so many
/// together: where there are none, no revision is looked at.
pub(crate) fn write_rows<W: io::Write, const N: usize>(
    session: &Session,
    count: u32,
    writer: &mut Gathered<'_, W, N>,
) -> Result<(), WriteFault>
    requires { count ≡ length (rows_in session.now.revisions) }
    ensures bytes { WritesGathered (output W.contents writer.old) (output W.contents writer.new)
        (flat_map row_spelling (rows_in session.now.revisions)) result }
    ensures fits { OnOk result (AllByRecursion FitsRow (rows_in session.now.revisions)) }
{
    if count == 0 {
        return Ok(());
    }
    write_all_rows(session, writer)
}
