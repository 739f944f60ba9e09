//! An image written section by section.

ghost use Rattle.std.specs.Prelude.{◌≡◌, ◌<◌, [], OnOk, None, length, get_or};
ghost use Rattle.std.specs.List.{flat_map};
ghost use Rattle.function_leaf.specs.Coded.{coded_byte};
ghost use Rattle.rope_node.specs.Table.{view_at};
ghost use Rattle.node_table.specs.Held.{IsKept, table_of};
ghost use Rattle.image_reader.specs.Layout.{IsBytes, spelled};
ghost use Rattle.image_reader.specs.Spelling.{header_layout, header_numbers, source_spelling, node_spelling, spelling};
ghost use Rattle.image_reader.specs.Value.{IsImage};
ghost use Rattle.session_image.specs.Gathering.{WritesGathered, output};
ghost use Rattle.session_image.specs.Written.{Writes, HoldsFit, SectionsFit, AreAsMade, IsTrusted, image_of, nodes_of, rows_in, splices_in};

use crate::gathered::Gathered;
use crate::nodes::node_record;
use crate::records::{Counts, header_record, source_record};
use crate::revisions::{Totals, count_all, write_revisions, write_rows, write_splices};
use byte_output::WriteFault;
use edit_commands::Session;
use function_leaf::Coded;
use image_reader::{FormatVersion, NODE_SIZE, REVISION_SIZE};
use rope_node::{CodedSpace, NodeId, NodeSpace, NodeView};
use rope_store::Store;
use std::io;

/// An image of so many nodes and revisions is not gathered.
const FEW_RECORDS: u64 = 2;

/// How many bytes of a small image the writer takes at once.
const SMALL_PIECE: usize = 4096;

/// How many bytes of a larger one.
const LARGE_PIECE: usize = 16_384;

/// Writes the header.
fn write_header<W: io::Write, const N: usize>(
    session: &Session,
    totals: Totals,
    writer: &mut Gathered<'_, W, N>,
) -> Result<(), WriteFault>
    requires splices { totals.splices ≡ length (splices_in session.now.revisions) }
    requires rows { totals.rows ≡ length (rows_in session.now.revisions) }
    ensures { WritesGathered (output W.contents writer.old) (output W.contents writer.new)
        (spelled header_layout (header_numbers (image_of session.now))) result }
{
    let space = session.space();
    let counts = Counts {
        version: FormatVersion::Two,
        sources: space.source_count(),
        nodes: space.count(),
        revisions: session.count(),
        splices: totals.splices,
        rows: totals.rows,
        pool: space.pool_len(),
    };
    writer.put(header_record(counts).as_slice())
}

/// Writes the lengths of the sources.
fn write_sources<W: io::Write, const N: usize>(
    space: &Store<Coded>,
    writer: &mut Gathered<'_, W, N>,
) -> Result<(), WriteFault>
    ensures { WritesGathered (output W.contents writer.old) (output W.contents writer.new)
        (flat_map source_spelling space.now.sources) result }
{
    for s in 0..space.source_count() {
        let record = source_record(space.source_len(s));
        writer.put(record.as_slice())?;
    }
    Ok(())
}

/// The function of a node of this view, where it is one.
fn function_at(space: &Store<Coded>, id: NodeId, view: NodeView) -> Option<Coded>
    requires kept { IsKept coded_byte space.now }
    requires there { id.0 < length space.now.nodes }
    requires view { view ≡ view_at (table_of coded_byte space.now) id.0 }
    ensures { result ≡ get_or space.now.functions id.0 None }
{
    match view {
        NodeView::Fun => Some(space.coded(id)),
        NodeView::Lit { .. } | NodeView::Src { .. } | NodeView::Cat { .. } | NodeView::Sub { .. } =>
            None,
    }
}

/// Writes the nodes, one after the other.
fn write_all_nodes<W: io::Write, const N: usize>(
    space: &Store<Coded>,
    writer: &mut Gathered<'_, W, N>,
) -> Result<(), WriteFault>
    requires { IsKept coded_byte space.now }
    ensures bytes { WritesGathered (output W.contents writer.old) (output W.contents writer.new)
        (flat_map node_spelling (nodes_of space.now)) result }
    ensures fits { OnOk result (HoldsFit space.now (length space.now.nodes)) }
{
    for id in 0..space.count() {
        let node = NodeId(id);
        let view = space.node(node);
        let len = NodeSpace::len(space, node);
        let depth = NodeSpace::depth(space, node);
        let function = function_at(space, node, view);
        let record = node_record(view, len, depth, function);
        writer.put(record.as_slice())?;
    }
    Ok(())
}

/// Writes the nodes. Where there are none, no room for a record is set up.
fn write_nodes<W: io::Write, const N: usize>(
    space: &Store<Coded>,
    writer: &mut Gathered<'_, W, N>,
) -> Result<(), WriteFault>
    requires { IsKept coded_byte space.now }
    ensures bytes { WritesGathered (output W.contents writer.old) (output W.contents writer.new)
        (flat_map node_spelling (nodes_of space.now)) result }
    ensures fits { OnOk result (HoldsFit space.now (length space.now.nodes)) }
{
    if space.count() == 0 {
        return Ok(());
    }
    write_all_nodes(space, writer)
}

/// Writes one block of the pool.
fn write_block<W: io::Write, const N: usize>(
    block: &[u8],
    writer: &mut Gathered<'_, W, N>,
) -> Result<(), WriteFault>
    ensures bytes { WritesGathered (output W.contents writer.old) (output W.contents writer.new) block.now result }
    ensures fits { IsBytes block.now }
{
    writer.put(block)
}

/// Writes the bytes of the pool, block by block.
fn write_pool<W: io::Write, const N: usize>(
    space: &Store<Coded>,
    writer: &mut Gathered<'_, W, N>,
) -> Result<(), WriteFault>
    ensures bytes { WritesGathered (output W.contents writer.old) (output W.contents writer.new)
        space.now.pool.bytes result }
    ensures fits { OnOk result (IsBytes space.now.pool.bytes) }
{
    let mut done = 0;
    while done < space.pool_len() {
        let block = space.pool(done);
        write_block(block, writer)?;
        done += block.len() as u64;
    }
    Ok(())
}

/// Writes the sections of a session's image, one after the other.
fn write_sections<W: io::Write, const N: usize>(
    session: &Session,
    writer: &mut Gathered<'_, W, N>,
) -> Result<(), WriteFault>
    requires { IsKept coded_byte session.now.held }
    ensures written { WritesGathered (output W.contents writer.old) (output W.contents writer.new)
        (spelling (image_of session.now)) result }
    ensures fits { OnOk result (SectionsFit session.now) }
{
    let space = session.space();
    let totals = count_all(session);
    write_header(session, totals, writer)?;
    write_sources(space, writer)?;
    write_nodes(space, writer)?;
    write_revisions(session, writer)?;
    write_splices(session, totals.splices, writer)?;
    write_rows(session, totals.rows, writer)?;
    write_pool(space, writer)
}

/// Writes the sections of a session's image, and then what is held of them.
fn write_gathered<W: io::Write, const N: usize>(
    session: &Session,
    writer: &mut Gathered<'_, W, N>,
) -> Result<(), WriteFault>
    requires kept { IsKept coded_byte session.now.held }
    requires empty { writer.old.held ≡ [] }
    ensures same_reference { writer.new.writer.ghost_name ≡ writer.old.writer.ghost_name }
    ensures written { Writes (W.contents writer.old.writer.now) (W.contents writer.new.writer.now)
        (spelling (image_of session.now)) result }
    ensures fits { OnOk result (SectionsFit session.now) }
{
    write_sections(session, writer)?;
    writer.flush()
}

/// Writes the image of a session, record by record.
#[inline(never)]
fn write_short<W: io::Write>(session: &Session, writer: &mut W) -> Result<(), WriteFault>
    requires { IsKept coded_byte session.now.held }
    ensures written { Writes (W.contents writer.old) (W.contents writer.new)
        (spelling (image_of session.now)) result }
    ensures fits { OnOk result (SectionsFit session.now) }
{
    let mut gathered = Gathered::<W, 0>::new(writer);
    write_gathered(session, &mut gathered)
}

/// Writes the image of a session by small pieces.
#[inline(never)]
fn write_small<W: io::Write>(session: &Session, writer: &mut W) -> Result<(), WriteFault>
    requires { IsKept coded_byte session.now.held }
    ensures written { Writes (W.contents writer.old) (W.contents writer.new)
        (spelling (image_of session.now)) result }
    ensures fits { OnOk result (SectionsFit session.now) }
{
    let mut gathered = Gathered::<W, SMALL_PIECE>::new(writer);
    write_gathered(session, &mut gathered)
}

/// Writes the image of a session by large pieces.
#[inline(never)]
fn write_large<W: io::Write>(session: &Session, writer: &mut W) -> Result<(), WriteFault>
    requires { IsKept coded_byte session.now.held }
    ensures written { Writes (W.contents writer.old) (W.contents writer.new)
        (spelling (image_of session.now)) result }
    ensures fits { OnOk result (SectionsFit session.now) }
{
    let mut gathered = Gathered::<W, LARGE_PIECE>::new(writer);
    write_gathered(session, &mut gathered)
}

/// How long the image is at least, in bytes: its splices and rows are left out.
fn least_len(session: &Session) -> u64 {
    let space = session.space();
    space
        .pool_len()
        .saturating_add(u64::from(space.count()) * NODE_SIZE as u64)
        .saturating_add(u64::from(session.count()) * REVISION_SIZE as u64)
}

/// Writes the image of a session by pieces.
#[inline(never)]
fn write_in_pieces<W: io::Write>(session: &Session, writer: &mut W) -> Result<(), WriteFault>
    requires { IsKept coded_byte session.now.held }
    ensures written { Writes (W.contents writer.old) (W.contents writer.new)
        (spelling (image_of session.now)) result }
    ensures fits { OnOk result (SectionsFit session.now) }
{
    if least_len(session) <= SMALL_PIECE as u64 {
        write_small(session, writer)
    } else {
        write_large(session, writer)
    }
}

/// Writes the image of a session by pieces that are no longer than is worth while.
fn write_by_size<W: io::Write>(session: &Session, writer: &mut W) -> Result<(), WriteFault>
    requires { IsKept coded_byte session.now.held }
    ensures written { Writes (W.contents writer.old) (W.contents writer.new)
        (spelling (image_of session.now)) result }
    ensures fits { OnOk result (SectionsFit session.now) }
{
    let records = u64::from(session.count()) + u64::from(session.space().count());
    if records <= FEW_RECORDS {
        write_short(session, writer)
    } else {
        write_in_pieces(session, writer)
    }
}

/// Writes the image of a session: its header, then its sources, nodes, revisions, splices, rows and the bytes of its
/// pool. It takes no memory: the bytes are gathered on the stack, and the writer takes them in large pieces.
///
/// # Errors
///
/// `WriteFault`, where the writer failed or took no byte. A prefix of the image was written then.
pub fn write<W: io::Write>(session: &Session, writer: &mut W) -> Result<(), WriteFault>
    ensures written { Writes (W.contents writer.old) (W.contents writer.new)
        (spelling (image_of session.now)) result }
    ensures image { OnOk result (IsImage (image_of session.now)) }
    ensures trusted { IsTrusted session.now }
    ensures as_made { AreAsMade (image_of session.now) }
{
    // The session and its store keep their rules, as their counts say.
    let _count = session.count();
    let _nodes = session.space().count();
    write_by_size(session, writer)
}
