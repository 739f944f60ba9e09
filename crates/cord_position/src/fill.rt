//! The bytes of a part of a leaf, written into a buffer.

ghost use Rattle.std.specs.Prelude.{◌≡◌, ◌↔◌, ◌<◌, ◌≤◌, ◌+◌, false, length, map, IsErrOf, OnOk};
ghost use Rattle.std.specs.List.{range_with_len};
ghost use Rattle.lazy_file.specs.SourceTexts.{holds_span};
ghost use Rattle.rope_node.specs.Table.{view_at, len_at, IsLeaf, IsFunction};
ghost use Rattle.rope_node.specs.Denotes.{Place, cell_at};
ghost use Rattle.cord_position.specs.Fetched.{ReadsSpan, leaf_part};
ghost use Rattle.cord_position.specs.Runs.{AreBytesOf};

use lazy_file::{SourceFault, Sources};
use rope_node::{NodeId, NodeSpace, NodeView};

/// Reads the bytes of source `s` from `place` on into the whole of the buffer.
///
/// # Errors
///
/// The source's fault: `BadSource` where there is no such source or span, and else that of the read that failed.
pub fn fill_source<T: Sources>(
    sources: &mut T,
    s: u32,
    place: u64,
    buffer: &mut [u8],
) -> Result<(), SourceFault>
    requires { 1 ≤ length buffer.old }
    ensures length { length buffer.new ≡ length buffer.old }
    ensures bytes { OnOk result (AreBytesOf (T.reading sources.old).stated
        (map (Place s) (range_with_len place (length buffer.old))) buffer.new) }
    ensures reads { ReadsSpan (T.reading sources.old) (T.reading sources.new)
        (Place s) place (place + length buffer.old) result }
    ensures bad_source { IsErrOf result SourceFault.BadSource
        ↔ (holds_span (T.reading sources.old).stated s place (length buffer.old) ≡ false) }
{
    if s >= u32::from(sources.count()) {
        return Err(SourceFault::BadSource);
    }
    sources.read(s as u8, place, buffer)
}

/// The bytes that the function at a leaf answers from `start` on.
fn fill_answers<S: NodeSpace>(space: &S, leaf: NodeId, start: u64, buffer: &mut [u8])
    requires there { leaf.0 < length (S.table space.now).nodes }
    requires function { IsFunction (view_at (S.table space.now) leaf.0) }
    requires inside { start + length buffer.old ≤ len_at (S.table space.now) leaf.0 }
    ensures { buffer.new
        ≡ map ((S.table space.now).answer leaf.0) (range_with_len start (length buffer.old)) }
{
    // No leaf is longer than a text may be, as its length says.
    let _limit = space.len(leaf);
    for k in 0..buffer.len() {
        buffer[k] = space.fun_byte(leaf, start + k as u64);
    }
}

/// Writes the bytes of a leaf from its byte `start` on into the whole of the buffer.
///
/// # Errors
///
/// A source's fault, where the leaf is a part of that source and the
/// read of these bytes failed. They may then be any bytes in the buffer.
pub fn fill_part<S: NodeSpace, T: Sources>(
    space: &S,
    sources: &mut T,
    leaf: NodeId,
    start: u64,
    buffer: &mut [u8],
) -> Result<(), SourceFault>
    requires there { leaf.0 < length (S.table space.now).nodes }
    requires leaf { IsLeaf (view_at (S.table space.now) leaf.0) }
    requires some { 1 ≤ length buffer.old }
    requires inside { start + length buffer.old ≤ len_at (S.table space.now) leaf.0 }
    ensures length { length buffer.new ≡ length buffer.old }
    ensures bytes { OnOk result (AreBytesOf (T.reading sources.old).stated
        (leaf_part (S.table space.now) leaf start (length buffer.old)) buffer.new) }
    ensures reads { ReadsSpan (T.reading sources.old) (T.reading sources.new)
        (cell_at (S.table space.now) leaf.0) start (start + length buffer.old) result }
{
    match space.node(leaf) {
        NodeView::Lit { .. } => {
            let n = buffer.len();
            buffer.copy_from_slice(&space.literal(leaf, start)[..n]);
            Ok(())
        }
        NodeView::Src { s, a } => fill_source(sources, s, a + start, buffer),
        NodeView::Fun => {
            fill_answers(space, leaf, start, buffer);
            Ok(())
        }
        NodeView::Cat { .. } | NodeView::Sub { .. } => unreachable!(),
    }
}
