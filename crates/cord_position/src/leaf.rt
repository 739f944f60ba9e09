//! The byte at a place of a leaf.

ghost use Rattle.std.specs.Prelude.{◌<◌, ◌+◌, length, IfOk};
ghost use Rattle.rope_node.specs.Table.{view_at, len_at, IsLeaf};
ghost use Rattle.rope_node.specs.Denotes.{Place, cell_at};
ghost use Rattle.cord_position.specs.Fetched.{IsByteOf, ReadsSpan};

use lazy_file::{SourceFault, Sources};
use rope_node::{NodeId, NodeSpace, NodeView};

/// The byte of source `s` at `place`.
fn source_byte<T: Sources>(sources: &mut T, s: u32, place: u64) -> Result<u8, SourceFault>
    ensures byte { IfOk result (IsByteOf (T.reading sources.old).stated (Place s place)) }
    ensures reads { ReadsSpan (T.reading sources.old) (T.reading sources.new)
        (Place s) place (place + 1) result }
{
    if s >= u32::from(sources.count()) {
        return Err(SourceFault::BadSource);
    }
    let mut byte = [0];
    sources.read(s as u8, place, &mut byte)?;
    Ok(byte[0])
}

/// The byte of a leaf at the place `start`.
#[inline(never)]
pub fn leaf_byte<S: NodeSpace, T: Sources>(
    space: &S,
    sources: &mut T,
    leaf: NodeId,
    start: u64,
) -> Result<u8, SourceFault>
    requires there { leaf.0 < length (S.table space.now).nodes }
    requires leaf { IsLeaf (view_at (S.table space.now) leaf.0) }
    requires inside { start < len_at (S.table space.now) leaf.0 }
    ensures byte { IfOk result
        (IsByteOf (T.reading sources.old).stated (cell_at (S.table space.now) leaf.0 start)) }
    ensures reads { ReadsSpan (T.reading sources.old) (T.reading sources.new)
        (cell_at (S.table space.now) leaf.0) start (start + 1) result }
{
    match space.node(leaf) {
        NodeView::Lit { .. } => Ok(space.literal(leaf, start)[0]),
        NodeView::Src { s, a } => source_byte(sources, s, a + start),
        NodeView::Fun => Ok(space.fun_byte(leaf, start)),
        NodeView::Cat { .. } | NodeView::Sub { .. } => unreachable!(),
    }
}
