//! The path from a node to the leaf that holds a place.

ghost use Rattle.std.specs.Prelude.{◌≡◌, ◌<◌, ◌≤◌, ◌+◌, length};
ghost use Rattle.rope_node.specs.Table.{view_at, len_at, depth_at, IsLeaf};
ghost use Rattle.rope_node.specs.Denotes.{cell_at};
ghost use Rattle.rope_node.specs.Path.{visits, IsPlaceOf};

use crate::node::{NodeId, Span};
use crate::space::NodeSpace;
use crate::step::{StepDown, step_down};

/// Where a place of a node lies in a leaf.
#[derive(Clone, Copy, Debug, PartialEq, Eq)]
pub struct LeafPlace {
    pub leaf: NodeId,
    /// The place, counted from the leaf's first byte.
    pub start: u64,
    /// How many nodes the path to the leaf has, with both its ends.
    pub visits: u32,
}

/// The leaf that holds the byte at `place` of `node`. It costs one descent.
pub fn find_leaf<S: NodeSpace>(space: &S, node: NodeId, place: u64) -> LeafPlace
    requires there { node.0 < length (S.table space.now).nodes }
    requires inside { place < len_at (S.table space.now) node.0 }
    ensures there { result.leaf.0 < length (S.table space.now).nodes }
    ensures inside { result.start < len_at (S.table space.now) result.leaf.0 }
    ensures leaf { IsLeaf (view_at (S.table space.now) result.leaf.0) }
    ensures place { IsPlaceOf (S.table space.now) node.0 place result }
    ensures cell { cell_at (S.table space.now) result.leaf.0 result.start ≡ cell_at (S.table space.now) node.0 place }
    ensures visits { result.visits ≡ visits (S.table space.now) node.0 place }
    ensures few { result.visits ≤ depth_at (S.table space.now) node.0 + 1 }
{
    let mut here = Span {
        node,
        start: place,
        len: 1,
    };
    let mut visits = 0;
    'down: loop {
        let view = space.node(here.node);
        visits += 1;
        match step_down(space, here, view, 1) {
            StepDown::Below(below) => here = below,
            StepDown::Leaf => {
                return LeafPlace {
                    leaf: here.node,
                    start: here.start,
                    visits,
                };
            }
            StepDown::Across(..) => unreachable!(),
        }
    }
}
