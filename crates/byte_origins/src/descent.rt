//! The way down from a node to the leaf span that its bytes from a place on begin with.

ghost use Rattle.std.specs.Prelude.{◌≡◌, ◌<◌, length};
ghost use Rattle.rope_node.specs.Table.{len_at};
ghost use Rattle.rope_node.specs.Path.{span_at};

use rope_node::{LeafSpan, NodeId, NodeSpace, Span, StepDown, step_down};

/// The leaf span that the bytes of a node from a place on begin with. It costs one descent.
pub fn leaf_span<S: NodeSpace>(space: &S, node: NodeId, place: u64) -> LeafSpan
    requires there { node.0 < length (S.table space.now).nodes }
    requires inside { place < len_at (S.table space.now) node.0 }
    ensures { result ≡ span_at (S.table space.now) node.0 place }
{
    let mut here = Span {
        node,
        start: place,
        len: space.len(node) - place,
    };
    'down: loop {
        let view = space.node(here.node);
        match step_down(space, here, view, 1) {
            StepDown::Below(below) => here = below,
            StepDown::Leaf => {
                return LeafSpan {
                    leaf: here.node,
                    start: here.start,
                    len: here.len,
                };
            }
            StepDown::Across(..) => unreachable!(),
        }
    }
}
