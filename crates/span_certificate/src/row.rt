//! Certificate rows.

ghost use Rattle.std.specs.Prelude.{◌≡◌, ◌<◌, List, length, slice_get, Some};
ghost use Rattle.span_certificate.specs.declared.row.Row.{Row};

use rope_node::NodeId;

/// A row says of its next `len` bytes why they are the same in the parts and in the root.
#[derive(Clone, Copy, Debug, PartialEq, Eq)]
pub struct Row {
    pub len: u64,
    pub kind: RowKind,
}

/// Why the bytes of a row are the same on both sides.
#[derive(Clone, Copy, Debug, PartialEq, Eq)]
pub enum RowKind {
    /// Both lead to this node, to its bytes from this place on.
    Shared(NodeId, u64),
    /// On each side they lie in one leaf, and the two leaf spans have one description.
    Leaf,
    /// They are at most 4,096, and equal.
    Bytes,
}

/// The rows of one revision, by their places.
pub trait Rows {
    ghost listed: { Self → List Row };

    /// How many rows there are.
    fn count(&self) -> usize
        ensures { result ≡ length (listed self.now) };

    /// The row at place `j`.
    fn row(&self, j: usize) -> Row
        requires { j < length (listed self.now) }
        ensures { slice_get (listed self.now) j ≡ Some result };
}

impl Rows for &[Row] {
    ghost listed = { λ rows. rows.now };

    fn count(&self) -> usize {
        self.len()
    }

    fn row(&self, j: usize) -> Row {
        self[j]
    }
}
