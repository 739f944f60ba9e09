//! The roots of earlier revisions, by number.

ghost use Rattle.std.specs.Prelude.{◌≡◌, ◌<◌, List, Option, None, length, get_or};
ghost use Rattle.rope_node.specs.declared.node.NodeId.{NodeId};

use rope_node::Rope;

/// Roots by number.
pub trait Roots {
    ghost roots: { Self → List (Option NodeId) };

    /// How many there are.
    fn count(&self) -> usize
        ensures { result ≡ length (roots self.now) };

    /// The root of revision `r`.
    fn root(&self, r: u32) -> Rope
        requires { r < length (roots self.now) }
        ensures { result ≡ get_or (roots self.now) r None };
}

impl Roots for &[Rope] {
    ghost roots = { λ roots. roots.now };

    fn count(&self) -> usize {
        self.len()
    }

    fn root(&self, r: u32) -> Rope {
        self[r as usize]
    }
}
