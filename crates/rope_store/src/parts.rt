//! Parts of texts.

ghost use Rattle.std.specs.Prelude.{◌+◌, ◌-◌, ◌<◌, ◌≤◌, length};
ghost use Rattle.rope_node.specs.Table.{len_at};
ghost use Rattle.rope_node.specs.Denotes.{IsRope};
ghost use Rattle.node_table.specs.Held.{table_of};
ghost use Rattle.rope_store.specs.Calls.{TakesInnerPart, TakesNodePart, TakesPart, TakesPartOver};

use crate::store::Store;
use function_leaf::LeafFn;
use node_table::{NewNodes, NodeFault, Record};
use rope_node::{MOST_DEPTH, NodeId, NodeSpace, NodeView, Rope};

impl<F: LeafFn> Store<F> {
    /// The bytes of `x` from `i` on, at most `n`: nil where `i` is at or past the end, and `x`
    /// itself where all of it is asked for. A part of a literal or of a source leaf is such a
    /// leaf, a part of a part is one of its base, and of another node it is a part over that.
    ///
    /// # Errors
    ///
    /// `TooDeep` for a part over a node of depth 64, `TableFull`, `Memory`. The store is then as before.
    pub fn substr(&mut self, x: Rope, i: u64, n: u64) -> Result<Rope, NodeFault>
        requires { IsRope (table_of F.meaning self.old) x }
        ensures { TakesPart F.meaning self.old x i n result self.new }
    {
        // The table keeps its rules, as a look at it says.
        let _kept = &self.table;
        match x {
            None => Ok(None),
            Some(node) => {
                let rest = self.table.len(node).saturating_sub(i);
                self.node_part(node, i, n.min(rest))
            }
        }
    }

    /// The `n` bytes of a node from `i` on.
    fn node_part(&mut self, x: NodeId, i: u64, n: u64) -> Result<Rope, NodeFault>
        requires there { x.0 < length self.old.nodes }
        requires inside { n ≤ len_at (table_of F.meaning self.old) x.0 - i }
        ensures { TakesNodePart F.meaning self.old x i n result self.new }
    {
        let len = self.table.len(x);
        if n == 0 {
            return Ok(None);
        }
        if n == len {
            return Ok(Some(x));
        }
        self.inner_part(x, i, n)
    }

    /// Some bytes of a node, and not all.
    fn inner_part(&mut self, x: NodeId, i: u64, n: u64) -> Result<Rope, NodeFault>
        requires there { x.0 < length self.old.nodes }
        requires some { 1 ≤ n }
        requires inside { i + n ≤ len_at (table_of F.meaning self.old) x.0 }
        ensures { TakesInnerPart F.meaning self.old x i n result self.new }
    {
        match self.table.node(x) {
            NodeView::Lit { a } => self.make(&[], NewNodes::One(Record::literal(a + i, n))),
            NodeView::Src { s, a } => self.make(&[], NewNodes::One(Record::source(s, a + i, n))),
            NodeView::Sub { b, i: start } => self.part_over(b, start + i, n),
            NodeView::Fun | NodeView::Cat { .. } => self.part_over(x, i, n),
        }
    }

    /// A part over a node.
    fn part_over(&mut self, b: NodeId, i: u64, n: u64) -> Result<Rope, NodeFault>
        requires there { b.0 < length self.old.nodes }
        requires some { 1 ≤ n }
        requires inside { i + n ≤ len_at (table_of F.meaning self.old) b.0 }
        ensures { TakesPartOver F.meaning self.old b i n result self.new }
    {
        let depth = 1 + self.table.depth(b);
        if depth > MOST_DEPTH {
            return Err(NodeFault::TooDeep);
        }
        self.make(&[], NewNodes::One(Record::part(b, i, n, depth)))
    }
}
