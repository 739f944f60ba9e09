//! Texts put together.

ghost use Rattle.std.specs.Prelude.{◌<◌, length};
ghost use Rattle.rope_node.specs.Denotes.{IsRope};
ghost use Rattle.node_table.specs.Held.{table_of};
ghost use Rattle.rope_store.specs.Calls.{Cats, CatsPlain, Joins};

use crate::store::Store;
use function_leaf::LeafFn;
use node_table::{NewNodes, NodeFault, Record};
use rope_node::{MOST_DEPTH, NodeId, NodeSpace, Rope, TEXT_LIMIT};

impl<F: LeafFn> Store<F> {
    /// The text of `l` followed by that of `r`, as one new node over both.
    ///
    /// # Errors
    ///
    /// `TooLong` where both together have 2^40 bytes or more, `TooDeep` where one
    /// of them has depth 64, `TableFull`, `Memory`. The store is then as before.
    pub fn cat_plain(&mut self, l: NodeId, r: NodeId) -> Result<Rope, NodeFault>
        requires left { l.0 < length self.old.nodes }
        requires right { r.0 < length self.old.nodes }
        ensures { CatsPlain F.meaning self.old l r result self.new }
    {
        let len = self.table.len(l) + self.table.len(r);
        if len >= TEXT_LIMIT {
            return Err(NodeFault::TooLong);
        }
        let depth = 1 + self.table.depth(l).max(self.table.depth(r));
        if depth > MOST_DEPTH {
            return Err(NodeFault::TooDeep);
        }
        self.make(&[], NewNodes::One(Record::concatenation(l, r, len, depth)))
    }

    /// The text of `l` followed by that of `r`. A nil side gives the other side. Two
    /// literals of together at most 31 bytes become one, and so do a literal on the right
    /// and the literal that `l` has as its right child. Otherwise it is one node over both.
    ///
    /// # Errors
    ///
    /// `TooLong` where both together have 2^40 bytes or more, `TooDeep` where the node over both would be deeper than
    /// 64, `TableFull`, `PoolFull`, `Memory`. The store is then as before.
    pub fn cat(&mut self, l: Rope, r: Rope) -> Result<Rope, NodeFault>
        requires left { IsRope (table_of F.meaning self.old) l }
        requires right { IsRope (table_of F.meaning self.old) r }
        ensures { Cats F.meaning self.old l r result self.new }
    {
        // The table keeps its rules, as a look at it says.
        let _kept = &self.table;
        match (l, r) {
            (None, _) => Ok(r),
            (Some(_), None) => Ok(l),
            (Some(l), Some(r)) => self.join(l, r),
        }
    }

    /// The text of two nodes.
    fn join(&mut self, l: NodeId, r: NodeId) -> Result<Rope, NodeFault>
        requires left { l.0 < length self.old.nodes }
        requires right { r.0 < length self.old.nodes }
        ensures { Joins F.meaning self.old l r result self.new }
    {
        match self.ending_for(l, r) {
            None => self.cat_plain(l, r),
            Some(ending) => self.merge(l, ending, r),
        }
    }
}
