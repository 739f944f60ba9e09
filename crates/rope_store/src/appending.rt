//! Bytes put behind a text.

// The lines `let _kept = &self.table;` are for the proof: the table keeps its rules, as a look at it says.

ghost use Rattle.std.specs.Prelude.{◌≡◌, ◌+◌, ◌-◌, ◌<◌, ◌≤◌, ◌++◌, length, take, IfSome, IfNone};
ghost use Rattle.rope_node.specs.Table.{IsLiteral, view_at, len_at};
ghost use Rattle.rope_node.specs.Denotes.{rope_len, rope_depth, IsRope};
ghost use Rattle.node_table.specs.Held.{table_of};
ghost use Rattle.rope_store.specs.Calls.{Copies, GrowsEnding, MergesAfter, PutsAfter};
ghost use Rattle.rope_store.specs.Joining.{IsShortEnding};
ghost use Rattle.rope_store.specs.Appending.{grown_len, pool_piece, Appends, AppendsTo, CanGrow, CannotGrow, IsGrowing};

use crate::endings::{Ending, MOST_MERGED};
use crate::merging::copy_both;
use crate::store::Store;
use function_leaf::LeafFn;
use leaf_buffer::{BLOCK_SIZE, Piece};
use node_table::{NewNodes, NodeFault, Record};
use rope_node::{MOST_DEPTH, NodeId, NodeSpace, NodeView, Rope, TEXT_LIMIT};

/// These bytes, the piece and these bytes again, in front of zeros.
fn twice(bytes: &[u8], piece: &[u8]) -> [u8; 2 * MOST_MERGED]
    requires { length piece.now + length bytes.now ≤ MOST_MERGED }
    ensures { let n = length bytes.now in
        take (n + (length piece.now + n)) result ≡ bytes.now ++ (piece.now ++ bytes.now) }
{
    let mut all = [0; 2 * MOST_MERGED];
    let end = bytes.len() + (piece.len() + bytes.len());
    copy_three(bytes, piece, &mut all[..end]);
    all
}

/// Writes the bytes, the piece and the bytes again.
fn copy_three(bytes: &[u8], piece: &[u8], all: &mut [u8])
    requires { length all.old ≡ length bytes.now + (length piece.now + length bytes.now) }
    ensures { all.new ≡ bytes.now ++ (piece.now ++ bytes.now) }
{
    let (front, back) = all.split_at_mut(bytes.len());
    front.copy_from_slice(bytes);
    copy_both(piece, bytes, back);
}

impl<F: LeafFn> Store<F> {
    /// The text of `x` followed by these bytes. No bytes give `x`. The literal that `x` is, or has as its right child,
    /// grows in place where it can. Otherwise it is `cat` of `x` and the bytes as a literal.
    ///
    /// # Errors
    ///
    /// `TooLong` for more than 65,536 bytes and where the result would have 2^40 bytes or more, `TooDeep` where the
    /// node over both would be deeper than 64, `TableFull`, `PoolFull`, `Memory`. The store is then as before.
    pub fn append(&mut self, x: Rope, bytes: &[u8]) -> Result<Rope, NodeFault>
        requires { IsRope (table_of F.meaning self.old) x }
        ensures { Appends F.meaning self.old x bytes.now result self.new }
    {
        let _kept = &self.table;
        let (before, count) = (self.len(x), bytes.len());
        if count == 0 {
            return Ok(x);
        }
        if count > BLOCK_SIZE {
            return Err(NodeFault::TooLong);
        }
        if before + count as u64 >= TEXT_LIMIT {
            return Err(NodeFault::TooLong);
        }
        match x {
            None => self.put_merged(None, bytes),
            Some(node) => self.append_to(node, bytes),
        }
    }

    /// A node's text followed by these bytes.
    fn append_to(&mut self, x: NodeId, bytes: &[u8]) -> Result<Rope, NodeFault>
        requires there { x.0 < length self.old.nodes }
        requires some { 1 ≤ length bytes.now }
        requires fits { length bytes.now ≤ BLOCK_SIZE }
        requires short { len_at (table_of F.meaning self.old) x.0 + length bytes.now < TEXT_LIMIT }
        ensures { AppendsTo F.meaning self.old x bytes.now result self.new }
    {
        let _kept = &self.table;
        match self.growing(x, bytes.len()) {
            Some((ending, piece)) => self.grow(ending, piece, bytes),
            None => self.copy(x, bytes),
        }
    }

    /// The ending of a node and the piece of the pool that it is, where it can grow in place by this many bytes.
    fn growing(&self, x: NodeId, count: usize) -> Option<(Ending, Piece)>
        requires { x.0 < length self.now.nodes }
        ensures some { IfSome result (λ e. IsGrowing self.now.pool (table_of F.meaning self.now) x count e.0 e.1) }
        ensures none { IfNone result (CannotGrow self.now.pool (table_of F.meaning self.now) x count) }
    {
        let _kept = &self.table;
        let ending = self.ending(x)?;
        let piece = self.pool_piece(ending.literal);
        if self.table.can_grow(piece, count) {
            Some((ending, piece))
        } else {
            None
        }
    }

    /// The piece of the pool that a literal is.
    fn pool_piece(&self, x: NodeId) -> Piece
        requires there { x.0 < length self.now.nodes }
        requires literal { IsLiteral (view_at (table_of F.meaning self.now) x.0) }
        ensures { result ≡ pool_piece (table_of F.meaning self.now) x }
    {
        match self.table.node(x) {
            NodeView::Lit { a } => Piece {
                start: a as u32,
                len: self.table.len(x) as u32,
            },
            NodeView::Src { .. } | NodeView::Fun | NodeView::Cat { .. } | NodeView::Sub { .. } =>
                unreachable!(),
        }
    }

    /// The ending's literal, which is this piece, longer by these bytes, behind what stands before it.
    fn grow(&mut self, ending: Ending, piece: Piece, bytes: &[u8]) -> Result<Rope, NodeFault>
        requires there { ending.literal.0 < length self.old.nodes }
        requires literal { IsLiteral (view_at (table_of F.meaning self.old) ending.literal.0) }
        requires piece { piece ≡ pool_piece (table_of F.meaning self.old) ending.literal }
        requires before { IsRope (table_of F.meaning self.old) ending.before }
        requires grows { CanGrow self.old.pool (table_of F.meaning self.old) ending (length bytes.now) }
        requires short { grown_len (table_of F.meaning self.old) ending (length bytes.now) < TEXT_LIMIT }
        requires shallow { 1 + rope_depth (table_of F.meaning self.old) ending.before ≤ MOST_DEPTH }
        ensures { GrowsEnding F.meaning self.old ending bytes.now result self.new }
    {
        let _kept = &self.table;
        let count = piece.len as u64 + bytes.len() as u64;
        let longer = Record::literal(piece.start as u64, count);
        match ending.before {
            None => self.make_grown(bytes, NewNodes::One(longer)),
            Some(l) => {
                let last = NodeId(self.table.count());
                let whole = self.table.len(l) + count;
                let depth = 1 + self.table.depth(l);
                self.make_grown(
                    bytes,
                    NewNodes::Two(longer, Record::concatenation(l, last, whole, depth)),
                )
            }
        }
    }

    /// The bytes as a literal behind a node, which merges with the node's own or not.
    fn copy(&mut self, x: NodeId, bytes: &[u8]) -> Result<Rope, NodeFault>
        requires there { x.0 < length self.old.nodes }
        requires some { 1 ≤ length bytes.now }
        requires fits { length bytes.now ≤ BLOCK_SIZE }
        requires short { len_at (table_of F.meaning self.old) x.0 + length bytes.now < TEXT_LIMIT }
        ensures { Copies F.meaning self.old x bytes.now result self.new }
    {
        match self.short_ending(x, bytes.len() as u64) {
            Some(ending) => self.merge_after(x, ending, bytes),
            None => {
                if self.table.depth(x) >= MOST_DEPTH {
                    return Err(NodeFault::TooDeep);
                }
                self.put_merged(Some(x), bytes)
            }
        }
    }

    /// The bytes as a literal, and then the ending's bytes and these as one, behind what stands before the ending.
    fn merge_after(&mut self, x: NodeId, ending: Ending, bytes: &[u8]) -> Result<Rope, NodeFault>
        requires there { x.0 < length self.old.nodes }
        requires some { 1 ≤ length bytes.now }
        requires short { len_at (table_of F.meaning self.old) x.0 + length bytes.now < TEXT_LIMIT }
        requires ending { IsShortEnding (table_of F.meaning self.old) x (length bytes.now) ending }
        ensures { MergesAfter F.meaning self.old x ending bytes.now result self.new }
    {
        let piece = self.table.literal(ending.literal, 0);
        let (first, second) = (bytes.len(), piece.len() + bytes.len());
        let all = twice(bytes, piece);
        self.put_after(ending.before, first, &all[..first + second])
    }

    /// The first bytes as a literal, and then the others as one behind what stands before it.
    fn put_after(&mut self, before: Rope, first: usize, all: &[u8]) -> Result<Rope, NodeFault>
        requires before { IsRope (table_of F.meaning self.old) before }
        requires some { 1 ≤ first }
        requires more { first < length all.now }
        requires fits { length all.now ≤ BLOCK_SIZE }
        requires short { rope_len (table_of F.meaning self.old) before + (length all.now - first) < TEXT_LIMIT }
        requires shallow { 1 + rope_depth (table_of F.meaning self.old) before ≤ MOST_DEPTH }
        ensures { PutsAfter F.meaning self.old before first all.now result self.new }
    {
        let start = self.table.pool_len();
        let middle = start + first as u64;
        let count = (all.len() - first) as u64;
        let (one, two) = (
            Record::literal(start, first as u64),
            Record::literal(middle, count),
        );
        match before {
            None => self.make(all, NewNodes::Two(one, two)),
            Some(l) => {
                let last = NodeId(self.table.count() + 1);
                let len = self.table.len(l) + count;
                let depth = 1 + self.table.depth(l);
                self.make(
                    all,
                    NewNodes::Three(one, two, Record::concatenation(l, last, len, depth)),
                )
            }
        }
    }
}
