//! New literals made of two.

ghost use Rattle.std.specs.Prelude.{◌≡◌, ◌+◌, ◌<◌, ◌≤◌, ◌++◌, length, take};
ghost use Rattle.rope_node.specs.Table.{IsLiteral, view_at};
ghost use Rattle.rope_node.specs.Denotes.{rope_len, rope_depth, IsRope};
ghost use Rattle.leaf_buffer.specs.declared.block.TheConstants.{BLOCK_SIZE};
ghost use Rattle.rope_node.specs.declared.limits.TheConstants.{MOST_DEPTH};
ghost use Rattle.node_table.specs.Held.{table_of};
ghost use Rattle.rope_store.specs.Calls.{Merges, PutsMerged};
ghost use Rattle.rope_store.specs.Joining.{TakesLiteral};

use crate::endings::{Ending, MOST_MERGED};
use crate::store::Store;
use function_leaf::LeafFn;
use node_table::{NewNodes, NodeFault, Record};
use rope_node::{NodeId, NodeSpace, Rope, TEXT_LIMIT};

/// Writes these bytes one behind the other.
pub(crate) fn copy_both(first: &[u8], second: &[u8], bytes: &mut [u8])
    requires { length bytes.old ≡ length first.now + length second.now }
    ensures { bytes.new ≡ first.now ++ second.now }
{
    let (front, back) = bytes.split_at_mut(first.len());
    front.copy_from_slice(first);
    back.copy_from_slice(second);
}

/// These bytes one behind the other, in front of zeros.
fn both(first: &[u8], second: &[u8]) -> [u8; MOST_MERGED]
    requires { length first.now + length second.now ≤ MOST_MERGED }
    ensures { take (length first.now + length second.now) result ≡ first.now ++ second.now }
{
    let mut bytes = [0; MOST_MERGED];
    let end = first.len() + second.len();
    copy_both(first, second, &mut bytes[..end]);
    bytes
}

impl<F: LeafFn> Store<F> {
    /// The text of `l`, whose ending is given, followed by the literal `r`: both literals become one.
    pub(crate) fn merge(&mut self, l: NodeId, ending: Ending, r: NodeId) -> Result<Rope, NodeFault>
        requires left { l.0 < length self.old.nodes }
        requires right { r.0 < length self.old.nodes }
        requires literal { IsLiteral (view_at (table_of F.meaning self.old) r.0) }
        requires ending { TakesLiteral (table_of F.meaning self.old) l r ending }
        ensures { Merges F.meaning self.old l ending r result self.new }
    {
        if self.table.len(l) + self.table.len(r) >= TEXT_LIMIT {
            return Err(NodeFault::TooLong);
        }
        let (first, second) = (
            self.table.literal(ending.literal, 0),
            self.table.literal(r, 0),
        );
        let count = first.len() + second.len();
        let bytes = both(first, second);
        self.put_merged(ending.before, &bytes[..count])
    }

    /// Puts these bytes as one literal, behind what stands before it.
    pub(crate) fn put_merged(&mut self, before: Rope, bytes: &[u8]) -> Result<Rope, NodeFault>
        requires before { IsRope (table_of F.meaning self.old) before }
        requires some { 1 ≤ length bytes.now }
        requires fits { length bytes.now ≤ BLOCK_SIZE }
        requires short { rope_len (table_of F.meaning self.old) before + length bytes.now < TEXT_LIMIT }
        requires shallow { 1 + rope_depth (table_of F.meaning self.old) before ≤ MOST_DEPTH }
        ensures { PutsMerged F.meaning self.old before bytes.now result self.new }
    {
        let (start, count) = (self.table.pool_len(), bytes.len() as u64);
        match before {
            None => self.make(bytes, NewNodes::One(Record::literal(start, count))),
            Some(l) => {
                let last = NodeId(self.table.count());
                let len = self.table.len(l) + count;
                let depth = 1 + self.table.depth(l);
                self.make(
                    bytes,
                    NewNodes::Two(
                        Record::literal(start, count),
                        Record::concatenation(l, last, len, depth),
                    ),
                )
            }
        }
    }
}
