//! The store's calls, for ropes that may be too deep for them.

// The lines `let _count = store.count();` are for the proof: the store keeps its rules, as its count says.

ghost use Rattle.std.specs.Prelude.{◌≡◌, ◌↔◌, ◌+◌, ◌<◌, ◌≤◌, length, [], Some, IsTrue, IfOk, IsErrOf};
ghost use Rattle.rope_node.specs.declared.limits.TheConstants.{TEXT_LIMIT};
ghost use Rattle.rope_node.specs.Table.{len_at};
ghost use Rattle.rope_node.specs.Denotes.{IsRope};
ghost use Rattle.node_table.specs.Held.{table_of};
ghost use Rattle.rope_store.specs.Appending.{AppendsTooLong};
ghost use Rattle.rebalance.specs.AnyForms.{AppendsAny, AppendsAnew, CatsAny, CatsAnew, IsPlaced, IsPut, PartsAny, lifted, ropes_of};
ghost use Rattle.rebalance.specs.Slots.{joined_len};
ghost use Rattle.rebalance.specs.Pieces.{HaveFewPieces, LeadsWithin};

use crate::balancing::{balance_by, balance_part, rebuild_rope, rope_has_few_pieces};
use crate::fault::BalanceFault;
use function_leaf::LeafFn;
use node_table::NodeFault;
use rope_node::{NodeId, NodeSpace, NodeView, Rope, Span};
use rope_store::Store;

/// Whether the store refused a rope as too deep.
fn is_too_deep(plain: Result<Rope, NodeFault>) -> bool
    ensures { IsTrue result ↔ IsErrOf plain NodeFault.TooDeep }
{
    match plain {
        Ok(_) => false,
        Err(fault) => match fault {
            NodeFault::TooDeep => true,
            _ => false,
        },
    }
}

/// What the store answered, with its fault as one of these calls' own.
fn lift(plain: Result<Rope, NodeFault>) -> Result<Rope, BalanceFault>
    ensures { result ≡ lifted plain }
{
    Ok(plain?)
}

/// `cat` of the store. Where the node over both would be too deep, `l` and then `r` are balanced first, from leaf spans
/// and from whole nodes whose length is at least the Fibonacci number at their depth and three.
///
/// # Errors
///
/// `TooManyPieces` where the ropes have to be balanced and one of them goes through more than 1,048,576 such pieces,
/// and the store is then as before; `TooLong`, `TableFull`, `PoolFull`, `Memory` of the store. Where a rope was
/// balanced the store may then have more nodes and bytes.
pub fn cat_any<F: LeafFn>(store: &mut Store<F>, l: Rope, r: Rope) -> Result<Rope, BalanceFault>
    requires left { IsRope (table_of F.meaning store.old) l }
    requires right { IsRope (table_of F.meaning store.old) r }
    ensures { CatsAny F.meaning store.old l r result store.new }
{
    let _count = store.count();
    let plain = store.cat(l, r);
    if is_too_deep(plain) {
        return cat_anew(store, l, r);
    }
    lift(plain)
}

/// Whether each of both ropes goes through at most as many pieces as a rope is put together from.
fn have_few_pieces<F: LeafFn>(store: &Store<F>, l: Rope, r: Rope) -> bool
    requires left { IsRope (table_of F.meaning store.now) l }
    requires right { IsRope (table_of F.meaning store.now) r }
    ensures { IsTrue result ↔ HaveFewPieces (table_of F.meaning store.now) l r }
{
    rope_has_few_pieces(store, l, true) && rope_has_few_pieces(store, r, true)
}

/// `cat` of both ropes once they are balanced.
fn cat_anew<F: LeafFn>(store: &mut Store<F>, l: Rope, r: Rope) -> Result<Rope, BalanceFault>
    requires left { IsRope (table_of F.meaning store.old) l }
    requires right { IsRope (table_of F.meaning store.old) r }
    requires short { joined_len (table_of F.meaning store.old) l r < TEXT_LIMIT }
    ensures { CatsAnew F.meaning store.old l r result store.new }
{
    let _count = store.count();
    if !have_few_pieces(store, l, r) {
        return Err(BalanceFault::TooManyPieces);
    }
    let left = rebuild_rope(store, l, true)?;
    let _count = store.count();
    let right = rebuild_rope(store, r, true)?;
    let _count = store.count();
    Ok(store.cat(left, right)?)
}

/// `substr` of the store, taken of the lowest node that all the bytes lie in: all of a node gives that node. Where the
/// part would be too deep, the bytes are balanced alone, from pieces as in `cat_any`.
///
/// # Errors
///
/// `TooManyPieces` where the bytes have to be balanced and go through more than 1,048,576 pieces; `TableFull`,
/// `PoolFull`, `Memory` of the store. Where they were balanced the store may then have more nodes and bytes.
pub fn substr_any<F: LeafFn>(
    store: &mut Store<F>,
    x: Rope,
    i: u64,
    n: u64,
) -> Result<Rope, BalanceFault>
    requires { IsRope (table_of F.meaning store.old) x }
    ensures { PartsAny F.meaning store.old x i n result store.new }
{
    let _count = store.count();
    if let Some(node) = x {
        let rest = NodeSpace::len(store, node).saturating_sub(i);
        let len = n.min(rest);
        if len > 0 {
            return part_any(store, node, i, len);
        }
    }
    lift(store.substr(x, i, n))
}

/// The bytes of a node from `start` on: one or more.
fn part_any<F: LeafFn>(
    store: &mut Store<F>,
    node: NodeId,
    start: u64,
    len: u64,
) -> Result<Rope, BalanceFault>
    requires there { node.0 < length store.old.nodes }
    requires some { 1 ≤ len }
    requires inside { start + len ≤ len_at (table_of F.meaning store.old) node.0 }
    ensures { PartsAny F.meaning store.old (Some node) start len result store.new }
{
    let _count = store.count();
    let span = lowest(store, node, start, len);
    let plain = store.substr(Some(span.node), span.start, len);
    if is_too_deep(plain) {
        return balance_part(store, true, node, start, len);
    }
    lift(plain)
}

/// These bytes of a node in the lowest node that all of them lie in.
fn lowest<F: LeafFn>(store: &Store<F>, node: NodeId, start: u64, len: u64) -> Span
    requires there { node.0 < length store.now.nodes }
    requires some { 1 ≤ len }
    requires inside { start + len ≤ len_at (table_of F.meaning store.now) node.0 }
    ensures { LeadsWithin (table_of F.meaning store.now) node.0 start len result }
{
    let _count = store.count();
    let mut below = node;
    let mut place = start;
    'down: loop {
        if len == NodeSpace::len(store, below) {
            return Span {
                node: below,
                start: place,
                len,
            };
        }
        match store.node(below) {
            NodeView::Cat { l, r } => {
                let left = NodeSpace::left_len(store, below, l);
                if left <= place {
                    below = r;
                    place -= left;
                } else if len <= left - place {
                    below = l;
                } else {
                    return Span {
                        node: below,
                        start: place,
                        len,
                    };
                }
            }
            NodeView::Sub { b, i } => {
                below = b;
                place += i;
            }
            NodeView::Lit { .. } | NodeView::Src { .. } | NodeView::Fun => {
                return Span {
                    node: below,
                    start: place,
                    len,
                };
            }
        }
    }
}

/// `append` of the store, and the length that the pool had just before the bytes were put at its end, 0 for none. Where
/// the node over both would be too deep, `x` is balanced first.
///
/// # Errors
///
/// `TooManyPieces` where the rope has to be balanced and goes through more than
/// 1,048,576 such pieces; `TooLong`, `TableFull`, `PoolFull`, `Memory` of the
/// store. Where the rope was balanced the store may then have more nodes and bytes.
pub fn append_any<F: LeafFn>(
    store: &mut Store<F>,
    x: Rope,
    bytes: &[u8],
) -> Result<(Rope, u64), BalanceFault>
    requires { IsRope (table_of F.meaning store.old) x }
    ensures any { AppendsAny F.meaning store.old x bytes.now (ropes_of result) store.new }
    ensures place { IfOk result (λ p. IsPlaced F.meaning store.old x bytes.now p store.new) }
{
    let _count = store.count();
    let place = next_place(store, bytes);
    let plain = store.append(x, bytes);
    if is_too_deep(plain) {
        return append_anew(store, x, bytes);
    }
    let rope = lift(plain)?;
    Ok((rope, place))
}

/// The place that bytes get in the pool: its end, and 0 for none.
fn next_place<F: LeafFn>(store: &Store<F>, bytes: &[u8]) -> u64
    ensures none { bytes.now ≡ [] → result ≡ 0 }
    ensures some { 1 ≤ length bytes.now → result ≡ length store.now.pool.bytes }
{
    if bytes.is_empty() {
        return 0;
    }
    store.pool_len()
}

/// `append` to the rope once it is balanced.
fn append_anew<F: LeafFn>(
    store: &mut Store<F>,
    x: Rope,
    bytes: &[u8],
) -> Result<(Rope, u64), BalanceFault>
    requires there { IsRope (table_of F.meaning store.old) x }
    requires short { ¬ AppendsTooLong (table_of F.meaning store.old) x bytes.now }
    ensures anew { AppendsAnew F.meaning store.old x bytes.now (ropes_of result) store.new }
    ensures place { IfOk result (λ p. IsPut F.meaning store.old bytes.now p store.new) }
{
    let _count = store.count();
    let rope = balance_by(store, x, true)?;
    let _count = store.count();
    let place = next_place(store, bytes);
    let longer = store.append(rope, bytes)?;
    Ok((longer, place))
}
