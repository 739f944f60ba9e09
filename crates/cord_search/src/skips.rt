//! How far a search skips places of a leaf that repeats.

// The lines `let _len = ..` are for the proof: no text is longer than a text may be, as its length says.

ghost use Rattle.std.specs.Prelude.{◌≡◌, ◌<◌, ◌≤◌, ◌+◌};
ghost use Rattle.rope_node.specs.Denotes.{IsRope, rope_len};
ghost use Rattle.cord_position.specs.Position.{text_len};
ghost use Rattle.cord_search.specs.Skipped.{IsClearAlso};

use cord_position::Pos;
use rope_node::{NodeSpace, NodeView, Rope, find_leaf, rope_len};
use std::alloc::Global;

/// At how many places from a position on a pattern of `need` bytes cannot stand,
/// where it stands at none of the first `count`: at all whose bytes are in the
/// present leaf's span, if the leaf repeats within these, and else at these alone.
pub fn clear_ahead<S: NodeSpace>(pos: &Pos<'_, S>, need: u64, count: u64) -> u64
    requires some { 1 ≤ need }
    requires inside { pos.now.index + count + need ≤ text_len S.table pos.now + 1 }
    ensures more { count ≤ result }
    ensures inside { pos.now.index + result + need ≤ text_len S.table pos.now + 1 }
    ensures clear { IsClearAlso (S.table pos.now.space) pos.now.rope need
        pos.now.index (pos.now.index + count) pos.now.index (pos.now.index + result) }
{
    let reach = pos.run_left().saturating_sub(need - 1);
    if reach <= count {
        return count;
    }
    match pos.run_period() {
        Some(period) if period <= count => reach,
        _ => count,
    }
}

/// The first place from which on a byte cannot stand, where it stands at none of `count` places from a position on: the
/// first of the present leaf's span, if the leaf repeats within these, and else the position's.
fn clear_behind_position<S: NodeSpace>(
    alloc: Global,
    pos: &Pos<'_, S>,
    space: &S,
    x: Rope,
    count: u64,
) -> u64
    requires rope { IsRope (S.table space.now) x }
    requires here { (pos.now.space ≡ space.now) × (pos.now.rope ≡ x) }
    ensures before { result ≤ pos.now.index }
    ensures clear { IsClearAlso (S.table space.now) x 1
        pos.now.index (pos.now.index + count) result (pos.now.index + count) }
{
    let _len = rope_len(space, x);
    let first = pos.run_start();
    let start = Pos::set(alloc, space, x, first);
    match start.run_period() {
        Some(period) if period <= count.min(pos.run_left()) => first,
        _ => pos.index(),
    }
}

/// Whether the leaf at a place says after how many bytes it repeats. Most leaves do not.
fn repeats_at<S: NodeSpace>(space: &S, x: Rope, place: u64) -> bool
    requires rope { IsRope (S.table space.now) x }
    requires inside { place < rope_len (S.table space.now) x }
{
    let _len = rope_len(space, x);
    let Some(node) = x else {
        return false;
    };
    let leaf = find_leaf(space, node, place).leaf;
    match space.node(leaf) {
        NodeView::Fun => space.period(leaf).is_some(),
        NodeView::Lit { .. } | NodeView::Src { .. } | NodeView::Cat { .. } | NodeView::Sub { .. } =>
            false,
    }
}

/// A place from which on a byte cannot stand, where it stands at none of `count` places from `from` on: where the leaf
/// there repeats within these, the first of its span (no clause says so), and else `from`. It sets a position where the
/// leaf repeats, and nowhere else.
pub fn clear_behind<S: NodeSpace>(alloc: Global, space: &S, x: Rope, from: u64, count: u64) -> u64
    requires rope { IsRope (S.table space.now) x }
    ensures before { result ≤ from }
    ensures clear { IsClearAlso (S.table space.now) x 1 from (from + count) result (from + count) }
{
    if from >= rope_len(space, x) || !repeats_at(space, x, from) {
        return from;
    }
    let pos = Pos::set(alloc, space, x, from);
    clear_behind_position(alloc, &pos, space, x, count)
}
