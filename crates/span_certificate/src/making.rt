//! Rows made for the parts of a command and its root.

ghost use Rattle.std.specs.Prelude.{◌≡◌, ◌+◌, ◌<◌, ◌≤◌, length, take, drop, Some};
ghost use Rattle.rope_node.specs.Table.{Table};
ghost use Rattle.rope_node.specs.Denotes.{cells, rope_cells, IsRope};
ghost use Rattle.command_parts.specs.Parts.{part_len, part_cells, parts_cells, IsPart, AreParts};
ghost use Rattle.span_certificate.specs.Longest.{MakesRows, StayWithin};
ghost use Rattle.span_descent.specs.Counts.{BeginsCount};
ghost use Rattle.span_certificate.specs.SpanRows.{IsNext};
ghost use Rattle.span_descent.specs.Steps.{span_cells};
ghost use Rattle.rope_node.specs.Steps.{IsSpan};
ghost use Rattle.span_descent.specs.Trails.{AreWays};

use crate::content::{Content, content_of};
use crate::kept_ways::{Trails, are_short};
use crate::row::Row;
use crate::walk::{next_leaf, next_old};
use command_parts::{Part, PartIter, PartPlace, Splices};
use rope_node::{CodedSpace, NodeId, NodeSpace, Rope, Span};
use span_descent::{Count, CountedSpace, Way, Ways};
use std::alloc::Global;
use std::marker::Brand;
use std::sync::ledger::{Blank, Ledger};

/// The most rows of an image.
pub const ROWS_LIMIT: usize = 1 << 24;

/// Why no rows were made.
#[derive(Clone, Copy, Debug, PartialEq, Eq)]
pub enum MakeFault {
    /// More than 16,777,216 rows are needed.
    TooManyRows,
    /// Memory was refused.
    Memory,
}

/// The longest row for the first bytes of a span of the root, which has the same cells as the part's next ones.
fn next_row<S: CountedSpace<L>, W: Way, L: Ledger>(
    space: &S,
    ways: &mut Ways<W>,
    part: Part,
    off: u64,
    y: Span,
    count: &mut Count<L>,
) -> Row
    requires ways { AreWays W.is_way (S.table space.now) ways.old }
    requires part { IsPart (S.table space.now) part }
    requires inside { off + y.len ≤ part_len part }
    requires y { IsSpan (S.table space.now) y }
    requires same { take y.len (drop off (part_cells (S.table space.now) part))
        ≡ span_cells (S.table space.now) y }
    ensures next { IsNext (S.table space.now) (S.coded space.now) part off y.node y.start y.len result }
    ensures longest { result.len < y.len
        → ¬ StayWithin (S.table space.now) (result.len + 1) part off (Some y.node) y.start result.kind }
    ensures ways { AreWays W.is_way (S.table space.now) ways.new }
{
    let Ways { of_part, of_root } = ways;
    match content_of::<S, L>(space, part, off) {
        Content::Described(d) => next_leaf(space, of_root, d, y, count),
        Content::Within(node, start) => {
            let len = y.len;
            next_old(space, of_part, of_root, Span { node, start, len }, y, count)
        }
    }
}

/// Forgets a way down at the first byte of a part: what both sides have in common is looked for anew there.
#[inline(always)]
fn forget_between_parts<W: Way>(way: &mut W, off: u64)
    ensures { (t : Table) → W.is_way t way.old → W.is_way t way.new }
{
    if off == 0 {
        way.forget();
    }
}

/// The rows for a root that is not nil.
fn make_for<S: CodedSpace, P: Splices, W: Way, L: Ledger>(
    alloc: Global,
    space: &S,
    parts: PartIter<'_, P>,
    root: NodeId,
    ways: &mut Ways<W>,
    blank: Blank,
) -> Result<Vec<Row>, MakeFault>
    requires parts { AreParts (S.NodeSpace.table space.now) parts }
    requires root { root.0 < length (S.NodeSpace.table space.now).nodes }
    requires same { parts_cells (S.NodeSpace.table space.now) parts
        ≡ cells (S.NodeSpace.table space.now) root.0 }
    requires blank { BeginsCount L.name L.parts blank.name blank.parts }
    ensures { MakesRows (S.coded space.now) (S.NodeSpace.table space.now) parts.entry (Some root) result }
{
    let mut rows = Vec::new(alloc);
    let mut count = Count::<L>::new(blank);
    ways.forget();
    let mut at = PartPlace::start(parts);
    let mut place = 0;
    let end = space.len(root);
    while place < end {
        if rows.len() >= ROWS_LIMIT {
            return Err(MakeFault::TooManyRows);
        }
        match at.part {
            None => unreachable!(),
            Some(part) => {
                let y = Span {
                    node: root,
                    start: place,
                    len: part.len() - at.off,
                };
                let row = next_row(space, ways, part, at.off, y, &mut count);
                rows.push(row).map_err(|_| MakeFault::Memory)?;
                place += row.len;
                at.skip(row.len);
                forget_between_parts(&mut ways.of_part, at.off);
            }
        }
    }
    Ok(rows)
}

/// The rows that `make` gives, by these ways.
fn make_with<S: CodedSpace, P: Splices, W: Way>(
    alloc: Global,
    space: &S,
    parts: PartIter<'_, P>,
    root: Rope,
    ways: &mut Ways<W>,
) -> Result<Vec<Row>, MakeFault>
    requires parts { AreParts (S.NodeSpace.table space.now) parts }
    requires root { IsRope (S.NodeSpace.table space.now) root }
    requires same { parts_cells (S.NodeSpace.table space.now) parts
        ≡ rope_cells (S.NodeSpace.table space.now) root }
    ensures { MakesRows (S.coded space.now) (S.NodeSpace.table space.now) parts.entry root result }
{
    // The space is sound, as each of its calls says.
    let _nodes = space.count();
    match root {
        None => Ok(Vec::new(alloc)),
        Some(node) => make_for::<S, P, W, Brand>(alloc, space, parts, node, ways, Blank::new(1)),
    }
}

/// The rows that `make` gives, by trails that a caller keeps from call to call, so that no call sets them up anew. What
/// they hold before does not matter.
///
/// # Errors
///
/// Those of `make`.
pub fn make_by<S: CodedSpace, P: Splices>(
    alloc: Global,
    space: &S,
    parts: PartIter<'_, P>,
    root: Rope,
    trails: &mut Trails,
) -> Result<Vec<Row>, MakeFault>
    requires parts { AreParts (S.NodeSpace.table space.now) parts }
    requires root { IsRope (S.NodeSpace.table space.now) root }
    requires same { parts_cells (S.NodeSpace.table space.now) parts
        ≡ rope_cells (S.NodeSpace.table space.now) root }
    ensures { MakesRows (S.coded space.now) (S.NodeSpace.table space.now) parts.entry root result }
{
    if are_short::<S, P, Brand>(space, &parts, root) {
        return make(alloc, space, parts, root);
    }
    make_with(alloc, space, parts, root, &mut trails.ways)
}

/// Rows that show that the parts and the root have one text, whatever the sources hold, each as long as it can be: to
/// the end of its part, while both sides stay in the node or in the leaves that it is over, and for at most 4,096 bytes
/// where it compares bytes. No source is read or compared. Each row goes down from the root. It is never inlined, so a
/// caller that keeps trails pays nothing for it.
///
/// # Errors
///
/// `TooManyRows` where 16,777,216 such rows do not reach the end, and `Memory`.
#[inline(never)]
pub fn make<S: CodedSpace, P: Splices>(
    alloc: Global,
    space: &S,
    parts: PartIter<'_, P>,
    root: Rope,
) -> Result<Vec<Row>, MakeFault>
    requires parts { AreParts (S.NodeSpace.table space.now) parts }
    requires root { IsRope (S.NodeSpace.table space.now) root }
    requires same { parts_cells (S.NodeSpace.table space.now) parts
        ≡ rope_cells (S.NodeSpace.table space.now) root }
    ensures { MakesRows (S.coded space.now) (S.NodeSpace.table space.now) parts.entry root result }
{
    make_with(alloc, space, parts, root, &mut Ways::from_root())
}
