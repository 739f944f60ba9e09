//! Whether rows that cover are as long as they can be.

ghost use Rattle.std.specs.Prelude.{◌≡◌, ◌↔◌, ◌+◌, ◌≤◌, List, IsTrue};
ghost use Rattle.rope_node.specs.Denotes.{rope_len, IsRope};
ghost use Rattle.span_certificate.specs.Covers.{CoversAnyhow};
ghost use Rattle.span_certificate.specs.Longest.{AreLongest, IsLongest, PartLiesInLeaf, RopeLiesInLeaf, StayWithin};
ghost use Rattle.span_certificate.specs.PartLeads.{PartLeads, RopeLeads};
ghost use Rattle.command_parts.specs.Parts.{part_len, IsPart, AreParts};
ghost use Rattle.span_descent.specs.Trails.{AreWays, IsWayOf};

use crate::each_row::{Question, all_hold};
use crate::exact::part_leads;
use crate::kept_ways::Trails;
use crate::row::{Row, RowKind};
use crate::walk::BYTES_LIMIT;
use command_parts::{Part, PartIter, Splices};
use rope_node::{CodedSpace, NodeId, Rope, Span};
use span_descent::{Count, CountedSpace, Way, Ways, leaf_span};
use std::sync::ledger::Ledger;

/// Whether the `len` bytes of a part from `off` on lie in one leaf.
fn lies_in_leaf<S: CountedSpace<L>, W: Way, L: Ledger>(
    space: &S,
    way: &mut W,
    part: Part,
    off: u64,
    len: u64,
    count: &mut Count<L>,
) -> bool
    requires way { IsWayOf W.is_way (S.table space.now) way.old }
    requires part { IsPart (S.table space.now) part }
    requires some { 1 ≤ len }
    requires inside { off + len ≤ part_len part }
    ensures lies { IsTrue result ↔ PartLiesInLeaf (S.table space.now) len part off }
    ensures way { IsWayOf W.is_way (S.table space.now) way.new }
{
    match part {
        Part::Old { rope, i, n: _ } => match rope {
            None => false,
            Some(node) => {
                let start = i + off;
                leaf_span(space, way, Span { node, start, len }, count).is_some()
            }
        },
        Part::Pool { .. } | Part::Source { .. } | Part::Fill { .. } => true,
    }
}

/// Whether both the `len` bytes of a part from `off` on and those of the root from `place` on lie in one leaf.
fn lie_in_leaves<S: CountedSpace<L>, W: Way, L: Ledger>(
    space: &S,
    ways: &mut Ways<W>,
    part: Part,
    off: u64,
    root: Rope,
    place: u64,
    len: u64,
    count: &mut Count<L>,
) -> bool
    requires ways { AreWays W.is_way (S.table space.now) ways.old }
    requires part { IsPart (S.table space.now) part }
    requires inside_part { off + len ≤ part_len part }
    requires root { IsRope (S.table space.now) root }
    requires inside_root { place + len ≤ rope_len (S.table space.now) root }
    requires some { 1 ≤ len }
    ensures lie { IsTrue result
        ↔ (PartLiesInLeaf (S.table space.now) len part off × RopeLiesInLeaf (S.table space.now) len root place) }
    ensures ways { AreWays W.is_way (S.table space.now) ways.new }
{
    let other = Part::Old {
        rope: root,
        i: 0,
        n: space.length(root),
    };
    let Ways { of_part, of_root } = ways;
    lies_in_leaf(space, of_part, part, off, len, count)
        && lies_in_leaf(space, of_root, other, place, len, count)
}

/// Whether they lead to this place of this node.
fn both_lead<S: CountedSpace<L>, W: Way, L: Ledger>(
    space: &S,
    ways: &mut Ways<W>,
    part: Part,
    off: u64,
    root: Rope,
    place: u64,
    len: u64,
    node: NodeId,
    at: u64,
    count: &mut Count<L>,
) -> bool
    requires ways { AreWays W.is_way (S.table space.now) ways.old }
    requires part { IsPart (S.table space.now) part }
    requires inside_part { off + len ≤ part_len part }
    requires root { IsRope (S.table space.now) root }
    requires inside_root { place + len ≤ rope_len (S.table space.now) root }
    requires some { 1 ≤ len }
    ensures lead { IsTrue result
        ↔ (PartLeads (S.table space.now) len node.0 at part off
        × RopeLeads (S.table space.now) len node.0 at root place) }
    ensures ways { AreWays W.is_way (S.table space.now) ways.new }
{
    let other = Part::Old {
        rope: root,
        i: 0,
        n: space.length(root),
    };
    let Ways { of_part, of_root } = ways;
    part_leads(space, of_part, part, off, len, node, at, count)
        && part_leads(space, of_root, other, place, len, node, at, count)
}

/// Whether the `len` bytes of the part from `off` on and those of the root from `place` on stay in what a row of this
/// kind is over.
fn stay_within<S: CountedSpace<L>, W: Way, L: Ledger>(
    space: &S,
    ways: &mut Ways<W>,
    part: Part,
    off: u64,
    root: Rope,
    place: u64,
    len: u64,
    kind: RowKind,
    count: &mut Count<L>,
) -> bool
    requires ways { AreWays W.is_way (S.table space.now) ways.old }
    requires part { IsPart (S.table space.now) part }
    requires inside_part { off + len ≤ part_len part }
    requires root { IsRope (S.table space.now) root }
    requires inside_root { place + len ≤ rope_len (S.table space.now) root }
    requires some { 1 ≤ len }
    ensures stay { IsTrue result ↔ StayWithin (S.table space.now) len part off root place kind }
    ensures ways { AreWays W.is_way (S.table space.now) ways.new }
{
    match kind {
        RowKind::Shared(node, at) => {
            both_lead(space, ways, part, off, root, place, len, node, at, count)
        }
        RowKind::Leaf => lie_in_leaves(space, ways, part, off, root, place, len, count),
        RowKind::Bytes => {
            if len > BYTES_LIMIT {
                return false;
            }
            lie_in_leaves(space, ways, part, off, root, place, len, count)
        }
    }
}

/// Whether a row is the longest that stands at its place.
pub struct Longest;

impl Question for Longest {
    ghost holds = { IsLongest };

    fn ask<S: CountedSpace<L>, W: Way, L: Ledger>(
        space: &S,
        ways: &mut Ways<W>,
        part: Part,
        off: u64,
        root: Rope,
        place: u64,
        row: Row,
        count: &mut Count<L>,
    ) -> bool {
        row.len >= part.len() - off
            || !stay_within(
                space,
                ways,
                part,
                off,
                root,
                place,
                row.len + 1,
                row.kind,
                count,
            )
    }
}

/// Whether each of these rows, which cover the parts and the root, is the longest: it goes to the end of its part, or
/// no byte more stays within what it is over. No source is read. What the trails hold before does not matter.
pub fn are_longest<S: CodedSpace, P: Splices>(
    space: &S,
    parts: PartIter<'_, P>,
    root: Rope,
    rows: &[Row],
    trails: &mut Trails,
) -> bool
    requires parts { AreParts (S.NodeSpace.table space.now) parts }
    requires root { IsRope (S.NodeSpace.table space.now) root }
    requires covers { CoversAnyhow (S.NodeSpace.table space.now) (S.coded space.now) parts root rows.now }
    ensures { IsTrue result ↔ AreLongest (S.NodeSpace.table space.now) parts.entry root rows.now }
{
    all_hold::<S, P, Longest>(space, parts, root, rows, trails)
}
