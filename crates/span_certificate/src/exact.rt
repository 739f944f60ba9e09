//! Whether spans lead to one node, and what the leaf spans are that they lead to.

ghost use Rattle.std.specs.Prelude.{◌≡◌, ◌↔◌, ◌+◌, ◌≤◌, Some, IsTrue};
ghost use Rattle.rope_node.specs.Table.{IsSound};
ghost use Rattle.command_parts.specs.Parts.{part_len, IsPart};
ghost use Rattle.span_certificate.specs.PartLeads.{PartLeads, PartHasDescription};
ghost use Rattle.span_descent.specs.Leads.{HasDescription};
ghost use Rattle.span_descent.specs.Counts.{BeginsCount};
ghost use Rattle.rope_node.specs.Steps.{IsSpan};
ghost use Rattle.span_descent.specs.Trails.{IsWayOf};
ghost use Rattle.span_descent.specs.declared.description.Description.{Description};

use crate::content::{Content, content_of};
use command_parts::Part;
use rope_node::{CodedSpace, NodeId, Span};
use span_descent::{
    Count, CountedSpace, Description, FromRoot, Way, describe, leads_to, leaf_span,
};
use std::marker::Brand;
use std::sync::ledger::{Blank, Ledger};

/// Whether the `len` bytes of a part from `off` on lead to the place `at` of a node.
pub fn part_leads<S: CountedSpace<L>, W: Way, L: Ledger>(
    space: &S,
    way: &mut W,
    part: Part,
    off: u64,
    len: u64,
    node: NodeId,
    at: u64,
    count: &mut Count<L>,
) -> bool
    requires way { IsWayOf W.is_way (S.table space.now) way.old }
    requires part { IsPart (S.table space.now) part }
    requires some { 1 ≤ len }
    requires inside { off + len ≤ part_len part }
    ensures leads { IsTrue result ↔ PartLeads (S.table space.now) len node.0 at part off }
    ensures way { IsWayOf W.is_way (S.table space.now) way.new }
    ensures few { count.new ≤ count.old + 65 }
{
    match part {
        Part::Old { rope, i, n: _ } => match rope {
            Some(of) => {
                let x = Span {
                    node: of,
                    start: i + off,
                    len,
                };
                leads_to(space, way, x, node, at, count)
            }
            None => false,
        },
        Part::Pool { .. } | Part::Source { .. } | Part::Fill { .. } => false,
    }
}

/// The description of the leaf span that a span leads to, or nothing where its bytes lie in several leaves.
#[inline(always)]
fn describe_node<S: CountedSpace<L>, W: Way, L: Ledger>(
    space: &S,
    way: &mut W,
    x: Span,
    count: &mut Count<L>,
) -> Option<Description>
    requires way { IsWayOf W.is_way (S.table space.now) way.old }
    requires span { IsSpan (S.table space.now) x }
    ensures value { (d : Description) → (result ≡ Some d) ↔ HasDescription
        (S.table space.now) (S.coded space.now) x.len x.node.0 x.start d }
    ensures way { IsWayOf W.is_way (S.table space.now) way.new }
    ensures few { count.new ≤ count.old + 66 }
{
    match leaf_span(space, way, x, count) {
        None => None,
        Some(span) => describe(space, span.leaf, span.view, span.start, count),
    }
}

/// What the leaf span is that the `len` bytes of a part from `off` on lead to, where they lie in one.
#[inline(always)]
pub fn describe_span<S: CountedSpace<L>, W: Way, L: Ledger>(
    space: &S,
    way: &mut W,
    part: Part,
    off: u64,
    len: u64,
    count: &mut Count<L>,
) -> Option<Description>
    requires way { IsWayOf W.is_way (S.table space.now) way.old }
    requires part { IsPart (S.table space.now) part }
    requires not_empty { 1 ≤ len }
    requires inside { off + len ≤ part_len part }
    ensures value { (d : Description) → (result ≡ Some d) ↔ PartHasDescription
        (S.table space.now) (S.coded space.now) len part off d }
    ensures way { IsWayOf W.is_way (S.table space.now) way.new }
    ensures few { count.new ≤ count.old + 66 }
{
    match content_of::<S, L>(space, part, off) {
        Content::Within(node, start) => {
            describe_node(space, way, Span { node, start, len }, count)
        }
        Content::Described(d) => Some(d),
    }
}

/// Describes the bytes of a part, with a count that begins here.
fn describe_part_with<S: CodedSpace, L: Ledger>(
    space: &S,
    part: Part,
    off: u64,
    len: u64,
    blank: Blank,
) -> Option<Description>
    requires sound { IsSound (S.NodeSpace.table space.now) }
    requires part { IsPart (S.NodeSpace.table space.now) part }
    requires not_empty { 1 ≤ len }
    requires inside { off + len ≤ part_len part }
    requires blank { BeginsCount L.name L.parts blank.name blank.parts }
    ensures { (d : Description) → (result ≡ Some d) ↔ PartHasDescription
        (S.NodeSpace.table space.now) (S.coded space.now) len part off d }
{
    // The space's records are true, as its count says.
    let _nodes = space.count();
    let mut count = Count::<L>::new(blank);
    describe_span(space, &mut FromRoot, part, off, len, &mut count)
}

/// What the leaf span is that the `len` bytes of a part from `off` on lead to, where they lie in one.
pub fn describe_part<S: CodedSpace>(
    space: &S,
    part: Part,
    off: u64,
    len: u64,
) -> Option<Description>
    requires sound { IsSound (S.NodeSpace.table space.now) }
    requires part { IsPart (S.NodeSpace.table space.now) part }
    requires not_empty { 1 ≤ len }
    requires inside { off + len ≤ part_len part }
    ensures { (d : Description) → (result ≡ Some d) ↔ PartHasDescription
        (S.NodeSpace.table space.now) (S.coded space.now) len part off d }
{
    describe_part_with::<S, Brand>(space, part, off, len, Blank::new(1))
}
