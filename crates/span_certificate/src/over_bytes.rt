//! Whether rows of bytes stand over no source.

ghost use Rattle.std.specs.Prelude.{◌≡◌, ◌↔◌, ◌+◌, ◌≤◌, List, All, take, drop, IsTrue};
ghost use Rattle.rope_node.specs.Denotes.{IsRope};
ghost use Rattle.span_certificate.specs.Covers.{CoversAnyhow, IsByte, MeetsNoSource, row_compares};
ghost use Rattle.command_parts.specs.Parts.{part_len, part_cells, IsPart, AreParts};
ghost use Rattle.span_certificate.specs.Runs.{IsSourced};
ghost use Rattle.span_descent.specs.Trails.{IsWayOf};

use crate::bytes::run_of;
use crate::each_row::{Question, all_hold};
use crate::kept_ways::Trails;
use crate::row::{Row, RowKind};
use command_parts::{Part, PartIter, Splices};
use rope_node::{CodedSpace, Rope};
use span_descent::{Count, CountedSpace, Description, Way, Ways};
use std::sync::ledger::Ledger;

/// Whether the bytes of a description are those of a source.
fn is_sourced(what: Description) -> bool
    ensures { IsTrue result ↔ IsSourced what }
{
    match what {
        Description::Sourced { .. } => true,
        _ => false,
    }
}

/// Whether no byte of a source is among the `len` bytes of a part from `off` on.
fn are_bytes<S: CountedSpace<L>, W: Way, L: Ledger>(
    space: &S,
    way: &mut W,
    part: Part,
    off: u64,
    len: u64,
    count: &mut Count<L>,
) -> bool
    requires way { IsWayOf W.is_way (S.table space.now) way.old }
    requires part { IsPart (S.table space.now) part }
    requires inside { off + len ≤ part_len part }
    ensures bytes { IsTrue result ↔ All IsByte (take len (drop off (part_cells (S.table space.now) part))) }
    ensures way { IsWayOf W.is_way (S.table space.now) way.new }
{
    let mut done = 0;
    while done < len {
        let run = run_of(space, way, part, off + done, len - done, count);
        if is_sourced(run.what) {
            return false;
        }
        done += run.len;
    }
    true
}

/// Whether a row compares no byte of a source.
pub struct OverBytes;

impl Question for OverBytes {
    ghost holds = { λ t parts root place row. All IsByte (row_compares t parts root place row) };

    fn ask<S: CountedSpace<L>, W: Way, L: Ledger>(
        space: &S,
        ways: &mut Ways<W>,
        part: Part,
        off: u64,
        root: Rope,
        place: u64,
        row: Row,
        count: &mut Count<L>,
    ) -> bool {
        match row.kind {
            RowKind::Bytes => {
                let other = Part::Old {
                    rope: root,
                    i: 0,
                    n: space.length(root),
                };
                let Ways { of_part, of_root } = ways;
                are_bytes(space, of_part, part, off, row.len, count)
                    && are_bytes(space, of_root, other, place, row.len, count)
            }
            RowKind::Shared(..) | RowKind::Leaf => true,
        }
    }
}

/// Whether none of these rows, which cover the parts and the root, compares bytes of a source. No source is read. What
/// the trails hold before does not matter.
pub fn meets_no_source<S: CodedSpace, P: Splices>(
    space: &S,
    parts: PartIter<'_, P>,
    root: Rope,
    rows: &[Row],
    trails: &mut Trails,
) -> bool
    requires parts { AreParts (S.NodeSpace.table space.now) parts }
    requires root { IsRope (S.NodeSpace.table space.now) root }
    requires covers { CoversAnyhow (S.NodeSpace.table space.now) (S.coded space.now) parts root rows.now }
    ensures { IsTrue result ↔ MeetsNoSource (S.NodeSpace.table space.now) parts.entry root rows.now }
{
    all_hold::<S, P, OverBytes>(space, parts, root, rows, trails)
}
