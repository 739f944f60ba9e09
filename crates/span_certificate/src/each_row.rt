//! Rows that cover, asked one by one.

ghost use Rattle.std.specs.Prelude.{◌≡◌, ◌↔◌, ℕ, ◌<◌, length, IsTrue, IsSome, Some};
ghost use Rattle.rope_node.specs.Denotes.{IsRope};
ghost use Rattle.span_certificate.specs.Covers.{CoversAnyhow, place_of, row_at};
ghost use Rattle.span_descent.specs.Counts.{BeginsCount};
ghost use Rattle.command_parts.specs.Parts.{AreParts};

use crate::kept_ways::{Trails, are_short};
use crate::row::Row;
use command_parts::{Part, PartIter, PartPlace, Splices};
use rope_node::{CodedSpace, NodeSpace, Rope, rope_len};
use span_descent::{Count, CountedSpace, FromRoot, Trail, Way, Ways};
use std::marker::Brand;
use std::sync::ledger::{Blank, Ledger};

/// What is asked of a row at its place.
pub trait Question {
    ghost use Rattle.std.specs.Prelude.{◌≡◌, ◌↔◌, ℕ, List, Option, IsTrue, Some};
    ghost use Rattle.rope_node.specs.Table.{Table};
    ghost use Rattle.rope_node.specs.declared.node.NodeId.{NodeId};
    ghost use Rattle.command_parts.specs.declared.part.Part.{Part};
    ghost use Rattle.span_certificate.specs.declared.row.Row.{Row};
    ghost use Rattle.span_certificate.specs.Longest.{StandsInBoth};
    ghost use Rattle.command_parts.specs.Parts.{part_at, AreParts};
    ghost use Rattle.span_descent.specs.Trails.{AreWays};

    // It holds of a row of these parts and this root, at this place.
    ghost holds: { Table → List Part → Option NodeId → ℕ → Row → Type 0 };

    /// Whether it holds of a row that stands at `place`, where this part holds it.
    fn ask<S: CountedSpace<L>, W: Way, L: Ledger>(
        space: &S,
        ways: &mut Ways<W>,
        part: Part,
        off: u64,
        root: Rope,
        place: u64,
        row: Row,
        count: &mut Count<L>,
    ) -> bool
        requires ways { AreWays W.is_way (S.table space.now) ways.old }
        requires stands { StandsInBoth (S.table space.now) part off root place row }
        ensures holds { (parts : List Part) → AreParts (S.table space.now) parts
            → part_at parts place ≡ Some (part, off)
            → (IsTrue result ↔ holds (S.table space.now) parts root place row) }
        ensures ways { AreWays W.is_way (S.table space.now) ways.new };
}

/// Row `j`.
fn nth(rows: &[Row], j: usize) -> Row
    requires { j < length rows.now }
    ensures { result ≡ row_at rows.now j }
{
    rows[j]
}

/// The part that is there.
fn part_there(part: Option<Part>) -> Part
    requires { IsSome part }
    ensures { part ≡ Some result }
{
    match part {
        Some(part) => part,
        None => unreachable!(),
    }
}

/// Whether it holds of each row, by these ways, with a count that begins here.
fn each_holds<S: CodedSpace, P: Splices, Q: Question, W: Way, L: Ledger>(
    space: &S,
    parts: PartIter<'_, P>,
    root: Rope,
    rows: &[Row],
    ways: &mut Ways<W>,
    blank: Blank,
) -> bool
    requires parts { AreParts (S.NodeSpace.table space.now) parts }
    requires root { IsRope (S.NodeSpace.table space.now) root }
    requires covers { CoversAnyhow (S.NodeSpace.table space.now) (S.coded space.now) parts root rows.now }
    requires blank { BeginsCount L.name L.parts blank.name blank.parts }
    ensures { IsTrue result ↔ ((j : ℕ) → j < length rows.now
        → Q.holds (S.NodeSpace.table space.now) parts.entry root (place_of rows.now j) (row_at rows.now j)) }
{
    // The space is sound and the text is short, as these calls say.
    let _nodes = space.count();
    let _end = rope_len(space, root);
    let mut count = Count::<L>::new(blank);
    ways.forget();
    let mut at = PartPlace::start(parts);
    let mut place = 0;
    for j in 0..rows.len() {
        let row = nth(rows, j);
        let part = part_there(at.part);
        if !Q::ask(space, ways, part, at.off, root, place, row, &mut count) {
            return false;
        }
        place += row.len;
        at.skip(row.len);
    }
    true
}

/// Whether the question is answered by yes for each of these rows, which cover the parts and the root. What the trails
/// hold before does not matter.
pub fn all_hold<S: CodedSpace, P: Splices, Q: Question>(
    space: &S,
    parts: PartIter<'_, P>,
    root: Rope,
    rows: &[Row],
    trails: &mut Trails,
) -> bool
    requires parts { AreParts (S.NodeSpace.table space.now) parts }
    requires root { IsRope (S.NodeSpace.table space.now) root }
    requires covers { CoversAnyhow (S.NodeSpace.table space.now) (S.coded space.now) parts root rows.now }
    ensures { IsTrue result ↔ ((j : ℕ) → j < length rows.now
        → Q.holds (S.NodeSpace.table space.now) parts.entry root (place_of rows.now j) (row_at rows.now j)) }
{
    if are_short::<S, P, Brand>(space, &parts, root) {
        let mut ways = Ways::from_root();
        return each_holds::<S, P, Q, FromRoot, Brand>(
            space,
            parts,
            root,
            rows,
            &mut ways,
            Blank::new(1),
        );
    }
    each_holds::<S, P, Q, Trail, Brand>(space, parts, root, rows, &mut trails.ways, Blank::new(1))
}
