//! Rows tested against the parts of a command and its root.

ghost use Rattle.std.specs.Prelude.{◌≡◌, ◌+◌, ◌*◌, ◌<◌, ◌≤◌, ◌↔◌, List, None, Ok, IsTrue, IfOk, IfErr};
ghost use Rattle.std.specs.Option.{ForSome};
ghost use Rattle.rope_node.specs.Denotes.{rope_len, IsRope};
ghost use Rattle.command_parts.specs.declared.part.Part.{Part};
ghost use Rattle.command_parts.specs.Parts.{part_at, part_len, IsPart, AreParts};
ghost use Rattle.command_parts.specs.Places.{held, len_here};
ghost use Rattle.span_certificate.specs.Covers.{HaveOneDescription, kind_compares, row_compares};
ghost use Rattle.span_certificate.specs.Runs.{ReadsCells};
ghost use Rattle.span_descent.specs.Trails.{AreWays};
ghost use Rattle.span_certificate.specs.Looks.{row_bytes, most_looks};
ghost use Rattle.span_descent.specs.Counts.{BeginsCount};
ghost use Rattle.span_certificate.specs.Verdicts.{IsAskedFor, MayBeRead, ShowsSame, TellsKind, TellsRow, TellsRows, VerifiesRows};
ghost use Rattle.lazy_file.specs.Readings.{fault_in, Reads};
ghost use Rattle.span_certificate.specs.declared.row.RowKind.TheVariants.{Bytes};
ghost use Rattle.span_certificate.specs.declared.looks.TheConstants.{LOOKS_LIMIT};
ghost use Rattle.span_certificate.specs.declared.walk.TheConstants.{BYTES_LIMIT};

use crate::bytes::same_bytes;
use crate::exact::{describe_span, part_leads};
use crate::kept_ways::{Trails, are_short};
use crate::looks::Looks;
use crate::row::{Row, RowKind, Rows};
use crate::walk::BYTES_LIMIT;
use command_parts::{Part, PartIter, PartPlace, Splices};
use lazy_file::{SourceFault, Sources};
use rope_node::{CodedSpace, Rope};
use span_descent::{Count, CountedSpace, Way, Ways};
use std::marker::Brand;
use std::sync::ledger::{Blank, Ledger};
use work_progress::{Progress, Untold};

/// What verifying found.
#[derive(Clone, Copy, Debug, PartialEq, Eq)]
pub enum Verdict {
    /// The rows cover the parts and the root.
    Good,
    /// The first row that is empty, passes the end of its part or of the root, or does not fit; or the
    /// number of rows where text is left uncovered.
    Bad(usize),
}

/// Whether two spans of parts have one description.
fn same_leaf<S: CountedSpace<L>, W: Way, L: Ledger>(
    space: &S,
    ways: &mut Ways<W>,
    part: Part,
    off: u64,
    other: Part,
    place: u64,
    len: u64,
    count: &mut Count<L>,
) -> bool
    requires ways { AreWays W.is_way (S.table space.now) ways.old }
    requires part { IsPart (S.table space.now) part }
    requires other { IsPart (S.table space.now) other }
    requires not_empty { 1 ≤ len }
    requires inside { off + len ≤ part_len part }
    requires other_inside { place + len ≤ part_len other }
    ensures same { IsTrue result ↔ HaveOneDescription
        (S.table space.now) (S.coded space.now) len part off other place }
    ensures ways { AreWays W.is_way (S.table space.now) ways.new }
    ensures few { count.new ≤ count.old + LOOKS_LIMIT }
{
    match (
        describe_span(space, &mut ways.of_part, part, off, len, count),
        describe_span(space, &mut ways.of_root, other, place, len, count),
    ) {
        (Some(d), Some(e)) => d.is_same(e),
        _ => false,
    }
}

/// Whether a row of this kind fits: its `len` bytes are those of `part` from `off` on and those of
/// `root` from `place` on.
fn kind_fits<S: CountedSpace<L>, T: Sources, W: Way, L: Ledger>(
    space: &S,
    ways: &mut Ways<W>,
    sources: &mut T,
    part: Part,
    off: u64,
    root: Rope,
    place: u64,
    row: Row,
    count: &mut Count<L>,
) -> Result<bool, SourceFault>
    requires ways { AreWays W.is_way (S.table space.now) ways.old }
    requires part { IsPart (S.table space.now) part }
    requires inside_part { off + row.len ≤ part_len part }
    requires root { IsRope (S.table space.now) root }
    requires inside_root { place + row.len ≤ rope_len (S.table space.now) root }
    requires not_empty { 1 ≤ row.len }
    ensures fits { IfOk result (TellsKind (S.table space.now) (S.coded space.now)
        (T.reading sources.old).stated part off root place row) }
    ensures reads { ReadsCells (T.reading sources.old) (T.reading sources.new)
        (kind_compares (S.table space.now) part off root place row) result }
    ensures few { IfErr result (λ _. (row.kind ≡ Bytes) × (row.len ≤ BYTES_LIMIT)) }
    ensures ways { AreWays W.is_way (S.table space.now) ways.new }
    ensures looks { count.new ≤ count.old + LOOKS_LIMIT + LOOKS_LIMIT * row_bytes row }
{
    let other = Part::Old {
        rope: root,
        i: 0,
        n: space.length(root),
    };
    let n = row.len;
    match row.kind {
        RowKind::Shared(node, at) => {
            let Ways { of_part, of_root } = ways;
            Ok(
                part_leads(space, of_part, part, off, n, node, at, count)
                    && part_leads(space, of_root, other, place, n, node, at, count),
            )
        }
        RowKind::Leaf => Ok(same_leaf(space, ways, part, off, other, place, n, count)),
        RowKind::Bytes => {
            if row.len > BYTES_LIMIT {
                return Ok(false);
            }
            same_bytes(space, ways, sources, part, off, other, place, n, count)
        }
    }
}

/// Whether a row fits that stands at `place`, where `part` holds it, or none does.
fn row_fits<S: CountedSpace<L>, T: Sources, W: Way, L: Ledger>(
    space: &S,
    ways: &mut Ways<W>,
    sources: &mut T,
    part: Option<Part>,
    off: u64,
    root: Rope,
    place: u64,
    row: Row,
    count: &mut Count<L>,
) -> Result<bool, SourceFault>
    requires ways { AreWays W.is_way (S.table space.now) ways.old }
    requires part { ForSome part (λ p. IsPart (S.table space.now) p × (off < part_len p)) }
    requires root { IsRope (S.table space.now) root }
    requires place { place ≤ rope_len (S.table space.now) root }
    ensures fits { (parts : List Part) → AreParts (S.table space.now) parts
        → part_at parts place ≡ held part off
        → IfOk result (TellsRow (S.table space.now) (S.coded space.now)
        (T.reading sources.old).stated parts root place row) }
    ensures inside { IfOk result (λ yes. IsTrue yes
        → (place + row.len ≤ rope_len (S.table space.now) root)
        × (off + row.len ≤ len_here part)) }
    ensures reads { (parts : List Part) → AreParts (S.table space.now) parts
        → part_at parts place ≡ held part off
        → ReadsCells (T.reading sources.old) (T.reading sources.new)
        (row_compares (S.table space.now) parts root place row) result }
    ensures may_be_read { (parts : List Part) → part_at parts place ≡ held part off
        → IfErr result (λ _. MayBeRead (S.table space.now) parts root place row) }
    ensures ways { AreWays W.is_way (S.table space.now) ways.new }
    ensures looks { count.new ≤ count.old + LOOKS_LIMIT + LOOKS_LIMIT * row_bytes row }
{
    match part {
        None => Ok(false),
        Some(part) => {
            let part_left = part.len() - off;
            let root_left = space.length(root) - place;
            if row.len == 0 || row.len > part_left || row.len > root_left {
                return Ok(false);
            }
            kind_fits(space, ways, sources, part, off, root, place, row, count)
        }
    }
}

/// Whether rows that end at `place` cover all: there is no part that holds this place, and the root ends there too.
fn is_whole<S: CountedSpace<L>, L: Ledger>(
    space: &S,
    part: Option<Part>,
    root: Rope,
    place: u64,
) -> bool
    requires { IsRope (S.table space.now) root }
    ensures { IsTrue result ↔ ((place ≡ rope_len (S.table space.now) root) × (part ≡ None)) }
{
    part.is_none() && place == space.length(root)
}

/// Tests row by row, with each look counted, and tells before each row how many are done.
fn verify_rows<S: CountedSpace<L>, T: Sources, P: Splices, R: Rows, W: Way, L: Ledger, G: Progress>(
    space: &S,
    ways: &mut Ways<W>,
    sources: &mut T,
    parts: PartIter<'_, P>,
    root: Rope,
    rows: &R,
    count: &mut Count<L>,
    progress: &mut G,
) -> Result<Verdict, SourceFault>
    requires parts { AreParts (S.table space.now) parts }
    requires root { IsRope (S.table space.now) root }
    ensures exact { IfOk result (TellsRows (S.table space.now) (S.coded space.now)
        (T.reading sources.old).stated parts.entry root (R.listed rows.now)) }
    ensures shows { result ≡ Ok Verdict.Good → ShowsSame
        (S.table space.now) parts.entry root (R.listed rows.now) }
    ensures reads { Reads (T.reading sources.old) (T.reading sources.new)
        (IsAskedFor (S.table space.now) (S.coded space.now)
        (T.reading sources.old).stated parts.entry root (R.listed rows.now)) (fault_in result) }
    ensures looks { count.new ≤ count.old + most_looks (R.listed rows.now) }
{
    // The space is sound, as each of its calls says.
    let _nodes = space.node_count();
    ways.forget();
    let mut at = PartPlace::start(parts);
    let mut place = 0;
    for j in 0..rows.count() {
        progress.tell(j as u64);
        let row = rows.row(j);
        match row_fits(
            space, ways, sources, at.part, at.off, root, place, row, count,
        ) {
            Err(fault) => return Err(fault),
            Ok(false) => return Ok(Verdict::Bad(j)),
            Ok(true) => {
                place += row.len;
                at.skip(row.len);
            }
        }
    }
    if is_whole::<S, L>(space, at.part, root, place) {
        Ok(Verdict::Good)
    } else {
        Ok(Verdict::Bad(rows.count()))
    }
}

/// What `verify_counted` tells, by these ways.
fn verify_with<S: CountedSpace<L>, T: Sources, P: Splices, R: Rows, W: Way, L: Ledger, G: Progress>(
    looks: &mut Looks<'_, '_, S, L>,
    ways: &mut Ways<W>,
    sources: &mut T,
    parts: PartIter<'_, P>,
    root: Rope,
    rows: &R,
    progress: &mut G,
) -> Result<Verdict, SourceFault>
    requires parts { AreParts (S.table looks.old.space.now) parts }
    requires root { IsRope (S.table looks.old.space.now) root }
    ensures verified { VerifiesRows (S.table looks.old.space.now) (S.coded looks.old.space.now)
        parts.entry root (R.listed rows.now) (T.reading sources.old) (T.reading sources.new) result }
    ensures looks { looks.new.count.now ≤ looks.old.count.now + most_looks (R.listed rows.now) }
    ensures space { looks.new.space.now ≡ looks.old.space.now }
    ensures same_reference { looks.new.count.ghost_name ≡ looks.old.count.ghost_name }
{
    verify_rows(
        looks.space,
        ways,
        sources,
        parts,
        root,
        rows,
        &mut *looks.count,
        progress,
    )
}

/// What `verify_counted` tells, by trails that a caller keeps from call to call, so that no call sets them up anew.
/// What they hold before does not matter. It tells `progress` before each row how many of these rows are done.
///
/// # Errors
///
/// As those of `verify`.
pub fn verify_told<S: CountedSpace<L>, T: Sources, P: Splices, R: Rows, L: Ledger, G: Progress>(
    looks: &mut Looks<'_, '_, S, L>,
    trails: &mut Trails,
    sources: &mut T,
    parts: PartIter<'_, P>,
    root: Rope,
    rows: &R,
    progress: &mut G,
) -> Result<Verdict, SourceFault>
    requires parts { AreParts (S.table looks.old.space.now) parts }
    requires root { IsRope (S.table looks.old.space.now) root }
    ensures verified { VerifiesRows (S.table looks.old.space.now) (S.coded looks.old.space.now)
        parts.entry root (R.listed rows.now) (T.reading sources.old) (T.reading sources.new) result }
    ensures looks { looks.new.count.now ≤ looks.old.count.now + most_looks (R.listed rows.now) }
    ensures space { looks.new.space.now ≡ looks.old.space.now }
    ensures same_reference { looks.new.count.ghost_name ≡ looks.old.count.ghost_name }
{
    if are_short::<S, P, L>(looks.space, &parts, root) {
        return verify_with(
            looks,
            &mut Ways::from_root(),
            sources,
            parts,
            root,
            rows,
            progress,
        );
    }
    verify_with(
        looks,
        &mut trails.ways,
        sources,
        parts,
        root,
        rows,
        progress,
    )
}

/// Whether the rows cover the parts of a command and a root, as `verify` tells it, by looks at the space: at most
/// `LOOKS_LIMIT` for each row, and as many for each byte that a row compares, up to `BYTES_LIMIT` of each row. Each row
/// goes down from the root.
///
/// # Errors
///
/// As those of `verify`.
pub fn verify_counted<S: CountedSpace<L>, T: Sources, P: Splices, R: Rows, L: Ledger>(
    looks: &mut Looks<'_, '_, S, L>,
    sources: &mut T,
    parts: PartIter<'_, P>,
    root: Rope,
    rows: &R,
) -> Result<Verdict, SourceFault>
    requires parts { AreParts (S.table looks.old.space.now) parts }
    requires root { IsRope (S.table looks.old.space.now) root }
    ensures verified { VerifiesRows (S.table looks.old.space.now) (S.coded looks.old.space.now)
        parts.entry root (R.listed rows.now) (T.reading sources.old) (T.reading sources.new) result }
    ensures looks { looks.new.count.now ≤ looks.old.count.now + most_looks (R.listed rows.now) }
    ensures space { looks.new.space.now ≡ looks.old.space.now }
    ensures same_reference { looks.new.count.ghost_name ≡ looks.old.count.ghost_name }
{
    verify_with(
        looks,
        &mut Ways::from_root(),
        sources,
        parts,
        root,
        rows,
        &mut Untold,
    )
}

/// Verifies over a space, with a count that begins here.
fn verify_over<S: CodedSpace, T: Sources, P: Splices, R: Rows, L: Ledger>(
    space: &S,
    sources: &mut T,
    parts: PartIter<'_, P>,
    root: Rope,
    rows: &R,
    blank: Blank,
) -> Result<Verdict, SourceFault>
    requires parts { AreParts (S.NodeSpace.table space.now) parts }
    requires root { IsRope (S.NodeSpace.table space.now) root }
    requires blank { BeginsCount L.name L.parts blank.name blank.parts }
    ensures { VerifiesRows (S.NodeSpace.table space.now) (S.coded space.now) parts.entry root (R.listed rows.now)
        (T.reading sources.old) (T.reading sources.new) result }
{
    let mut count = Count::<L>::new(blank);
    let mut looks = Looks::over(space, &mut count);
    verify_counted(&mut looks, sources, parts, root, rows)
}

/// Whether the rows cover the parts of a command and a root, each row at its place. It takes no memory
/// of its own, and reads a source for rows of bytes over it alone.
///
/// # Errors
///
/// A source's fault, where a read for a row of bytes over that source failed and all rows before it
/// fit. No source is read for a row that is empty, too long, or passes the end of its part or of the root.
pub fn verify<S: CodedSpace, T: Sources, P: Splices, R: Rows>(
    space: &S,
    sources: &mut T,
    parts: PartIter<'_, P>,
    root: Rope,
    rows: &R,
) -> Result<Verdict, SourceFault>
    requires parts { AreParts (S.NodeSpace.table space.now) parts }
    requires root { IsRope (S.NodeSpace.table space.now) root }
    ensures { VerifiesRows (S.NodeSpace.table space.now) (S.coded space.now) parts.entry root (R.listed rows.now)
        (T.reading sources.old) (T.reading sources.new) result }
{
    verify_over::<S, T, P, R, Brand>(space, sources, parts, root, rows, Blank::new(1))
}
