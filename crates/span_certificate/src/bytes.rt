//! Bytes of both sides, compared run by run.

ghost use Rattle.std.specs.Prelude.{◌≡◌, ◌+◌, ◌*◌, ◌<◌, ◌≤◌, ◌↔◌, ◌++◌, length, take, drop, IsTrue, IfOk, OnOk};
ghost use Rattle.cord_position.specs.Runs.{AreBytesOf};
ghost use Rattle.command_parts.specs.Parts.{part_len, part_cells, IsPart};
ghost use Rattle.span_descent.specs.Leads.{described_cells, HasRoom};
ghost use Rattle.span_certificate.specs.Runs.{IsRunOf, ReadsCells, TellsSame};
ghost use Rattle.span_descent.specs.Trails.{AreWays, IsWayOf};
ghost use Rattle.span_certificate.specs.declared.looks.TheConstants.{LOOKS_LIMIT};

use crate::content::{Content, content_of};
use command_parts::Part;
use cord_position::fill_source;
use function_leaf::fill;
use lazy_file::{SourceFault, Sources};
use rope_node::Span;
use span_descent::{Count, CountedSpace, Description, Way, Ways, describe, first_leaf};
use std::sync::ledger::Ledger;

/// The most bytes that are compared at once.
const BUFFER: usize = 256;

/// Bytes of one description.
#[derive(Clone, Copy, Debug, PartialEq, Eq)]
pub struct Run {
    pub what: Description,
    pub len: u64,
}

/// The run that the next `left` bytes of a part begin with.
pub fn run_of<S: CountedSpace<L>, W: Way, L: Ledger>(
    space: &S,
    way: &mut W,
    part: Part,
    off: u64,
    left: u64,
    count: &mut Count<L>,
) -> Run
    requires way { IsWayOf W.is_way (S.table space.now) way.old }
    requires part { IsPart (S.table space.now) part }
    requires some { 1 ≤ left }
    requires inside { off + left ≤ part_len part }
    ensures run { IsRunOf (S.table space.now) part off left result }
    ensures way { IsWayOf W.is_way (S.table space.now) way.new }
    ensures few { count.new ≤ count.old + 66 }
{
    match content_of::<S, L>(space, part, off) {
        Content::Described(what) => Run { what, len: left },
        Content::Within(node, start) => {
            let x = Span {
                node,
                start,
                len: left,
            };
            let z = first_leaf(space, way, x, count);
            match describe(space, z.span.node, z.view, z.span.start, count) {
                None => unreachable!(),
                Some(what) => Run {
                    what,
                    len: z.span.len,
                },
            }
        }
    }
}

/// The bytes of the pool from place `a` on.
fn fill_pool<S: CountedSpace<L>, L: Ledger>(space: &S, a: u64, buffer: &mut [u8])
    requires { a + length buffer.old ≤ length (S.table space.now).pool }
    ensures { buffer.new ≡ take (length buffer.old) (drop a (S.table space.now).pool) }
{
    let _limit = space.pool_length();
    let mut done = 0;
    while done < buffer.len() {
        let piece = space.pool_from(a + done as u64);
        let n = piece.len().min(buffer.len() - done);
        buffer[done..done + n].copy_from_slice(&piece[..n]);
        done += n;
    }
}

/// The bytes of a description.
fn fill_described<S: CountedSpace<L>, T: Sources, L: Ledger>(
    space: &S,
    sources: &mut T,
    what: Description,
    buffer: &mut [u8],
) -> Result<(), SourceFault>
    requires some { 1 ≤ length buffer.old }
    requires room { HasRoom (S.table space.now) (length buffer.old) what }
    ensures length { length buffer.new ≡ length buffer.old }
    ensures bytes { OnOk result (AreBytesOf (T.reading sources.old).stated
        (described_cells (S.table space.now) (length buffer.old) what) buffer.new) }
    ensures reads { ReadsCells (T.reading sources.old) (T.reading sources.new)
        (described_cells (S.table space.now) (length buffer.old) what) result }
{
    match what {
        Description::Pooled { a } => {
            fill_pool::<S, L>(space, a, buffer);
            Ok(())
        }
        Description::Sourced { s, a } => fill_source(sources, s, a, buffer),
        Description::Computed { f, i } => {
            fill(&f, i, buffer);
            Ok(())
        }
    }
}

/// Whether the bytes are the same.
fn is_same(bytes: &[u8], others: &[u8]) -> bool
    ensures { IsTrue result ↔ (bytes.now ≡ others.now) }
{
    bytes == others
}

/// Whether bytes of two descriptions are the same, as many as both buffers take.
#[inline(always)]
fn same_described<S: CountedSpace<L>, T: Sources, L: Ledger>(
    space: &S,
    sources: &mut T,
    what: Description,
    other: Description,
    bytes: &mut [u8],
    others: &mut [u8],
) -> Result<bool, SourceFault>
    requires some { 1 ≤ length bytes.old }
    requires len { length others.old ≡ length bytes.old }
    requires room { HasRoom (S.table space.now) (length bytes.old) what }
    requires other_room { HasRoom (S.table space.now) (length bytes.old) other }
    ensures same { IfOk result (TellsSame (T.reading sources.old).stated
        (described_cells (S.table space.now) (length bytes.old) what)
        (described_cells (S.table space.now) (length bytes.old) other)) }
    ensures reads { ReadsCells (T.reading sources.old) (T.reading sources.new)
        (described_cells (S.table space.now) (length bytes.old) what
        ++ described_cells (S.table space.now) (length bytes.old) other) result }
{
    fill_described::<S, T, L>(space, sources, what, bytes)?;
    fill_described::<S, T, L>(space, sources, other, others)?;
    Ok(is_same(bytes, others))
}

/// Whether `len` bytes of two parts are the same: in turns, one run at each side.
pub fn same_bytes<S: CountedSpace<L>, T: Sources, W: Way, L: Ledger>(
    space: &S,
    ways: &mut Ways<W>,
    sources: &mut T,
    part: Part,
    off: u64,
    other: Part,
    place: u64,
    len: u64,
    count: &mut Count<L>,
) -> Result<bool, SourceFault>
    requires ways { AreWays W.is_way (S.table space.now) ways.old }
    requires part { IsPart (S.table space.now) part }
    requires other { IsPart (S.table space.now) other }
    requires inside { off + len ≤ part_len part }
    requires other_inside { place + len ≤ part_len other }
    ensures same { IfOk result (TellsSame (T.reading sources.old).stated
        (take len (drop off (part_cells (S.table space.now) part)))
        (take len (drop place (part_cells (S.table space.now) other)))) }
    ensures reads { ReadsCells (T.reading sources.old) (T.reading sources.new)
        (take len (drop off (part_cells (S.table space.now) part))
        ++ take len (drop place (part_cells (S.table space.now) other))) result }
    ensures ways { AreWays W.is_way (S.table space.now) ways.new }
    ensures few { count.new ≤ count.old + LOOKS_LIMIT * len }
{
    let mut bytes = [0; BUFFER];
    let mut others = [0; BUFFER];
    let mut done = 0;
    while done < len {
        let left = len - done;
        let a = run_of(space, &mut ways.of_part, part, off + done, left, count);
        let b = run_of(space, &mut ways.of_root, other, place + done, left, count);
        let n = a.len.min(b.len).min(BUFFER as u64) as usize;
        match same_described::<S, T, L>(
            space,
            sources,
            a.what,
            b.what,
            &mut bytes[..n],
            &mut others[..n],
        ) {
            Err(fault) => return Err(fault),
            Ok(false) => return Ok(false),
            Ok(true) => done += n as u64,
        }
    }
    Ok(true)
}
