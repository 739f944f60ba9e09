//! The order of texts.

ghost use Rattle.std.specs.Prelude.{◌≡◌, min, length, take, IfOk};
ghost use Rattle.rope_node.specs.Denotes.{IsRope};
ghost use Rattle.cord_position.specs.Fetched.{rope_cell};
ghost use Rattle.cord_search.specs.Order.{order};
ghost use Rattle.cord_search.specs.Stated.{OfTexts, OrdersParts, ReadsTwoSpans, longer};

use crate::runs::{WINDOW, next_run};
use cord_position::Pos;
use lazy_file::{SourceFault, Sources};
use rope_node::{NodeSpace, Rope, rope_len};
use std::alloc::Global;
use std::cmp::Ordering;

/// How many bytes two runs both have, and the order of these.
fn compare_runs(left: &[u8], right: &[u8]) -> (u64, Ordering)
    ensures count { result.0 ≡ min (length left.now) (length right.now) }
    ensures order { result.1 ≡ order (take result.0 left.now) (take result.0 right.now) }
{
    let count = left.len().min(right.len());
    (count as u64, left[..count].cmp(&right[..count]))
}

/// The order of `n` bytes of one text from `i` on and `n` bytes of another from `j` on, or of as many as there are.
///
/// # Errors
///
/// A source's fault, where a byte is one of that source and the read of it failed.
pub fn ncmp<S: NodeSpace, T: Sources>(
    alloc: Global,
    space: &S,
    sources: &mut T,
    x: Rope,
    i: u64,
    y: Rope,
    j: u64,
    n: u64,
) -> Result<Ordering, SourceFault>
    requires first { IsRope (S.table space.now) x }
    requires second { IsRope (S.table space.now) y }
    ensures order { IfOk result
        (OrdersParts (S.table space.now) (T.reading sources.old).stated x i y j n) }
    ensures reads { ReadsTwoSpans (T.reading sources.old) (T.reading sources.new)
        (rope_cell (S.table space.now) x) i
        (rope_cell (S.table space.now) y) j n result }
{
    // No text is longer than a text may be, as its length says.
    let _lens = (rope_len(space, x), rope_len(space, y));
    let mut first = Pos::set(alloc, space, x, i);
    let mut second = Pos::set(alloc, space, y, j);
    let mut left_buffer = [0; WINDOW];
    let mut right_buffer = [0; WINDOW];
    let mut k = 0;
    while k < n {
        let most = first.run_left().min(second.run_left()).min(n - k);
        if most == 0 {
            return Ok(first.valid().cmp(&second.valid()));
        }
        let left = next_run(&first, sources, most, &mut left_buffer)?;
        let right = next_run(&second, sources, most, &mut right_buffer)?;
        let (count, order) = compare_runs(left, right);
        if order != Ordering::Equal {
            return Ok(order);
        }
        first.skip(count);
        second.skip(count);
        k += count;
    }
    Ok(Ordering::Equal)
}

/// The order of two texts: by the first byte in which they differ, and a proper prefix is less.
///
/// # Errors
///
/// A source's fault, where a byte is one of that source and the read of it failed.
pub fn cmp<S: NodeSpace, T: Sources>(
    alloc: Global,
    space: &S,
    sources: &mut T,
    x: Rope,
    y: Rope,
) -> Result<Ordering, SourceFault>
    requires first { IsRope (S.table space.now) x }
    requires second { IsRope (S.table space.now) y }
    ensures order { IfOk result (λ found.
        OfTexts (S.table space.now) (T.reading sources.old).stated x y (λ t u. found ≡ order t u)) }
    ensures parts { IfOk result (OrdersParts (S.table space.now) (T.reading sources.old).stated
        x 0 y 0 (longer (S.table space.now) x y)) }
    ensures reads { ReadsTwoSpans (T.reading sources.old) (T.reading sources.new)
        (rope_cell (S.table space.now) x) 0 (rope_cell (S.table space.now) y) 0
        (longer (S.table space.now) x y) result }
{
    let n = rope_len(space, x).max(rope_len(space, y));
    ncmp(alloc, space, sources, x, 0, y, 0, n)
}
