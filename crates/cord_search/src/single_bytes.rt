//! The first and the last place of a byte.

ghost use Rattle.std.specs.Prelude.{◌+◌, ◌∷◌, [], IfOk};
ghost use Rattle.rope_node.specs.Denotes.{IsRope, rope_len};
ghost use Rattle.cord_position.specs.Fetched.{ReadsSpan, rope_cell};
ghost use Rattle.cord_search.specs.Places.{IsFromOn, IsUpTo};
ghost use Rattle.cord_search.specs.Stated.{FindsFirst, FindsLast};

use crate::runs::{PIECE, next_run, part_of};
use crate::skips::{clear_ahead, clear_behind};
use cord_position::Pos;
use lazy_file::{SourceFault, Sources};
use memchr::{memchr, memrchr};
use rope_node::{NodeSpace, Rope, rope_len};
use std::alloc::Global;

/// The first place of the byte `c` from `i` on.
///
/// # Errors
///
/// A source's fault, where a byte is one of that source and the read of it failed.
pub fn chr<S: NodeSpace, T: Sources>(
    alloc: Global,
    space: &S,
    sources: &mut T,
    x: Rope,
    i: u64,
    c: u8,
) -> Result<Option<u64>, SourceFault>
    requires { IsRope (S.table space.now) x }
    ensures inside { IfOk result (IsFromOn (c ∷ []) i (rope_len (S.table space.now) x)) }
    ensures found { IfOk result
        (FindsFirst (S.table space.now) (T.reading sources.old).stated x (c ∷ []) i) }
    ensures reads { ReadsSpan (T.reading sources.old) (T.reading sources.new)
        (rope_cell (S.table space.now) x) i (rope_len (S.table space.now) x) result }
{
    chr_with(alloc, space, sources, x, i, c, &mut [0; PIECE])
}

/// Finds what `chr` finds, by the same reads, with a buffer that is handed in. What that holds then is not said.
///
/// # Errors
///
/// A source's fault, where a byte is one of that source and the read of it failed.
pub fn chr_with<S: NodeSpace, T: Sources>(
    alloc: Global,
    space: &S,
    sources: &mut T,
    x: Rope,
    i: u64,
    c: u8,
    buffer: &mut [u8; PIECE],
) -> Result<Option<u64>, SourceFault>
    requires { IsRope (S.table space.now) x }
    ensures inside { IfOk result (IsFromOn (c ∷ []) i (rope_len (S.table space.now) x)) }
    ensures found { IfOk result
        (FindsFirst (S.table space.now) (T.reading sources.old).stated x (c ∷ []) i) }
    ensures reads { ReadsSpan (T.reading sources.old) (T.reading sources.new)
        (rope_cell (S.table space.now) x) i (rope_len (S.table space.now) x) result }
{
    let len = rope_len(space, x);
    let mut pos = Pos::set(alloc, space, x, i);
    let mut place = i;
    while place < len {
        let run = next_run(&pos, sources, len - place, buffer)?;
        if let Some(k) = memchr(c, run) {
            return Ok(Some(place + k as u64));
        }
        let clear = clear_ahead(&pos, 1, run.len() as u64);
        pos.skip(clear);
        place += clear;
    }
    Ok(None)
}

/// The last place of the byte `c` at `i` or earlier. Where `i` is past the end, it is the last of all.
///
/// # Errors
///
/// A source's fault, where a byte is one of that source and the read of it failed.
pub fn rchr<S: NodeSpace, T: Sources>(
    alloc: Global,
    space: &S,
    sources: &mut T,
    x: Rope,
    i: u64,
    c: u8,
) -> Result<Option<u64>, SourceFault>
    requires { IsRope (S.table space.now) x }
    ensures inside { IfOk result (IsUpTo (c ∷ []) i (rope_len (S.table space.now) x)) }
    ensures found { IfOk result
        (FindsLast (S.table space.now) (T.reading sources.old).stated x (c ∷ []) i) }
    ensures reads { ReadsSpan (T.reading sources.old) (T.reading sources.new)
        (rope_cell (S.table space.now) x) 0 (i + 1) result }
{
    let mut end = rope_len(space, x).min(i.saturating_add(1));
    let mut buffer = [0; PIECE];
    while end > 0 {
        let from = end.saturating_sub(PIECE as u64);
        let window = part_of(space, sources, x, from, (end - from) as usize, &mut buffer)?;
        if let Some(k) = memrchr(c, window) {
            return Ok(Some(from + k as u64));
        }
        end = clear_behind(alloc, space, x, from, end - from);
    }
    Ok(None)
}
