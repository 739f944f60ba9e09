//! Where the lines of a rope's text begin and end, and where up and down lead.

ghost use Rattle.std.specs.Prelude.{◌≤◌, IfOk};
ghost use Rattle.rope_node.specs.Denotes.{IsRope, rope_len};
ghost use Rattle.cord_search.specs.Stated.{OfText};
ghost use Rattle.text_lines.specs.KnownLines.{IsKnownIn};
ghost use Rattle.text_lines.specs.Lines.{line_start, line_end, place_up, place_down};
ghost use Rattle.text_lines.specs.Texts.{IsTextPlace, ReadsText};

use crate::known_lines::KnownLines;
use cord_search::{PIECE, chr_with, rchr};
use lazy_file::{SourceFault, Sources};
use rope_node::{NodeSpace, Rope, rope_len};
use std::alloc::Global;

/// The byte that ends a line.
pub const LINE_BREAK: u8 = 0x0A;

/// One behind the last line break below a place, or the text's start; a line that is known tells it without a search.
///
/// # Errors
///
/// A source's fault, where a byte is one of that source and the read of it failed.
#[tactic(auto, using(crate::proofs::ToldLater::failed_then))]
pub fn line_start<S: NodeSpace, T: Sources>(
    alloc: Global,
    space: &S,
    sources: &mut T,
    rope: Rope,
    known: &KnownLines,
    place: u64,
) -> Result<u64, SourceFault>
    requires rope { IsRope (S.table space.now) rope }
    requires place { place ≤ rope_len (S.table space.now) rope }
    requires known { OfText (S.table space.now) (T.reading sources.old).stated rope (IsKnownIn known.now) }
    ensures inside { IfOk result (λ p. p ≤ place) }
    ensures is { IsTextPlace (S.table space.now) rope (T.reading sources.old) (λ t. line_start t place) result }
    ensures reads { ReadsText (S.table space.now) rope (T.reading sources.old) (T.reading sources.new) result }
{
    prove!(place <= rope_len(space, rope));
    if place == 0 {
        return Ok(0);
    }
    if let Some(line) = known.about(place, 0) {
        return Ok(line.start);
    }
    match rchr(alloc, space, sources, rope, place - 1, LINE_BREAK)? {
        Some(found) => Ok(found + 1),
        None => Ok(0),
    }
}

/// The first line break at a place or behind it, or the text's end; a line that is known tells it without a search.
///
/// # Errors
///
/// A source's fault, where a byte is one of that source and the read of it failed.
pub fn line_end<S: NodeSpace, T: Sources>(
    alloc: Global,
    space: &S,
    sources: &mut T,
    rope: Rope,
    known: &KnownLines,
    place: u64,
) -> Result<u64, SourceFault>
    requires rope { IsRope (S.table space.now) rope }
    requires place { place ≤ rope_len (S.table space.now) rope }
    requires known { OfText (S.table space.now) (T.reading sources.old).stated rope (IsKnownIn known.now) }
    ensures from { IfOk result (λ p. place ≤ p) }
    ensures inside { IfOk result (λ p. p ≤ rope_len (S.table space.now) rope) }
    ensures is { IsTextPlace (S.table space.now) rope (T.reading sources.old) (λ t. line_end t place) result }
    ensures reads { ReadsText (S.table space.now) rope (T.reading sources.old) (T.reading sources.new) result }
{
    let len = rope_len(space, rope);
    match known.about(place, 0) {
        Some(line) => Ok(len.min(line.end)),
        None => line_end_with(alloc, space, sources, rope, place, &mut [0; PIECE]),
    }
}

/// The first line break at a place or behind it, or the text's end, by a search, with a buffer that is handed in.
#[tactic(auto, using(crate::proofs::ToldLater::failed_then))]
pub fn line_end_with<S: NodeSpace, T: Sources>(
    alloc: Global,
    space: &S,
    sources: &mut T,
    rope: Rope,
    place: u64,
    buffer: &mut [u8; PIECE],
) -> Result<u64, SourceFault>
    requires rope { IsRope (S.table space.now) rope }
    requires place { place ≤ rope_len (S.table space.now) rope }
    ensures from { IfOk result (λ p. place ≤ p) }
    ensures inside { IfOk result (λ p. p ≤ rope_len (S.table space.now) rope) }
    ensures is { IsTextPlace (S.table space.now) rope (T.reading sources.old) (λ t. line_end t place) result }
    ensures reads { ReadsText (S.table space.now) rope (T.reading sources.old) (T.reading sources.new) result }
{
    let found = chr_with(alloc, space, sources, rope, place, LINE_BREAK, buffer)?;
    Ok(found.unwrap_or(rope_len(space, rope)))
}

/// Where up leads: the same column of the line before, or that line's end where it is shorter.
///
/// # Errors
///
/// A source's fault, where a byte is one of that source and the read of it failed.
#[tactic(auto, using(crate::proofs::ToldLater::failed_then))]
pub fn place_up<S: NodeSpace, T: Sources>(
    alloc: Global,
    space: &S,
    sources: &mut T,
    rope: Rope,
    known: &KnownLines,
    place: u64,
) -> Result<u64, SourceFault>
    requires rope { IsRope (S.table space.now) rope }
    requires place { place ≤ rope_len (S.table space.now) rope }
    requires known { OfText (S.table space.now) (T.reading sources.old).stated rope (IsKnownIn known.now) }
    ensures inside { IfOk result (λ p. p ≤ rope_len (S.table space.now) rope) }
    ensures is { IsTextPlace (S.table space.now) rope (T.reading sources.old) (λ t. place_up t place) result }
    ensures reads { ReadsText (S.table space.now) rope (T.reading sources.old) (T.reading sources.new) result }
{
    let start = line_start(alloc, space, sources, rope, known, place)?;
    if start == 0 {
        return Ok(place);
    }
    let above = line_start(alloc, space, sources, rope, known, start - 1)?;
    Ok((above + (place - start)).min(start - 1))
}

/// Where down leads: the same column of the line behind, or that line's end where it is shorter.
///
/// # Errors
///
/// A source's fault, where a byte is one of that source and the read of it failed.
#[tactic(auto, using(crate::proofs::ToldLater::failed_then))]
pub fn place_down<S: NodeSpace, T: Sources>(
    alloc: Global,
    space: &S,
    sources: &mut T,
    rope: Rope,
    known: &KnownLines,
    place: u64,
) -> Result<u64, SourceFault>
    requires rope { IsRope (S.table space.now) rope }
    requires place { place ≤ rope_len (S.table space.now) rope }
    requires known { OfText (S.table space.now) (T.reading sources.old).stated rope (IsKnownIn known.now) }
    ensures inside { IfOk result (λ p. p ≤ rope_len (S.table space.now) rope) }
    ensures is { IsTextPlace (S.table space.now) rope (T.reading sources.old) (λ t. place_down t place) result }
    ensures reads { ReadsText (S.table space.now) rope (T.reading sources.old) (T.reading sources.new) result }
{
    let end = line_end(alloc, space, sources, rope, known, place)?;
    if end == rope_len(space, rope) {
        return Ok(place);
    }
    let start = line_start(alloc, space, sources, rope, known, place)?;
    let below = line_end(alloc, space, sources, rope, known, end + 1)?;
    Ok((end + 1 + (place - start)).min(below))
}
