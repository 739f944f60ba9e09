//! Where a place's line begins and where a line ends, looked for first among bytes that are held for the lines near it.

ghost use Rattle.std.specs.Prelude.{◌≡◌, ◌↔◌, ◌≤◌, ◌+◌, ◌-◌, ℕ, List, length, IfOk, IfSome, IsSome};
ghost use Rattle.rope_node.specs.Denotes.{IsRope, rope_len};
ghost use Rattle.cord_search.specs.declared.runs.TheConstants.{PIECE};
ghost use Rattle.text_lines.specs.HeldBytes.{held_starting_at, held_up_to, AreHeld, HoldsText, TellsStart};
ghost use Rattle.text_lines.specs.Lines.{HasBreak, line_end, line_start};
ghost use Rattle.text_lines.specs.Texts.{IsTextPlace, ReadsText};

use crate::held::HeldBytes;
use crate::known_lines::KnownLines;
use crate::lines::{LINE_BREAK, line_end_with, line_start};
use cord_search::{PIECE, clear_behind};
use lazy_file::{SourceFault, Sources};
use memchr::{memchr, memrchr};
use rope_node::{NodeSpace, Rope, rope_len};
use std::alloc::Global;

/// One behind the last line break below a place, or the text's start, where the bytes that are held before the place
/// tell it: a break is among them, or the text has no more there.
fn start_among(held: &HeldBytes, place: u64) -> Option<u64>
    ensures inside { IfSome result (λ p. p ≤ place) }
    ensures is { IfSome result (λ p. (t : List ℕ) → AreHeld held.now t → p ≡ line_start t place) }
    ensures told { IsSome result ↔ TellsStart (held_up_to held.now place) place }
{
    let near = held.up_to(place);
    match memrchr(LINE_BREAK, near) {
        Some(at) => Some(place.saturating_sub((near.len() - (at + 1)) as u64)),
        None if near.len() as u64 == place => Some(0),
        None => None,
    }
}

/// One behind the last line break below a place, or the text's start: from a line that is known, or by a search. It looks
/// among the bytes that are held where one read would bring the window before the place. It holds that window, and where
/// no break is in it searches on, but passes over what in the window's leaf cannot be a break.
#[tactic(auto, using(crate::proofs::ToldLater::held_then))]
pub fn near_start<S: NodeSpace, T: Sources>(
    alloc: Global,
    held: &mut HeldBytes,
    space: &S,
    sources: &mut T,
    rope: Rope,
    place: u64,
) -> Result<u64, SourceFault>
    requires rope { IsRope (S.table space.now) rope }
    requires place { place ≤ rope_len (S.table space.now) rope }
    requires held { HoldsText (S.table space.now) (T.reading sources.old) rope held.old }
    ensures inside { IfOk result (λ p. p ≤ place) }
    ensures is { IsTextPlace (S.table space.now) rope (T.reading sources.old) (λ t. line_start t place) result }
    ensures held { IfOk result (λ _. HoldsText (S.table space.now) (T.reading sources.old) rope held.new) }
    ensures reads { ReadsText (S.table space.now) rope (T.reading sources.old) (T.reading sources.new) result }
{
    prove!(place <= rope_len(space, rope));
    if let Some(line) = held.known().about(place, 0) {
        return Ok(line.start);
    }
    let straight = held.is_straight(alloc, space, rope, place);
    if straight {
        if let Some(start) = start_among(held, place) {
            return Ok(start);
        }
    }
    held.hold_before(space, sources, rope, place, straight)?;
    if let Some(start) = start_among(held, place) {
        return Ok(start);
    }
    let from = place.saturating_sub(PIECE as u64);
    let back = clear_behind(alloc, space, rope, from, place - from);
    let start = line_start(alloc, space, sources, rope, &KnownLines::none(), back)?;
    Ok(start)
}

/// The first line break at a place of a text of `len` bytes or behind it, where it is among the bytes that are held.
fn end_among(held: &HeldBytes, start: u64, len: u64) -> Option<u64>
    requires { start ≤ len }
    ensures from { IfSome result (λ p. start ≤ p) }
    ensures inside { IfSome result (λ p. p ≤ len) }
    ensures is { IfSome result (λ p. (t : List ℕ) → AreHeld held.now t → len ≡ length t → p ≡ line_end t start) }
    ensures told { IsSome result ↔ HasBreak (held_starting_at held.now start) }
{
    let near = held.starting_at(start);
    let width = memchr(LINE_BREAK, near)?;
    Some(len.min(start.saturating_add(width as u64)))
}

/// The first line break at a place or behind it, or the text's end: from a line that is known, or by a search. It looks
/// among the bytes that are held first, and takes what they tell where a search through the text would read nothing else.
/// Where the `PIECE` bytes from there on lie in one leaf, it reads them and holds them; where none of them is a break, it
/// searches on behind them. The buffer is room for a search; what it holds then is not said.
pub fn near_end<S: NodeSpace, T: Sources>(
    alloc: Global,
    held: &mut HeldBytes,
    searched: &mut [u8; PIECE],
    space: &S,
    sources: &mut T,
    rope: Rope,
    start: u64,
) -> Result<u64, SourceFault>
    requires rope { IsRope (S.table space.now) rope }
    requires start { start ≤ rope_len (S.table space.now) rope }
    requires held { HoldsText (S.table space.now) (T.reading sources.old) rope held.old }
    ensures from { IfOk result (λ p. start ≤ p) }
    ensures inside { IfOk result (λ p. p ≤ rope_len (S.table space.now) rope) }
    ensures is { IsTextPlace (S.table space.now) rope (T.reading sources.old) (λ t. line_end t start) result }
    ensures held { IfOk result (λ _. HoldsText (S.table space.now) (T.reading sources.old) rope held.new) }
    ensures reads { ReadsText (S.table space.now) rope (T.reading sources.old) (T.reading sources.new) result }
{
    let len = rope_len(space, rope);
    if let Some(line) = held.known().about(start, 0) {
        return Ok(len.min(line.end));
    }
    if let Some(end) = end_among(held, start, len) {
        if held.tells(alloc, space, rope, start, end) {
            return Ok(end);
        }
    }
    if held.leaf_left(alloc, space, rope, start) < PIECE as u64 {
        return line_end_with(alloc, space, sources, rope, start, searched);
    }
    let behind = start + PIECE as u64;
    held.hold_before(space, sources, rope, behind, true)?;
    if let Some(end) = end_among(held, start, len) {
        return Ok(end);
    }
    let end = line_end_with(alloc, space, sources, rope, behind, searched)?;
    Ok(end)
}
