//! The rows of the screen.

ghost use Rattle.std.specs.Prelude.{◌≡◌, ◌≤◌, ◌+◌, ◌-◌, ◌++◌, length, map, take, drop, IfOk, IfSome, OnOk};
ghost use Rattle.rope_node.specs.Denotes.{IsRope, rope_len};
ghost use Rattle.cord_position.specs.Fetched.{rope_cell};
ghost use Rattle.cord_search.specs.Stated.{OfText};
ghost use Rattle.text_lines.specs.Screen.{glyph};
ghost use Rattle.text_lines.specs.HeldBytes.{HoldsText};
ghost use Rattle.text_lines.specs.Showing.{ReadsToShow};
ghost use Rattle.text_lines.specs.Rows.{lines_from, rows_on_screen, PushesLine};

use crate::borders::near_end;
use crate::fault::FrameFault;
use crate::held::{HeldBytes, read_part};
use cord_search::PIECE;
use lazy_file::Sources;
use rope_node::{NodeSpace, Rope, rope_len};
use std::alloc::{AllocError, Global};

/// How many lines of the text are shown.
const SCREEN_ROWS: u32 = 23;

/// How many bytes of a line are shown.
pub const SCREEN_COLUMNS: u64 = 80;

/// A byte that can be shown, or `?` in its place.
fn glyph(byte: u8) -> u8
    ensures { result ≡ glyph byte }
{
    match byte {
        0x20..=0x7E => byte,
        _ => b'?',
    }
}

/// Appends these bytes, at most a row of them, as they are shown.
fn push_glyphs(bytes: &[u8], out: &mut Vec<u8>) -> Result<(), AllocError>
    requires { length bytes.now ≤ SCREEN_COLUMNS }
    ensures { OnOk result (out.new.items ≡ out.old.items ++ map glyph bytes.now) }
{
    // An array takes them without a question of room for each.
    let mut shown = [0; SCREEN_COLUMNS as usize];
    for k in 0..bytes.len() {
        shown[k] = glyph(bytes[k]);
    }
    out.extend_from_slice(&shown[..bytes.len()])
}

/// Appends the bytes from `start` up to `end`, at most a row of them, as they are shown: from what is held, where that
/// came by blocks that are kept; elsewhere part by part. A part ends with the first byte for which `out` takes memory, so
/// memory is asked for after that byte is read.
#[tactic(auto, using(crate::proofs::Showing::failed_read))]
fn push_row<S: NodeSpace, T: Sources>(
    held: &HeldBytes,
    space: &S,
    sources: &mut T,
    rope: Rope,
    start: u64,
    end: u64,
    out: &mut Vec<u8>,
) -> Result<(), FrameFault>
    requires rope { IsRope (S.table space.now) rope }
    requires start { start ≤ end }
    requires end { end ≤ rope_len (S.table space.now) rope }
    requires row { end ≤ start + SCREEN_COLUMNS }
    requires held { HoldsText (S.table space.now) (T.reading sources.old) rope held.now }
    ensures bytes { OnOk result (OfText (S.table space.now) (T.reading sources.old).stated rope
        (λ t. out.new.items ≡ out.old.items ++ map glyph (take (end - start) (drop start t)))) }
    ensures reads { ReadsToShow (T.reading sources.old) (T.reading sources.new)
        (rope_cell (S.table space.now) rope) (rope_len (S.table space.now) rope) result }
{
    if let Some(row) = held.kept_part(start, (end - start) as usize) {
        push_glyphs(row, out)?;
        return Ok(());
    }
    let mut buffer = [0; SCREEN_COLUMNS as usize];
    let mut place = start;
    while place < end {
        let room = out.capacity().saturating_sub(out.len()).saturating_add(1);
        let to = place + (end - place).min(room as u64);
        let part = &mut buffer[..(to - place) as usize];
        read_part(space, sources, rope, place, part)?;
        push_glyphs(part, out)?;
        place = to;
    }
    Ok(())
}

/// Appends what is shown of the line that begins at `start`, from the column `left` on, or nothing behind the last line.
/// It answers where the next line begins, or that there is none.
#[tactic(auto, using(crate::proofs::Showing::failed_part))]
fn push_line<S: NodeSpace, T: Sources>(
    alloc: Global,
    held: &mut HeldBytes,
    searched: &mut [u8; PIECE],
    space: &S,
    sources: &mut T,
    rope: Rope,
    start: Option<u64>,
    left: u64,
    out: &mut Vec<u8>,
) -> Result<Option<u64>, FrameFault>
    requires rope { IsRope (S.table space.now) rope }
    requires start { IfSome start (λ s. s ≤ rope_len (S.table space.now) rope) }
    requires held { HoldsText (S.table space.now) (T.reading sources.old) rope held.old }
    ensures inside { IfOk result (λ next. IfSome next (λ s. s ≤ rope_len (S.table space.now) rope)) }
    ensures held { IfOk result (λ _. HoldsText (S.table space.now) (T.reading sources.old) rope held.new) }
    ensures line { IfOk result (λ next. OfText (S.table space.now) (T.reading sources.old).stated rope
        (λ t. PushesLine t start left next out.old.items out.new.items)) }
    ensures reads { ReadsToShow (T.reading sources.old) (T.reading sources.new)
        (rope_cell (S.table space.now) rope) (rope_len (S.table space.now) rope) result }
{
    let Some(start) = start else {
        return Ok(None);
    };
    let end = near_end(alloc, held, searched, space, sources, rope, start)?;
    let next = held.pass_line(start, end, rope_len(space, rope));
    let rest = (end - start).saturating_sub(left);
    let from = end - rest;
    let to = from + rest.min(SCREEN_COLUMNS);
    push_row(held, space, sources, rope, from, to, out)?;
    Ok(next)
}

/// Appends the rows of the screen: its first line begins at `top`, and its first column is `left`. Line ends are looked
/// for among the bytes that are held first.
pub fn push_rows<S: NodeSpace, T: Sources>(
    alloc: Global,
    held: &mut HeldBytes,
    space: &S,
    sources: &mut T,
    rope: Rope,
    top: u64,
    left: u64,
    out: &mut Vec<u8>,
) -> Result<(), FrameFault>
    requires rope { IsRope (S.table space.now) rope }
    requires top { top ≤ rope_len (S.table space.now) rope }
    requires held { HoldsText (S.table space.now) (T.reading sources.old) rope held.old }
    ensures rows { OnOk result (OfText (S.table space.now) (T.reading sources.old).stated rope
        (λ t. out.new.items ≡ out.old.items ++ rows_on_screen (lines_from t (Some top)) left)) }
    ensures held { OnOk result (HoldsText (S.table space.now) (T.reading sources.old) rope held.new) }
    ensures reads { ReadsToShow (T.reading sources.old) (T.reading sources.new)
        (rope_cell (S.table space.now) rope) (rope_len (S.table space.now) rope) result }
{
    let mut searched = [0; PIECE];
    let mut next = Some(top);
    for row in 0..SCREEN_ROWS {
        next = push_line(
            alloc,
            held,
            &mut searched,
            space,
            sources,
            rope,
            next,
            left,
            out,
        )?;
        out.extend_from_slice(b"\r\n")?;
    }
    Ok(())
}
