//! Which lines and columns the screen shows.

ghost use Rattle.std.specs.Prelude.{◌≡◌, ◌<◌, ◌≤◌, IfOk};
ghost use Rattle.rope_node.specs.Denotes.{IsRope, rope_len};
ghost use Rattle.cord_search.specs.Stated.{OfText};
ghost use Rattle.text_lines.specs.declared.window.TheConstants.{LINES_ABOVE};
ghost use Rattle.text_lines.specs.HeldBytes.{HoldsText};
ghost use Rattle.text_lines.specs.Rows.{IsAbove, IsWindow};
ghost use Rattle.text_lines.specs.Texts.{ReadsText};

use crate::borders::near_start;
use crate::held::HeldBytes;
use lazy_file::{SourceFault, Sources};
use rope_node::{NodeSpace, Rope, rope_len};
use std::alloc::Global;

/// The most lines that stand above the cursor's.
const LINES_ABOVE: u64 = 11;

/// Where the screen's first line begins, and where the cursor stands.
#[derive(Clone, Copy, Debug, PartialEq, Eq)]
pub struct Window {
    pub top: u64,
    /// How many lines are between the first and the cursor's.
    pub row: u64,
    /// How far the cursor is behind its line's start.
    pub column: u64,
}

/// Goes back from a line's start by 11 lines, or to the text's start. It answers where the line begins that it came
/// to, and how many lines it went.
#[tactic(auto, using(crate::proofs::ToldLater::failed_then))]
fn go_back<S: NodeSpace, T: Sources>(
    alloc: Global,
    held: &mut HeldBytes,
    space: &S,
    sources: &mut T,
    rope: Rope,
    start: u64,
) -> Result<(u64, u64), SourceFault>
    requires rope { IsRope (S.table space.now) rope }
    requires start { start ≤ rope_len (S.table space.now) rope }
    requires held { HoldsText (S.table space.now) (T.reading sources.old) rope held.old }
    ensures inside { IfOk result (λ x. x.0 ≤ start) }
    ensures few { IfOk result (λ x. x.1 ≤ LINES_ABOVE) }
    ensures all { IfOk result (λ x. x.1 < LINES_ABOVE → x.0 ≡ 0) }
    ensures back { IfOk result (λ x. OfText (S.table space.now) (T.reading sources.old).stated rope
        (λ t. IsAbove t start x.0 x.1)) }
    ensures held { IfOk result (λ _. HoldsText (S.table space.now) (T.reading sources.old) rope held.new) }
    ensures reads { ReadsText (S.table space.now) rope (T.reading sources.old) (T.reading sources.new) result }
{
    prove!(start <= rope_len(space, rope));
    let mut top = start;
    let mut row = 0;
    while row < LINES_ABOVE && top > 0 {
        top = near_start(alloc, held, space, sources, rope, top - 1)?;
        row += 1;
    }
    Ok((top, row))
}

/// What the screen shows about a place. It looks among the bytes that are held first.
#[tactic(auto, using(crate::proofs::ToldLater::failed_then))]
pub fn window_about<S: NodeSpace, T: Sources>(
    alloc: Global,
    held: &mut HeldBytes,
    space: &S,
    sources: &mut T,
    rope: Rope,
    place: u64,
) -> Result<Window, SourceFault>
    requires rope { IsRope (S.table space.now) rope }
    requires place { place ≤ rope_len (S.table space.now) rope }
    requires held { HoldsText (S.table space.now) (T.reading sources.old) rope held.old }
    ensures top { IfOk result (λ w. w.top ≤ rope_len (S.table space.now) rope) }
    ensures row { IfOk result (λ w. w.row ≤ LINES_ABOVE) }
    ensures column { IfOk result (λ w. w.column ≤ place) }
    ensures is { IfOk result (λ w. OfText (S.table space.now) (T.reading sources.old).stated rope
        (λ t. IsWindow t place w.top w.row w.column)) }
    ensures held { IfOk result (λ _. HoldsText (S.table space.now) (T.reading sources.old) rope held.new) }
    ensures reads { ReadsText (S.table space.now) rope (T.reading sources.old) (T.reading sources.new) result }
{
    prove!(place <= rope_len(space, rope));
    let start = near_start(alloc, held, space, sources, rope, place)?;
    let (top, row) = go_back(alloc, held, space, sources, rope, start)?;
    held.begin_line(top);
    Ok(Window {
        top,
        row,
        column: place - start,
    })
}
