//! The bytes that show a place of a text on the screen.

ghost use Rattle.std.specs.Prelude.{◌≡◌, ◌≤◌, IfOk, OnErr, string_bytes};
ghost use Rattle.std.specs.Option.{option_map};
ghost use Rattle.rope_node.specs.Denotes.{IsRope, rope_len};
ghost use Rattle.cord_position.specs.Fetched.{rope_cell};
ghost use Rattle.cord_search.specs.Stated.{OfText};
ghost use Rattle.text_lines.specs.Screen.{screen_of, status_of};
ghost use Rattle.text_lines.specs.KnownLines.{IsKnownIn};
ghost use Rattle.text_lines.specs.Showing.{ReadsToShow};
ghost use Rattle.text_lines.specs.Rows.{cursor_at};

use crate::fault::FrameFault;
use crate::held::HeldBytes;
use crate::known_lines::KnownLines;
use crate::rows::{SCREEN_COLUMNS, push_rows};
use crate::window::window_about;
use lazy_file::Sources;
use rope_node::{NodeSpace, Rope, rope_len};
use std::alloc::{AllocError, Global};

/// Clears the screen, and goes to its first row and column.
const CLEAR: &[u8] = b"\x1B[2J\x1B[H";

/// The status line.
fn status(
    alloc: Global,
    revision: u32,
    place: u64,
    len: u64,
    message: Option<&str>,
) -> Result<String, AllocError>
    ensures { IfOk result (λ s. string_bytes s
        ≡ status_of revision place len (option_map (λ m. m.now) message.entry)) }
{
    match message {
        None => format!(in alloc; "rev {revision} byte {place} of {len}"),
        Some(code) => format!(in alloc; "rev {revision} byte {place} of {len} {code}"),
    }
}

/// Sends the cursor to a row and a column, both counted from 1.
fn cursor(alloc: Global, row: u64, column: u64) -> Result<String, AllocError>
    ensures { IfOk result (λ s. string_bytes s ≡ cursor_at row column) }
{
    format!(in alloc; "\x1B[{row};{column}H")
}

/// What the screen shows of a rope's text about a place of it: 23 rows of 80 columns with the lines about that of the
/// place, then the revision, the place, the text's length and the message, and the cursor at the place. It looks for
/// line breaks from the twelfth above the place to the one behind the last row, but for those of lines that are known.
/// Long lines that it shows are known from then on.
///
/// # Errors
///
/// `Source`, where a byte or a line break could not be read. `Memory`, where memory was refused.
#[tactic(auto, using(crate::proofs::Showing::failed_part))]
pub fn frame_about<S: NodeSpace, T: Sources>(
    alloc: Global,
    space: &S,
    sources: &mut T,
    rope: Rope,
    place: u64,
    revision: u32,
    message: Option<&str>,
    known: &mut KnownLines,
) -> Result<Vec<u8>, FrameFault>
    requires rope { IsRope (S.table space.now) rope }
    requires place { place ≤ rope_len (S.table space.now) rope }
    requires known { OfText (S.table space.now) (T.reading sources.old).stated rope (IsKnownIn known.old) }
    ensures known { OfText (S.table space.now) (T.reading sources.old).stated rope (IsKnownIn known.new) }
    ensures unlearnt { OnErr result (known.new ≡ known.old) }
    ensures bytes { IfOk result (λ v. OfText (S.table space.now) (T.reading sources.old).stated rope
        (λ t. v.items ≡ screen_of t place revision (option_map (λ m. m.now) message.entry))) }
    ensures reads { ReadsToShow (T.reading sources.old) (T.reading sources.new)
        (rope_cell (S.table space.now) rope) (rope_len (S.table space.now) rope) result }
{
    let mut held = HeldBytes::new(*known);
    let window = window_about(alloc, &mut held, space, sources, rope, place)?;
    let left = SCREEN_COLUMNS * (window.column / SCREEN_COLUMNS);
    let mut out = Vec::from_slice(alloc, CLEAR)?;
    push_rows(
        alloc, &mut held, space, sources, rope, window.top, left, &mut out,
    )?;
    let line = status(alloc, revision, place, rope_len(space, rope), message)?;
    out.extend_from_slice(line.as_bytes())?;
    let end = cursor(alloc, window.row + 1, window.column - left + 1)?;
    out.extend_from_slice(end.as_bytes())?;
    *known = *held.known();
    Ok(out)
}
