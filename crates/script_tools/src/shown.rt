//! The texts of commands as a log shows them, written piece by piece.

ghost use Rattle.std.specs.Prelude.{◌≡◌, ◌∷◌, ◌++◌, [], OnOk};
ghost use Rattle.std.specs.List.{flat_map};
ghost use Rattle.edit_script.specs.Words.{Quoted, escaped, numbers_on};
ghost use Rattle.script_tools.specs.Logged.{WritesText, dots, shown, shown_on};

use crate::fault::PieceFault;
use byte_output::write_bytes;
use edit_script::{push_escaped, push_number};
use std::alloc::AllocError;
use std::io;

/// How much of the texts of its commands a log shows.
#[derive(Clone, Copy, Debug, PartialEq, Eq)]
pub enum LogTexts {
    /// All of each: the log is a script.
    Whole,
    /// At most the first 60 bytes of each, and three dots where there are more, which no script takes.
    Brief,
}

/// The most bytes of a text that are shown in brief.
pub const BRIEF_LEN: usize = 60;

/// Texts are printed by so many bytes.
const PIECE: usize = 4096;

/// What is shown of a text.
fn shown(texts: LogTexts, text: &[u8]) -> &[u8]
    ensures { result.now ≡ shown texts text.now }
{
    match texts {
        LogTexts::Whole => text,
        LogTexts::Brief => &text[..text.len().min(BRIEF_LEN)],
    }
}

/// The quote behind what is shown of a text, and three dots where that is not all of it.
fn quote_behind(texts: LogTexts, text: &[u8]) -> &'static [u8]
    ensures { result.now ≡ 34 ∷ dots texts text.now }
{
    match texts {
        LogTexts::Whole => b"\"",
        LogTexts::Brief => {
            if text.len() > BRIEF_LEN {
                b"\"..."
            } else {
                b"\""
            }
        }
    }
}

/// Writes bytes.
pub(crate) fn write_piece<W: io::Write>(bytes: &[u8], writer: &mut W) -> Result<(), PieceFault>
    ensures { WritesText (W.contents writer.old) (W.contents writer.new) bytes.now result }
{
    Ok(write_bytes(writer, bytes)?)
}

/// Bytes as they are printed between quotes, in place of what the piece held.
fn put_escaped(piece: &mut Vec<u8>, bytes: &[u8]) -> Result<(), AllocError>
    ensures { OnOk result (piece.new.items ≡ flat_map escaped bytes.now) }
{
    piece.clear();
    push_escaped(piece, bytes)
}

/// Two numbers, a blank before each, in place of what the piece held.
pub(crate) fn put_numbers(piece: &mut Vec<u8>, p: u64, m: u64) -> Result<(), AllocError>
    ensures { OnOk result (piece.new.items ≡ numbers_on (p ∷ m ∷ [])) }
{
    piece.clear();
    push_number(piece, p)?;
    push_number(piece, m)
}

/// Writes bytes as they are printed between quotes, piece by piece.
fn write_escaped<W: io::Write>(
    piece: &mut Vec<u8>,
    bytes: &[u8],
    writer: &mut W,
) -> Result<(), PieceFault>
    ensures { WritesText (W.contents writer.old) (W.contents writer.new) (flat_map escaped bytes.now) result }
{
    let mut done = 0;
    while done < bytes.len() {
        let more = (bytes.len() - done).min(PIECE);
        put_escaped(piece, &bytes[done..done + more])?;
        write_piece(piece, writer)?;
        done += more;
    }
    Ok(())
}

/// Writes a blank, and a text in quotes as a log shows it.
pub(crate) fn write_text<W: io::Write>(
    texts: LogTexts,
    piece: &mut Vec<u8>,
    text: &[u8],
    writer: &mut W,
) -> Result<(), PieceFault>
    ensures { WritesText (W.contents writer.old) (W.contents writer.new)
        (shown_on texts (Quoted text.now ∷ [])) result }
{
    write_piece(b" \"", writer)?;
    write_escaped(piece, shown(texts, text), writer)?;
    write_piece(quote_behind(texts, text), writer)
}
