//! Bytes in quotes.

ghost use Rattle.std.specs.Prelude.{◌≡◌, ◌+◌, ◌<◌, ◌≤◌, length, take, drop, IfOk};
ghost use Rattle.edit_script.specs.Words.{is_plain, escape_of};
ghost use Rattle.edit_script.specs.Reading.{IsReadAs, hex_digit, hex_at, escape_at, byte_at, unquoted, quoted_at};

use crate::blanks::{behind_blanks, is_behind_word};
use crate::fault::LineFault;

/// Whether a byte stands for itself between quotes.
fn is_plain(b: u8) -> bool
    ensures { result ≡ is_plain b }
{
    b == b'\t' || (b >= b' ' && !(b == b'"' || b == b'\\' || b == 0x7f))
}

/// The byte that a letter or sign behind a backslash stands for.
fn escape_of(e: u8) -> Option<u8>
    ensures { result ≡ escape_of e }
{
    match e {
        b'n' => Some(b'\n'),
        b't' => Some(b'\t'),
        b'r' => Some(b'\r'),
        b'\\' => Some(b'\\'),
        b'"' => Some(b'"'),
        _ => None,
    }
}

/// The value of a digit of base 16.
fn hex_digit(b: u8) -> Result<u8, LineFault>
    ensures value { IsReadAs (λ d. d) result (hex_digit b) }
    ensures small { IfOk result (λ d. d < 16) }
{
    match char::from(b).to_digit(16) {
        Some(d) => Ok(d as u8),
        None => Err(LineFault::NoCommand),
    }
}

/// The byte whose two digits of base 16 stand at the front, and what follows.
fn hex_at(text: &[u8]) -> Result<(u8, &[u8]), LineFault>
    ensures { IsReadAs (λ x. (x.0, x.1.now)) result (hex_at text.now) }
{
    match text {
        [high, low, rest @ ..] => {
            let high = hex_digit(*high)?;
            let low = hex_digit(*low)?;
            Ok((high * 16 + low, rest))
        }
        _ => Err(LineFault::NoCommand),
    }
}

/// The byte that an escape stands for, behind its backslash, and what follows.
fn escape_at(text: &[u8]) -> Result<(u8, &[u8]), LineFault>
    ensures { IsReadAs (λ x. (x.0, x.1.now)) result (escape_at text.now) }
{
    match text {
        [] => Err(LineFault::NoCommand),
        [b'x', rest @ ..] => hex_at(rest),
        [e, rest @ ..] => match escape_of(*e) {
            Some(b) => Ok((b, rest)),
            None => Err(LineFault::NoCommand),
        },
    }
}

/// The byte that is written at the front, and what follows.
fn byte_at(text: &[u8]) -> Result<(u8, &[u8]), LineFault>
    ensures { IsReadAs (λ x. (x.0, x.1.now)) result (byte_at text.now) }
{
    match text {
        [] => Err(LineFault::NoCommand),
        [b'\\', rest @ ..] => escape_at(rest),
        [b, rest @ ..] => {
            if is_plain(*b) {
                Ok((*b, rest))
            } else {
                Err(LineFault::NoCommand)
            }
        }
    }
}

/// Puts the bytes that are written up to a quote behind those in `room`, and answers what follows the quote.
fn unquote<'a>(text: &'a [u8], room: &mut Vec<u8>) -> Result<&'a [u8], LineFault>
    ensures bytes { IsReadAs (λ rest. (drop (length room.old.items) room.new.items, rest.now)) result
        (unquoted (length text.now) text.now) }
    ensures kept { take (length room.old.items) room.new.items ≡ room.old.items }
{
    let mut rest = text;
    while let [c, behind @ ..] = rest {
        if *c == b'"' {
            return Ok(behind);
        }
        let (b, after) = byte_at(rest)?;
        room.push(b)?;
        rest = after;
    }
    Err(LineFault::NoCommand)
}

/// Puts the bytes that are written in quotes at a line's front behind those in `room`, and leaves what is behind them.
/// Answers how many they are.
///
/// # Errors
///
/// `NoCommand`, where the line begins with no bytes in quotes, and `Memory`: some of the bytes may be in the room.
pub fn quoted_bytes(line: &mut &[u8], room: &mut Vec<u8>) -> Result<u64, LineFault>
    ensures bytes { IsReadAs (λ n. (take n (drop (length room.old.items) room.new.items), line.new.now)) result
        (quoted_at line.old.now) }
    ensures len { IfOk result (λ n. length room.old.items + n ≡ length room.new.items) }
    ensures kept { take (length room.old.items) room.new.items ≡ room.old.items }
{
    let place = room.len();
    match behind_blanks(line) {
        [b'"', text @ ..] => {
            *line = unquote(text, room)?;
            if !is_behind_word(line) {
                return Err(LineFault::NoCommand);
            }
            Ok((room.len() - place) as u64)
        }
        _ => Err(LineFault::NoCommand),
    }
}
