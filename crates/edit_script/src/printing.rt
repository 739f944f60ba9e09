//! Commands as lines.

ghost use Rattle.std.specs.Prelude.{◌≡◌, false, ◌<◌, ◌+◌, ◌≤◌, ◌∷◌, [], ◌++◌, length, OnOk, List};
ghost use Rattle.std.specs.Fmt.{decimal, digit_glyph};
ghost use Rattle.std.specs.List.{flat_map, AllByRecursion};
ghost use Rattle.command_parts.specs.Commands.{with_splices};
ghost use Rattle.edit_script.specs.Words.{escaped, numbers_on, printed_word, spelled_on, line_of, Number, Quoted};
ghost use Rattle.command_parts.specs.declared.edit.Splice.{Splice};
ghost use Rattle.edit_script.specs.Commands.{front_of, quoted_texts, words_of, splice_words, StandsInside};

use crate::handing::span;
use command_parts::{Edit, Splice};
use itoa::Buffer;
use std::alloc::AllocError;

/// The digit of base 16 for a number below 16.
pub fn glyph(d: u8) -> u8
    requires { d < 16 }
    ensures { result ≡ digit_glyph false d }
{
    if d < 10 { b'0' + d } else { b'a' + (d - 10) }
}

/// A byte as it is printed between quotes.
fn push_byte(out: &mut Vec<u8>, b: u8) -> Result<(), AllocError>
    ensures { OnOk result (out.new.items ≡ out.old.items ++ escaped b) }
{
    match b {
        b'\n' => out.extend_from_slice(b"\\n"),
        b'\t' => out.extend_from_slice(b"\\t"),
        b'\r' => out.extend_from_slice(b"\\r"),
        b'\\' => out.extend_from_slice(b"\\\\"),
        b'"' => out.extend_from_slice(b"\\\""),
        b' '..=b'~' => Ok(out.push(b)?),
        _ => out.extend_from_slice(&[b'\\', b'x', glyph(b / 16), glyph(b % 16)]),
    }
}

/// Puts bytes as they are printed between quotes behind what is in `out`.
///
/// # Errors
///
/// Memory was refused: some of them may be there.
pub fn push_escaped(out: &mut Vec<u8>, bytes: &[u8]) -> Result<(), AllocError>
    ensures { OnOk result (out.new.items ≡ out.old.items ++ flat_map escaped bytes.now) }
{
    for b in bytes {
        push_byte(out, *b)?;
    }
    Ok(())
}

/// Puts a blank and a number behind what is in `out`.
///
/// # Errors
///
/// Memory was refused: the blank may be there.
pub fn push_number(out: &mut Vec<u8>, n: u64) -> Result<(), AllocError>
    ensures { OnOk result (out.new.items ≡ out.old.items ++ 32 ∷ decimal n) }
{
    let mut digits = Buffer::new();
    out.push(b' ')?;
    out.extend_from_slice(digits.format(n).as_bytes())
}

/// A blank, and bytes in quotes.
fn push_quoted(out: &mut Vec<u8>, bytes: &[u8]) -> Result<(), AllocError>
    ensures { OnOk result (out.new.items ≡ out.old.items ++ 32 ∷ printed_word (Quoted bytes.now)) }
{
    out.extend_from_slice(b" \"")?;
    push_escaped(out, bytes)?;
    Ok(out.push(b'"')?)
}

/// A name, and the numbers behind it.
#[tactic(auto, using(crate::proofs::PrintedWords::numbers_more))]
fn push_words(out: &mut Vec<u8>, name: &[u8], numbers: &[u64]) -> Result<(), AllocError>
    ensures { OnOk result (out.new.items ≡ out.old.items ++ (name.now ++ numbers_on numbers.now)) }
{
    out.extend_from_slice(name)?;
    for n in numbers {
        push_number(out, *n)?;
    }
    Ok(())
}

/// Puts a command's name and numbers behind what is in `out`, without the bytes and the splices that it names.
///
/// # Errors
///
/// Memory was refused: a part of them may be there.
pub fn push_front(out: &mut Vec<u8>, edit: &Edit) -> Result<(), AllocError>
    ensures { (splices : List Splice)
        → OnOk result (out.new.items ≡ out.old.items ++ line_of (front_of (with_splices splices edit.now))) }
{
    match *edit {
        Edit::New => push_words(out, b"new", &[]),
        Edit::Open { s } => push_words(out, b"open", &[u64::from(s)]),
        Edit::Insert { r, p, .. } => push_words(out, b"insert", &[u64::from(r), p]),
        Edit::Delete { r, p, n } => push_words(out, b"delete", &[u64::from(r), p, n]),
        Edit::Replace { r, p, m, .. } => push_words(out, b"replace", &[u64::from(r), p, m]),
        Edit::Paste { r, p, q, i, n } => {
            push_words(out, b"paste", &[u64::from(r), p, u64::from(q), i, n])
        }
        Edit::Join { r, q } => push_words(out, b"join", &[u64::from(r), u64::from(q)]),
        Edit::Cut { r, i, n } => push_words(out, b"cut", &[u64::from(r), i, n]),
        Edit::Fill { r, p, c, n } => push_words(out, b"fill", &[u64::from(r), p, c, n]),
        Edit::Back { r } => push_words(out, b"back", &[u64::from(r)]),
        Edit::Balance { r } => push_words(out, b"balance", &[u64::from(r)]),
        Edit::Many { r, .. } => push_words(out, b"many", &[u64::from(r)]),
    }
}

/// The words of a splice, a blank before each.
fn push_splice(out: &mut Vec<u8>, pool: &[u8], splice: Splice) -> Result<(), AllocError>
    requires { splice.a + splice.n ≤ length pool.now }
    ensures { OnOk result (out.new.items ≡ out.old.items ++ spelled_on (splice_words pool.now (splice ∷ []))) }
{
    push_number(out, splice.p)?;
    push_number(out, splice.m)?;
    push_quoted(out, span(pool, splice.a, splice.n))
}

/// The words of several splices, one behind the other.
fn push_splices(out: &mut Vec<u8>, pool: &[u8], splices: &[Splice]) -> Result<(), AllocError>
    requires { AllByRecursion (λ (s : Splice). s.a + s.n ≤ length pool.now) splices.now }
    ensures { OnOk result (out.new.items ≡ out.old.items ++ spelled_on (splice_words pool.now splices.now)) }
{
    for splice in splices {
        push_splice(out, pool, *splice)?;
    }
    Ok(())
}

/// The bytes or the splices that a command names, a blank before each word.
fn push_texts(
    out: &mut Vec<u8>,
    pool: &[u8],
    splices: &[Splice],
    edit: &Edit,
) -> Result<(), AllocError>
    requires { StandsInside (length pool.now) (with_splices splices.now edit.now) }
    ensures { OnOk result (out.new.items ≡ out.old.items
        ++ spelled_on (quoted_texts pool.now (with_splices splices.now edit.now))) }
{
    match *edit {
        Edit::Insert { a, n, .. } => push_quoted(out, span(pool, a, n)),
        Edit::Replace { a, n, .. } => push_quoted(out, span(pool, a, n)),
        Edit::Many { .. } => push_splices(out, pool, splices),
        Edit::New
        | Edit::Open { .. }
        | Edit::Delete { .. }
        | Edit::Paste { .. }
        | Edit::Join { .. }
        | Edit::Cut { .. }
        | Edit::Fill { .. }
        | Edit::Back { .. }
        | Edit::Balance { .. } => Ok(()),
    }
}

/// Puts a command's line behind what is in `out`, without the line's end.
/// The bytes that it names are those of the pool, its splices these.
///
/// # Errors
///
/// Memory was refused: a part of the line may be there.
pub fn push_line(
    out: &mut Vec<u8>,
    pool: &[u8],
    splices: &[Splice],
    edit: &Edit,
) -> Result<(), AllocError>
    requires { StandsInside (length pool.now) (with_splices splices.now edit.now) }
    ensures { OnOk result
        (out.new.items ≡ out.old.items ++ line_of (words_of pool.now (with_splices splices.now edit.now))) }
{
    push_front(out, edit)?;
    push_texts(out, pool, splices, edit)
}
