//! What a journal of lines begins with.

ghost use Rattle.std.specs.Prelude.{◌≡◌, ◌++◌, ℕ, List, IfOk, OnOk};
ghost use Rattle.std.specs.List.{flat_map};
ghost use Rattle.session_server.specs.Fronts.{SaysBehindFront, hex_pair, lines_front};

use edit_script::glyph;
use std::alloc::{AllocError, Global};

/// Puts a byte by two digits of base 16 behind what is in `out`.
fn push_pair(out: &mut Vec<u8>, b: u8) -> Result<(), AllocError>
    ensures { OnOk result (out.new.items ≡ out.old.items ++ hex_pair b) }
{
    out.extend_from_slice(&[glyph(b / 16), glyph(b % 16)])
}

/// Puts each byte by two digits of base 16 behind what is in `out`.
fn push_digits(out: &mut Vec<u8>, bytes: &[u8]) -> Result<(), AllocError>
    ensures { OnOk result (out.new.items ≡ out.old.items ++ flat_map hex_pair bytes.now) }
{
    for b in bytes {
        push_pair(out, *b)?;
    }
    Ok(())
}

/// What a journal of lines begins with: a comment, which holds a header by its digits of base 16.
pub fn lines_front(alloc: Global, header: &[u8]) -> Result<Vec<u8>, AllocError>
    ensures { IfOk result (λ front. front.items ≡ lines_front header.now) }
{
    let mut front = Vec::new(alloc);
    front.extend_from_slice(b"# cordkit lines ")?;
    push_digits(&mut front, header)?;
    front.push(b'\n')?;
    Ok(front)
}

/// A journal is a script, which says what its lines say behind the front.
pub fn journals_are_scripts()
    ensures { (header text : List ℕ) → SaysBehindFront header text }
{}
