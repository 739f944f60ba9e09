//! What is typed, and what is pasted.

ghost use Rattle.std.specs.Prelude.{◌≡◌};
ghost use Rattle.terminal_keys.specs.Keys.{as_text, is_text};

use crate::owed::Owed;

/// What stands for a pasted byte that is no text: a byte that is no key.
const NO_KEY: u8 = 0x80;

/// Whether bytes are typed or pasted.
#[derive(Clone, Copy, Debug, PartialEq, Eq)]
pub(crate) enum Mode {
    /// Typed.
    Typed,
    /// Pasted.
    Pasted,
    /// Pasted, behind CR.
    Returned,
}

/// Whether a paste may have this byte: a tab, the end of a line, or a byte that is shown.
fn is_text(byte: u8) -> bool
    ensures { result ≡ is_text byte }
{
    matches!(byte, 0x09 | 0x0A | 0x0D | 0x20..=0x7E)
}

/// A pasted byte, where it is text, or else one that is no key.
fn as_text(byte: u8) -> u8
    ensures { result ≡ as_text byte }
{
    if is_text(byte) { byte } else { NO_KEY }
}

impl Mode {
    ghost use Rattle.terminal_keys.specs.Held.{owed};
    ghost use Rattle.terminal_keys.specs.Keys.{mode_after, passed};

    /// The key of a byte that belongs to no sequence, if it has one.
    pub(crate) fn pass(self, byte: u8) -> Owed
        ensures { owed result ≡ passed self byte }
    {
        match self {
            Mode::Typed => Owed::once(byte),
            Mode::Returned if byte == 0x0A => Owed::none(),
            _ => Owed::once(as_text(byte)),
        }
    }

    /// What is read behind a byte that belongs to no sequence.
    pub(crate) fn after(self, byte: u8) -> Mode
        ensures { result ≡ mode_after self byte }
    {
        match self {
            Mode::Typed => Mode::Typed,
            _ => {
                if byte == 0x0D {
                    Mode::Returned
                } else {
                    Mode::Pasted
                }
            }
        }
    }
}
