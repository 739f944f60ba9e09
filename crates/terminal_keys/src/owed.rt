//! Keys that were read and not yet given.

ghost use Rattle.std.specs.Prelude.{◌≡◌};

/// The lines of a page.
const PAGE: u8 = 22;

/// The keys of the editor that sequences stand for.
const HOME: u8 = 0x01;

const LEFT: u8 = 0x02;

const DELETE: u8 = 0x04;

const END: u8 = 0x05;

const RIGHT: u8 = 0x06;

const DOWN: u8 = 0x0E;

const UP: u8 = 0x10;

/// A key, so many times.
#[derive(Clone, Copy, Debug, PartialEq, Eq)]
pub(crate) struct Owed {
    pub(crate) key: u8,
    pub(crate) count: u8,
}

impl Owed {
    ghost use Rattle.std.specs.Prelude.{[], ◌∷◌, replicate};
    ghost use Rattle.terminal_keys.specs.Held.{owed};
    ghost use Rattle.terminal_keys.specs.Keys.{letter, numbered};

    /// No key.
    pub(crate) fn none() -> Owed
        ensures { owed result ≡ [] }
    {
        Owed { key: 0, count: 0 }
    }

    /// A key, once.
    pub(crate) fn once(key: u8) -> Owed
        ensures { owed result ≡ key ∷ [] }
    {
        Owed { key, count: 1 }
    }

    /// A key, once for each line of a page.
    fn page(key: u8) -> Owed
        ensures { owed result ≡ replicate 22 key }
    {
        Owed { key, count: PAGE }
    }

    /// The key of a sequence that ends in this letter.
    pub(crate) fn of_letter(byte: u8) -> Owed
        ensures { owed result ≡ letter byte }
    {
        match byte {
            b'A' => Owed::once(UP),
            b'B' => Owed::once(DOWN),
            b'C' => Owed::once(RIGHT),
            b'D' => Owed::once(LEFT),
            b'H' => Owed::once(HOME),
            b'F' => Owed::once(END),
            _ => Owed::none(),
        }
    }

    /// The keys of a sequence of this number.
    pub(crate) fn of_number(digit: u8) -> Owed
        ensures { owed result ≡ numbered digit }
    {
        match digit {
            b'1' | b'7' => Owed::once(HOME),
            b'4' | b'8' => Owed::once(END),
            b'3' => Owed::once(DELETE),
            b'5' => Owed::page(UP),
            b'6' => Owed::page(DOWN),
            _ => Owed::none(),
        }
    }
}
