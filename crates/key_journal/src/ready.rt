//! Readers that may have a byte before it is asked for.

ghost use Rattle.std.specs.Prelude.{[]};
ghost use Rattle.std.specs.Io.KnownBytes.{Consumes};

use std::io::Read;

/// A reader that tells whether it has a byte already.
pub trait Ready: Read {
    /// Whether the next read gives a byte that is there already. Nothing of what is left is given.
    fn is_ready(&mut self) -> bool
        ensures left { Consumes (Self.remaining self.old) (Self.remaining self.new) [] };
}
