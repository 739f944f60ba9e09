//! The splices of all commands, by their places.

ghost use Rattle.std.specs.Prelude.{◌≡◌, ◌<◌, List, length, slice_get, Some};
ghost use Rattle.command_parts.specs.declared.edit.Splice.{Splice};

use crate::edit::Splice;

/// Splices by their places in one list.
pub trait Splices {
    ghost splices: { Self → List Splice };

    /// How many there are.
    fn count(&self) -> usize
        ensures { result ≡ length (splices self.now) };

    /// The splice at place `j`.
    fn splice(&self, j: u32) -> Splice
        requires { j < length (splices self.now) }
        ensures { slice_get (splices self.now) j ≡ Some result };
}

impl Splices for &[Splice] {
    ghost splices = { λ splices. splices.now };

    fn count(&self) -> usize {
        self.len()
    }

    fn splice(&self, j: u32) -> Splice {
        self[j as usize]
    }
}
