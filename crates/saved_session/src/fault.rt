//! Why an image is not taken up.

ghost use Rattle.std.specs.Prelude.{Some};
ghost use Rattle.saved_session.specs.Codes.{take_fault_code};

use std::error::Error;
use std::fmt;

/// Why no session goes on from an accepted image.
#[derive(Clone, Copy, Debug, PartialEq, Eq)]
pub enum TakeFault {
    /// `G1(revision)`: a row of bytes is over a source.
    OverSource(u32),
    /// `E6`: with rows that are made anew there would be more than 16,777,216.
    TooManyRows,
    /// Memory was refused.
    Memory,
}

/// The code that a program prints: `G1(revision)`, `E6` or `Memory`.
impl fmt::Display for TakeFault {
    ghost output = { λ fault. Some (take_fault_code fault) };

    fn fmt<W: fmt::Write>(&self, f: &mut fmt::Formatter<W>) -> fmt::Result {
        match self {
            TakeFault::OverSource(revision) => write!(f, "G1({revision})"),
            TakeFault::TooManyRows => f.write_str("E6"),
            TakeFault::Memory => f.write_str("Memory"),
        }
    }
}

impl Error for TakeFault {}
