//! Why bytes are no image.

ghost use Rattle.std.specs.Prelude.{Some};
ghost use Rattle.image_reader.specs.Reading.{read_fault_code};

use std::fmt;

/// The first fault of bytes that are no image, printed as `I1` to `I7`.
#[derive(Clone, Copy, Debug, PartialEq, Eq)]
pub enum ReadFault {
    /// `I1`: the bytes end too early.
    Truncated,
    /// `I2`: bytes stand after the pool.
    Trailing,
    /// `I3`: they do not begin with `CORDSESS`.
    Magic,
    /// `I4`: a version other than 1 and 2.
    Version,
    /// `I5`: a number is over its limit, or the rows or splices are not as many as the revisions count.
    Count,
    /// `I6`: a field that is not used is not zero.
    NonZeroPad,
    /// `I7`: an unknown kind of node, function, command, mark or row, or a pattern of a length that none may have.
    Kind,
}

impl fmt::Display for ReadFault {
    ghost output = { λ fault. Some (read_fault_code fault) };

    fn fmt<W: fmt::Write>(&self, f: &mut fmt::Formatter<W>) -> fmt::Result {
        match self {
            ReadFault::Truncated => write!(f, "I1"),
            ReadFault::Trailing => write!(f, "I2"),
            ReadFault::Magic => write!(f, "I3"),
            ReadFault::Version => write!(f, "I4"),
            ReadFault::Count => write!(f, "I5"),
            ReadFault::NonZeroPad => write!(f, "I6"),
            ReadFault::Kind => write!(f, "I7"),
        }
    }
}
