//! The versions of the format.

ghost use Rattle.std.specs.Prelude.{◌≡◌};
ghost use Rattle.image_reader.specs.Versions.{version_by};

use command_parts::codes::{BALANCE, MANY};

/// A version of the format.
#[derive(Clone, Copy, Debug, PartialEq, Eq)]
pub enum FormatVersion {
    /// Without splices.
    One,
    /// With splices, and the command that has them.
    Two,
}

/// The number of version 1.
pub const VERSION_ONE: u32 = 1;

/// The number of version 2.
pub const VERSION_TWO: u32 = 2;

/// The version of a number. One that stands for none is read as version 1.
pub fn version_by(number: u32) -> FormatVersion
    ensures { result ≡ version_by number }
{
    if number == VERSION_TWO {
        FormatVersion::Two
    } else {
        FormatVersion::One
    }
}

impl FormatVersion {
    ghost use Rattle.std.specs.Prelude.{◌≡◌};
    ghost use Rattle.image_reader.specs.Versions.{version_number, last_code, is_two};

    /// Its number.
    pub fn number(self) -> u32
        ensures { result ≡ version_number self }
    {
        match self {
            FormatVersion::One => VERSION_ONE,
            FormatVersion::Two => VERSION_TWO,
        }
    }

    /// Whether it has splices.
    pub fn has_splices(self) -> bool
        ensures { result ≡ is_two self }
    {
        match self {
            FormatVersion::One => false,
            FormatVersion::Two => true,
        }
    }

    /// The highest code of its commands.
    pub fn last_code(self) -> u8
        ensures { result ≡ last_code self }
    {
        match self {
            FormatVersion::One => BALANCE,
            FormatVersion::Two => MANY,
        }
    }
}
