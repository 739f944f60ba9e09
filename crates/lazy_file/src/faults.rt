//! What can go wrong with a source.
use std::error::Error;
use std::fmt;

/// Why a read of a source failed.
#[derive(Clone, Copy, Debug, PartialEq, Eq)]
pub enum SourceFault {
    /// `S1`: the device failed.
    Device,
    /// `S2`: the device ended before its stated size.
    Short,
    /// `S3`: there is no such source, or the span passes its length.
    BadSource,
    /// There was no memory for a block.
    Memory,
}

impl fmt::Display for SourceFault {
    ghost use Rattle.std.specs.Prelude.{Some};
    ghost use Rattle.lazy_file.specs.Faults.{source_fault_code};

    ghost output = { λ fault. Some (source_fault_code fault) };

    fn fmt<W: fmt::Write>(&self, f: &mut fmt::Formatter<W>) -> fmt::Result {
        f.write_str(match self {
            SourceFault::Device => "S1",
            SourceFault::Short => "S2",
            SourceFault::BadSource => "S3",
            SourceFault::Memory => "Memory",
        })
    }
}

impl Error for SourceFault {}

/// Why a source was not added.
#[derive(Clone, Copy, Debug, PartialEq, Eq)]
pub enum AddFault {
    /// `S4`: there are `COUNT_LIMIT` sources already.
    TooManySources,
    /// `S5`: the source has more than `SOURCE_LIMIT` bytes.
    SourceTooLong,
    /// There was no memory for one more.
    Memory,
}

impl fmt::Display for AddFault {
    ghost use Rattle.std.specs.Prelude.{Some};
    ghost use Rattle.lazy_file.specs.Faults.{add_fault_code};

    ghost output = { λ fault. Some (add_fault_code fault) };

    fn fmt<W: fmt::Write>(&self, f: &mut fmt::Formatter<W>) -> fmt::Result {
        f.write_str(match self {
            AddFault::TooManySources => "S4",
            AddFault::SourceTooLong => "S5",
            AddFault::Memory => "Memory",
        })
    }
}

impl Error for AddFault {}
