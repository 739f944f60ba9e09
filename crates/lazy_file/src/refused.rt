//! A source that was not added.
use crate::faults::AddFault;
use std::fmt;

/// A device that was not added to the sources, handed back, and why.
#[derive(Debug, Drop)]
pub struct Refused<D> {
    pub device: D,
    pub fault: AddFault,
}

impl<D> fmt::Display for Refused<D> {
    ghost use Rattle.std.specs.Prelude.{Some};
    ghost use Rattle.lazy_file.specs.Faults.{add_fault_code};

    ghost output = { λ refused. Some (add_fault_code refused.fault) };

    fn fmt<W: fmt::Write>(&self, f: &mut fmt::Formatter<W>) -> fmt::Result {
        self.fault.fmt(f)
    }
}
