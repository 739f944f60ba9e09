//! Why an image is not accepted.

ghost use Rattle.std.specs.Prelude.{Some};
ghost use Rattle.session_checker.specs.Codes.{check_fault_code};

use image_reader::ReadFault;
use lazy_file::SourceFault;
use std::fmt;

/// The first fault of an image that is not accepted, printed as its code.
#[derive(Clone, Copy, Debug, PartialEq, Eq)]
pub enum CheckFault {
    /// `C1(I)`: the bytes are no image.
    Read(ReadFault),
    /// `C2`: there are more or fewer sources than the image says.
    SourceCount,
    /// `C3(source)`: the source is not as long as the image says.
    SourceLength(u32),
    /// `C4(node)`: a child is not below its own node, or there is no such source.
    Reference(u32),
    /// `C5(node)`: the recorded length is 0, over the limit, or not the sum of the children's.
    Length(u32),
    /// `C6(node)`: the recorded depth is wrong, or over 64.
    Depth(u32),
    /// `C7(node)`: a span is not inside the pool, its source or its base.
    Span(u32),
    /// `C8(revision)`: the command is out of range.
    Command(u32),
    /// `C9(revision)`: there is no such root, or its length is not the result's.
    Root(u32),
    /// `C10(revision)`: a mark on nil or on a root that is not balanced.
    Mark(u32),
    /// `C11(revision,row)`: the first row that does not fit, or the number of rows where text is left uncovered.
    Rows(u32, usize),
    /// `C12(S)`: a source's fault, where a read for a row of bytes failed.
    Source(SourceFault),
    /// `looks N`: the check may take so many looks at nodes, which is more than its limit.
    Looks(u64),
}

impl fmt::Display for CheckFault {
    ghost output = { λ fault. Some (check_fault_code fault) };

    fn fmt<W: fmt::Write>(&self, f: &mut fmt::Formatter<W>) -> fmt::Result {
        match self {
            CheckFault::Read(fault) => write!(f, "C1({fault})"),
            CheckFault::SourceCount => write!(f, "C2"),
            CheckFault::SourceLength(source) => write!(f, "C3({source})"),
            CheckFault::Reference(node) => write!(f, "C4({node})"),
            CheckFault::Length(node) => write!(f, "C5({node})"),
            CheckFault::Depth(node) => write!(f, "C6({node})"),
            CheckFault::Span(node) => write!(f, "C7({node})"),
            CheckFault::Command(revision) => write!(f, "C8({revision})"),
            CheckFault::Root(revision) => write!(f, "C9({revision})"),
            CheckFault::Mark(revision) => write!(f, "C10({revision})"),
            CheckFault::Rows(revision, row) => write!(f, "C11({revision},{row})"),
            CheckFault::Source(fault) => write!(f, "C12({fault})"),
            CheckFault::Looks(bound) => write!(f, "looks {bound}"),
        }
    }
}
