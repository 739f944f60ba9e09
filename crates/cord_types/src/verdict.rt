//! What a check answers, as numbers.

ghost use Rattle.std.specs.Prelude.{◌≡◌};
ghost use Rattle.cord_types.specs.Verdicts.{accepted_verdict, add_number, limit_verdict, read_number, refused_verdict, refused_with};

use image_reader::ReadFault;
use lazy_file::AddFault;
use rope_node::NodeSpace;
use session_checker::{CheckFault, Checked};

/// The code of sources that are too many or too long.
pub const BAD_SOURCES: u32 = 13;

/// The kind of `C12`: bytes of a source that are not held.
pub const UNHELD: u32 = 2;

/// The code of an image whose check may take more looks than a limit. No check has one here.
pub const OVER_LIMIT: u32 = 14;

/// What a check answers.
#[repr(C)]
#[derive(Clone, Copy, Debug, PartialEq, Eq, Drop)]
pub struct CordVerdict {
    /// 0: the image is accepted. 1 to 12: its first fault is `C1` to `C12`. 13: the sources are no sources.
    pub code: u32,
    /// Of `C1` which of `I1` to `I7` it is, of `C12` 2 for `S2`, of 13 which of `S4` and `S5`; else 0.
    pub kind: u32,
    /// The source of `C3`, the node of `C4` to `C7`, the revision of `C8` to `C11`; else 0.
    pub number: u32,
    /// How many revisions, nodes and rows an accepted image has; else 0.
    pub revisions: u32,
    pub nodes: u32,
    pub rows: u32,
    /// The row of `C11`; else 0.
    pub row: u64,
}

/// The number behind the letter of `C1(I1)` to `C1(I7)`.
fn read_number(fault: ReadFault) -> u32
    ensures { result ≡ read_number fault }
{
    match fault {
        ReadFault::Truncated => 1,
        ReadFault::Trailing => 2,
        ReadFault::Magic => 3,
        ReadFault::Version => 4,
        ReadFault::Count => 5,
        ReadFault::NonZeroPad => 6,
        ReadFault::Kind => 7,
    }
}

/// The number of why sources are refused; 0 for want of memory.
fn add_number(fault: AddFault) -> u32
    ensures { result ≡ add_number fault }
{
    match fault {
        AddFault::TooManySources => 4,
        AddFault::SourceTooLong => 5,
        AddFault::Memory => 0,
    }
}

impl CordVerdict {
    /// The answer for an image or sources that are refused.
    fn refused(code: u32, kind: u32, number: u32, row: u64) -> CordVerdict
        ensures { result ≡ refused_with code kind number row }
    {
        CordVerdict {
            code,
            kind,
            number,
            revisions: 0,
            nodes: 0,
            rows: 0,
            row,
        }
    }

    /// The answer for an image that is accepted.
    pub fn of_image(image: &Checked) -> CordVerdict
        ensures { result ≡ accepted_verdict image.now }
    {
        CordVerdict {
            code: 0,
            kind: 0,
            number: 0,
            revisions: image.revisions(),
            nodes: image.count(),
            rows: image.rows(),
            row: 0,
        }
    }

    /// The answer for an image that has this fault.
    pub fn of_fault(fault: CheckFault) -> CordVerdict
        ensures { result ≡ refused_verdict fault }
    {
        match fault {
            CheckFault::Read(fault) => CordVerdict::refused(1, read_number(fault), 0, 0),
            CheckFault::SourceCount => CordVerdict::refused(2, 0, 0, 0),
            CheckFault::SourceLength(source) => CordVerdict::refused(3, 0, source, 0),
            CheckFault::Reference(node) => CordVerdict::refused(4, 0, node, 0),
            CheckFault::Length(node) => CordVerdict::refused(5, 0, node, 0),
            CheckFault::Depth(node) => CordVerdict::refused(6, 0, node, 0),
            CheckFault::Span(node) => CordVerdict::refused(7, 0, node, 0),
            CheckFault::Command(revision) => CordVerdict::refused(8, 0, revision, 0),
            CheckFault::Root(revision) => CordVerdict::refused(9, 0, revision, 0),
            CheckFault::Mark(revision) => CordVerdict::refused(10, 0, revision, 0),
            CheckFault::Rows(revision, row) => CordVerdict::refused(11, 0, revision, row as u64),
            CheckFault::Source(_) => CordVerdict::refused(12, UNHELD, 0, 0),
            CheckFault::Looks(bound) => CordVerdict::refused(OVER_LIMIT, 0, 0, bound),
        }
    }

    /// The answer for sources that are none.
    pub fn of_sources(fault: AddFault) -> CordVerdict
        ensures { result ≡ limit_verdict fault }
    {
        CordVerdict::refused(BAD_SOURCES, add_number(fault), 0, 0)
    }
}
