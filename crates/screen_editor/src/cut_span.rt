//! What was cut.

/// How many cut spans are kept.
pub const MOST_CUTS: usize = 16;

/// A span of the text of a revision.
#[derive(Clone, Copy, Debug, PartialEq, Eq)]
pub struct CutSpan {
    pub revision: u32,
    pub start: u64,
    pub len: u64,
}
