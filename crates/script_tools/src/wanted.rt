//! Which bytes of a text are asked about.

use session_checker::WantedRevision;

/// Some bytes of the text of a revision.
#[derive(Clone, Copy, Debug, PartialEq, Eq)]
pub struct BytesOfText {
    /// The revision.
    pub revision: WantedRevision,
    /// The place of the first byte.
    pub start: u64,
    /// How many they are, as far as there are such.
    pub count: u64,
}
