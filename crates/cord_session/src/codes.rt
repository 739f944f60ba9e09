//! What a call on a session answers, beside the codes of a store.

/// There is no such revision.
pub const NO_REVISION: u32 = 11;

/// There is no such source.
pub const NO_SOURCE: u32 = 12;

/// No bytes were handed in, or a change changes nothing.
pub const EMPTY_TEXT: u32 = 14;

/// There are 1,048,576 revisions.
pub const MANY_REVISIONS: u32 = 15;

/// The session's rows would be more than 16,777,216.
pub const MANY_ROWS: u32 = 16;

/// There is no change, or there are more than 4,096.
pub const SPLICE_COUNT: u32 = 19;

/// The session's splices would be more than 16,777,216.
pub const MANY_SPLICES: u32 = 20;

/// A row of bytes is over a source.
pub const OVER_SOURCE: u32 = 61;

/// The image is refused.
pub const REFUSED: u32 = 62;
