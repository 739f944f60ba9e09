//! What a call answers.

/// It is done.
pub const DONE: u32 = 0;

/// Memory was refused.
pub const MEMORY: u32 = 1;

/// Nothing was begun, or it was ended.
pub const CLOSED: u32 = 2;

/// The numbers name no command, or no function.
pub const NO_COMMAND: u32 = 3;

/// There is no such place.
pub const RANGE: u32 = 13;

/// A rope has to be balanced, and goes through more than 1,048,576 pieces.
pub const MANY_PIECES: u32 = 18;

/// A text would have 2^40 bytes or more, or more than 65,536 bytes are handed in at once.
pub const TOO_LONG: u32 = 31;

/// A rope would be too deep. No call that balances answers it.
pub const TOO_DEEP: u32 = 32;

/// There are as many nodes as there can be.
pub const TABLE_FULL: u32 = 33;

/// The bytes that were handed in would be too many.
pub const POOL_FULL: u32 = 34;

/// There is no such source, or the span is not inside it.
pub const BAD_SPAN: u32 = 35;

/// There are 255 sources.
pub const MANY_SOURCES: u32 = 36;

/// The store has no such rope.
pub const NO_ROPE: u32 = 39;

/// A pattern is longer than may be sought.
pub const LONG_PATTERN: u32 = 41;

/// A byte is of a source that does not hold it.
pub const UNHELD: u32 = 52;

/// The sources that are handed in are too many, or one is too long.
pub const BAD_SOURCES: u32 = 53;
