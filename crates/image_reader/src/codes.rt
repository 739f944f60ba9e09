//! The codes of an image: of what a node is, of a function, and of a certificate row.

/// A node that is a literal.
pub const LITERAL: u8 = 1;

/// A node that is a span of a source.
pub const SOURCE_SPAN: u8 = 2;

/// A node that is a function.
pub const FUNCTION: u8 = 3;

/// A node that is a concatenation.
pub const CONCATENATION: u8 = 4;

/// A node that is a substring.
pub const SUBSTRING: u8 = 5;

/// A function that gives one byte everywhere.
pub const FILL: u8 = 1;

/// A function whose bytes rise by one.
pub const RAMP: u8 = 2;

/// A function that repeats a pattern.
pub const CYCLE: u8 = 3;

/// A row whose bytes lie in one node, to which both sides lead.
pub const SHARED_ROW: u8 = 1;

/// A row whose bytes lie in two leaf spans of one description.
pub const LEAF_ROW: u8 = 2;

/// A row whose bytes are equal.
pub const BYTES_ROW: u8 = 3;
