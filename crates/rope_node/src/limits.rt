//! The limits of every table of nodes.

/// The length that a text stays below, and a source, in bytes.
pub const TEXT_LIMIT: u64 = 1 << 40;

/// The most nodes of a table.
pub const MOST_NODES: u32 = 1 << 24;

/// The most sources of a table.
pub const MOST_SOURCES: u32 = 255;

/// The greatest depth of a node.
pub const MOST_DEPTH: u8 = 64;
