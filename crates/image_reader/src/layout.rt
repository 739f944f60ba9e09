//! How many bytes the header of an image has, and each record of a section.

/// The bytes of the header.
pub const HEADER_SIZE: usize = 40;

/// The bytes of a source's record.
pub const SOURCE_SIZE: usize = 8;

/// The bytes of a node's record.
pub const NODE_SIZE: usize = 32;

/// The bytes of a revision's record.
pub const REVISION_SIZE: usize = 56;

/// The bytes of a splice's record.
pub const SPLICE_SIZE: usize = 32;

/// The bytes of a certificate row's record.
pub const ROW_SIZE: usize = 24;
