//! What was found to change.

use line_changes::Change;

/// How many bytes a text and a file have in common at their ends.
#[derive(Clone, Copy)]
pub struct Ends {
    /// From the first byte on.
    pub front: usize,
    /// Up to the last byte, none of them of the front.
    pub back: usize,
}

/// A text beside a file: what both have in common at their ends, and the changes of what is between.
#[derive(Drop)]
pub struct Found {
    /// How many bytes are the same at the front.
    pub front: usize,
    /// From this place of the file on both are the same.
    pub end: usize,
    /// The bytes of the text between.
    pub middle: Vec<u8>,
    /// What turns them into the file's.
    pub changes: Vec<Change>,
}
