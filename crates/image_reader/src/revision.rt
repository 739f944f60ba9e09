//! Revisions as an image records them.

use command_parts::Edit;
use rope_node::Rope;

/// A revision: its command, its root, and how many certificate rows it has.
#[derive(Clone, Copy, Debug, PartialEq, Eq)]
pub struct Revision {
    pub edit: Edit,
    /// Whether the root is said to be balanced.
    pub mark: bool,
    pub root: Rope,
    pub rows: u32,
}
