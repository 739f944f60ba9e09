//! What a session keeps of a revision.

use command_parts::{Edit, Roots, Splice};
use rope_node::Rope;
use span_certificate::Row;

/// A revision: its command, the splices that the command names, its root, whether the root is balanced, and its rows.
#[derive(Drop)]
pub struct Revision {
    pub edit: Edit,
    pub splices: Vec<Splice>,
    pub root: Rope,
    pub mark: bool,
    pub rows: Vec<Row>,
}

/// The roots of revisions, by their numbers.
#[derive(Clone, Copy)]
pub struct EarlierRoots<'a> {
    pub revisions: &'a [Revision],
}

impl Roots for EarlierRoots<'_> {
    ghost use Rattle.edit_commands.specs.Session.{roots_of};

    ghost roots = { λ earlier. roots_of earlier.revisions.now };

    fn count(&self) -> usize {
        self.revisions.len()
    }

    fn root(&self, r: u32) -> Rope {
        self.revisions[r as usize].root
    }
}
