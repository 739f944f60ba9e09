//! An open session as a history of texts.

// The lines `let _nodes = ..` and `let _count = ..` are for the proof: the
// session and its store keep their rules, as these calls say.

ghost use Rattle.std.specs.Prelude.{◌≡◌, ◌<◌, ◌^◌, ℕ, List, length};
ghost use Rattle.command_parts.specs.Commands.{full_edit, with_splices, NamesSplices};
ghost use Rattle.command_parts.specs.declared.edit.Splice.{Splice};
ghost use Rattle.edit_commands.specs.Session.{NamesThese};
ghost use Rattle.session_origins.specs.SessionHistories.{own_splices};

use byte_origins::History;
use command_parts::{Edit, Roots, Splice};
use edit_commands::Session;
use function_leaf::Coded;
use rope_node::{NodeSpace, Rope};
use rope_store::Store;

/// A session as the history of its texts: that of the image that it would be written as.
#[derive(Clone, Copy)]
pub struct SessionHistory<'s>(pub &'s Session);

/// The recorded command over its own splices alone.
fn over_its_own(edit: Edit) -> Edit
    ensures says { (earlier : ℕ) → (splices : List Splice) → NamesThese earlier splices edit
        → full_edit splices result ≡ with_splices splices edit }
    ensures names { (earlier : ℕ) → (splices : List Splice) → NamesThese earlier splices edit
        → length splices < 2 ^ 32 → NamesSplices splices result }
{
    match edit {
        Edit::Many { r, first: _, count } => Edit::Many { r, first: 0, count },
        _ => edit,
    }
}

/// The splices of revision `k`; none where there is no such revision.
fn own_splices(session: &Session, k: u32) -> &[Splice]
    ensures { result.now ≡ own_splices session.now k }
{
    match session.splices(k) {
        Some(splices) => splices,
        None => &[],
    }
}

impl<'s> History for SessionHistory<'s> {
    ghost use Rattle.session_image.specs.Written.{image_of};
    ghost use Rattle.session_origins.specs.SessionHistories.{own_splices};

    type Space = Store<Coded>;

    type Listed = &'s [Splice];

    ghost image = { λ history. image_of history.0.now };

    ghost listed = { λ history k. own_splices history.0.now k };

    fn revision_count(self) -> u32 {
        let _nodes = self.0.space().count();
        self.0.count()
    }

    fn space(&self) -> &Store<Coded> {
        let space = self.0.space();
        let _nodes = space.count();
        space
    }

    fn root_of(self, k: u32) -> Rope {
        let _count = self.0.count();
        Roots::root(self.0, k)
    }

    fn command(self, k: u32, first: u32) -> Edit {
        // A session's command knows its splices itself.
        let _ = first;
        let _count = self.0.count();
        match self.0.edit(k) {
            Some(edit) => over_its_own(edit),
            None => unreachable!(),
        }
    }

    fn splices(self, k: u32) -> &'s [Splice] {
        own_splices(self.0, k)
    }

    fn splices_of(self, k: u32) -> u32 {
        let _count = self.0.count();
        own_splices(self.0, k).len() as u32
    }

    fn splice_count(self) -> Option<u32> {
        None
    }
}
