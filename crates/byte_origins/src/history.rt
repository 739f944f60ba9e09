//! What steps back look at: revisions, their commands and the texts before them.

ghost use Rattle.std.specs.Prelude.{◌≡◌, ◌<◌, ◌≤◌, length, IfSome};
ghost use Rattle.command_parts.specs.Commands.{full_edit, NamesSplices};
ghost use Rattle.command_parts.specs.Fields.{splices_of};
ghost use Rattle.command_parts.specs.declared.edit.TheConstants.{SPLICES_LIMIT};
ghost use Rattle.image_reader.specs.Accepted.{command_at, revision_at, splices_before};
ghost use Rattle.image_reader.specs.Value.{image_table};
ghost use Rattle.session_checker.specs.Faithful.{HasTrueRecordsOf};
ghost use Rattle.byte_origins.specs.Histories.{splices_together};

use crate::starts::all_splices;
use command_parts::{Edit, Splices};
use image_reader::Revisions;
use rope_node::{NodeSpace, Rope};
use session_checker::Checked;

/// A history of texts: revisions, each with the command that made its text of those before it. Contracts see it as an
/// image: the one that it is, or that it would be written as.
pub trait History: Copy {
    ghost use Rattle.std.specs.Prelude.{ℕ, List};
    ghost use Rattle.command_parts.specs.declared.edit.Splice.{Splice};
    ghost use Rattle.image_reader.specs.Value.{ImageValue};

    /// The nodes that the texts stand in.
    type Space: NodeSpace;

    /// Splices, among which a command names its own.
    type Listed: Splices + Drop;

    ghost image: { Self → ImageValue };

    ghost listed: { Self → ℕ → List Splice };

    /// How many revisions there are.
    fn revision_count(self) -> u32
        ensures count { result ≡ length (image self).revisions }
        ensures true_records { HasTrueRecordsOf (image self) }
        ensures few_splices { splices_together (image self) ≤ SPLICES_LIMIT };

    /// The nodes that the texts stand in.
    fn space(&self) -> &Self::Space
        ensures { Self.Space.table result.now ≡ image_table (image self.now) };

    /// The root of revision `k`.
    fn root_of(self, k: u32) -> Rope
        requires { k < length (image self).revisions }
        ensures { result ≡ (revision_at (image self) k).root };

    /// The command of revision `k`, where the revisions before it have `first` splices.
    fn command(self, k: u32, first: u32) -> Edit
        requires there { k < length (image self).revisions }
        requires first { first ≡ splices_before (image self) k }
        ensures says { full_edit (listed self k) result ≡ command_at (image self) k }
        ensures names { NamesSplices (listed self k) result };

    /// The splices among which the command of revision `k` names its own.
    fn splices(self, k: u32) -> Self::Listed
        requires { k < length (image self).revisions }
        ensures { Self.Listed.splices result ≡ listed self k };

    /// How many splices the command of revision `k` names.
    fn splices_of(self, k: u32) -> u32
        requires { k < length (image self).revisions }
        ensures { result ≡ splices_of (revision_at (image self) k).edit };

    /// How many splices there are, where that needs no counting.
    fn splice_count(self) -> Option<u32>
        ensures { IfSome result (λ count. count ≡ splices_together (image self)) };
}

impl<'i, 'a> History for &'i Checked<'a> {
    type Space = Checked<'a>;

    type Listed = Revisions<'i, 'a>;

    ghost image = { λ checked. checked.now };

    ghost listed = { λ checked k. checked.now.splices };

    fn revision_count(self) -> u32 {
        // The value is an image, as its count says.
        let _nodes = self.image().node_count();
        self.revisions()
    }

    fn space(&self) -> &Checked<'a> {
        *self
    }

    fn root_of(self, k: u32) -> Rope {
        self.image().root(k)
    }

    fn command(self, k: u32, first: u32) -> Edit {
        let revisions = Revisions::over(self.image());
        let revision = revisions.revision(k, first);
        revision.edit
    }

    fn splices(self, k: u32) -> Revisions<'i, 'a> {
        // Each command names its own among the image's.
        let _ = k;
        Revisions::over(self.image())
    }

    fn splices_of(self, k: u32) -> u32 {
        self.image().splices_of(k)
    }

    fn splice_count(self) -> Option<u32> {
        Some(all_splices(self))
    }
}
