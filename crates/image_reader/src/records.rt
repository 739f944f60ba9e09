//! The nodes of an image, each of whose records costs a look.

ghost use Rattle.std.specs.Prelude.{◌≡◌, ◌+◌, ◌<◌, length, slice_get, Some};
ghost use Rattle.rope_node.specs.declared.limits.TheConstants.{TEXT_LIMIT};
ghost use Rattle.rope_node.specs.Table.{view_at, len_at, depth_at};
ghost use Rattle.image_reader.specs.Value.{function_at, image_table};

use crate::image::Image;
use crate::version::FormatVersion;
use function_leaf::Coded;
use rope_node::{NodeId, NodeView};
use span_descent::Count;
use std::sync::ledger::Ledger;

/// What a node's record says; of a function node, with its function.
#[derive(Clone, Copy, Debug, PartialEq, Eq)]
pub struct NodeRecord {
    pub view: NodeView,
    pub len: u64,
    pub depth: u8,
    pub function: Option<Coded>,
}

/// The records of an image's nodes, which are had for looks alone, and the count of them.
#[derive(Drop)]
pub struct Records<'i, 'a, 'c, L: Ledger> {
    image: &'i Image<'a>,
    count: &'c mut Count<L>,
}

impl<'i, 'a, 'c, L: Ledger> Records<'i, 'a, 'c, L> {
    /// The records of an image, which raise a count.
    pub fn over(image: &'i Image<'a>, count: &'c mut Count<L>) -> Records<'i, 'a, 'c, L>
        ensures image { result.image.now ≡ image.now }
        ensures count { result.count.now ≡ count.old }
        ensures same_reference { result.count.ghost_name ≡ count.entry.ghost_name }
    {
        Records { image, count }
    }

    /// What the record of a node says: one look.
    pub fn node(&mut self, id: NodeId) -> NodeRecord
        requires { id.0 < length (image_table self.old.image.now).nodes }
        ensures view { result.view ≡ view_at (image_table self.old.image.now) id.0 }
        ensures len { result.len ≡ len_at (image_table self.old.image.now) id.0 }
        ensures depth { result.depth ≡ depth_at (image_table self.old.image.now) id.0 }
        ensures function { result.function ≡ function_at self.old.image.now id.0 }
        ensures image { self.new.image.now ≡ self.old.image.now }
        ensures count { self.new.count.now ≡ self.old.count.now + 1 }
        ensures same_reference { self.new.count.ghost_name ≡ self.old.count.ghost_name }
    {
        self.count.raise();
        NodeRecord {
            view: self.image.node(id),
            len: self.image.len(id),
            depth: self.image.depth(id),
            function: self.image.function(id),
        }
    }

    /// How many nodes the image has.
    pub fn node_count(&self) -> u32
        ensures { result ≡ length (image_table self.now.image.now).nodes }
    {
        self.image.node_count()
    }

    /// The length that is recorded with node `id`, in bytes.
    pub fn len(&self, id: NodeId) -> u64
        requires { id.0 < length (image_table self.now.image.now).nodes }
        ensures { result ≡ len_at (image_table self.now.image.now) id.0 }
    {
        self.image.len(id)
    }

    /// The depth that is recorded with node `id`.
    pub fn depth(&self, id: NodeId) -> u8
        requires { id.0 < length (image_table self.now.image.now).nodes }
        ensures { result ≡ depth_at (image_table self.now.image.now) id.0 }
    {
        self.image.depth(id)
    }

    /// How many sources it has.
    pub fn source_count(&self) -> u32
        ensures { result ≡ length self.now.image.now.sources }
    {
        self.image.source_count()
    }

    /// The length of source `s`, in bytes.
    pub fn source_len(&self, s: u32) -> u64
        requires { s < length self.now.image.now.sources }
        ensures value { slice_get self.now.image.now.sources s ≡ Some result }
        ensures limit { result < TEXT_LIMIT }
    {
        self.image.source_len(s)
    }

    /// Its version.
    pub fn version(&self) -> FormatVersion
        ensures { result ≡ self.now.image.now.version }
    {
        self.image.version()
    }

    /// How many splices it has.
    pub fn splice_count(&self) -> u32
        ensures { result ≡ length self.now.image.now.splices }
    {
        self.image.splice_count()
    }

    /// How many revisions it has.
    pub fn revision_count(&self) -> u32
        ensures { result ≡ length self.now.image.now.revisions }
    {
        self.image.revision_count()
    }

    /// How many certificate rows it has.
    pub fn row_count(&self) -> u32
        ensures { result ≡ length self.now.image.now.rows }
    {
        self.image.row_count()
    }

    /// The length of the pool, in bytes.
    pub fn pool_len(&self) -> u64
        ensures { result ≡ length self.now.image.now.pool }
    {
        self.image.pool().len() as u64
    }
}
