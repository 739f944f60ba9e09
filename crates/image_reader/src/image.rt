//! An image, over its bytes.

ghost use Rattle.std.specs.Prelude.{◌≡◌, ◌↔◌, ◌<◌, length, IfOk, IsTrue, Ok, slice_get, Some};
ghost use Rattle.std.specs.Result.{result_err};
ghost use Rattle.rope_node.specs.declared.limits.TheConstants.{TEXT_LIMIT};
ghost use Rattle.rope_node.specs.declared.node.NodeView.TheVariants.{Fun};
ghost use Rattle.rope_node.specs.Table.{view_at, len_at, depth_at};
ghost use Rattle.command_parts.specs.Fields.{splices_of};
ghost use Rattle.image_reader.specs.Value.{ImageValue, IsImage, function_at, image_table};
ghost use Rattle.image_reader.specs.Accepted.{revision_at, splices_before};
ghost use Rattle.image_reader.specs.Spelling.{spelling, records_spelling};
ghost use Rattle.image_reader.specs.Reading.{fault_of, image_in, whole_len, HasHeader};

use crate::decode::{mark_in, revision_in, root_in, row_in, source_in, splice_in, splices_in};
use crate::fault::ReadFault;
use crate::header::{Header, read_header};
use crate::layout::{NODE_SIZE, REVISION_SIZE, ROW_SIZE, SOURCE_SIZE, SPLICE_SIZE};
use crate::node::{depth_in, function_in, len_in, view_in};
use crate::number::{bytes_before, cell_at};
use crate::revision::Revision;
use crate::section::{Sections, check_sections, sections_of};
use crate::version::FormatVersion;
use command_parts::Splice;
use function_leaf::Coded;
use rope_node::{NodeId, NodeView, Rope};
use span_certificate::Row;
use std::marker::Model;

/// A session image. It borrows the bytes that it was read from, and reads its fields from them as they are asked for.
#[derive(Drop)]
pub struct Image<'a> {
    header: Header,
    /// The records of all sections.
    recorded: &'a [u8],
    sections: Sections<'a>,
}

impl<'a> Model for Image<'a> {
    ghost use Rattle.image_reader.specs.Value.{ImageValue};
    ghost use Rattle.image_reader.specs.Reading.{SaysImage, sections_value};

    ghost Value = { ImageValue };

    ghost view = { λ a. sections_value a.header a.sections };

    ghost invariant = { λ a. SaysImage a.header a.sections a.recorded.now };
}

/// Whether a node is a function.
fn is_function(view: NodeView) -> bool
    ensures { IsTrue result ↔ (view ≡ Fun) }
{
    matches!(view, NodeView::Fun)
}

impl<'a> Image<'a> {
    /// Cuts the bytes of an image into sections, by its header.
    fn cut(bytes: &'a [u8], header: &Header) -> Image<'a>
        requires read { fault_of bytes.now ≡ None }
        requires numbers { HasHeader bytes.now header.now }
        requires whole { length bytes.now ≡ whole_len header.now }
        ensures { result ≡ image_in bytes.now }
    {
        let sections = sections_of(header, bytes);
        Image {
            header: *header,
            recorded: bytes_before(sections.sources, sections.pool.len()),
            sections,
        }
    }

    /// Cuts the bytes into sections, where no record has a fault.
    #[tactic(auto, unfolding(crate::specs::Reading::fault_of))]
    fn read_sections(bytes: &'a [u8]) -> Result<Image<'a>, ReadFault>
        ensures fault { result_err result ≡ fault_of bytes.now }
        ensures value { IfOk result (λ v. v ≡ image_in bytes.now) }
    {
        let header = read_header(bytes)?;
        check_sections(&header, &sections_of(&header, bytes))?;
        Ok(Image::cut(bytes, &header))
    }

    /// Reads an image from all of the bytes. It takes no memory.
    ///
    /// # Errors
    ///
    /// The first fault in the order of the format, where the bytes are no image: `I1` to `I7`.
    #[tactic(auto, using(crate::proofs::WholeImages::is_found, crate::proofs::WholeImages::is_only))]
    pub fn read(bytes: &'a [u8]) -> Result<Image<'a>, ReadFault>
        // What is read is spelled so.
        ensures found { IfOk result (λ v. IsImage v × (bytes.now ≡ spelling v)) }
        // What is spelled so is read.
        ensures only { (v : ImageValue) → IsImage v → bytes.now ≡ spelling v → result ≡ Ok v }
        // Which fault it is: the first in the order of the format.
        ensures fault { result_err result ≡ fault_of bytes.now }
    {
        Image::read_sections(bytes)
    }

    /// The image of bytes that were read before, by their header alone. It takes no memory.
    #[tactic(auto, unfolding(crate::specs::Reading::fault_of))]
    pub fn again(bytes: &'a [u8]) -> Image<'a>
        requires { fault_of bytes.now ≡ None }
        ensures { result ≡ image_in bytes.now }
    {
        match read_header(bytes) {
            Ok(header) => Image::cut(bytes, &header),
            Err(_) => unreachable!(),
        }
    }

    /// Another image over these bytes, equal to this one. It takes no memory.
    pub fn same(&self) -> Image<'a>
        ensures { result ≡ self.now }
    {
        Image {
            header: self.header,
            recorded: self.recorded,
            sections: self.sections,
        }
    }

    /// The version of the format that it is spelled in.
    #[tactic(auto, unfolding(crate::specs::Reading::records_value))]
    pub fn version(&self) -> FormatVersion
        ensures { result ≡ self.now.version }
    {
        self.header.version
    }

    /// How many sources the image has.
    #[tactic(auto, unfolding(crate::specs::Reading::records_value), using(crate::proofs::Cutting::cut))]
    pub fn source_count(&self) -> u32
        ensures { result ≡ length self.now.sources }
    {
        self.header.sources
    }

    /// How many nodes it has.
    #[tactic(auto, unfolding(crate::specs::Reading::records_value), using(crate::proofs::Nodes::table_cut))]
    pub fn node_count(&self) -> u32
        ensures count { result ≡ length (image_table self.now).nodes }
        ensures image { IsImage self.now }
    {
        self.header.nodes
    }

    /// How many revisions it has.
    #[tactic(auto, unfolding(crate::specs::Reading::records_value), using(crate::proofs::RevisionCuts::revisions_cut))]
    pub fn revision_count(&self) -> u32
        ensures { result ≡ length self.now.revisions }
    {
        self.header.revisions
    }

    /// How many splices it has.
    #[tactic(auto, unfolding(crate::specs::Reading::records_value), using(crate::proofs::Cutting::cut))]
    pub fn splice_count(&self) -> u32
        ensures { result ≡ length self.now.splices }
    {
        self.header.splices
    }

    /// How many certificate rows it has.
    #[tactic(auto, unfolding(crate::specs::Reading::records_value), using(crate::proofs::Cutting::cut))]
    pub fn row_count(&self) -> u32
        ensures { result ≡ length self.now.rows }
    {
        self.header.rows
    }

    /// The pool.
    #[tactic(auto, unfolding(crate::specs::Reading::records_value))]
    pub fn pool(&self) -> &'a [u8]
        ensures { result.now ≡ self.now.pool }
    {
        self.sections.pool
    }

    /// The length of source `s`, in bytes.
    #[tactic(auto, unfolding(crate::specs::Reading::records_value), using(crate::proofs::Cutting::cut, crate::proofs::Cutting::got_at, crate::proofs::Cutting::all_at))]
    pub fn source_len(&self, s: u32) -> u64
        requires { s < length self.now.sources }
        ensures value { slice_get self.now.sources s ≡ Some result }
        ensures limit { result < TEXT_LIMIT }
    {
        source_in(cell_at(self.sections.sources, SOURCE_SIZE, s as usize))
    }

    /// What node `id` is.
    #[tactic(auto, unfolding(crate::specs::Reading::records_value), using(crate::proofs::Nodes::table_cut, crate::proofs::Nodes::view_read))]
    pub fn node(&self, id: NodeId) -> NodeView
        requires { id.0 < length (image_table self.now).nodes }
        ensures { result ≡ view_at (image_table self.now) id.0 }
    {
        view_in(cell_at(self.sections.nodes, NODE_SIZE, id.0 as usize))
    }

    /// The length that is recorded with node `id`, in bytes.
    #[tactic(auto, unfolding(crate::specs::Reading::records_value), using(crate::proofs::Nodes::table_cut, crate::proofs::Nodes::len_read))]
    pub fn len(&self, id: NodeId) -> u64
        requires { id.0 < length (image_table self.now).nodes }
        ensures { result ≡ len_at (image_table self.now) id.0 }
    {
        len_in(cell_at(self.sections.nodes, NODE_SIZE, id.0 as usize))
    }

    /// The depth that is recorded with node `id`.
    #[tactic(auto, unfolding(crate::specs::Reading::records_value), using(crate::proofs::Nodes::table_cut, crate::proofs::Nodes::depth_read))]
    pub fn depth(&self, id: NodeId) -> u8
        requires { id.0 < length (image_table self.now).nodes }
        ensures { result ≡ depth_at (image_table self.now) id.0 }
    {
        depth_in(cell_at(self.sections.nodes, NODE_SIZE, id.0 as usize))
    }

    /// The function that node `id` holds.
    #[tactic(auto, unfolding(crate::specs::Reading::records_value), using(crate::proofs::Nodes::table_cut, crate::proofs::Nodes::node_faultless, crate::proofs::Nodes::function_kind_at, crate::proofs::Nodes::function_read))]
    pub fn coded(&self, id: NodeId) -> Coded
        requires there { id.0 < length (image_table self.now).nodes }
        requires function { view_at (image_table self.now) id.0 ≡ Fun }
        ensures { function_at self.now id.0 ≡ Some result }
    {
        function_in(cell_at(self.sections.nodes, NODE_SIZE, id.0 as usize))
    }

    /// The function that node `id` holds, where it is one.
    #[tactic(auto, using(crate::proofs::HeldFunctions::function_none))]
    pub fn function(&self, id: NodeId) -> Option<Coded>
        requires { id.0 < length (image_table self.now).nodes }
        ensures { result ≡ function_at self.now id.0 }
    {
        // The value is an image, as its count says.
        let _nodes = self.node_count();
        if is_function(self.node(id)) {
            Some(self.coded(id))
        } else {
            None
        }
    }

    /// Revision `k`, where the revisions before it have `first` splices.
    #[tactic(auto, unfolding(crate::specs::Reading::records_value), using(crate::proofs::RevisionCuts::revisions_cut, crate::proofs::RevisionCuts::revision_read, crate::proofs::RevisionCuts::revision_read_at))]
    pub fn revision(&self, k: u32, first: u32) -> Revision
        requires there { k < length self.now.revisions }
        requires first { first ≡ splices_before self.now k }
        ensures value { slice_get self.now.revisions k ≡ Some result }
        ensures at { result ≡ revision_at self.now k }
    {
        revision_in(
            first,
            cell_at(self.sections.revisions, REVISION_SIZE, k as usize),
        )
    }

    /// The root of revision `k`.
    #[tactic(auto, unfolding(crate::specs::Reading::records_value), using(crate::proofs::RevisionCuts::revisions_cut, crate::proofs::RevisionCuts::root_read))]
    pub fn root(&self, k: u32) -> Rope
        requires { k < length self.now.revisions }
        ensures { result ≡ (revision_at self.now k).root }
    {
        root_in(cell_at(self.sections.revisions, REVISION_SIZE, k as usize))
    }

    /// Whether revision `k` is marked as balanced.
    #[tactic(auto, unfolding(crate::specs::Reading::records_value), using(crate::proofs::RevisionCuts::revisions_cut, crate::proofs::RevisionCuts::mark_read))]
    pub fn mark(&self, k: u32) -> bool
        requires { k < length self.now.revisions }
        ensures { result ≡ (revision_at self.now k).mark }
    {
        mark_in(cell_at(self.sections.revisions, REVISION_SIZE, k as usize))
    }

    /// How many splices the command of revision `k` names.
    #[tactic(auto, unfolding(crate::specs::Reading::records_value), using(crate::proofs::RevisionCuts::revisions_cut, crate::proofs::RevisionCuts::splices_counted))]
    pub fn splices_of(&self, k: u32) -> u32
        requires { k < length self.now.revisions }
        ensures { result ≡ splices_of (revision_at self.now k).edit }
    {
        splices_in(cell_at(self.sections.revisions, REVISION_SIZE, k as usize))
    }

    /// Splice `j` of all splices.
    #[tactic(auto, unfolding(crate::specs::Reading::records_value), using(crate::proofs::Cutting::cut, crate::proofs::Cutting::got_at))]
    pub fn splice(&self, j: u32) -> Splice
        requires { j < length self.now.splices }
        ensures { slice_get self.now.splices j ≡ Some result }
    {
        splice_in(cell_at(self.sections.splices, SPLICE_SIZE, j as usize))
    }

    /// Row `j` of all rows.
    #[tactic(auto, unfolding(crate::specs::Reading::records_value), using(crate::proofs::Cutting::cut, crate::proofs::Cutting::got_at))]
    pub fn row(&self, j: usize) -> Row
        requires { j < length self.now.rows }
        ensures { slice_get self.now.rows j ≡ Some result }
    {
        row_in(cell_at(self.sections.rows, ROW_SIZE, j))
    }

    /// The records of all sections one behind the other, as they are spelled.
    #[tactic(auto, unfolding(crate::specs::Reading::records_value))]
    pub fn records(&self) -> &[u8]
        ensures { result.now ≡ records_spelling self.now }
    {
        self.recorded
    }
}
