//! The records of an image, field by field.

ghost use Rattle.std.specs.Prelude.{◌≡◌, [], ◌∷◌};
ghost use Rattle.image_reader.specs.Layout.{spelled};
ghost use Rattle.image_reader.specs.declared.header.TheConstants.{MAGIC};
ghost use Rattle.image_reader.specs.Versions.{version_number};
ghost use Rattle.image_reader.specs.Spelling.{header_layout, source_spelling, splice_spelling, row_layout, row_spelling, revision_spelling, mark_number, root_number};
ghost use Rattle.image_reader.specs.Value.{FitsRow, FitsSplice};
ghost use Rattle.command_parts.specs.Fields.{FitsRecord};

use crate::held::Record;
use command_parts::{EditRecord, Splice};
use image_reader::codes::{BYTES_ROW, LEAF_ROW, SHARED_ROW};
use image_reader::{FormatVersion, MAGIC, NIL_ROOT, Revision};
use rope_node::Rope;
use span_certificate::{Row, RowKind};

/// The version of an image, and how many of each it has.
#[derive(Clone, Copy, Debug, PartialEq, Eq)]
pub struct Counts {
    pub version: FormatVersion,
    pub sources: u32,
    pub nodes: u32,
    pub revisions: u32,
    pub splices: u32,
    pub rows: u32,
    pub pool: u64,
}

/// The header.
#[tactic(auto, unfolding(image_reader::specs::Layout::spelled))]
pub fn header_record(counts: Counts) -> Record
    ensures { result ≡ spelled header_layout (MAGIC ∷ version_number counts.version ∷ counts.sources
        ∷ counts.nodes ∷ counts.revisions ∷ counts.rows ∷ counts.splices ∷ counts.pool ∷ []) }
{
    let mut record = Record::new();
    record.push_u64(MAGIC);
    record.push_u32(counts.version.number());
    record.push_u32(counts.sources);
    record.push_u32(counts.nodes);
    record.push_u32(counts.revisions);
    record.push_u32(counts.rows);
    record.push_u32(counts.splices);
    record.push_u64(counts.pool);
    record
}

/// The record of a source of `size` bytes.
#[tactic(auto, unfolding(image_reader::specs::Spelling::source_spelling, image_reader::specs::Layout::spelled))]
pub fn source_record(size: u64) -> Record
    ensures { result ≡ source_spelling size }
{
    let mut record = Record::new();
    record.push_u64(size);
    record
}

/// The number of a root.
fn number_of_root(root: Rope) -> u32
    ensures { result ≡ root_number root }
{
    match root {
        None => NIL_ROOT,
        Some(node) => node.0,
    }
}

/// The number of a mark.
fn number_of_mark(mark: bool) -> u8
    ensures { result ≡ mark_number mark }
{
    if mark { 1 } else { 0 }
}

/// The record of a revision.
#[tactic(auto, unfolding(image_reader::specs::Spelling::revision_spelling, image_reader::specs::Layout::spelled))]
pub fn revision_record(revision: Revision) -> Record
    ensures value { result ≡ revision_spelling revision }
    ensures fits { FitsRecord revision.edit }
{
    let EditRecord { code, numbers } = revision.edit.recorded();
    let root = number_of_root(revision.root);
    let mut record = Record::new();
    record.push_u8(code);
    record.push_u8(number_of_mark(revision.mark));
    record.push_u16(0);
    record.push_u32(root);
    record.push_u32(numbers.r);
    record.push_u32(numbers.q);
    record.push_u64(numbers.p);
    record.push_u64(numbers.m);
    record.push_u64(numbers.a);
    record.push_u64(numbers.n);
    record.push_u32(revision.rows);
    record.push_u32(0);
    record
}

/// The record of a splice.
#[tactic(auto, unfolding(image_reader::specs::Spelling::splice_spelling, image_reader::specs::Layout::spelled))]
pub fn splice_record(splice: Splice) -> Record
    ensures value { result ≡ splice_spelling splice }
    ensures fits { FitsSplice splice }
{
    let mut record = Record::new();
    record.push_u64(splice.p);
    record.push_u64(splice.m);
    record.push_u64(splice.a);
    record.push_u64(splice.n);
    record
}

/// A row's fields, one after the other.
#[tactic(auto, unfolding(image_reader::specs::Layout::spelled))]
fn row_fields(tag: u8, node: u32, len: u64, start: u64) -> Record
    ensures { result ≡ spelled row_layout (tag ∷ 0 ∷ 0 ∷ node ∷ len ∷ start ∷ []) }
{
    let mut record = Record::new();
    record.push_u8(tag);
    record.push_u8(0);
    record.push_u16(0);
    record.push_u32(node);
    record.push_u64(len);
    record.push_u64(start);
    record
}

/// The record of a row.
#[tactic(auto, unfolding(image_reader::specs::Spelling::row_spelling))]
pub fn row_record(row: Row) -> Record
    ensures value { result ≡ row_spelling row }
    ensures fits { FitsRow row }
{
    match row.kind {
        RowKind::Shared(node, start) => row_fields(SHARED_ROW, node.0, row.len, start),
        RowKind::Leaf => row_fields(LEAF_ROW, 0, row.len, 0),
        RowKind::Bytes => row_fields(BYTES_ROW, 0, row.len, 0),
    }
}
