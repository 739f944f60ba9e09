//! What single records of sources, revisions and rows say.

ghost use Rattle.std.specs.Prelude.{◌≡◌, ◌+◌, ◌*◌, ◌≤◌, length};
ghost use Rattle.image_reader.specs.declared.layout.TheConstants.{REVISION_SIZE, ROW_SIZE, SOURCE_SIZE, SPLICE_SIZE};
ghost use Rattle.image_reader.specs.Reading.{source_of, root_by_number, root_in, is_marked, revision_of, splice_of, splice_count_in, row_kind_of, row_of, counted_rows, counted_splices};

use crate::codes::{LEAF_ROW, SHARED_ROW};
use crate::command::numbers_in;
use crate::layout::REVISION_SIZE;
use crate::number::{u8_in, u32_in, u64_in};
use crate::revision::Revision;
use command_parts::codes::MANY;
use command_parts::{Edit, Splice};
use rope_node::{NodeId, Rope};
use span_certificate::{Row, RowKind};

/// The length of a source.
#[tactic(auto, unfolding(crate::specs::Reading::source_of))]
pub fn source_in(bytes: &[u8]) -> u64
    requires { length bytes.now ≡ SOURCE_SIZE }
    ensures { result ≡ source_of bytes.now }
{
    u64_in(bytes, 0)
}

/// The root that stands for nil.
pub const NIL_ROOT: u32 = u32::MAX;

/// The root that a record names by this number.
fn root_by(number: u32) -> Rope
    ensures { result ≡ root_by_number number }
{
    if number == NIL_ROOT {
        None
    } else {
        Some(NodeId(number))
    }
}

/// The root of a revision.
pub fn root_in(bytes: &[u8]) -> Rope
    requires { length bytes.now ≡ REVISION_SIZE }
    ensures { result ≡ root_in bytes.now }
{
    root_by(u32_in(bytes, 4))
}

/// Whether a revision is marked as balanced.
pub fn mark_in(bytes: &[u8]) -> bool
    requires { length bytes.now ≡ REVISION_SIZE }
    ensures { result ≡ is_marked bytes.now }
{
    u8_in(bytes, 1) == 1
}

/// What a revision is, where the revisions before it have `first` splices.
#[tactic(auto, unfolding(crate::specs::Reading::revision_of))]
pub fn revision_in(first: u32, bytes: &[u8]) -> Revision
    requires { length bytes.now ≡ REVISION_SIZE }
    ensures { result ≡ revision_of first bytes.now }
{
    Revision {
        edit: Edit::of_code(first, u8_in(bytes, 0), numbers_in(bytes)),
        mark: mark_in(bytes),
        root: root_in(bytes),
        rows: u32_in(bytes, 48),
    }
}

/// What a splice is.
#[tactic(auto, unfolding(crate::specs::Reading::splice_of))]
pub fn splice_in(bytes: &[u8]) -> Splice
    requires { length bytes.now ≡ SPLICE_SIZE }
    ensures { result ≡ splice_of bytes.now }
{
    Splice {
        p: u64_in(bytes, 0),
        m: u64_in(bytes, 8),
        a: u64_in(bytes, 16),
        n: u64_in(bytes, 24),
    }
}

/// How many splices a revision has.
pub fn splices_in(bytes: &[u8]) -> u32
    requires { length bytes.now ≡ REVISION_SIZE }
    ensures { result ≡ splice_count_in bytes.now }
{
    if u8_in(bytes, 0) == MANY {
        u32_in(bytes, 12)
    } else {
        0
    }
}

/// The kind of a row.
fn row_kind_in(bytes: &[u8]) -> RowKind
    requires { length bytes.now ≡ ROW_SIZE }
    ensures { result ≡ row_kind_of bytes.now }
{
    match u8_in(bytes, 0) {
        SHARED_ROW => RowKind::Shared(NodeId(u32_in(bytes, 4)), u64_in(bytes, 16)),
        LEAF_ROW => RowKind::Leaf,
        _ => RowKind::Bytes,
    }
}

/// What a row is.
#[tactic(auto, unfolding(crate::specs::Reading::row_of))]
pub fn row_in(bytes: &[u8]) -> Row
    requires { length bytes.now ≡ ROW_SIZE }
    ensures { result ≡ row_of bytes.now }
{
    Row {
        len: u64_in(bytes, 8),
        kind: row_kind_in(bytes),
    }
}

/// The rows that `count` revisions have in all.
pub fn counted_rows(count: u32, bytes: &[u8]) -> u64
    requires { REVISION_SIZE * count ≤ length bytes.now }
    ensures { result ≡ counted_rows count bytes.now }
{
    let mut rest = bytes;
    let mut sum: u64 = 0;
    for _ in 0..count {
        let (front, after) = rest.split_at(REVISION_SIZE);
        sum += u32_in(front, 48) as u64;
        rest = after;
    }
    sum
}

/// The splices that `count` revisions have in all.
pub fn counted_splices(count: u32, bytes: &[u8]) -> u64
    requires { REVISION_SIZE * count ≤ length bytes.now }
    ensures { result ≡ counted_splices count bytes.now }
{
    let mut rest = bytes;
    let mut sum: u64 = 0;
    for _ in 0..count {
        let (front, after) = rest.split_at(REVISION_SIZE);
        sum += splices_in(front) as u64;
        rest = after;
    }
    sum
}
