//! Sections of records: each record of a kind has one size and one test.

ghost use Rattle.std.specs.Prelude.{◌≡◌, ◌*◌, ◌≤◌, ◌<◌, ℕ, List, length, Option};
ghost use Rattle.std.specs.Result.{result_err};
ghost use Rattle.image_reader.specs.declared.fault.ReadFault.{ReadFault};
ghost use Rattle.image_reader.specs.declared.layout.TheConstants.{NODE_SIZE, REVISION_SIZE, ROW_SIZE, SOURCE_SIZE};
ghost use Rattle.image_reader.specs.Versions.{last_code};
ghost use Rattle.command_parts.specs.declared.codes.TheConstants.{BALANCE, MANY};
ghost use Rattle.image_reader.specs.Layout.{records};
ghost use Rattle.image_reader.specs.Reading.{source_record_fault, node_record_fault, revision_record_fault, row_record_fault, first_fault, any_nonzero, unused_in_revision, unused_in_row, sections_fault, whole_len, AreSections, HasEnoughBytes};

use crate::codes::{BYTES_ROW, SHARED_ROW};
use crate::command::{has_unused_number, numbers_in};
use crate::decode::{counted_rows, counted_splices};
use crate::fault::ReadFault;
use crate::header::Header;
use crate::layout::{HEADER_SIZE, NODE_SIZE, REVISION_SIZE, ROW_SIZE, SOURCE_SIZE, SPLICE_SIZE};
use crate::node::{has_unused_node_field, is_unknown_node};
use crate::number::{bytes_from, u8_in, u16_in, u32_in, u64_in};
use crate::version::FormatVersion;
use command_parts::codes::NEW;
use rope_node::TEXT_LIMIT;

/// A kind of record.
pub trait RecordKind {
    const SIZE: usize;

    ghost SIZE: { ℕ };

    ghost fault: { List ℕ → Option ReadFault };

    /// Refuses a record that has a fault.
    fn check(bytes: &[u8]) -> Result<(), ReadFault>
        requires { length bytes.now ≡ SIZE }
        ensures { result_err result ≡ fault bytes.now };
}

/// Refuses a section of `count` records where one of them has a fault: the first one's.
pub fn check_each<R: RecordKind>(count: u32, bytes: &[u8]) -> Result<(), ReadFault>
    requires { R.SIZE * count ≤ length bytes.now }
    ensures { result_err result ≡ first_fault R.fault (records R.SIZE count bytes.now) }
{
    let mut rest = bytes;
    for _ in 0..count {
        let (front, after) = rest.split_at(R::SIZE);
        R::check(front)?;
        rest = after;
    }
    Ok(())
}

/// The bytes from each section on.
#[derive(Clone, Copy)]
pub struct Sections<'a> {
    pub sources: &'a [u8],
    pub nodes: &'a [u8],
    pub revisions: &'a [u8],
    pub splices: &'a [u8],
    pub rows: &'a [u8],
    pub pool: &'a [u8],
}

/// Cuts bytes, as many as their header states, into sections.
pub fn sections_of<'a>(header: &Header, bytes: &'a [u8]) -> Sections<'a>
    requires { length bytes.now ≡ whole_len header.now }
    ensures sections { AreSections header.now bytes.now result }
    ensures pool { length result.pool.now ≤ length result.sources.now }
    ensures room { HasEnoughBytes header.now result }
{
    let sources = bytes_from(bytes, HEADER_SIZE);
    let nodes = bytes_from(sources, SOURCE_SIZE * header.sources as usize);
    let revisions = bytes_from(nodes, NODE_SIZE * header.nodes as usize);
    let splices = bytes_from(revisions, REVISION_SIZE * header.revisions as usize);
    let rows = bytes_from(splices, SPLICE_SIZE * header.splices as usize);
    let pool = bytes_from(rows, ROW_SIZE * header.rows as usize);
    Sections {
        sources,
        nodes,
        revisions,
        splices,
        rows,
        pool,
    }
}

/// Refuses sections with a fault: the first one's, section by section.
#[tactic(auto, unfolding(crate::specs::Reading::sections_fault))]
pub fn check_sections(header: &Header, sections: &Sections) -> Result<(), ReadFault>
    requires { HasEnoughBytes header.now sections.now }
    ensures { result_err result ≡ sections_fault header.now.version header.now.sources sections.now.sources.now
        header.now.nodes sections.now.nodes.now header.now.revisions sections.now.revisions.now
        header.now.splices header.now.rows sections.now.rows.now }
{
    check_each::<SourceRecords>(header.sources, sections.sources)?;
    check_each::<NodeRecords>(header.nodes, sections.nodes)?;
    check_revisions(header.version, header.revisions, sections.revisions)?;
    if counted_rows(header.revisions, sections.revisions) != header.rows as u64 {
        return Err(ReadFault::Count);
    }
    if counted_splices(header.revisions, sections.revisions) != header.splices as u64 {
        return Err(ReadFault::Count);
    }
    check_each::<RowRecords>(header.rows, sections.rows)
}

/// The records of sources.
pub struct SourceRecords;

impl RecordKind for SourceRecords {
    const SIZE: usize = SOURCE_SIZE;

    ghost SIZE = { SOURCE_SIZE };

    ghost fault = { source_record_fault };

    #[tactic(auto, unfolding(crate::specs::Reading::source_record_fault))]
    fn check(bytes: &[u8]) -> Result<(), ReadFault> {
        if u64_in(bytes, 0) >= TEXT_LIMIT {
            return Err(ReadFault::Count);
        }
        Ok(())
    }
}

/// The records of nodes.
pub struct NodeRecords;

impl RecordKind for NodeRecords {
    const SIZE: usize = NODE_SIZE;

    ghost SIZE = { NODE_SIZE };

    ghost fault = { node_record_fault };

    #[tactic(auto, unfolding(crate::specs::Reading::node_record_fault))]
    fn check(bytes: &[u8]) -> Result<(), ReadFault> {
        if is_unknown_node(bytes) {
            return Err(ReadFault::Kind);
        }
        if has_unused_node_field(bytes) {
            return Err(ReadFault::NonZeroPad);
        }
        Ok(())
    }
}

/// Refuses the revisions of a version where one of them has a fault: the first one's.
fn check_revisions(version: FormatVersion, count: u32, bytes: &[u8]) -> Result<(), ReadFault>
    requires { REVISION_SIZE * count ≤ length bytes.now }
    ensures { result_err result ≡ first_fault (revision_record_fault (last_code version))
        (records REVISION_SIZE count bytes.now) }
{
    match version {
        FormatVersion::One => check_each::<RevisionRecords>(count, bytes),
        FormatVersion::Two => check_each::<SplicedRevisionRecords>(count, bytes),
    }
}

/// The records of revisions in version 1.
pub struct RevisionRecords;

impl RecordKind for RevisionRecords {
    const SIZE: usize = REVISION_SIZE;

    ghost SIZE = { REVISION_SIZE };

    ghost fault = { revision_record_fault BALANCE };

    fn check(bytes: &[u8]) -> Result<(), ReadFault> {
        check_revision(FormatVersion::One.last_code(), bytes)
    }
}

/// The records of revisions in version 2.
pub struct SplicedRevisionRecords;

impl RecordKind for SplicedRevisionRecords {
    const SIZE: usize = REVISION_SIZE;

    ghost SIZE = { REVISION_SIZE };

    ghost fault = { revision_record_fault MANY };

    fn check(bytes: &[u8]) -> Result<(), ReadFault> {
        check_revision(FormatVersion::Two.last_code(), bytes)
    }
}

/// Refuses a revision that has a fault, where `last` is the highest code of a command.
#[tactic(auto, unfolding(crate::specs::Reading::revision_record_fault))]
fn check_revision(last: u8, bytes: &[u8]) -> Result<(), ReadFault>
    requires { length bytes.now ≡ REVISION_SIZE }
    ensures { result_err result ≡ revision_record_fault last bytes.now }
{
    let code = u8_in(bytes, 0);
    if code < NEW || code > last || u8_in(bytes, 1) > 1 {
        return Err(ReadFault::Kind);
    }
    if has_unused_revision_field(bytes) {
        return Err(ReadFault::NonZeroPad);
    }
    Ok(())
}

/// Whether a field that this command does not use, or no revision, is not zero.
fn has_unused_revision_field(bytes: &[u8]) -> bool
    requires { length bytes.now ≡ REVISION_SIZE }
    ensures { result ≡ any_nonzero (unused_in_revision bytes.now) }
{
    u16_in(bytes, 2) != 0
        || u32_in(bytes, 52) != 0
        || has_unused_number(u8_in(bytes, 0), numbers_in(bytes))
}

/// The records of certificate rows.
pub struct RowRecords;

impl RecordKind for RowRecords {
    const SIZE: usize = ROW_SIZE;

    ghost SIZE = { ROW_SIZE };

    ghost fault = { row_record_fault };

    #[tactic(auto, unfolding(crate::specs::Reading::row_record_fault))]
    fn check(bytes: &[u8]) -> Result<(), ReadFault> {
        let tag = u8_in(bytes, 0);
        if tag < SHARED_ROW || tag > BYTES_ROW {
            return Err(ReadFault::Kind);
        }
        if has_unused_row_field(bytes) {
            return Err(ReadFault::NonZeroPad);
        }
        Ok(())
    }
}

/// Whether a field that a row of this tag does not use, or no row, is not zero.
fn has_unused_row_field(bytes: &[u8]) -> bool
    requires { length bytes.now ≡ ROW_SIZE }
    ensures { result ≡ any_nonzero (unused_in_row bytes.now) }
{
    if u8_in(bytes, 1) != 0 || u16_in(bytes, 2) != 0 {
        return true;
    }
    u8_in(bytes, 0) != SHARED_ROW && (u32_in(bytes, 4) != 0 || u64_in(bytes, 16) != 0)
}
