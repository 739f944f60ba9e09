//! The header of an image.

ghost use Rattle.std.specs.Prelude.{◌≡◌, ◌+◌, ◌≤◌, length, IfOk};
ghost use Rattle.std.specs.Result.{result_err};
ghost use Rattle.image_reader.specs.Reading.{front_fault, header_fault, judged_len, whole_len, HasHeader, JudgesAll};

use crate::fault::ReadFault;
use crate::layout::{HEADER_SIZE, NODE_SIZE, REVISION_SIZE, ROW_SIZE, SOURCE_SIZE, SPLICE_SIZE};
use crate::number::{u32_in, u64_in};
use crate::version::{FormatVersion, VERSION_ONE, VERSION_TWO, version_by};
use command_parts::{MOST_REVISIONS, SPLICES_LIMIT};
use leaf_buffer::POOL_LIMIT;
use rope_node::{MOST_NODES, MOST_SOURCES};
use span_certificate::ROWS_LIMIT;

/// The version, how many records each section has, and how long the pool is.
#[derive(Clone, Copy)]
pub struct Header {
    pub version: FormatVersion,
    pub sources: u32,
    pub nodes: u32,
    pub revisions: u32,
    pub splices: u32,
    pub rows: u32,
    pub pool: u64,
}

/// `CORDSESS` as a number of eight bytes.
pub const MAGIC: u64 = 0x434f_5244_5345_5353;

/// The most bytes of a pool.
pub const MOST_POOL: u64 = POOL_LIMIT - 1;

/// The most bytes of an image: it has as many records of each kind, and of bytes of the pool, as there may be.
pub const LONGEST_IMAGE: u64 = HEADER_SIZE as u64
    + SOURCE_SIZE as u64 * MOST_SOURCES as u64
    + NODE_SIZE as u64 * MOST_NODES as u64
    + REVISION_SIZE as u64 * MOST_REVISIONS as u64
    + SPLICE_SIZE as u64 * SPLICES_LIMIT as u64
    + ROW_SIZE as u64 * ROWS_LIMIT as u64
    + MOST_POOL;

/// The numbers of a header that has no fault by itself.
#[tactic(auto, unfolding(crate::specs::Reading::front_fault))]
fn read_front(bytes: &[u8]) -> Result<Header, ReadFault>
    requires { HEADER_SIZE ≤ length bytes.now }
    ensures fault { result_err result ≡ front_fault bytes.now }
    ensures numbers { IfOk result (HasHeader bytes.now) }
    ensures pool { IfOk result (λ h. h.pool ≤ MOST_POOL) }
{
    if u64_in(bytes, 0) != MAGIC {
        return Err(ReadFault::Magic);
    }
    let number = u32_in(bytes, 8);
    if number != VERSION_ONE && number != VERSION_TWO {
        return Err(ReadFault::Version);
    }
    let header = Header {
        version: version_by(number),
        sources: u32_in(bytes, 12),
        nodes: u32_in(bytes, 16),
        revisions: u32_in(bytes, 20),
        splices: u32_in(bytes, 28),
        rows: u32_in(bytes, 24),
        pool: u64_in(bytes, 32),
    };
    if header.is_over_limit() {
        return Err(ReadFault::Count);
    }
    if !header.version.has_splices() && header.splices != 0 {
        return Err(ReadFault::NonZeroPad);
    }
    Ok(header)
}

/// The numbers of the header, where it has no fault and the bytes are as many as it states.
#[tactic(auto, unfolding(crate::specs::Reading::header_fault, crate::specs::Reading::stated_len))]
pub fn read_header(bytes: &[u8]) -> Result<Header, ReadFault>
    ensures fault { result_err result ≡ header_fault bytes.now }
    ensures numbers { IfOk result (HasHeader bytes.now) }
    ensures whole { IfOk result (λ h. length bytes.now ≡ whole_len h) }
{
    if bytes.len() < HEADER_SIZE {
        return Err(ReadFault::Truncated);
    }
    let header = read_front(bytes)?;
    let stated = header.stated_len();
    if (bytes.len() as u64) < stated {
        return Err(ReadFault::Truncated);
    }
    if (bytes.len() as u64) > stated {
        return Err(ReadFault::Trailing);
    }
    Ok(header)
}

/// How many bytes of an image are judged, by its header: those of the header, where that has a fault by itself, else
/// one more than it states. No byte behind them changes whether it is an image, nor its first fault.
pub fn judged_len(header: &[u8]) -> u64
    requires { length header.now ≡ HEADER_SIZE }
    ensures value { result ≡ judged_len header.now }
    ensures all { JudgesAll result header.now }
    ensures limits { (HEADER_SIZE ≤ result) × (result ≤ LONGEST_IMAGE + 1) }
{
    match read_front(header) {
        Ok(header) => header.stated_len() + 1,
        Err(_) => HEADER_SIZE as u64,
    }
}

impl Header {
    ghost use Rattle.std.specs.Prelude.{◌≡◌, ◌≤◌, ◌||◌, ◌&&◌, nat_lt};
    ghost use Rattle.command_parts.specs.declared.edit.TheConstants.{MOST_REVISIONS, SPLICES_LIMIT};
    ghost use Rattle.image_reader.specs.Reading.{whole_len};
    ghost use Rattle.image_reader.specs.Versions.{is_two};
    ghost use Rattle.image_reader.specs.declared.header.TheConstants.{MOST_POOL};
    ghost use Rattle.span_certificate.specs.declared.making.TheConstants.{ROWS_LIMIT};
    ghost use Rattle.rope_node.specs.declared.limits.TheConstants.{MOST_NODES, MOST_SOURCES};

    /// Whether a number is over its limit.
    fn is_over_limit(&self) -> bool
        ensures { result ≡ (nat_lt MOST_SOURCES self.now.sources || (nat_lt MOST_NODES self.now.nodes
            || (nat_lt MOST_REVISIONS self.now.revisions || (nat_lt ROWS_LIMIT self.now.rows
            || ((is_two self.now.version && nat_lt SPLICES_LIMIT self.now.splices)
            || nat_lt MOST_POOL self.now.pool))))) }
    {
        self.sources > MOST_SOURCES
            || self.nodes > MOST_NODES
            || self.revisions > MOST_REVISIONS
            || self.rows as usize > ROWS_LIMIT
            || (self.version.has_splices() && self.splices as usize > SPLICES_LIMIT)
            || self.pool > MOST_POOL
    }

    /// The length of the whole image, in bytes.
    fn stated_len(&self) -> u64
        requires { self.now.pool ≤ MOST_POOL }
        ensures { result ≡ whole_len self.now }
    {
        HEADER_SIZE as u64
            + SOURCE_SIZE as u64 * self.sources as u64
            + NODE_SIZE as u64 * self.nodes as u64
            + REVISION_SIZE as u64 * self.revisions as u64
            + SPLICE_SIZE as u64 * self.splices as u64
            + ROW_SIZE as u64 * self.rows as u64
            + self.pool
    }
}
