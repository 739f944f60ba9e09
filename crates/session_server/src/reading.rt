//! Bytes of texts, read.

ghost use Rattle.std.specs.Prelude.{◌≡◌, [], None, ◌+◌, ◌≤◌, IfOk, IfErr, OnOk, length, take, drop};
ghost use Rattle.rope_node.specs.Denotes.{IsRope, rope_len};
ghost use Rattle.lazy_file.specs.Readings.{Reads, fault_by};
ghost use Rattle.cord_position.specs.Fetched.{InCells, ReadsSpan, rope_cell};
ghost use Rattle.cord_search.specs.Stated.{FindsFirst, OfSpan};
ghost use Rattle.edit_commands.specs.Session.{length_at, session_table};
ghost use Rattle.session_server.specs.Answers.{InBytes, IsAskFault, IsAskable, IsInText, FailsToRead, ask_source_fault, revision_root};

use crate::answering::{length_at, root_of};
use crate::fault::AskFault;
use cord_search::{find, gather};
use edit_commands::Session;
use lazy_file::{SourceFault, Sources};
use rope_node::{NodeSpace, Rope};
use std::alloc::Global;

/// Reads the bytes of a rope from a place on, as many as the buffer takes.
fn read_part<S: NodeSpace, T: Sources>(
    space: &S,
    sources: &mut T,
    rope: Rope,
    from: u64,
    buffer: &mut [u8],
) -> Result<(), SourceFault>
    requires rope { IsRope (S.table space.now) rope }
    requires inside { from + length buffer.old ≤ rope_len (S.table space.now) rope }
    ensures length { length buffer.new ≡ length buffer.old }
    ensures bytes { OnOk result (OfSpan (S.table space.now) (T.reading sources.old).stated rope
        from (from + length buffer.old) (λ u. buffer.new ≡ take (length buffer.old) (drop from u))) }
    ensures reads { ReadsSpan (T.reading sources.old) (T.reading sources.new)
        (rope_cell (S.table space.now) rope) from (from + length buffer.old) result }
{
    if buffer.is_empty() {
        return Ok(());
    }
    match rope {
        Some(node) => gather(space, sources, node, from, buffer),
        None => Ok(()),
    }
}

/// The `count` bytes of a rope from a place on.
fn part_of<S: NodeSpace, T: Sources>(
    alloc: Global,
    space: &S,
    sources: &mut T,
    rope: Rope,
    from: u64,
    count: usize,
) -> Result<Vec<u8>, AskFault>
    requires rope { IsRope (S.table space.now) rope }
    requires inside { from + count ≤ rope_len (S.table space.now) rope }
    ensures fault { IfErr result FailsToRead }
    ensures bytes { IfOk result (λ part. OfSpan (S.table space.now) (T.reading sources.old).stated rope
        from (from + count) (λ u. part.items ≡ take count (drop from u))) }
    ensures reads { Reads (T.reading sources.old) (T.reading sources.new)
        (InCells (rope_cell (S.table space.now) rope) from (from + count)) (fault_by ask_source_fault result) }
{
    let mut part = match vec![in alloc; 0; count] {
        Ok(part) => part,
        Err(_) => return Err(AskFault::Memory),
    };
    match read_part(space, sources, rope, from, &mut part) {
        Ok(()) => Ok(part),
        Err(fault) => Err(AskFault::Source(fault)),
    }
}

/// Whether `n` bytes from place `i` on are in the text of revision `r`.
fn are_inside(session: &Session, r: u32, i: u64, n: u64) -> Result<(), AskFault>
    ensures inside { OnOk result (IsInText session.now r (i + n)) }
    ensures fault { IfErr result (IsAskFault session.now r (i + n) []) }
    ensures no_read { IfErr result (λ fault. ask_source_fault fault ≡ None) }
{
    if r >= session.count() {
        return Err(AskFault::NoRevision);
    }
    let len = length_at(session, r);
    if i > len || n > len - i {
        return Err(AskFault::Range);
    }
    Ok(())
}

/// `n` bytes of the text of revision `r` from place `i` on.
///
/// # Errors
///
/// `NoRevision`, `Range`, `Source`, where a read of a source failed, and `Memory`.
#[tactic(auto, using(crate::proofs::Faults::as_asked))]
pub(crate) fn bytes_of<T: Sources>(
    alloc: Global,
    session: &Session,
    sources: &mut T,
    r: u32,
    i: u64,
    n: u64,
) -> Result<Vec<u8>, AskFault>
    ensures inside { OnOk result (IsInText session.now r (i + n)) }
    ensures bytes { IfOk result (λ part. OfSpan (session_table session.now) (T.reading sources.old).stated
        (revision_root session.now r) i (i + n) (λ u. part.items ≡ take n (drop i u))) }
    ensures fault { IfErr result (IsAskFault session.now r (i + n) []) }
    ensures reads { Reads (T.reading sources.old) (T.reading sources.new) (InBytes session.now r i (i + n))
        (fault_by ask_source_fault result) }
{
    are_inside(session, r, i, n)?;
    let root = root_of(session, r);
    part_of(alloc, session.space(), sources, root, i, n as usize)
}

/// The first place from `i` on at which a pattern stands in the text of revision `r`.
///
/// # Errors
///
/// `NoRevision`, `Range`, `PatternTooLong`, `Source`, where a read of a source failed, and `Memory`.
pub(crate) fn place_of<T: Sources>(
    alloc: Global,
    session: &Session,
    sources: &mut T,
    r: u32,
    i: u64,
    pattern: &[u8],
) -> Result<Option<u64>, AskFault>
    ensures askable { OnOk result (IsAskable session.now r i pattern.now) }
    ensures found { IfOk result (FindsFirst (session_table session.now) (T.reading sources.old).stated
        (revision_root session.now r) pattern.now i) }
    ensures fault { IfErr result (IsAskFault session.now r i pattern.now) }
    ensures reads { Reads (T.reading sources.old) (T.reading sources.new)
        (InBytes session.now r i (length_at session.now r)) (fault_by ask_source_fault result) }
{
    if r >= session.count() {
        return Err(AskFault::NoRevision);
    }
    if i > length_at(session, r) {
        return Err(AskFault::Range);
    }
    let root = root_of(session, r);
    match find(alloc, session.space(), sources, root, i, pattern) {
        Ok(found) => Ok(found),
        Err(fault) => Err(AskFault::from(fault)),
    }
}
