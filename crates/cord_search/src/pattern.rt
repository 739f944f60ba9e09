//! The first place of a pattern.

ghost use Rattle.std.specs.Prelude.{◌≡◌, ◌↔◌, ◌<◌, ◌≤◌, ℕ, [], length, IfOk, IsErrOf, IsOk};
ghost use Rattle.rope_node.specs.Denotes.{IsRope, rope_cells, rope_len, text};
ghost use Rattle.lazy_file.specs.Readings.{fault_by, Reads};
ghost use Rattle.cord_position.specs.Fetched.{InCells, ReadsSpan, rope_cell};
ghost use Rattle.cord_search.specs.Places.{IsFirst, IsFromOn};
ghost use Rattle.cord_search.specs.declared.pattern.TheConstants.{PATTERN_LIMIT};
ghost use Rattle.cord_search.specs.Seeking.{IsSeeker};
ghost use Rattle.cord_search.specs.Stated.{FindsFirst};
ghost use Rattle.cord_search.specs.Faults.{find_source_fault};

use crate::fault::FindFault;
use crate::look::look_in;
use crate::runs::WINDOW;
use crate::seeker::Seeker;
use lazy_file::{SourceFault, Sources};
use rope_node::{NodeSpace, Rope, Span, rope_len};
use std::alloc::Global;

/// The most bytes in a pattern.
pub const PATTERN_LIMIT: usize = 4096;

/// The first place from `start` on, which is `start` itself unless the text ends before it.
fn find_empty<S: NodeSpace>(space: &S, x: Rope, start: u64) -> Option<u64>
    requires { IsRope (S.table space.now) x }
    ensures inside { IsFromOn [] start (rope_len (S.table space.now) x) result }
    ensures found { (source : ℕ → ℕ → ℕ)
        → IsFirst [] (text source (rope_cells (S.table space.now) x)) start result }
{
    if start > rope_len(space, x) {
        return None;
    }
    Some(start)
}

/// The first place from `start` on at which the pattern stands, leaf by leaf.
fn find_some<S: NodeSpace, T: Sources>(
    space: &S,
    sources: &mut T,
    x: Rope,
    start: u64,
    mut seeker: Seeker<'_>,
) -> Result<Option<u64>, SourceFault>
    requires rope { IsRope (S.table space.now) x }
    requires kept { IsSeeker seeker }
    requires begun { (seeker.place ≡ start) × (seeker.ring.items ≡ []) }
    ensures inside { IfOk result (IsFromOn seeker.entry.finder start (rope_len (S.table space.now) x)) }
    ensures found { IfOk result
        (FindsFirst (S.table space.now) (T.reading sources.old).stated x seeker.entry.finder start) }
    ensures reads { ReadsSpan (T.reading sources.old) (T.reading sources.new)
        (rope_cell (S.table space.now) x) start (rope_len (S.table space.now) x) result }
{
    let len = rope_len(space, x);
    if start >= len {
        return Ok(None);
    }
    let mut buffer = [0; WINDOW];
    match x {
        Some(root) => {
            let rest = Span {
                node: root,
                start,
                len: len - start,
            };
            if let Some(found) = look_in(space, sources, rest, &mut seeker, &mut buffer)? {
                return Ok(Some(found));
            }
            Ok(seeker.search_ring())
        }
        None => unreachable!(),
    }
}

/// The first place from `start` on at which the pattern stands.
/// An empty pattern stands at each place up to the text's end.
///
/// # Errors
///
/// `PatternTooLong` for a pattern longer than `PATTERN_LIMIT`. `Memory` where the ring for a pattern of some bytes is
/// refused. A source's fault, where a byte is one of that source and the read of it failed.
pub fn find<S: NodeSpace, T: Sources>(
    alloc: Global,
    space: &S,
    sources: &mut T,
    x: Rope,
    start: u64,
    pattern: &[u8],
) -> Result<Option<u64>, FindFault>
    requires { IsRope (S.table space.now) x }
    ensures too_long { IsErrOf result FindFault.PatternTooLong
        ↔ (PATTERN_LIMIT < length pattern.now) }
    ensures inside { IfOk result (IsFromOn pattern.now start (rope_len (S.table space.now) x)) }
    ensures found { IfOk result
        (FindsFirst (S.table space.now) (T.reading sources.old).stated x pattern.now start) }
    ensures reads { Reads (T.reading sources.old) (T.reading sources.new)
        (InCells (rope_cell (S.table space.now) x) start (rope_len (S.table space.now) x))
        (fault_by find_source_fault result) }
    ensures empty { pattern.now ≡ [] → IsOk result }
{
    if pattern.len() > PATTERN_LIMIT {
        return Err(FindFault::PatternTooLong);
    }
    if pattern.is_empty() {
        return Ok(find_empty(space, x, start));
    }
    let seeker = Seeker::new(alloc, pattern, start)?;
    Ok(find_some(space, sources, x, start, seeker)?)
}
