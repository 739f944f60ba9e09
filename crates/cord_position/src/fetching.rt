//! The byte at a place of a rope, by one descent.

ghost use Rattle.std.specs.Prelude.{◌≡◌, ◌↔◌, ◌<◌, ◌≤◌, ◌+◌, IfOk, IsSome};
ghost use Rattle.rope_node.specs.Denotes.{rope_len, rope_depth, IsRope};
ghost use Rattle.rope_node.specs.Path.{rope_visits};
ghost use Rattle.cord_position.specs.Fetched.{IsFetched, ReadsSpan, rope_cell};
ghost use Rattle.cord_position.specs.Steps.{IsHere, IsRunAt};

use crate::leaf::leaf_byte;
use crate::path::Step;
use lazy_file::{SourceFault, Sources};
use leaf_buffer::Run;
use rope_node::{NodeSpace, Rope, find_leaf};

/// The byte at `i` of a rope, and how many nodes were visited for it, from the root to the leaf. At the end and past
/// it, no byte and no node. It takes no memory of its own.
///
/// # Errors
///
/// A source's fault, where the byte is one of that source and the read of it failed.
pub fn fetch<S: NodeSpace, T: Sources>(
    space: &S,
    sources: &mut T,
    rope: Rope,
    i: u64,
) -> Result<(Option<u8>, u32), SourceFault>
    requires { IsRope (S.table space.now) rope }
    ensures byte { IfOk result
        (λ x. IsFetched (S.table space.now) (T.reading sources.old).stated rope i x.0) }
    ensures inside { IfOk result (λ x. IsSome x.0 ↔ i < rope_len (S.table space.now) rope) }
    ensures visits { IfOk result (λ x. x.1 ≡ rope_visits (S.table space.now) rope i) }
    ensures few { IfOk result (λ x. x.1 ≤ rope_depth (S.table space.now) rope + 1) }
    ensures reads { ReadsSpan (T.reading sources.old) (T.reading sources.new)
        (rope_cell (S.table space.now) rope) i (i + 1) result }
{
    match rope {
        Some(node) if i < space.len(node) => {
            let found = find_leaf(space, node, i);
            let byte = leaf_byte(space, sources, found.leaf, found.start)?;
            Ok((Some(byte), found.visits))
        }
        _ => Ok((None, 0)),
    }
}

/// The byte at a place of a rope, by the step that holds the place; at the end, none.
///
/// # Errors
///
/// A source's fault, where the byte is one of that source and the read of it failed.
#[inline]
pub fn fetch_here<S: NodeSpace, T: Sources>(
    space: &S,
    sources: &mut T,
    rope: Rope,
    here: Step,
    run: &Run<'_>,
    place: u64,
) -> Result<Option<u8>, SourceFault>
    requires here { IsHere (S.table space.now) rope place here }
    requires run { IsRunAt (S.table space.now) here place run.now }
    ensures byte { IfOk result
        (IsFetched (S.table space.now) (T.reading sources.old).stated rope place) }
    ensures inside { IfOk result
        (λ found. IsSome found ↔ place < rope_len (S.table space.now) rope) }
    ensures reads { ReadsSpan (T.reading sources.old) (T.reading sources.new)
        (rope_cell (S.table space.now) rope) place (place + 1) result }
{
    if let Some(byte) = run.peek() {
        return Ok(Some(byte));
    }
    let offset = place - here.first;
    if offset >= here.len {
        return Ok(None);
    }
    let byte = leaf_byte(space, sources, here.node, here.skipped + offset)?;
    Ok(Some(byte))
}
