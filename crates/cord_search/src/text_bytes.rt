//! A text's bytes one by one.

ghost use Rattle.std.specs.Prelude.{◌↔◌, ◌<◌, ◌+◌, IfOk, IsSome};
ghost use Rattle.rope_node.specs.Denotes.{IsRope, rope_len};
ghost use Rattle.cord_position.specs.Fetched.{IsFetched, ReadsSpan, rope_cell};
ghost use Rattle.cord_search.specs.Reached.{StandsAtPlace};

use cord_position::Pos;
use lazy_file::{SourceFault, Sources};
use rope_node::{NodeSpace, Rope, rope_len};

/// The byte at a place, if the text goes so far, by a position that stands there, or at the end.
///
/// # Errors
///
/// A source's fault, where the byte is one of that source and the read of it failed.
#[inline]
pub fn byte_at<S: NodeSpace, T: Sources>(
    pos: &Pos<'_, S>,
    space: &S,
    sources: &mut T,
    rope: Rope,
    place: u64,
) -> Result<Option<u8>, SourceFault>
    requires rope { IsRope (S.table space.now) rope }
    requires here { StandsAtPlace S.table pos.now space.now rope place }
    ensures byte { IfOk result (IsFetched (S.table space.now) (T.reading sources.old).stated rope place) }
    ensures inside { IfOk result (λ found. IsSome found ↔ place < rope_len (S.table space.now) rope) }
    ensures reads { ReadsSpan (T.reading sources.old) (T.reading sources.new)
        (rope_cell (S.table space.now) rope) place (place + 1) result }
{
    // No text is longer than a text may be, as its length says.
    let _len = rope_len(space, rope);
    pos.fetch(sources)
}
