//! A search goes through a rope, leaf by leaf.

ghost use Rattle.std.specs.Prelude.{◌≡◌, ◌+◌, ◌^◌, ◌<◌, ◌≤◌, ℕ, None, Some, Ok, length, IfOk, IfSome};
ghost use Rattle.rope_node.specs.declared.node.NodeId.{NodeId};
ghost use Rattle.rope_node.specs.Table.{view_at, len_at, IsLeaf};
ghost use Rattle.rope_node.specs.Denotes.{cell_at};
ghost use Rattle.cord_position.specs.Fetched.{ReadsSpan};
ghost use Rattle.cord_search.specs.Seeking.{IsLeafPeriod, IsSeeker, IsSeeking, IsSought};
ghost use Rattle.rope_node.specs.Steps.{IsSpan, SameCells};

use crate::seeker::Seeker;
use cord_position::fill_part;
use lazy_file::{SourceFault, Sources};
use rope_node::{NodeId, NodeSpace, NodeView, Span, StepDown, step_down};

/// Hands the search `len` bytes of a leaf, from its byte `start` on, as many at once as the buffer takes. Where the
/// leaf repeats after `period` bytes, only its first and last ones are handed over.
fn look_in_leaf<S: NodeSpace, T: Sources>(
    space: &S,
    sources: &mut T,
    leaf: NodeId,
    start: u64,
    len: u64,
    period: Option<u64>,
    seeker: &mut Seeker<'_>,
    buffer: &mut [u8],
) -> Result<Option<u64>, SourceFault>
    requires there { leaf.0 < length (S.table space.now).nodes }
    requires leaf { IsLeaf (view_at (S.table space.now) leaf.0) }
    requires inside { start + len ≤ len_at (S.table space.now) leaf.0 }
    requires repeats { IfSome period (IsLeafPeriod (S.table space.now) leaf) }
    requires kept { IsSeeker seeker.old }
    requires limit { seeker.old.place + len < 2 ^ 64 }
    requires room { 1 ≤ length buffer.old }
    ensures kept { IsSeeker seeker.new }
    ensures pattern { seeker.new.finder ≡ seeker.old.finder }
    ensures place { result ≡ Ok None → seeker.new.place ≡ seeker.old.place + len }
    ensures sought { (x : NodeId) (begin : ℕ)
        → SameCells (S.table space.now) x leaf seeker.old.place start len
        → IsSeeking (S.table space.now) (T.reading sources.old).stated (Some x) begin seeker.old
        → IfOk result (IsSought (S.table space.now) (T.reading sources.old).stated (Some x) begin seeker.new) }
    ensures reads { ReadsSpan (T.reading sources.old) (T.reading sources.new)
        (cell_at (S.table space.now) leaf.0) start (start + len) result }
{
    // No leaf is longer than a text may be, as its length says.
    let _limit = space.len(leaf);
    let first = seeker.place();
    let mut done = 0;
    'leaf: while done < len {
        let n = (len - done).min(buffer.len() as u64) as usize;
        let part = &mut buffer[..n];
        fill_part(space, sources, leaf, start + done, part)?;
        if let Some(found) = seeker.take(part) {
            return Ok(Some(found));
        }
        done = seeker.skip_repeats(first, len, period);
    }
    Ok(None)
}

/// Hands the search a span's bytes, leaf by leaf. It goes down by calls of itself.
pub fn look_in<S: NodeSpace, T: Sources>(
    space: &S,
    sources: &mut T,
    span: Span,
    seeker: &mut Seeker<'_>,
    buffer: &mut [u8],
) -> Result<Option<u64>, SourceFault>
    requires span { IsSpan (S.table space.now) span }
    requires kept { IsSeeker seeker.old }
    requires limit { seeker.old.place + span.len < 2 ^ 64 }
    requires room { 1 ≤ length buffer.old }
    ensures kept { IsSeeker seeker.new }
    ensures pattern { seeker.new.finder ≡ seeker.old.finder }
    ensures place { result ≡ Ok None → seeker.new.place ≡ seeker.old.place + span.len }
    ensures sought { (x : NodeId) (begin : ℕ)
        → SameCells (S.table space.now) x span.node seeker.old.place span.start span.len
        → IsSeeking (S.table space.now) (T.reading sources.old).stated (Some x) begin seeker.old
        → IfOk result (IsSought (S.table space.now) (T.reading sources.old).stated (Some x) begin seeker.new) }
    ensures reads { ReadsSpan (T.reading sources.old) (T.reading sources.new)
        (cell_at (S.table space.now) span.node.0) span.start (span.start + span.len) result }
{
    let view = space.node(span.node);
    match step_down(space, span, view, span.len) {
        StepDown::Below(below) => look_in(space, sources, below, seeker, buffer),
        StepDown::Across(first, others) => {
            if let Some(found) = look_in(space, sources, first, seeker, buffer)? {
                return Ok(Some(found));
            }
            look_in(space, sources, others, seeker, buffer)
        }
        StepDown::Leaf => {
            let (leaf, start, len) = (span.node, span.start, span.len);
            match view {
                NodeView::Lit { .. } => {
                    let bytes = &space.literal(leaf, start)[..len as usize];
                    Ok(seeker.take(bytes))
                }
                NodeView::Src { .. } => {
                    look_in_leaf(space, sources, leaf, start, len, None, seeker, buffer)
                }
                NodeView::Fun => {
                    let period = space.period(leaf);
                    look_in_leaf(space, sources, leaf, start, len, period, seeker, buffer)
                }
                NodeView::Cat { .. } | NodeView::Sub { .. } => unreachable!(),
            }
        }
    }
}
