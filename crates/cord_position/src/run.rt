//! The run of a rope's bytes from a place to the end of its leaf's span. Where
//! a step is known, the space and the rope are there for the contract alone.

ghost use Rattle.std.specs.Prelude.{◌≡◌, ◌↔◌, ◌<◌, ◌≤◌, ◌+◌, None, map, length, IfSome};
ghost use Rattle.rope_node.specs.Table.{len_at};
ghost use Rattle.rope_node.specs.Denotes.{Byte, rope_len};
ghost use Rattle.cord_position.specs.Fetched.{leaf_part, rope_part};
ghost use Rattle.cord_position.specs.Runs.{rope_span, run_bytes, run_left, span_bytes, IsLeafRun, IsRunPeriod};
ghost use Rattle.cord_position.specs.Steps.{AreStepBytes, IsHere, IsRunAt};

use crate::path::Step;
use leaf_buffer::Run;
use rope_node::{LeafSpan, NodeSpace, NodeView, Rope};

/// The leaf span that the bytes of a rope from a place on begin
/// with, by the step that holds the place; at the end, none.
#[inline]
pub fn find_run<S: NodeSpace>(space: &S, rope: Rope, here: Step, place: u64) -> Option<LeafSpan>
    requires { IsHere (S.table space.now) rope place here }
    ensures exact { result ≡ rope_span (S.table space.now) rope place }
    ensures run { IfSome result (IsLeafRun (S.table space.now) rope place) }
    ensures none { result ≡ None ↔ rope_len (S.table space.now) rope ≤ place }
{
    let offset = place - here.first;
    if offset >= here.len {
        return None;
    }
    Some(LeafSpan {
        leaf: here.node,
        start: here.skipped + offset,
        len: here.len - offset,
    })
}

/// After how many bytes those from a place to the end of its
/// leaf's span repeat, where the leaf is a function that says so.
pub fn find_period<S: NodeSpace>(space: &S, rope: Rope, here: Step, place: u64) -> Option<u64>
    requires { IsHere (S.table space.now) rope place here }
    ensures { IfSome result (IsRunPeriod (S.table space.now) rope place) }
{
    let span = find_run(space, rope, here, place)?;
    match space.node(span.leaf) {
        NodeView::Fun => space.period(span.leaf),
        NodeView::Lit { .. } | NodeView::Src { .. } | NodeView::Cat { .. } | NodeView::Sub { .. } =>
            None,
    }
}

/// The bytes of a span of a literal; of a span of any other leaf, none.
fn literal_span<S: NodeSpace>(space: &S, span: LeafSpan) -> &[u8]
    requires there { span.leaf.0 < length (S.table space.now).nodes }
    requires inside { span.start + span.len ≤ len_at (S.table space.now) span.leaf.0 }
    ensures exact { result.now ≡ span_bytes (S.table space.now) (Some span) }
    ensures cells { 1 ≤ length result.now
        → map Byte result.now ≡ leaf_part (S.table space.now) span.leaf span.start span.len }
{
    match space.node(span.leaf) {
        NodeView::Lit { .. } => &space.literal(span.leaf, span.start)[..span.len as usize],
        NodeView::Src { .. } | NodeView::Fun | NodeView::Cat { .. } | NodeView::Sub { .. } => &[],
    }
}

/// The bytes of a step to a literal; of any other step, none.
#[inline(never)]
pub fn step_bytes<S: NodeSpace>(space: &S, step: Step) -> &[u8]
    requires there { step.node.0 < length (S.table space.now).nodes }
    requires inside { step.skipped + step.len ≤ len_at (S.table space.now) step.node.0 }
    ensures { AreStepBytes (S.table space.now) step result.now }
{
    literal_span(
        space,
        LeafSpan {
            leaf: step.node,
            start: step.skipped,
            len: step.len,
        },
    )
}

/// A cursor at a place that the step holds, in its bytes where its leaf is a literal; else in none.
pub fn run_at<'b, S: NodeSpace>(space: &'b S, step: Step, place: u64) -> Run<'b>
    requires there { step.node.0 < length (S.table space.now).nodes }
    requires inside { step.skipped + step.len ≤ len_at (S.table space.now) step.node.0 }
    requires begun { step.first ≤ place }
    ensures { IsRunAt (S.table space.now) step place result }
{
    let mut run = Run::over(step_bytes(space, step));
    run.skip((place - step.first) as usize);
    run
}

/// The bytes from a place to the end of its leaf's span, where the leaf is a literal; elsewhere and at the end, none.
#[inline]
pub fn literal_run<'b, S: NodeSpace>(
    space: &S,
    rope: Rope,
    here: Step,
    run: &Run<'b>,
    place: u64,
) -> &'b [u8]
    requires here { IsHere (S.table space.now) rope place here }
    requires run { IsRunAt (S.table space.now) here place run.now }
    ensures exact { result.now ≡ run_bytes (S.table space.now) rope place }
    ensures cells { 1 ≤ length result.now → map Byte result.now
        ≡ rope_part (S.table space.now) rope place (run_left (S.table space.now) rope place) }
{
    run.rest()
}
