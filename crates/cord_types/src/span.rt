//! The leaf span that a rope's bytes from a place on begin with: where it stands, and its bytes. It takes no memory.

ghost use Rattle.std.specs.Prelude.{◌≡◌, ◌↔◌, ◌<◌, ◌≤◌, ◌+◌, min, None, length, take, drop, IfOk, IfSome, IsSome};
ghost use Rattle.rope_node.specs.Denotes.{IsRope, rope_len};
ghost use Rattle.rope_node.specs.Table.{len_at, view_at, IsLeaf};
ghost use Rattle.cord_position.specs.Fetched.{ReadsSpan, rope_cell, rope_part};
ghost use Rattle.cord_position.specs.Runs.{AreBytesOf, IsLeafRun, rope_span, run_left};
ghost use Rattle.span_descent.specs.Leads.{leaf_description, Describes};
ghost use Rattle.cord_types.specs.ToldRuns.{IsToldRun};

use crate::run::CordRun;
use byte_origins::leaf_span;
use cord_position::fill_part;
use lazy_file::{SourceFault, Sources};
use rope_node::{CodedSpace, LeafSpan, NodeSpace, Rope};
use span_descent::{Description, describe_leaf};

/// The leaf span that the bytes of a rope from a place on begin with; at its end and past it, none.
fn span_of<S: NodeSpace>(space: &S, rope: Rope, place: u64) -> Option<LeafSpan>
    requires { IsRope (S.table space.now) rope }
    ensures exact { result ≡ rope_span (S.table space.now) rope place }
    ensures run { IfSome result (IsLeafRun (S.table space.now) rope place) }
    ensures none { result ≡ None ↔ rope_len (S.table space.now) rope ≤ place }
{
    // The nodes are a sound table, as their count says.
    let _count = space.count();
    match rope {
        Some(node) if place < space.len(node) => Some(leaf_span(space, node, place)),
        _ => None,
    }
}

/// What the bytes of a leaf span are.
fn described<S: CodedSpace>(space: &S, span: LeafSpan) -> Description
    requires there { span.leaf.0 < length (S.NodeSpace.table space.now).nodes }
    requires leaf { IsLeaf (view_at (S.NodeSpace.table space.now) span.leaf.0) }
    requires inside { span.start + span.len ≤ len_at (S.NodeSpace.table space.now) span.leaf.0 }
    ensures value { leaf_description (S.coded space.now span.leaf.0) span.start
        (view_at (S.NodeSpace.table space.now) span.leaf.0) ≡ Some result }
    ensures describes { Describes (S.NodeSpace.table space.now) span.leaf.0 span.start result }
{
    let view = space.node(span.leaf);
    match describe_leaf(space, span.leaf, view, span.start) {
        Some(what) => what,
        None => unreachable!(),
    }
}

/// Where the byte at a place of a rope stands, and how many bytes of its text follow it there: all up to the end of its
/// leaf's span; at the end and past it, nowhere.
pub fn located<S: CodedSpace>(space: &S, rope: Rope, place: u64) -> Option<CordRun>
    requires { IsRope (S.NodeSpace.table space.now) rope }
    ensures there { IsSome result ↔ (place < rope_len (S.NodeSpace.table space.now) rope) }
    ensures run { IfSome result (IsToldRun (S.NodeSpace.table space.now) (S.coded space.now) rope place) }
{
    let span = span_of(space, rope, place)?;
    let what = described(space, span);
    Some(CordRun::of(what, span.len))
}

/// Writes the bytes of a rope from a place to the end of its leaf's span
/// there into the buffer, as many as it takes, and answers how many.
///
/// # Errors
///
/// A source's fault, where they are of that source and the read
/// of them failed. They may then be any bytes in the buffer.
pub fn read_run<S: NodeSpace, T: Sources>(
    space: &S,
    sources: &mut T,
    rope: Rope,
    place: u64,
    buffer: &mut [u8],
) -> Result<usize, SourceFault>
    requires { IsRope (S.table space.now) rope }
    ensures count { IfOk result (λ n. n ≡ min (run_left (S.table space.now) rope place) (length buffer.old)) }
    ensures rest { IfOk result (λ n. drop n buffer.new ≡ drop n buffer.old) }
    ensures bytes { IfOk result (λ n. AreBytesOf (T.reading sources.old).stated
        (rope_part (S.table space.now) rope place n) (take n buffer.new)) }
    ensures reads { ReadsSpan (T.reading sources.old) (T.reading sources.new) (rope_cell (S.table space.now) rope)
        place (place + min (run_left (S.table space.now) rope place) (length buffer.old)) result }
{
    let Some(span) = span_of(space, rope, place) else {
        return Ok(0);
    };
    let n = span.len.min(buffer.len() as u64) as usize;
    if n > 0 {
        fill_part(space, sources, span.leaf, span.start, &mut buffer[..n])?;
    }
    Ok(n)
}
