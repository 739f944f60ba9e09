//! The next bytes of a text, as many as lie together.

ghost use Rattle.std.specs.Prelude.{◌≡◌, ◌<◌, ◌≤◌, ◌+◌, Some, length, take, IfOk, OnOk};
ghost use Rattle.rope_node.specs.Table.{len_at};
ghost use Rattle.rope_node.specs.Denotes.{IsRope, cell_at, rope_len};
ghost use Rattle.cord_position.specs.Fetched.{ReadsSpan, rope_cell};
ghost use Rattle.cord_position.specs.Position.{cell_of, text_len};
ghost use Rattle.cord_search.specs.Pieces.{IsPiece, IsPieceHere};

use cord_position::{Pos, fill_part};
use lazy_file::{SourceFault, Sources};
use rope_node::{NodeId, NodeSpace, Rope, Span, StepDown, rope_len, step_down};

/// How many bytes are looked at at once where the answer is often near.
pub const PIECE: usize = 4096;

/// How many bytes are read at once where the whole text is gone through.
pub const WINDOW: usize = 65_536;

/// Writes the bytes from a position to the end of its leaf's span
/// into the buffer, as many as it takes, and answers how many.
fn fill_run<S: NodeSpace, T: Sources>(
    pos: &Pos<'_, S>,
    sources: &mut T,
    buffer: &mut [u8],
) -> Result<usize, SourceFault>
    ensures length { length buffer.new ≡ length buffer.old }
    ensures bytes { IfOk result (λ n. IsPieceHere S.table (T.reading sources.old).stated
        pos.now (take n buffer.new)) }
    ensures most { IfOk result (λ n. n ≤ length buffer.old) }
    ensures inside { IfOk result (λ n. pos.now.index + n ≤ text_len S.table pos.now) }
    ensures some { IfOk result (λ n. pos.now.index < text_len S.table pos.now
        → 1 ≤ length buffer.old → 1 ≤ n) }
    ensures reads { ReadsSpan (T.reading sources.old) (T.reading sources.new)
        (cell_of S.table pos.now) pos.now.index (pos.now.index + length buffer.old) result }
{
    // The position stands in its text, as what is left of the run says.
    let _left = pos.run_left();
    pos.fill(sources, buffer)
}

/// The next bytes from a position on, at most `most`: a literal's where they lie, any other leaf's in the buffer.
pub fn next_run<'r, S: NodeSpace, T: Sources>(
    pos: &'r Pos<'_, S>,
    sources: &mut T,
    most: u64,
    buffer: &'r mut [u8],
) -> Result<&'r [u8], SourceFault>
    requires room { 1 ≤ length buffer.old }
    ensures bytes { IfOk result
        (λ run. IsPieceHere S.table (T.reading sources.old).stated pos.now run.now) }
    ensures most { IfOk result (λ run. length run.now ≤ most) }
    ensures inside { IfOk result
        (λ run. pos.now.index + length run.now ≤ text_len S.table pos.now) }
    ensures some { IfOk result (λ run. pos.now.index < text_len S.table pos.now
        → 1 ≤ most → 1 ≤ length run.now) }
    ensures reads { ReadsSpan (T.reading sources.old) (T.reading sources.new)
        (cell_of S.table pos.now) pos.now.index (pos.now.index + most) result }
{
    let run = pos.run_bytes();
    let most = most.min(pos.run_left());
    if !run.is_empty() {
        let n = most.min(run.len() as u64) as usize;
        return Ok(&run[..n]);
    }
    let n = most.min(buffer.len() as u64) as usize;
    let n = fill_run(pos, sources, &mut buffer[..n])?;
    Ok(&buffer[..n])
}

/// Writes the bytes of a node from its byte `start` on into the
/// whole buffer, leaf by leaf. It goes down by calls of itself.
///
/// # Errors
///
/// A source's fault, where a byte is one of that source and the read of it failed.
pub fn gather<S: NodeSpace, T: Sources>(
    space: &S,
    sources: &mut T,
    node: NodeId,
    start: u64,
    buffer: &mut [u8],
) -> Result<(), SourceFault>
    requires there { node.0 < length (S.table space.now).nodes }
    requires some { 1 ≤ length buffer.old }
    requires inside { start + length buffer.old ≤ len_at (S.table space.now) node.0 }
    ensures length { length buffer.new ≡ length buffer.old }
    ensures bytes { OnOk result
        (IsPiece (S.table space.now) (T.reading sources.old).stated (Some node) start buffer.new) }
    ensures reads { ReadsSpan (T.reading sources.old) (T.reading sources.new)
        (cell_at (S.table space.now) node.0) start (start + length buffer.old) result }
{
    let len = buffer.len() as u64;
    let view = space.node(node);
    match step_down(space, Span { node, start, len }, view, len) {
        StepDown::Below(below) => gather(space, sources, below.node, below.start, buffer),
        StepDown::Across(first, others) => {
            let cut = first.len as usize;
            gather(space, sources, first.node, first.start, &mut buffer[..cut])?;
            gather(
                space,
                sources,
                others.node,
                others.start,
                &mut buffer[cut..],
            )
        }
        StepDown::Leaf => fill_part(space, sources, node, start, buffer),
    }
}

/// The `count` bytes of a text from a place on, by one way down to their leaves. They stand in the buffer's front.
pub fn part_of<'r, S: NodeSpace, T: Sources>(
    space: &S,
    sources: &mut T,
    x: Rope,
    from: u64,
    count: usize,
    buffer: &'r mut [u8],
) -> Result<&'r [u8], SourceFault>
    requires rope { IsRope (S.table space.now) x }
    requires count { (1 ≤ count) × (count ≤ length buffer.old) }
    requires inside { from + count ≤ rope_len (S.table space.now) x }
    ensures bytes { IfOk result
        (λ part. IsPiece (S.table space.now) (T.reading sources.old).stated x from part.now) }
    ensures count { IfOk result (λ part. length part.now ≡ count) }
    ensures reads { ReadsSpan (T.reading sources.old) (T.reading sources.new)
        (rope_cell (S.table space.now) x) from (from + count) result }
{
    // No text is longer than a text may be, as its length says.
    let _len = rope_len(space, x);
    match x {
        Some(node) => gather(space, sources, node, from, &mut buffer[..count])?,
        None => unreachable!(),
    }
    Ok(&buffer[..count])
}

/// The next bytes from a position on, at least `need` and at most `most`: a literal's where they lie, if they are
/// enough, and else those of as many runs as the buffer takes.
pub fn next_window<'r, S: NodeSpace, T: Sources>(
    pos: &'r Pos<'_, S>,
    space: &S,
    sources: &mut T,
    x: Rope,
    need: usize,
    most: u64,
    buffer: &'r mut [u8],
) -> Result<&'r [u8], SourceFault>
    requires rope { IsRope (S.table space.now) x }
    requires here { (pos.now.space ≡ space.now) × (pos.now.rope ≡ x) }
    requires need { (1 ≤ need) × (need ≤ most) × (need ≤ length buffer.old) }
    requires inside { pos.now.index + most ≤ rope_len (S.table space.now) x }
    ensures bytes { IfOk result
        (λ window. IsPieceHere S.table (T.reading sources.old).stated pos.now window.now) }
    ensures enough { IfOk result (λ window. need ≤ length window.now) }
    ensures most { IfOk result (λ window. length window.now ≤ most) }
    ensures reads { ReadsSpan (T.reading sources.old) (T.reading sources.new)
        (cell_of S.table pos.now) pos.now.index (pos.now.index + most) result }
{
    let run = pos.run_bytes();
    if run.len() >= need {
        let n = most.min(run.len() as u64) as usize;
        return Ok(&run[..n]);
    }
    let n = most.min(buffer.len() as u64) as usize;
    match x {
        Some(node) => gather(space, sources, node, pos.index(), &mut buffer[..n])?,
        None => unreachable!(),
    }
    Ok(&buffer[..n])
}
