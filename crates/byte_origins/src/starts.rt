//! How many splices the revisions before each revision have: where its own begin among all.

ghost use Rattle.std.specs.Prelude.{◌≡◌, ◌+◌, ◌<◌, ◌≤◌, length, IfOk};
ghost use Rattle.image_reader.specs.Accepted.{splices_before};
ghost use Rattle.byte_origins.specs.Histories.{splices_together};
ghost use Rattle.byte_origins.specs.Stretches.{splice_starts};

use crate::history::History;
use session_checker::Checked;
use std::alloc::{AllocError, Global};

// The lines `let _count = ..` are for the proof: there are not too many splices, as these calls say.

/// How many splices the revisions before the next one have, where those before revision `k` have `first`.
pub fn next_start<H: History>(history: H, k: u32, first: u32) -> u32
    requires there { k < length (H.image history).revisions }
    requires first { first ≡ splices_before (H.image history) k }
    ensures { result ≡ splices_before (H.image history) (k + 1) }
{
    let _count = history.revision_count();
    first + history.splices_of(k)
}

/// How many splices the revisions before `k` have.
pub(crate) fn splices_before<H: History>(history: H, k: u32) -> u32
    requires { k ≤ length (H.image history).revisions }
    ensures { result ≡ splices_before (H.image history) k }
{
    let _count = history.revision_count();
    let mut first = 0;
    for r in 0..k {
        first = next_start(history, r, first);
    }
    first
}

/// How many splices the revisions before `j` have, where those before `k` have `first`.
pub(crate) fn lowered<H: History>(history: H, k: u32, first: u32, j: u32) -> u32
    requires there { k ≤ length (H.image history).revisions }
    requires earlier { j ≤ k }
    requires first { first ≡ splices_before (H.image history) k }
    ensures { result ≡ splices_before (H.image history) j }
{
    // The revisions before it are counted where they are fewer than those between the two.
    if j < k - j {
        return splices_before(history, j);
    }
    let mut at = k;
    let mut left = first;
    while at > j {
        at -= 1;
        left -= history.splices_of(at);
    }
    left
}

/// How many splices an image has.
pub(crate) fn all_splices(image: &Checked) -> u32
    ensures { result ≡ splices_together image.now }
{
    let image = image.image();
    // The value is an image, as its count says.
    let _count = image.node_count();
    image.splice_count()
}

/// How many splices the revisions before `k` have, counted from the first revision or from the last one, whichever is
/// nearer; from the first where all together are not known.
pub(crate) fn first_splice<H: History>(history: H, k: u32) -> u32
    requires { k ≤ length (H.image history).revisions }
    ensures { result ≡ splices_before (H.image history) k }
{
    match history.splice_count() {
        Some(all) => lowered(history, history.revision_count(), all, k),
        None => splices_before(history, k),
    }
}

/// Those of each revision, so that no step back goes through the revisions between two texts.
pub(crate) fn splice_starts<H: History>(alloc: Global, history: H) -> Result<Vec<u32>, AllocError>
    ensures { IfOk result (λ starts. starts.items ≡ splice_starts (H.image history)) }
{
    let mut starts = Vec::new(alloc);
    let mut first = 0;
    for r in 0..history.revision_count() {
        starts.push(first)?;
        first = next_start(history, r, first);
    }
    Ok(starts)
}

/// The one of revision `k`.
pub(crate) fn start_of<H: History>(history: H, starts: &[u32], k: u32) -> u32
    requires there { k < length (H.image history).revisions }
    requires starts { starts.now ≡ splice_starts (H.image history) }
    ensures { result ≡ splices_before (H.image history) k }
{
    starts[k as usize]
}
