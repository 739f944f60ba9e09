//! Stretches of texts whose origins are still to be told.

// The lines `let _count = ..` are for the proof: the records of the history or image are true, as these calls say.

ghost use Rattle.std.specs.Prelude.{ℕ, ◌≡◌, ◌↔◌, ◌+◌, ◌<◌, ◌≤◌, ◌^◌, ◌++◌, [], length, min, IfOk, IfSome, IsSome, OnErr, MatchOption, vec_len, vec_capacity};
ghost use Rattle.std.specs.List.{AllByRecursion};
ghost use Rattle.image_reader.specs.Accepted.{splices_before};
ghost use Rattle.byte_origins.specs.Origins.{origins_at, run_origins};
ghost use Rattle.byte_origins.specs.OriginTexts.{NameTexts};
ghost use Rattle.byte_origins.specs.StepsBack.{IsStepBack};
ghost use Rattle.command_parts.specs.declared.edit.Splice.{Splice};
ghost use Rattle.byte_origins.specs.Stretches.{IsBesideSplice, IsMoved, IsRestOf, IsStretch, left_origins, put_back, splice_starts, stretch_behind};

use crate::history::History;
use crate::ropes::Ropes;
use crate::run::OriginRun;
use crate::starts::{first_splice, lowered, start_of};
use crate::taking::{CameFrom, one_splice, place_beside, taken_counted};
use crate::texts::len_of_text;
use session_checker::Checked;
use std::alloc::AllocError;

/// Bytes of the text of a revision, and how many splices the revisions before it have.
#[derive(Clone, Copy, Debug, PartialEq, Eq)]
pub struct Stretch {
    pub revision: u32,
    pub place: u64,
    pub len: u64,
    pub first: u32,
}

impl Stretch {
    /// The rest of the text of revision `k` from a place on, where it has that place.
    pub fn rest_of<H: History>(history: H, k: u32, place: u64) -> Option<Stretch>
        ensures there { IsSome result ↔ place < length (origins_at (H.image history) k) }
        ensures rest { IfSome result (IsRestOf (H.image history) k place) }
    {
        if k >= history.revision_count() {
            return None;
        }
        let all = len_of_text(history, k);
        if place >= all {
            return None;
        }
        Some(Stretch {
            revision: k,
            place,
            len: all - place,
            first: first_splice(history, k),
        })
    }

    /// What lies behind its first `n` bytes.
    pub fn behind(self, n: u64) -> Stretch
        requires fits { self.place + self.len < 2 ^ 64 }
        requires inside { n ≤ self.len }
        ensures { result ≡ stretch_behind self n }
    {
        Stretch {
            place: self.place + n,
            len: self.len - n,
            ..self
        }
    }

    /// The same bytes in the text into which their command puts one splice, where it puts it in front of them all or behind
    /// them all. For this no length of a text is looked at.
    pub fn moved<H: History>(self, history: H) -> Option<Stretch>
        requires { IsStretch (H.image history) self }
        ensures moved { IfSome result (IsMoved (H.image history) self) }
        ensures found { (r : ℕ) (s : Splice) → IsBesideSplice (H.image history) self r s → IsSome result }
    {
        let _count = history.revision_count();
        let edit = history.command(self.revision, self.first);
        let Some((r, splice)) = one_splice(edit) else {
            return None;
        };
        let Some(place) = place_beside(splice, self.place, self.len) else {
            return None;
        };
        Some(Stretch {
            revision: r,
            place,
            len: self.len,
            first: lowered(history, self.revision, self.first, r),
        })
    }

    /// At most `n` bytes of the earlier text `j` from `place` on, in place of its own.
    pub fn earlier<H: History>(self, history: H, j: u32, place: u64, n: u64) -> Stretch
        requires stretch { IsStretch (H.image history) self }
        requires earlier { j < self.revision }
        ensures { result ≡ record {
          revision = j;
          place = place;
          len = min self.len n;
          first = splices_before (H.image history) j;
        } }
    {
        Stretch {
            revision: j,
            place,
            len: self.len.min(n),
            first: lowered(history, self.revision, self.first, j),
        }
    }
}

/// Puts back what lies behind the first `n` bytes of a stretch, where there is something.
fn put_back(left: &mut Vec<Stretch>, x: Stretch, n: u64)
    requires fits { x.place + x.len < 2 ^ 64 }
    requires room { vec_len left.old + 2 ≤ vec_capacity left.old }
    ensures items { left.new.items ≡ put_back left.old.items x n }
    ensures room { vec_len left.new + 1 ≤ vec_capacity left.new }
{
    if n < x.len {
        left.push_reserved(x.behind(n));
    }
}

/// One step back from a stretch: to its run, where its text has a rope, and else by its command.
/// How many parts of commands it went through, and one more, is added to `work`.
fn step_back(image: &Checked, ropes: &Ropes, x: Stretch, work: &mut u64) -> CameFrom
    requires stretch { IsStretch image.now x }
    requires ropes { NameTexts image.now ropes.now.texts ropes.now.roots.items }
    ensures { IsStepBack image.now x.revision x.place result }
{
    let _count = image.revisions();
    *work = work.saturating_add(1);
    match ropes.run_at(x.revision, x.place) {
        Some(run) => CameFrom::Run(run),
        None => taken_counted(image, x.revision, x.first, x.place, work),
    }
}

/// The next run of the stretches that are left, the last one first. How much work it was is added to `work`.
pub(crate) fn next_run(
    image: &Checked,
    starts: &[u32],
    ropes: &Ropes,
    left: &mut Vec<Stretch>,
    work: &mut u64,
) -> Result<Option<OriginRun>, AllocError>
    requires starts { starts.now ≡ splice_starts image.now }
    requires left { AllByRecursion (IsStretch image.now) left.old.items }
    requires ropes { NameTexts image.now ropes.now.texts ropes.now.roots.items }
    ensures stretches { AllByRecursion (IsStretch image.now) left.new.items }
    ensures next { IfOk result (λ found. MatchOption found
        ((left_origins image.now left.old.items ≡ []) × (left_origins image.now left.new.items ≡ []))
        (λ run. (1 ≤ run.len)
        × (left_origins image.now left.old.items ≡ run_origins run ++ left_origins image.now left.new.items))) }
    ensures err { OnErr result (left_origins image.now left.new.items ≡ left_origins image.now left.old.items) }
{
    let _count = image.revisions();
    let Some(last) = left.pop() else {
        return Ok(None);
    };
    let mut top = last;
    'back: loop {
        // Room for what is put back is there before anything changes.
        let Ok(()) = left.reserve(2) else {
            left.push_reserved(top);
            return Err(AllocError);
        };
        let came = step_back(image, ropes, top, work);
        let len = top.len.min(came.len());
        put_back(left, top, len);
        match came {
            CameFrom::Run(run) => {
                let first = run.first;
                return Ok(Some(OriginRun { first, len }));
            }
            CameFrom::FromText(revision, place, _) => {
                let first = start_of(image, starts, revision);
                top = Stretch {
                    revision,
                    place,
                    len,
                    first,
                };
            }
        }
    }
}
