//! All origins of a text from a place on, each run as it is found.

// The lines `let _count = image.revisions();` are for the proof: the image's records are true, as this call says.

ghost use Rattle.std.specs.Prelude.{◌≡◌, ◌<◌, ◌≤◌, ◌++◌, [], length, take, drop, IfOk, OnErr, MatchOption};
ghost use Rattle.image_reader.specs.Accepted.{splices_before};
ghost use Rattle.byte_origins.specs.Origins.{origins_at, run_origins};

use crate::ropes::Ropes;
use crate::run::OriginRun;
use crate::starts::{next_start, splice_starts, start_of};
use crate::stretch::{Stretch, next_run};
use rope_node::rope_len;
use session_checker::Checked;
use std::alloc::{AllocError, Global};
use std::marker::Model;

/// The origins of a part of a text that are left to be told. A run that a command's part cut is told in pieces.
#[derive(Drop)]
pub(crate) struct Runs<'i, 'a> {
    image: &'i Checked<'a>,
    left: Vec<Stretch>,
    /// The revision that was asked for.
    revision: u32,
    /// How many splices the revisions before each revision have.
    starts: Vec<u32>,
    /// How much work the steps back were.
    work: u64,
    ropes: Ropes,
}

impl<'i, 'a> Model for Runs<'i, 'a> {
    ghost use Rattle.std.specs.Prelude.{◌≡◌, ◌<◌, length};
    ghost use Rattle.std.specs.List.{AllByRecursion};
    ghost use Rattle.byte_origins.specs.OriginTexts.{NameTexts};
    ghost use Rattle.byte_origins.specs.Stretches.{IsStretch, OriginsLeft, left_origins, splice_starts};

    ghost Value = { OriginsLeft };

    ghost view = { λ s. record { image = s.image.now; left = left_origins s.image.now s.left.items } };

    ghost invariant = { λ s. AllByRecursion (IsStretch s.image.now) s.left.items
        × NameTexts s.image.now s.ropes.texts s.ropes.roots.items × (s.revision < length s.image.now.revisions)
        × (s.starts.items ≡ splice_starts s.image.now) };
}

impl<'i, 'a> Runs<'i, 'a> {
    /// Those of the `count` bytes of text `k` from `start` on, as far as there are such.
    ///
    /// # Errors
    ///
    /// Where there is no memory.
    pub(crate) fn of(
        alloc: Global,
        image: &'i Checked<'a>,
        k: u32,
        start: u64,
        count: u64,
    ) -> Result<Runs<'i, 'a>, AllocError>
        requires { k < length image.now.revisions }
        ensures { IfOk result (λ x. (x.image ≡ image.now)
            × (x.left ≡ take count (drop start (origins_at image.now k)))) }
    {
        let _count = image.revisions();
        let starts = splice_starts(alloc, image)?;
        let mut left = Vec::new(alloc);
        let all = rope_len(image, image.image().root(k));
        if start < all && count > 0 {
            let first = start_of(image, &starts, k);
            let len = count.min(all - start);
            left.push(Stretch {
                revision: k,
                place: start,
                len,
                first,
            })?;
        }
        Ok(Runs {
            image,
            left,
            revision: k,
            starts,
            work: 0,
            ropes: Ropes::new(alloc),
        })
    }

    /// The next run, where there is one.
    ///
    /// # Errors
    ///
    /// Where there is no memory. What is left is then as before, so it can be asked again.
    pub(crate) fn next(&mut self) -> Result<Option<OriginRun>, AllocError>
        ensures image { self.new.image ≡ self.old.image }
        ensures next { IfOk result (λ found. MatchOption found ((self.old.left ≡ []) × (self.new.left ≡ []))
            (λ run. (1 ≤ run.len) × (self.old.left ≡ run_origins run ++ self.new.left))) }
        ensures err { OnErr result (self.new.left ≡ self.old.left) }
    {
        let _count = self.image.revisions();
        let k = self.revision;
        let splices = next_start(self.image, k, start_of(self.image, &self.starts, k));
        self.ropes.make(self.image, k + 1, splices, self.work);
        next_run(
            self.image,
            &self.starts,
            &self.ropes,
            &mut self.left,
            &mut self.work,
        )
    }

    /// How many splices the revisions before `k` have.
    pub(crate) fn splices_before(&self, k: u32) -> u32
        requires { k < length self.now.image.revisions }
        ensures { result ≡ splices_before self.now.image k }
    {
        start_of(self.image, &self.starts, k)
    }
}
