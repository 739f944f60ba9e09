//! All origins of a text from a place on, by their longest runs.

ghost use Rattle.std.specs.Prelude.{◌≡◌, ◌+◌, ◌<◌, ◌≤◌, ◌^◌, ◌++◌, [], length, take, drop, IfOk, IfSome, OnErr, MatchOption};
ghost use Rattle.image_reader.specs.Accepted.{splices_before};
ghost use Rattle.byte_origins.specs.Origins.{origins_at, run_origins};
ghost use Rattle.byte_origins.specs.Stretches.{IsLengthening, IsLongestRun, IsNextRun, found_and_left};

use crate::run::OriginRun;
use crate::walking::Runs;
use session_checker::Checked;
use std::alloc::{AllocError, Global};
use std::marker::Model;

/// The next run, where one was looked at already that one.
fn first_of(runs: &mut Runs, ahead: Option<OriginRun>) -> Result<Option<OriginRun>, AllocError>
    requires { IfSome ahead (λ run. 1 ≤ run.len) }
    ensures image { runs.new.image ≡ runs.old.image }
    ensures next { IfOk result (λ found. MatchOption found
        ((found_and_left ahead runs.old.left ≡ []) × (found_and_left ahead runs.new.left ≡ []))
        (λ run. (1 ≤ run.len) × (found_and_left ahead runs.old.left ≡ run_origins run ++ runs.new.left))) }
    ensures err { OnErr result (found_and_left ahead runs.new.left ≡ found_and_left ahead runs.old.left) }
{
    match ahead {
        Some(run) => Ok(Some(run)),
        None => runs.next(),
    }
}

/// Joins to a run those behind it that go on where it ends, and answers the first that does not.
fn lengthen(runs: &mut Runs, run: &mut OriginRun) -> Result<Option<OriginRun>, AllocError>
    requires some { 1 ≤ run.old.len }
    requires room { run.old.len + length runs.old.left < 2 ^ 64 }
    ensures image { runs.new.image ≡ runs.old.image }
    ensures longest { IfOk result (λ found. IsLongestRun run.old runs.old.left run.new found runs.new.left) }
    ensures err { OnErr result (IsLengthening run.old runs.old.left run.new runs.new.left) }
{
    while let Some(next) = runs.next()? {
        if !run.goes_on(&next) {
            return Ok(Some(next));
        }
        run.len += next.len;
    }
    Ok(None)
}

/// The origins of a part of a text that are left to be told.
#[derive(Drop)]
pub struct Origins<'i, 'a> {
    runs: Runs<'i, 'a>,
    /// The run that was looked at, and stands in front of the others.
    ahead: Option<OriginRun>,
}

impl<'i, 'a> Model for Origins<'i, 'a> {
    ghost use Rattle.std.specs.Prelude.{◌<◌, ◌≤◌, ◌^◌, length, IfSome};
    ghost use Rattle.byte_origins.specs.Stretches.{OriginsLeft, found_and_left};

    ghost Value = { OriginsLeft };

    ghost view = { λ s. record { image = s.runs.image; left = found_and_left s.ahead s.runs.left } };

    ghost invariant = { λ s. IfSome s.ahead (λ run. 1 ≤ run.len)
        × (length (found_and_left s.ahead s.runs.left) < 2 ^ 64) };
}

impl<'i, 'a> Origins<'i, 'a> {
    /// Those of the `count` bytes of text `k` from `start` on, as far as there are such.
    ///
    /// # Errors
    ///
    /// Where there is no memory.
    pub fn of(
        alloc: Global,
        image: &'i Checked<'a>,
        k: u32,
        start: u64,
        count: u64,
    ) -> Result<Origins<'i, 'a>, AllocError>
        requires { k < length image.now.revisions }
        ensures { IfOk result (λ x. (x.image ≡ image.now)
            × (x.left ≡ take count (drop start (origins_at image.now k)))) }
    {
        // The image's records are true, as this call says.
        let _count = image.revisions();
        let runs = Runs::of(alloc, image, k, start, count)?;
        Ok(Origins { runs, ahead: None })
    }

    /// The next run, where there is one. It does not go on where the one behind it begins.
    ///
    /// # Errors
    ///
    /// Where there is no memory. What is left is then as before, so it can be asked again.
    pub fn next(&mut self) -> Result<Option<OriginRun>, AllocError>
        ensures image { self.new.image ≡ self.old.image }
        ensures next { IfOk result (λ found. MatchOption found ((self.old.left ≡ []) × (self.new.left ≡ []))
            (λ run. IsNextRun self.old.left run self.new.left)) }
        ensures err { OnErr result (self.new.left ≡ self.old.left) }
    {
        let Some(first) = first_of(&mut self.runs, self.ahead)? else {
            return Ok(None);
        };
        let mut run = first;
        let found = lengthen(&mut self.runs, &mut run);
        match found {
            Ok(behind) => {
                self.ahead = behind;
                Ok(Some(run))
            }
            Err(fault) => {
                self.ahead = Some(run);
                Err(fault)
            }
        }
    }

    /// How many splices the revisions before `k` have.
    pub fn splices_before(&self, k: u32) -> u32
        requires { k < length self.now.image.revisions }
        ensures { result ≡ splices_before self.now.image k }
    {
        self.runs.splices_before(k)
    }
}
