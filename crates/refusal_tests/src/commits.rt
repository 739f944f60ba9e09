//! A file that is committed, behind an image and anew.

use crate::editors::has_texts;
use crate::fakes::{ONE_INSERT_IN_TWO, Taker};
use crate::refusals::{Refusals, TRIES, assert_same};
use commit_tools::{Commit, CommitFault, run_commit, run_commit_anew};
use lazy_file::{MemSources, SourceFault};
use saved_session::TakeFault;
use session_checker::{CheckFault, check};
use std::alloc::AllocGlobal;
use std::process::Abort;
use work_progress::Untold;

/// The file, with a line before and a line behind the text of the image.
const FILE: &[u8] = b"one\nabc\ntwo\n";

/// The texts of the image, and the file's.
const TEXTS: [&[u8]; 3] = [b"", b"abc", FILE];

/// Whether a commit was stopped for want of memory.
fn wants_memory(fault: CommitFault) -> bool {
    matches!(
        fault,
        CommitFault::Memory
            | CommitFault::TakeUp(TakeFault::Memory)
            | CommitFault::Check(CheckFault::Source(SourceFault::Memory))
            | CommitFault::Read(SourceFault::Memory)
    )
}

/// Whether a commit was made, which gives this answer, and whose image has these texts. Where it was refused memory,
/// nothing is written.
fn is_made<A: AllocGlobal + Abort>(
    rt: &A,
    made: Result<Commit, CommitFault>,
    wanted: Commit,
    image: &[u8],
    texts: &[&[u8]],
    refusals: &mut Refusals,
) -> bool {
    match made {
        Ok(commit) => {
            assert_same(rt, &commit, &wanted, &"the answer");
            let mut none = MemSources::new(rt.alloc());
            let checked = check(image, &mut none).expect(rt, "the image is accepted");
            assert!(rt; has_texts(&checked, texts, &mut none), "the texts");
            true
        }
        Err(fault) => {
            assert!(rt; wants_memory(fault), "{fault:?}");
            refusals.met(rt, &image.len(), &0);
            false
        }
    }
}

fn is_committed<A: AllocGlobal + Abort>(rt: &A, refusals: &mut Refusals) -> bool {
    let Ok(older) = ONE_INSERT_IN_TWO.to_vec(rt.alloc()) else {
        refusals.met(rt, &(), &());
        return false;
    };
    let mut none = MemSources::new(rt.alloc());
    let mut image = Taker::new();
    let made = run_commit(
        rt.alloc(),
        older,
        &mut none,
        None,
        FILE,
        &mut image,
        &mut Untold,
    );
    is_made(rt, made, Commit::Added(2), image.taken(), &TEXTS, refusals)
}

fn is_committed_anew<A: AllocGlobal + Abort>(rt: &A, refusals: &mut Refusals) -> bool {
    let mut image = Taker::new();
    let made = run_commit_anew(rt.alloc(), FILE, &mut image);
    is_made(
        rt,
        made,
        Commit::Added(1),
        image.taken(),
        &[b"", FILE],
        refusals,
    )
}

/// A file behind an image, committed once more where that was refused memory.
pub(crate) fn committed<A: AllocGlobal + Abort>(rt: &A, refusals: &mut Refusals) {
    for _ in 0..TRIES {
        if is_committed(rt, refusals) {
            return;
        }
    }
    panic!(rt; "refused each time")
}

/// A file anew, committed once more where that was refused memory.
pub(crate) fn committed_anew<A: AllocGlobal + Abort>(rt: &A, refusals: &mut Refusals) {
    for _ in 0..TRIES {
        if is_committed_anew(rt, refusals) {
            return;
        }
    }
    panic!(rt; "refused each time")
}
