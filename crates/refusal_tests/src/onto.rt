//! Runs of the tool `edit` that go on from an image.

use crate::editors::{frame_count, has_message, has_texts};
use crate::fakes::{Giver, ONE_INSERT_IN_TWO, Taker};
use crate::refusals::{Refusals, TRIES, assert_same};
use cord_tools::{Outcome, Status, ToolFault, exit_status, run_edit_onto, run_kept_onto};
use key_journal::Kept;
use lazy_file::MemSources;
use session_checker::check;
use std::alloc::AllocGlobal;
use std::process::Abort;

/// A byte, Undo and Save.
const KEYS: &[u8] = b"d\x15\x18";

/// The texts of the image, and of these keys behind it.
const TEXTS: [&[u8]; 4] = [b"", b"abc", b"dabc", b"abc"];

/// The end of the last frame.
const END: &[u8] = b"rev 3 byte 1 of 3\x1b[1;2H";

/// Looks at what a run that ended well has shown, in so many frames, and saved. Where its texts are not those of the
/// image and the keys, a key was refused, and the screen says so; that is told.
fn is_saved<A: AllocGlobal + Abort>(
    rt: &A,
    screen: &[u8],
    frames: usize,
    image: &[u8],
    refusals: &mut Refusals,
) -> bool {
    let mut none = MemSources::new(rt.alloc());
    let checked = check(image, &mut none).expect(rt, "the image is accepted");
    assert_same(rt, &frame_count(screen), &frames, &"frames");
    if has_texts(&checked, &TEXTS, &mut none) && screen.ends_with(END) {
        return true;
    }
    refusals.met(rt, &(), &());
    assert!(rt;
        has_message(screen),
        "a key did nothing, and no frame says why"
    );
    false
}

/// Whether a run did all that the keys say. Where it was refused memory, it wrote at most so many frames, and no image.
fn is_well<A: AllocGlobal + Abort>(
    rt: &A,
    found: Result<Status, ToolFault>,
    screen: &[u8],
    frames: usize,
    image: &[u8],
    refusals: &mut Refusals,
) -> bool {
    match found {
        Ok(status) => {
            assert_same(rt, &status, &Status::Success, &"status");
            is_saved(rt, screen, frames, image, refusals)
        }
        Err(fault) => {
            assert_same(rt, &fault, &ToolFault::Memory, &"memory");
            assert_same(rt, &exit_status(Outcome::Ended(fault)), &3, &"status");
            assert!(rt; frame_count(screen) <= frames, "frames");
            refusals.met(rt, &image.len(), &0);
            false
        }
    }
}

fn is_edited<A: AllocGlobal + Abort>(rt: &A, refusals: &mut Refusals) -> bool {
    let Ok(older) = ONE_INSERT_IN_TWO.to_vec(rt.alloc()) else {
        refusals.met(rt, &(), &());
        return false;
    };
    let mut screen = Taker::new();
    let mut image = Taker::new();
    let mut keys = Giver { bytes: KEYS };
    let sources = MemSources::new(rt.alloc());
    let found = run_edit_onto(
        rt.alloc(),
        older,
        sources,
        &mut keys,
        &mut screen,
        &mut image,
    );
    is_well(rt, found, screen.taken(), 3, image.taken(), refusals)
}

/// A run behind the first key, which was kept before. What it keeps are the others, as far as it got.
fn is_kept<A: AllocGlobal + Abort>(rt: &A, refusals: &mut Refusals) -> bool {
    let Ok(older) = ONE_INSERT_IN_TWO.to_vec(rt.alloc()) else {
        refusals.met(rt, &(), &());
        return false;
    };
    let (played, typed) = KEYS.split_at(1);
    let mut screen = Taker::new();
    let mut image = Taker::new();
    let mut journal = Taker::new();
    let mut keys = Kept::new(Giver { bytes: typed }, &mut journal);
    let sources = MemSources::new(rt.alloc());
    let found = run_kept_onto(
        rt.alloc(),
        older,
        sources,
        played,
        &mut keys,
        &mut screen,
        &mut image,
    );
    drop(keys);
    assert!(rt; typed.starts_with(journal.taken()), "what is kept");
    is_well(rt, found, screen.taken(), 2, image.taken(), refusals)
}

/// Keys over an image, which are typed once more where the run was refused memory.
pub(crate) fn edited_onto<A: AllocGlobal + Abort>(rt: &A, refusals: &mut Refusals) {
    for _ in 0..TRIES {
        if is_edited(rt, refusals) {
            return;
        }
    }
    panic!(rt; "refused each time")
}

/// The same where the first key was kept before.
pub(crate) fn edited_kept_onto<A: AllocGlobal + Abort>(rt: &A, refusals: &mut Refusals) {
    for _ in 0..TRIES {
        if is_kept(rt, refusals) {
            return;
        }
    }
    panic!(rt; "refused each time")
}
