//! Keys that are played, and keys that are kept before they are taken.

use crate::editors::{KEYS, are_frames, editor, frame_count, has_message, is_saved, kept};
use crate::fakes::{Giver, Taker};
use crate::kept::Reach;
use crate::refusals::{Refusals, TRIES, assert_same};
use crate::sessions::assert_text;
use cord_tools::{Outcome, Status, ToolFault, exit_status, run_kept};
use key_journal::Kept;
use lazy_file::MemSources;
use screen_editor::{Editor, End, FrameFault, RunFault};
use std::alloc::AllocGlobal;
use std::process::Abort;

/// An editor of no file.
type NoFile = Editor<MemSources<'static>>;

/// Keys that are kept in a journal.
type Keys<'a> = Kept<Giver<'static>, &'a mut Taker>;

fn play(editor: &mut NoFile, keys: &[u8]) {
    editor.play(keys);
}

/// Fails the test where no frame says that memory was refused. A frame that was refused memory is made again.
fn assert_told<A: Abort>(rt: &A, editor: &mut NoFile, refusals: &mut Refusals) {
    for _ in 0..TRIES {
        match editor.frame() {
            Ok(frame) => {
                assert!(rt; has_message(frame.as_slice()), "no frame says why");
                return;
            }
            Err(fault) => {
                assert_same(rt, &fault, &FrameFault::Memory, &"a frame");
                refusals.met(rt, &(), &());
            }
        }
    }
    panic!(rt; "refused each time")
}

/// Plays a key that makes a revision, once more where it was refused memory: all but the message is then as before.
fn played<A: AllocGlobal + Abort>(rt: &A, editor: &mut NoFile, key: u8, refusals: &mut Refusals) {
    let reach = Reach::of(editor.session().space());
    let then = kept(rt, editor, reach);
    let count = editor.session().count();
    for _ in 0..TRIES {
        play(editor, &[key]);
        if editor.session().count() > count {
            return;
        }
        refusals.met(rt, &kept(rt, editor, reach), &then);
        assert_told(rt, editor, refusals);
    }
    panic!(rt; "refused each time")
}

/// Two bytes and Undo, played.
pub(crate) fn played_keys<A: AllocGlobal + Abort>(rt: &A, refusals: &mut Refusals) {
    let mut editor = editor(rt, refusals);
    for key in b"ab\x15" {
        played(rt, &mut editor, *key, refusals);
    }
    let texts = [b"".as_slice(), b"a", b"ab", b"a"];
    for (k, text) in (0u32..).zip(texts.iter()) {
        assert_text(rt, editor.session(), k, *text);
    }
    assert_same(rt, &editor.session().count(), &4, &"revisions");
}

fn resume(
    editor: &mut NoFile,
    played: &[u8],
    keys: &mut Keys<'_>,
    screen: &mut Taker,
) -> Result<End, RunFault> {
    editor.resume(played, keys, screen)
}

/// Looks at a run that ended well. Where a key made no revision it was refused, and the screen says so; that is told.
fn is_resumed<A: Abort>(rt: &A, editor: &NoFile, screen: &[u8], refusals: &mut Refusals) {
    assert_same(rt, &frame_count(screen), &2, &"frames");
    if editor.session().count() < 3 {
        assert!(rt; has_message(screen), "a key did nothing");
        refusals.met(rt, &(), &());
    } else {
        assert!(rt; screen.ends_with(b"rev 2 byte 2 of 2\x1b[1;3H"));
    }
}

/// Goes on behind a key that is played. Where a frame was refused memory the run ends, and it is run again from there.
fn run_on<A: AllocGlobal + Abort>(rt: &A, keys: &mut Keys<'_>, refusals: &mut Refusals) {
    let mut editor = editor(rt, refusals);
    let mut screen = Taker::new();
    let mut left = b"a".as_slice();
    for _ in 0..TRIES {
        match resume(&mut editor, left, keys, &mut screen) {
            Ok(end) => {
                assert_same(rt, &end, &End::Save, &"the key Save");
                is_resumed(rt, &editor, screen.taken(), refusals);
                return;
            }
            Err(fault) => {
                let memory = RunFault::Frame(FrameFault::Memory);
                assert_same(rt, &fault, &memory, &"a frame");
                refusals.met(rt, &(), &());
                left = b"";
            }
        }
    }
    panic!(rt; "refused each time")
}

/// A key that is played and one that is kept, which the journal has once, whatever was refused.
pub(crate) fn resumed<A: AllocGlobal + Abort>(rt: &A, refusals: &mut Refusals) {
    let mut journal = Taker::new();
    let mut keys = Kept::new(Giver { bytes: b"b\x18" }, &mut journal);
    run_on(rt, &mut keys, refusals);
    drop(keys);
    assert_same(rt, &journal.taken(), &b"b".as_slice(), &"what is kept");
}

/// One run of the tool behind the first key: whether it did all that the keys say. Where it was refused memory, it
/// wrote frames and no image, and kept a front of the others.
fn is_kept<A: AllocGlobal + Abort>(rt: &A, refusals: &mut Refusals) -> bool {
    let (played, typed) = KEYS.split_at(1);
    let mut screen = Taker::new();
    let mut image = Taker::new();
    let mut journal = Taker::new();
    let mut keys = Kept::new(Giver { bytes: typed }, &mut journal);
    let none = MemSources::new(rt.alloc());
    let found = run_kept(rt.alloc(), none, played, &mut keys, &mut screen, &mut image);
    drop(keys);
    match found {
        Ok(status) => {
            assert_same(rt, &status, &Status::Success, &"status");
            let all = typed.strip_suffix(b"\x18");
            assert_same(rt, &Some(journal.taken()), &all, &"what is kept");
            is_saved(rt, screen.taken(), 1, image.taken(), refusals)
        }
        Err(fault) => {
            assert_same(rt, &fault, &ToolFault::Memory, &"memory");
            assert_same(rt, &exit_status(Outcome::Ended(fault)), &3, &"status");
            let shown = frame_count(screen.taken());
            assert!(rt; are_frames(screen.taken(), 1, shown), "frames");
            assert!(rt; typed.starts_with(journal.taken()), "what is kept");
            refusals.met(rt, &image.taken().len(), &0);
            false
        }
    }
}

/// The keys of the tool, the first of which was kept before.
pub(crate) fn edited_kept<A: AllocGlobal + Abort>(rt: &A, refusals: &mut Refusals) {
    for _ in 0..TRIES {
        if is_kept(rt, refusals) {
            return;
        }
    }
    panic!(rt; "refused each time")
}
