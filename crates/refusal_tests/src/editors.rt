//! The screen editor on worked keys: each key and frame made again where it was refused memory, and whole runs.

use crate::fakes::{Giver, Taker};
use crate::files::{File, one_file};
use crate::kept::{Digest, Reach, session_digest};
use crate::refusals::{Refusals, TRIES, assert_same};
use crate::sessions::assert_text;
use cord_tools::{Outcome, Status, ToolFault, exit_status, run_edit};
use edit_commands::EditFault;
use lazy_file::{FileSources, MemSources, SourceFault, Sources};
use screen_editor::{Editor, EditorFault, End, FrameFault, KeyFault, RunFault, Step};
use session_checker::{Checked, check};
use std::alloc::AllocGlobal;
use std::process::Abort;

/// The ends of the 23 lines of a frame.
const ROWS: &[u8] =
    b"\r\n\r\n\r\n\r\n\r\n\r\n\r\n\r\n\r\n\r\n\r\n\r\n\r\n\r\n\r\n\r\n\r\n\r\n\r\n\r\n\r\n\r\n\r\n";

/// A key, and the frame behind it: its first line, its status and the place of its cursor.
#[derive(Clone, Copy, Debug)]
pub struct Typed<'a> {
    key: u8,
    line: &'a [u8],
    status: &'a [u8],
    cursor: &'a [u8],
}

fn after_key<'a>(key: u8, line: &'a [u8], status: &'a [u8], cursor: &'a [u8]) -> Typed<'a> {
    Typed {
        key,
        line,
        status,
        cursor,
    }
}

/// What stands in a text behind its front.
fn behind<'a>(text: Option<&'a [u8]>, front: &[u8]) -> Option<&'a [u8]> {
    text?.strip_prefix(front)
}

/// Whether a frame has this line, status, message and cursor.
fn is_frame(frame: &[u8], shown: &Typed<'_>, message: &[u8]) -> bool {
    let mut rest = Some(frame);
    for part in [
        b"\x1b[2J\x1b[H".as_slice(),
        shown.line,
        ROWS,
        shown.status,
        message,
        shown.cursor,
    ] {
        rest = behind(rest, part);
    }
    rest == Some(b"".as_slice())
}

/// An editor of no file.
fn new_editor<A: AllocGlobal>(rt: &A) -> Result<Editor<MemSources<'static>>, EditorFault> {
    Editor::new(rt.alloc(), MemSources::new(rt.alloc()))
}

/// Whether an editor was refused memory.
fn is_refused(fault: EditorFault) -> bool {
    matches!(
        fault,
        EditorFault::Memory | EditorFault::Edit(EditFault::Memory)
    )
}

pub(crate) fn editor<A: AllocGlobal + Abort>(
    rt: &A,
    refusals: &mut Refusals,
) -> Editor<MemSources<'static>> {
    for _ in 0..TRIES {
        match new_editor(rt) {
            Ok(editor) => return editor,
            Err(fault) => {
                assert!(rt; is_refused(fault));
                refusals.met(rt, &(), &());
            }
        }
    }
    panic!(rt; "refused each time")
}

fn run<S: Sources + Drop>(
    editor: &mut Editor<S>,
    keys: &mut Giver<'_>,
    screen: &mut Taker,
) -> Result<End, RunFault> {
    editor.run(keys, screen)
}

fn press<S: Sources + Drop>(editor: &mut Editor<S>, byte: u8) -> Result<Step, KeyFault> {
    editor.key(byte)
}

/// Fails the test where the editor shows something else. A frame that was refused memory is made again.
fn assert_shown<S: Sources + Drop, A: Abort>(
    rt: &A,
    editor: &mut Editor<S>,
    shown: &Typed<'_>,
    message: &[u8],
    refusals: &mut Refusals,
) {
    for _ in 0..TRIES {
        match editor.frame() {
            Ok(frame) => {
                assert!(rt; is_frame(frame.as_slice(), shown, message), "{shown:?}");
                return;
            }
            Err(fault) => {
                assert_same(rt, &fault, &FrameFault::Memory, shown);
                refusals.met(rt, &(), &());
            }
        }
    }
    panic!(rt; "refused each time")
}

/// The revisions of an editor's session, and what there was of its store.
pub(crate) fn kept<S: Sources + Drop, A: AllocGlobal + Abort>(
    rt: &A,
    editor: &Editor<S>,
    reach: Reach,
) -> Digest {
    let mut none = MemSources::new(rt.alloc());
    session_digest(rt, editor.session(), &mut none, reach)
}

/// Presses a key, whose frame is `after`; where it was refused memory, the
/// frame has that message and else all of `before`, and the key is typed again.
fn pressed<S: Sources + Drop, A: AllocGlobal + Abort>(
    rt: &A,
    editor: &mut Editor<S>,
    before: &Typed<'_>,
    after: &Typed<'_>,
    refusals: &mut Refusals,
) {
    let reach = Reach::of(editor.session().space());
    let then = kept(rt, editor, reach);
    for _ in 0..TRIES {
        match press(editor, after.key) {
            Ok(step) => {
                assert_same(rt, &step, &Step::Going, after);
                assert_shown(rt, editor, after, b"", refusals);
                return;
            }
            Err(fault) => {
                assert_same(rt, &fault, &KeyFault::Edit(EditFault::Memory), after);
                refusals.met(rt, &kept(rt, editor, reach), &then);
                assert_shown(rt, editor, before, b" Memory", refusals);
            }
        }
    }
    panic!(rt; "refused each time")
}

/// Types keys into an editor of no file, and looks at each frame.
fn typed_into<A: AllocGlobal + Abort>(
    rt: &A,
    keys: &[Typed<'_>],
    texts: &[&[u8]],
    refusals: &mut Refusals,
) {
    let mut editor = editor(rt, refusals);
    let mut before = after_key(0, b"", b"rev 0 byte 0 of 0", b"\x1b[1;1H");
    assert_shown(rt, &mut editor, &before, b"", refusals);
    for after in keys {
        pressed(rt, &mut editor, &before, after, refusals);
        before = *after;
    }
    for (k, text) in (0u32..).zip(texts.iter()) {
        assert_text(rt, editor.session(), k, *text);
    }
    let count = editor.session().count() as usize;
    assert_same(rt, &count, &texts.len(), &"revisions");
}

pub(crate) fn undo_then_type<A: AllocGlobal + Abort>(rt: &A, refusals: &mut Refusals) {
    let keys = [
        after_key(b'a', b"a", b"rev 1 byte 1 of 1", b"\x1b[1;2H"),
        after_key(b'b', b"ab", b"rev 2 byte 2 of 2", b"\x1b[1;3H"),
        after_key(0x15, b"a", b"rev 3 byte 1 of 1", b"\x1b[1;2H"),
        after_key(b'c', b"ac", b"rev 4 byte 2 of 2", b"\x1b[1;3H"),
    ];
    let texts = [b"".as_slice(), b"a", b"ab", b"a", b"ac"];
    typed_into(rt, &keys, &texts, refusals);
}

/// `abc`, of which `ab` is cut and pasted twice behind the `c`.
const CUT_AND_PASTED: [Typed<'static>; 11] = [
    Typed {
        key: b'a',
        line: b"a",
        status: b"rev 1 byte 1 of 1",
        cursor: b"\x1b[1;2H",
    },
    Typed {
        key: b'b',
        line: b"ab",
        status: b"rev 2 byte 2 of 2",
        cursor: b"\x1b[1;3H",
    },
    Typed {
        key: b'c',
        line: b"abc",
        status: b"rev 3 byte 3 of 3",
        cursor: b"\x1b[1;4H",
    },
    Typed {
        key: 0x01,
        line: b"abc",
        status: b"rev 3 byte 0 of 3",
        cursor: b"\x1b[1;1H",
    },
    Typed {
        key: 0x00,
        line: b"abc",
        status: b"rev 3 byte 0 of 3",
        cursor: b"\x1b[1;1H",
    },
    Typed {
        key: 0x06,
        line: b"abc",
        status: b"rev 3 byte 1 of 3",
        cursor: b"\x1b[1;2H",
    },
    Typed {
        key: 0x06,
        line: b"abc",
        status: b"rev 3 byte 2 of 3",
        cursor: b"\x1b[1;3H",
    },
    Typed {
        key: 0x17,
        line: b"c",
        status: b"rev 4 byte 0 of 1",
        cursor: b"\x1b[1;1H",
    },
    Typed {
        key: 0x05,
        line: b"c",
        status: b"rev 4 byte 1 of 1",
        cursor: b"\x1b[1;2H",
    },
    Typed {
        key: 0x19,
        line: b"cab",
        status: b"rev 5 byte 3 of 3",
        cursor: b"\x1b[1;4H",
    },
    Typed {
        key: 0x19,
        line: b"cabab",
        status: b"rev 6 byte 5 of 5",
        cursor: b"\x1b[1;6H",
    },
];

/// The keys of that, and the key Save.
pub(crate) const KEYS: &[u8] = b"abc\x01\0\x06\x06\x17\x05\x19\x19\x18";

/// The texts of its revisions.
const TEXTS: [&[u8]; 7] = [b"", b"a", b"ab", b"abc", b"c", b"cab", b"cabab"];

pub(crate) fn cut_and_pasted<A: AllocGlobal + Abort>(rt: &A, refusals: &mut Refusals) {
    typed_into(rt, &CUT_AND_PASTED, &TEXTS, refusals);
}

/// Whether a screen has so many frames and no more: those behind so many keys and on, each behind one key more.
pub(crate) fn are_frames(screen: &[u8], behind_keys: usize, count: usize) -> bool {
    let first = after_key(0, b"", b"rev 0 byte 0 of 0", b"\x1b[1;1H");
    let mut rest = Some(screen);
    for k in behind_keys..behind_keys.saturating_add(count) {
        let shown = if k == 0 {
            first
        } else {
            CUT_AND_PASTED
                .get(k.saturating_sub(1))
                .copied()
                .unwrap_or(first)
        };
        for part in [
            b"\x1b[2J\x1b[H".as_slice(),
            shown.line,
            ROWS,
            shown.status,
            shown.cursor,
        ] {
            rest = behind(rest, part);
        }
    }
    rest == Some(b"".as_slice())
}

/// How many frames a screen has.
pub(crate) fn frame_count(screen: &[u8]) -> usize {
    screen.iter().filter(|byte| **byte == b'J').count()
}

/// Whether an image's revisions have the texts, as many as it has.
pub(crate) fn has_texts(image: &Checked<'_>, texts: &[&[u8]], none: &mut MemSources<'_>) -> bool {
    let mut is_so = image.revisions() as usize == texts.len();
    for (k, text) in (0u32..).zip(texts.iter()) {
        for (i, byte) in (0u64..).zip(text.iter()) {
            is_so = is_so && matches!(image.fetch(none, k, i), Ok((Some(x), _)) if x == *byte);
        }
        is_so = is_so && image.fetch(none, k, text.len() as u64) == Ok((None, 0));
    }
    is_so
}

/// Looks at what a run that ended well has shown, behind so many keys and on, and saved. Where its texts are not those
/// of the keys, a key was refused, and the screen says so; that is told.
pub(crate) fn is_saved<A: AllocGlobal + Abort>(
    rt: &A,
    screen: &[u8],
    behind_keys: usize,
    image: &[u8],
    refusals: &mut Refusals,
) -> bool {
    let mut none = MemSources::new(rt.alloc());
    let checked = check(image, &mut none).expect(rt, "the image is accepted");
    let frames = KEYS.len().saturating_sub(behind_keys);
    if has_texts(&checked, &TEXTS, &mut none) && are_frames(screen, behind_keys, frames) {
        return true;
    }
    refusals.met(rt, &(), &());
    assert!(rt;
        has_message(screen),
        "a key did nothing, and no frame says why"
    );
    false
}

/// One run of the tool: whether it did all that the keys say.
/// Where it was refused memory, it wrote frames and no image.
fn is_edited<A: AllocGlobal + Abort>(rt: &A, refusals: &mut Refusals) -> bool {
    let mut screen = Taker::new();
    let mut image = Taker::new();
    let mut keys = Giver { bytes: KEYS };
    let sources = MemSources::new(rt.alloc());
    match run_edit(rt.alloc(), sources, &mut keys, &mut screen, &mut image) {
        Ok(status) => {
            assert_same(rt, &status, &Status::Success, &"status");
            is_saved(rt, screen.taken(), 0, image.taken(), refusals)
        }
        Err(fault) => {
            assert_same(rt, &fault, &ToolFault::Memory, &"memory");
            assert_same(rt, &exit_status(Outcome::Ended(fault)), &3, &"status");
            let shown = frame_count(screen.taken());
            assert!(rt; are_frames(screen.taken(), 0, shown), "frames");
            refusals.met(rt, &image.taken().len(), &0);
            false
        }
    }
}

pub(crate) fn edited<A: AllocGlobal + Abort>(rt: &A, refusals: &mut Refusals) {
    for _ in 0..TRIES {
        if is_edited(rt, refusals) {
            return;
        }
    }
    panic!(rt; "refused each time")
}

/// Whether a frame of the screen has the message `Memory`.
pub(crate) fn has_message(screen: &[u8]) -> bool {
    let mut told = false;
    for window in screen.windows(7) {
        told = told || window == b" Memory".as_slice();
    }
    told
}

/// A run over one editor: where a frame was refused memory it ends, and it is run again from there.
pub(crate) fn run_again<A: AllocGlobal + Abort>(rt: &A, refusals: &mut Refusals) {
    let mut editor = editor(rt, refusals);
    let mut screen = Taker::new();
    let mut keys = Giver { bytes: b"ab\x18" };
    for _ in 0..TRIES {
        match run(&mut editor, &mut keys, &mut screen) {
            Ok(end) => {
                assert_same(rt, &end, &End::Save, &"the key Save");
                assert_same(rt, &frame_count(screen.taken()), &3, &"frames");
                if editor.session().count() < 3 {
                    assert!(rt; has_message(screen.taken()), "a key did nothing");
                    refusals.met(rt, &(), &());
                } else {
                    assert!(rt; screen.taken().ends_with(b"rev 2 byte 2 of 2\x1b[1;3H"));
                }
                return;
            }
            Err(fault) => {
                let memory = RunFault::Frame(FrameFault::Memory);
                assert_same(rt, &fault, &memory, &"a frame");
                refusals.met(rt, &(), &());
            }
        }
    }
    panic!(rt; "refused each time")
}

/// An editor of a file of two lines, of which a block is kept.
fn over_a_file<A: AllocGlobal + Abort>(
    rt: &A,
    refusals: &mut Refusals,
) -> Editor<FileSources<File<'static>>> {
    for _ in 0..TRIES {
        let files = one_file(rt, b"ab\ncde", refusals);
        match new_over(rt, files) {
            Ok(editor) => return editor,
            Err(fault) => {
                assert!(rt; is_refused(fault));
                refusals.met(rt, &(), &());
            }
        }
    }
    panic!(rt; "refused each time")
}

fn new_over<A: AllocGlobal, S: Sources + Drop>(
    rt: &A,
    sources: S,
) -> Result<Editor<S>, EditorFault> {
    Editor::new(rt.alloc(), sources)
}

/// Fails the test where the screen does not end so. A frame that was refused memory, or whose block was, is made again.
fn assert_ends<S: Sources + Drop, A: Abort>(
    rt: &A,
    editor: &mut Editor<S>,
    end: &[u8],
    refusals: &mut Refusals,
) {
    for _ in 0..TRIES {
        match editor.frame() {
            Ok(frame) => {
                assert!(rt; frame.ends_with(end), "{end:?}");
                return;
            }
            Err(fault) => {
                let is_memory = matches!(
                    fault,
                    FrameFault::Memory | FrameFault::Source(SourceFault::Memory)
                );
                assert!(rt; is_memory);
                refusals.met(rt, &(), &());
            }
        }
    }
    panic!(rt; "refused each time")
}

/// Presses a key, behind which the screen ends so; where it was refused memory it ends as it did, with that message.
fn turned<S: Sources + Drop, A: Abort>(
    rt: &A,
    editor: &mut Editor<S>,
    key: u8,
    ends: [&[u8]; 2],
    refusals: &mut Refusals,
) {
    let [refused, end] = ends;
    for _ in 0..TRIES {
        match press(editor, key) {
            Ok(step) => {
                assert_same(rt, &step, &Step::Going, &key);
                assert_ends(rt, editor, end, refusals);
                return;
            }
            Err(fault) => {
                let memory = KeyFault::Source(SourceFault::Memory);
                assert_same(rt, &fault, &memory, &key);
                refusals.met(rt, &(), &());
                assert_ends(rt, editor, refused, refusals);
            }
        }
    }
    panic!(rt; "refused each time")
}

/// The keys Right, five times, Up and Down over a file of two lines.
pub(crate) fn lines_of_a_file<A: AllocGlobal + Abort>(rt: &A, refusals: &mut Refusals) {
    let mut editor = over_a_file(rt, refusals);
    for _ in 0..5u32 {
        assert_same(rt, &press(&mut editor, 0x06), &Ok(Step::Going), &"right");
    }
    let up = [
        b"rev 0 byte 5 of 6 Memory\x1b[2;3H".as_slice(),
        b"rev 0 byte 2 of 6\x1b[1;3H",
    ];
    turned(rt, &mut editor, 0x10, up, refusals);
    let down = [
        b"rev 0 byte 2 of 6 Memory\x1b[1;3H".as_slice(),
        b"rev 0 byte 5 of 6\x1b[2;3H",
    ];
    turned(rt, &mut editor, 0x0e, down, refusals);
}
