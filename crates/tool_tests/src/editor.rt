//! The screen editor on worked keys, and over keys, screens and sources that fail.

use crate::fakes::{Flaky, Full, Giver, Taker};
use crate::same::assert_same;
use crate::tools::{show, texts_in};
use cord_tools::{Status, ToolFault, may_replace, only_look, run_edit, run_kept};
use image_reader::ReadFault;
use key_journal::Kept;
use lazy_file::{SOURCE_LIMIT, SourceFault, Sources};
use screen_editor::{
    Editor, EditorFault, Effect, End, FrameFault, Key, KeyFault, LinePlace, RunFault, Step,
};
use session_checker::CheckFault;
use std::alloc::AllocGlobal;
use std::io::{ErrorKind, Write};
use std::process::Abort;

/// Keys, over a file or none: texts of the session's revisions, the last of them its last, and the end of the screen.
#[derive(Clone, Copy)]
struct Keys<'a> {
    file: &'a [&'a [u8]],
    keys: &'a [u8],
    texts: &'a [&'a [u8]],
    last: u64,
    screen_end: &'a [u8],
}

/// The key Left.
const LEFT: u8 = 0x02;

/// The key Up.
const UP: u8 = 0x10;

/// Eighty `x` and a byte that is not shown as itself.
const LONG_LINE: &[u8] =
    b"xxxxxxxxxxxxxxxxxxxxxxxxxxxxxxxxxxxxxxxxxxxxxxxxxxxxxxxxxxxxxxxxxxxxxxxxxxxxxxxx\0";

/// Keys over no file.
fn worked_alone() -> [Keys<'static>; 4] {
    [
        // Typing goes on from the text that undo gave.
        Keys {
            file: &[],
            keys: b"ab\x15c",
            texts: &[b"", b"a", b"ab", b"a", b"ac"],
            last: 4,
            screen_end: b"\x1b[2J\x1b[Hac\r\n\r\n\r\n\r\n\r\n\r\n\r\n\r\n\r\n\r\n\r\n\r\n\r\n\r\n\r\n\r\n\r\n\
                \r\n\r\n\r\n\r\n\r\n\r\nrev 4 byte 2 of 2\x1b[1;3H",
        },
        // Undo ends at the first text.
        Keys {
            file: &[],
            keys: b"ab\x15\x15\x15",
            texts: &[b"", b"a", b"ab", b"a", b""],
            last: 4,
            screen_end: b"\r\nrev 4 byte 0 of 0\x1b[1;1H",
        },
        // What was cut is pasted.
        Keys {
            file: &[],
            keys: b"abc\x01\0\x06\x06\x17\x05\x19",
            texts: &[b"", b"a", b"ab", b"abc", b"c", b"cab"],
            last: 5,
            screen_end: b"\r\nrev 5 byte 3 of 3\x1b[1;4H",
        },
        // Sixteen cut spans are kept.
        Keys {
            file: &[],
            keys: b"a\0\x02\x17a\0\x02\x17a\0\x02\x17a\0\x02\x17a\0\x02\x17a\0\x02\x17a\0\x02\x17a\0\x02\x17a\0\x02\x17\
                a\0\x02\x17a\0\x02\x17a\0\x02\x17a\0\x02\x17a\0\x02\x17a\0\x02\x17a\0\x02\x17a\0\x02\x17\
                \x19\x14\x19\x14\x19\x14\x19\x14\x19\x14\x19\x14\x19\x14\x19\x14\x19\x14\
                \x19\x14\x19\x14\x19\x14\x19\x14\x19\x14\x19\x14\x19\x14\x19\x14",
            texts: &[b"aaaaaaaaaaaaaaaa"],
            last: 50,
            screen_end: b"\r\nrev 50 byte 16 of 16\x1b[1;17H",
        },
    ]
}

/// Keys over a file.
fn worked_over_a_file() -> [Keys<'static>; 4] {
    [
        // A line is shown from its 81st byte.
        Keys {
            file: &[LONG_LINE],
            keys: b"\x05",
            texts: &[LONG_LINE],
            last: 0,
            screen_end: b"\x1b[2J\x1b[H?\r\n\r\n\r\n\r\n\r\n\r\n\r\n\r\n\r\n\r\n\r\n\r\n\r\n\r\n\r\n\r\n\r\n\r\n\
                \r\n\r\n\r\n\r\n\r\nrev 0 byte 81 of 81\x1b[1;2H",
        },
        // Up and down keep the column.
        Keys {
            file: &[b"ab\ncde"],
            keys: b"\x06\x06\x06\x06\x06\x10",
            texts: &[b"ab\ncde"],
            last: 0,
            screen_end: b"\r\nrev 0 byte 2 of 6\x1b[1;3H",
        },
        Keys {
            file: &[b"ab\ncde"],
            keys: b"\x06\x06\x06\x06\x06\x10\x0e",
            texts: &[b"ab\ncde"],
            last: 0,
            screen_end: b"\r\nrev 0 byte 5 of 6\x1b[2;3H",
        },
        // What is typed stands before the file.
        Keys {
            file: &[b"x\ny"],
            keys: b"abc",
            texts: &[b"x\ny", b"ax\ny", b"abx\ny", b"abcx\ny"],
            last: 3,
            screen_end: b"\r\nrev 3 byte 3 of 6\x1b[1;4H",
        },
    ]
}

fn worked() -> [Keys<'static>; 8] {
    let [undone, ended, pasted, kept] = worked_alone();
    let [long, up, down, before] = worked_over_a_file();
    [undone, ended, long, up, down, before, pasted, kept]
}

/// The text that an image shows of a revision.
fn text<R: AllocGlobal + Abort>(
    rt: &R,
    image: &[u8],
    file: &[&[u8]],
    k: u64,
) -> Result<Vec<u8>, ToolFault> {
    let mut bytes = Vec::new(rt.alloc());
    show(rt, Giver::of(image), &mut texts_in(rt, file), k, &mut bytes)?;
    Ok(bytes)
}

/// Types the keys and the key Save, and looks at the end of the screen and at each revision of the image.
fn assert_typed<R: AllocGlobal + Abort>(rt: &R, case: &Keys<'_>) {
    let mut keys = case.keys.to_vec(rt.alloc()).expect(rt, "the keys");
    keys.push(0x18).expect(rt, "the key Save");
    let mut screen: Vec<u8> = Vec::new(rt.alloc());
    let mut image: Vec<u8> = Vec::new(rt.alloc());
    let sources = texts_in(rt, case.file);
    let found = run_edit(
        rt.alloc(),
        sources,
        &mut keys.as_slice(),
        &mut screen,
        &mut image,
    );
    assert_same(rt, &found, &Ok(Status::Success), &case.keys);
    assert!(rt; screen.ends_with(case.screen_end), "{:?}", case.keys);
    for (k, wanted) in (0..=case.last).rev().zip(case.texts.iter().rev()) {
        let found = text(rt, &image, case.file, k).expect(rt, "a text");
        assert_same(rt, &found.as_slice(), wanted, &k);
    }
    let none = text(rt, &image, case.file, case.last.saturating_add(1)).err();
    assert_same(rt, &none, &Some(ToolFault::NoRevision), &case.keys);
}

#[test]
fn worked_keys_are_shown_and_saved(rt: HostRuntime) {
    for case in worked() {
        assert_typed(&rt, &case);
    }
}

/// Edits a file behind the first `cut` keys, which are played, and saves. Answers what the journal has then.
fn resumed<R: AllocGlobal + Abort>(
    rt: &R,
    case: &Keys<'_>,
    cut: usize,
    image: &mut Vec<u8>,
) -> Vec<u8> {
    let played = case.keys.get(..cut).expect(rt, "the keys before");
    let typed = case.keys.get(cut..).expect(rt, "the keys behind");
    let mut typed = typed.to_vec(rt.alloc()).expect(rt, "the keys");
    typed.push(0x18).expect(rt, "the key Save");
    let mut screen: Vec<u8> = Vec::new(rt.alloc());
    let mut journal = played.to_vec(rt.alloc()).expect(rt, "a journal");
    let mut keys = Kept::new(Giver::of(&typed), &mut journal);
    let found = run_kept(
        rt.alloc(),
        texts_in(rt, case.file),
        played,
        &mut keys,
        &mut screen,
        image,
    );
    assert_same(rt, &found, &Ok(Status::Success), &(case.keys, cut));
    assert!(rt; screen.ends_with(case.screen_end), "{:?} {cut}", case.keys);
    drop(keys);
    journal
}

#[test]
fn a_session_goes_on_from_each_front_of_its_keys(rt: HostRuntime) {
    for case in worked() {
        for cut in 0..case.keys.len().saturating_add(1) {
            let mut image: Vec<u8> = Vec::new(rt.alloc());
            let journal = resumed(&rt, &case, cut, &mut image);
            assert_same(&rt, &journal.as_slice(), &case.keys, &cut);
            for (k, wanted) in (0..=case.last).rev().zip(case.texts.iter().rev()) {
                let found = text(&rt, &image, case.file, k).expect(&rt, "a text");
                assert_same(&rt, &found.as_slice(), wanted, &(case.keys, cut, k));
            }
        }
    }
}

#[test]
fn a_key_that_is_not_kept_is_not_taken(rt: HostRuntime) {
    let typed = b"abc\x18";
    for (room, wanted, written) in [
        (0, Err(ToolFault::Write), b"".as_slice()),
        (2, Err(ToolFault::Write), b""),
        (3, Ok(Status::Success), b"CORDSESS"),
    ] {
        let mut journal = Taker::with_room(room, Full::Fails);
        let mut screen: Vec<u8> = Vec::new(rt.alloc());
        let mut image: Vec<u8> = Vec::new(rt.alloc());
        let mut keys = Kept::new(Giver::of(typed), &mut journal);
        let found = run_kept(
            rt.alloc(),
            texts_in(&rt, &[]),
            &[],
            &mut keys,
            &mut screen,
            &mut image,
        );
        drop(keys);
        assert_same(&rt, &found, &wanted, &room);
        assert!(&rt; image.starts_with(written), "{room}");
        assert_same(&rt, &image.is_empty(), &written.is_empty(), &room);
        assert_same(&rt, &Some(journal.taken()), &typed.get(..room), &room);
    }
}

#[test]
fn an_image_replaces_an_image_or_nothing(rt: HostRuntime) {
    let refused = Err(ToolFault::Refused(CheckFault::Read(ReadFault::Magic)));
    for (front, wanted) in [
        (b"".as_slice(), Ok(())),
        (b"CORDSESS", Ok(())),
        (b"CORDSESS and more", Ok(())),
        (b"C", refused),
        (b"CORDSES", refused),
        (b"CORDKEYS", refused),
        (b"an essay", refused),
    ] {
        assert_same(&rt, &may_replace(front), &wanted, &front);
    }
}

/// The bytes of each row, as docs/EDITOR.md tells what its keys do.
#[test]
fn each_key_has_its_row(rt: HostRuntime) {
    let rows: [(&[u8], Effect); 8] = [
        (b"a~ \t\r\n\x08\x7f\x04\x17\x19\x15\x0c", Effect::Edits),
        (b"\x02\x06\x00\x14\x1b\xff", Effect::Moves),
        (b"\x01", Effect::Looks(LinePlace::Start)),
        (b"\x05", Effect::Looks(LinePlace::End)),
        (b"\x10", Effect::Looks(LinePlace::Above)),
        (b"\x0e", Effect::Looks(LinePlace::Below)),
        (b"\x18", Effect::Ends(Step::Save)),
        (b"\x03", Effect::Ends(Step::Leave)),
    ];
    for (keys, effect) in rows {
        for key in keys {
            assert_same(&rt, &Key::of(*key).effect(), &effect, key);
        }
    }
}

#[test]
fn keys_that_look_make_no_revision(rt: HostRuntime) {
    for (keys, wanted) in [
        (b"".as_slice(), true),
        (b"\x02\x06\x01\x05\x10\x0e\x00\x14\x1f\xff", true),
        (b"\x02\x0ca", false),
        (b"\x02\x08", false),
        (b"\x7f", false),
        (b"\x04", false),
        (b"\x17\x02", false),
        (b"\x19", false),
        (b"\x15", false),
        (b"\x0c", false),
        (b"\r", false),
        (b"\x02\x02 ", false),
    ] {
        assert_same(&rt, &only_look(keys), &wanted, &keys);
    }
}

/// Frames of one line: the line, and what follows the last of the 23 rows.
fn frames<R: AllocGlobal + Abort>(rt: &R, shown: &[(&str, &str)]) -> Vec<u8> {
    let mut screen = Vec::new(rt.alloc());
    for (line, status) in shown {
        let rows =
            "\r\n\r\n\r\n\r\n\r\n\r\n\r\n\r\n\r\n\r\n\r\n\r\n\r\n\r\n\r\n\r\n\r\n\r\n\r\n\r\n\r\n\r\n\r\n";
        let frame = format!(in rt.alloc(); "\x1b[2J\x1b[H{line}{rows}{status}").expect(
            rt, "a frame",
        );
        screen
            .extend_from_slice(frame.as_bytes())
            .expect(rt, "a screen");
    }
    screen
}

/// The five frames of `a`, `b`, undo and `c`.
const FIVE_FRAMES: [(&str, &str); 5] = [
    ("", "rev 0 byte 0 of 0\x1b[1;1H"),
    ("a", "rev 1 byte 1 of 1\x1b[1;2H"),
    ("ab", "rev 2 byte 2 of 2\x1b[1;3H"),
    ("a", "rev 3 byte 1 of 1\x1b[1;2H"),
    ("ac", "rev 4 byte 2 of 2\x1b[1;3H"),
];

/// An editor of these texts, of which the first is edited.
fn editor<S: Sources + Drop, R: AllocGlobal + Abort>(rt: &R, sources: S) -> Editor<S> {
    Editor::new(rt.alloc(), sources).expect(rt, "an editor")
}

#[test]
fn a_run_is_shown_as_far_as_the_screen_takes_it(rt: HostRuntime) {
    let whole = frames(&rt, &FIVE_FRAMES);
    for room in 0..=whole.len() {
        for (keys, end, full) in [
            (b"ab\x15c\x18z".as_slice(), End::Save, Full::Fails),
            (b"ab\x15c\x03z", End::Leave, Full::Fails),
            (b"ab\x15c", End::Leave, Full::TakesNothing),
        ] {
            let mut screen = Taker::with_room(room, full);
            let mut editor = editor(&rt, texts_in(&rt, &[]));
            let found = editor.run(&mut Giver::of(keys), &mut screen);
            let wanted = if room < whole.len() {
                Err(RunFault::Write)
            } else {
                Ok(end)
            };
            assert_same(&rt, &found, &wanted, &room);
            assert_same(&rt, &Some(screen.taken()), &whole.get(..room), &room);
        }
    }
}

/// The key `a`, typed, and the key Save.
const ONE_LETTER: &[u8] = b"a\x18";

/// The image of that: its header, node, two revisions, row and pool.
const ONE_LETTER_IMAGE: &[u8] = b"CORDSESS\0\0\0\x02\0\0\0\0\0\0\0\x01\0\0\0\x02\
    \0\0\0\x01\0\0\0\0\0\0\0\0\0\0\0\x01\
    \x01\0\0\0\0\0\0\0\0\0\0\0\0\0\0\x01\0\0\0\0\0\0\0\0\
    \0\0\0\0\0\0\0\0\
    \x01\0\0\0\xff\xff\xff\xff\0\0\0\0\0\0\0\0\0\0\0\0\0\0\0\0\
    \0\0\0\0\0\0\0\0\0\0\0\0\0\0\0\0\0\0\0\0\0\0\0\0\
    \0\0\0\0\0\0\0\0\
    \x03\x01\0\0\0\0\0\0\0\0\0\0\0\0\0\0\0\0\0\0\0\0\0\0\
    \0\0\0\0\0\0\0\0\0\0\0\0\0\0\0\0\0\0\0\0\0\0\0\x01\
    \0\0\0\x01\0\0\0\0\
    \x02\0\0\0\0\0\0\0\0\0\0\0\0\0\0\x01\0\0\0\0\0\0\0\0\
    a";

/// An edit of no file: its keys, its screen and where its image goes.
#[derive(Drop)]
struct Edited<'a> {
    keys: Giver<'a>,
    screen: Taker,
    image: Taker,
}

impl<'a> Edited<'a> {
    /// One that has room for all.
    fn by(keys: Giver<'a>) -> Edited<'a> {
        Edited {
            keys,
            screen: Taker::with_room(512, Full::Fails),
            image: Taker::with_room(512, Full::Fails),
        }
    }

    /// Edits, and asserts how it ends, and what of the frames and of the image is written.
    fn assert_ends<R: AllocGlobal + Abort>(
        &mut self,
        rt: &R,
        wanted: Result<Status, ToolFault>,
        frames: Option<&[u8]>,
        image: Option<&[u8]>,
    ) {
        let sources = texts_in(rt, &[]);
        let found = run_edit(
            rt.alloc(),
            sources,
            &mut self.keys,
            &mut self.screen,
            &mut self.image,
        );
        assert_same(rt, &found, &wanted, &frames);
        assert_same(rt, &Some(self.screen.taken()), &frames, &"frames");
        assert_same(rt, &Some(self.image.taken()), &image, &"image");
    }
}

#[test]
fn an_image_is_written_behind_all_frames_alone(rt: HostRuntime) {
    let whole = frames(&rt, &FIVE_FRAMES[..2]);
    let none = Some(b"".as_slice());
    let write = Err(ToolFault::Write);
    for full in [Full::Fails, Full::TakesNothing] {
        for room in 0..whole.len() {
            let mut edited = Edited::by(Giver::of(ONE_LETTER));
            edited.screen = Taker::with_room(room, full);
            edited.assert_ends(&rt, write, whole.get(..room), none);
        }
        for room in 0..ONE_LETTER_IMAGE.len() {
            let mut edited = Edited::by(Giver::of(ONE_LETTER));
            edited.image = Taker::with_room(room, full);
            let image = ONE_LETTER_IMAGE.get(..room);
            edited.assert_ends(&rt, write, Some(whole.as_slice()), image);
        }
    }
    let saved = Ok(Status::Success);
    let image = Some(ONE_LETTER_IMAGE);
    Edited::by(Giver::of(ONE_LETTER)).assert_ends(&rt, saved, Some(whole.as_slice()), image);
}

#[test]
fn keys_that_fail_or_end_leave_no_image(rt: HostRuntime) {
    let none = Some(b"".as_slice());
    let keys = b"ab\x15c\x18".as_slice();
    for n in 0..keys.len() {
        let shown = frames(
            &rt,
            FIVE_FRAMES.get(..n.saturating_add(1)).unwrap_or_default(),
        );
        let mut failing = Edited::by(Giver::cut_at(keys, n));
        failing.assert_ends(&rt, Err(ToolFault::Read), Some(shown.as_slice()), none);
        let mut ending = Edited::by(Giver::of(keys.get(..n).unwrap_or_default()));
        ending.assert_ends(&rt, Ok(Status::Success), Some(shown.as_slice()), none);
    }
}

fn press<S: Sources + Drop>(editor: &mut Editor<S>, byte: u8) -> Result<Step, KeyFault> {
    editor.key(byte)
}

/// Asserts that the screen ends so.
fn assert_shown<S: Sources + Drop, A: Abort>(rt: &A, editor: &mut Editor<S>, end: &[u8]) {
    let frame = editor.frame().expect(rt, "a frame");
    assert!(rt; frame.ends_with(end), "{end:?}");
}

/// A source of so many line breaks.
#[derive(Drop)]
struct Breaks {
    len: u64,
}

impl Sources for Breaks {
    ghost use Rattle.std.specs.Prelude.{[], ◌∷◌, None, true, min};
    ghost use Rattle.lazy_file.specs.declared.sources.TheConstants.{SOURCE_LIMIT};

    ghost reading = { λ s. record {
      stated = record { sizes = min s.len SOURCE_LIMIT ∷ []; texts = None ∷ []; never_fails = true };
      failures = λ _. 0;
    } };

    fn count(&self) -> u8 {
        1
    }

    fn len(&self, _s: u8) -> u64 {
        self.len.min(SOURCE_LIMIT)
    }

    fn read(&mut self, s: u8, off: u64, buffer: &mut [u8]) -> Result<(), SourceFault> {
        let len = self.len.min(SOURCE_LIMIT);
        if s > 0 || off > len || buffer.len() as u64 > len - off {
            return Err(SourceFault::BadSource);
        }
        buffer.fill(b'\n');
        Ok(())
    }
}

#[test]
fn a_text_of_two_gibibytes_is_too_long(rt: HostRuntime) {
    let too_long = Breaks { len: 2_147_483_648 };
    let refused = Editor::new(rt.alloc(), too_long).err();
    assert_same(&rt, &refused, &Some(EditorFault::TooLong), &"new");
    let mut editor = editor(&rt, Breaks { len: 2_147_483_647 });
    let refused = press(&mut editor, b'a');
    assert_same(&rt, &refused, &Err(KeyFault::TooLong), &"a");
    assert_same(&rt, &editor.session().count(), &1, &"count");
    assert_shown(
        &rt,
        &mut editor,
        b"\r\nrev 0 byte 0 of 2147483647 K1\x1b[1;1H",
    );
    // The key Save leaves the message, and the mark takes it away.
    assert_same(&rt, &press(&mut editor, 0x18), &Ok(Step::Save), &"Save");
    assert_shown(
        &rt,
        &mut editor,
        b"\r\nrev 0 byte 0 of 2147483647 K1\x1b[1;1H",
    );
    assert_same(&rt, &press(&mut editor, 0), &Ok(Step::Going), &"mark");
    assert_shown(&rt, &mut editor, b"\r\nrev 0 byte 0 of 2147483647\x1b[1;1H");
}

/// Presses the keys Right, five times, Up and Down over two files of which one fails
/// once, behind so many of its reads, and tells how many keys and frames said so.
/// Each that did is tried again, and what was there before the refusal still is.
fn refusals<R: AllocGlobal + Abort>(rt: &R, broken: u8, left: u64) -> u64 {
    let files = Flaky {
        texts: texts_in(rt, &[b"ab\ncde", b"fg"]),
        broken,
        left,
        failed: 0,
    };
    let mut editor = editor(rt, files);
    let mut refusals = 0u64;
    for byte in *b"\x06\x06\x06\x06\x06\x10\x0e" {
        let mut step = press(&mut editor, byte);
        if step == Err(KeyFault::Source(SourceFault::Device)) {
            refusals = refusals.saturating_add(1);
            let kept: &[u8] = if byte == UP {
                b"\r\nrev 0 byte 5 of 6 S1\x1b[2;3H"
            } else {
                b"\r\nrev 0 byte 2 of 6 S1\x1b[1;3H"
            };
            assert_shown(rt, &mut editor, kept);
            step = press(&mut editor, byte);
        }
        assert_same(rt, &step, &Ok(Step::Going), &(broken, left, byte));
    }
    let end = b"\r\nrev 0 byte 5 of 6\x1b[2;3H";
    match editor.frame() {
        Ok(frame) => assert!(rt; frame.ends_with(end), "{broken} {left}"),
        Err(fault) => {
            refusals = refusals.saturating_add(1);
            let told = FrameFault::Source(SourceFault::Device);
            assert_same(rt, &fault, &told, &(broken, left));
            assert_shown(rt, &mut editor, end);
        }
    }
    refusals
}

#[test]
fn a_key_or_a_frame_tells_the_read_that_failed(rt: HostRuntime) {
    assert_same(&rt, &refusals(&rt, 0, 0), &1, &"the first read");
    for left in 1..20 {
        assert!(&rt; refusals(&rt, 0, left) <= 1, "{left}");
    }
    assert_same(&rt, &refusals(&rt, 1, 0), &0, &"the other file");
}

/// Behind the 23 lines that are typed the file's first one is no row, so that a frame of them reads no byte of it.
#[test]
fn a_frame_reads_no_leaf_behind_that_of_its_last_line_break(rt: HostRuntime) {
    let files = Flaky {
        texts: texts_in(&rt, &[b"behind the screen"]),
        broken: 0,
        left: 0,
        failed: 0,
    };
    let mut editor = editor(&rt, files);
    for byte in [b'\n', LEFT] {
        for _ in 0..23 {
            assert_same(&rt, &press(&mut editor, byte), &Ok(Step::Going), &byte);
        }
    }
    assert_shown(&rt, &mut editor, b"\r\nrev 23 byte 0 of 40\x1b[1;1H");
}
