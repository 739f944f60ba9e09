//! The screen editor on a line that is longer than what is searched through at once, shown behind each key.

use crate::fakes::Flaky;
use crate::same::assert_same;
use crate::tools::texts_in;
use lazy_file::{SourceFault, Sources};
use screen_editor::{Editor, FrameFault, Step};
use std::alloc::{AllocError, AllocGlobal};
use std::process::Abort;

/// A key, and the end of the screen behind it.
type Shown = (u8, &'static str);

/// Over a line of 5,000 bytes, which stands at 3 and ends at 5,003: bytes
/// typed and erased at its end, at its start, and in the line above.
const ABOUT_BORDERS: [Shown; 13] = [
    (0x0E, "\r\nrev 0 byte 3 of 5006\x1b[2;1H"),
    (0x05, "\r\nrev 0 byte 5003 of 5006\x1b[2;41H"),
    (b'y', "\r\nrev 1 byte 5004 of 5007\x1b[2;42H"),
    (0x08, "\r\nrev 2 byte 5003 of 5006\x1b[2;41H"),
    (0x08, "\r\nrev 3 byte 5002 of 5005\x1b[2;40H"),
    (0x01, "\r\nrev 3 byte 3 of 5005\x1b[2;1H"),
    (b'z', "\r\nrev 4 byte 4 of 5006\x1b[2;2H"),
    (0x02, "\r\nrev 4 byte 3 of 5006\x1b[2;1H"),
    (0x04, "\r\nrev 5 byte 3 of 5005\x1b[2;1H"),
    (0x02, "\r\nrev 5 byte 2 of 5005\x1b[1;3H"),
    (b'c', "\r\nrev 6 byte 3 of 5006\x1b[1;4H"),
    (0x0E, "\r\nrev 6 byte 7 of 5006\x1b[2;4H"),
    (0x06, "\r\nrev 6 byte 8 of 5006\x1b[2;5H"),
];

/// On from there: breaks typed and erased in the line, at its end and before it, and steps back across them.
const ABOUT_BREAKS: [Shown; 13] = [
    (0x02, "\r\nrev 6 byte 7 of 5006\x1b[2;4H"),
    (b'\n', "\r\nrev 7 byte 8 of 5007\x1b[3;1H"),
    (0x05, "\r\nrev 7 byte 5004 of 5007\x1b[3;37H"),
    (0x01, "\r\nrev 7 byte 8 of 5007\x1b[3;1H"),
    (0x08, "\r\nrev 8 byte 7 of 5006\x1b[2;4H"),
    (0x15, "\r\nrev 9 byte 7 of 5007\x1b[2;4H"),
    (0x15, "\r\nrev 10 byte 7 of 5006\x1b[2;4H"),
    (0x05, "\r\nrev 10 byte 5003 of 5006\x1b[2;40H"),
    (0x04, "\r\nrev 11 byte 5003 of 5005\x1b[2;40H"),
    (0x05, "\r\nrev 11 byte 5005 of 5005\x1b[2;42H"),
    (0x01, "\r\nrev 11 byte 4 of 5005\x1b[2;1H"),
    (0x08, "\r\nrev 12 byte 3 of 5004\x1b[1;4H"),
    (0x05, "\r\nrev 12 byte 5004 of 5004\x1b[1;45H"),
];

/// A short line, one of 5,000 bytes, and a short one.
fn long_text<R: AllocGlobal>(rt: &R) -> Result<Vec<u8>, AllocError> {
    let mut text = Vec::from_slice(rt.alloc(), b"ab\n")?;
    text.extend_from_slice(&[b'x'; 5000])?;
    text.extend_from_slice(b"\ncd")?;
    Ok(text)
}

/// Asserts what is shown behind each of these keys, where a frame that fails is tried again, and tells how many failed.
fn assert_keys<S: Sources + Drop, A: Abort>(
    rt: &A,
    editor: &mut Editor<S>,
    keys: &[Shown],
    left: u64,
) -> u64 {
    let mut failed = 0u64;
    for (key, end) in keys {
        let mut step = editor.key(*key);
        if step.is_err() {
            failed = failed.saturating_add(1);
            step = editor.key(*key);
        }
        assert_same(rt, &step, &Ok(Step::Going), &(left, end));
        let mut frame = editor.frame();
        if let Err(fault) = &frame {
            let told = FrameFault::Source(SourceFault::Device);
            assert_same(rt, fault, &told, &(left, end));
            failed = failed.saturating_add(1);
            frame = editor.frame();
        }
        let shown = frame.expect(rt, "a frame");
        assert!(rt; shown.ends_with(end.as_bytes()), "{left} {end:?}");
    }
    failed
}

#[test]
fn keys_about_a_long_line_are_shown(rt: HostRuntime) {
    let text = long_text(&rt).expect(&rt, "a text");
    let mut editor = Editor::new(rt.alloc(), texts_in(&rt, &[&text])).expect(&rt, "an editor");
    assert_same(
        &rt,
        &assert_keys(&rt, &mut editor, &ABOUT_BORDERS, 0),
        &0,
        &"borders",
    );
    assert_same(
        &rt,
        &assert_keys(&rt, &mut editor, &ABOUT_BREAKS, 0),
        &0,
        &"breaks",
    );
}

/// One read fails, behind so many: it is told, and all that is shown behind it is as without.
#[test]
fn a_long_line_is_shown_behind_a_read_that_failed(rt: HostRuntime) {
    let text = long_text(&rt).expect(&rt, "a text");
    for left in 0..30 {
        let files = Flaky {
            texts: texts_in(&rt, &[&text]),
            broken: 0,
            left,
            failed: 0,
        };
        let mut editor = Editor::new(rt.alloc(), files).expect(&rt, "an editor");
        let borders = assert_keys(&rt, &mut editor, &ABOUT_BORDERS, left);
        let breaks = assert_keys(&rt, &mut editor, &ABOUT_BREAKS, left);
        assert!(&rt; borders.saturating_add(breaks) <= 1, "{left}");
        assert!(&rt; left > 4 || borders.saturating_add(breaks) == 1, "{left}");
    }
}
