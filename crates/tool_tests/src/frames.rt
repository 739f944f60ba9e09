//! Which bytes of a file a frame of the screen editor reads.

use crate::same::assert_same;
use lazy_file::{Device, DeviceError, FileSources};
use screen_editor::{Editor, Step};
use std::alloc::{AllocError, AllocGlobal};
use std::num::NonZeroUsize;
use std::process::Abort;

/// So many blocks of a file are kept, as the program keeps them.
const BLOCKS: usize = 256;

/// The key Down.
const DOWN: u8 = 0x0E;

/// The key Right.
const RIGHT: u8 = 0x06;

/// The key to the line's end.
const LINE_END: u8 = 0x05;

/// The key that erases the byte at the place.
const ERASE_AT: u8 = 0x04;

/// The key that takes the last change back.
const UNDO: u8 = 0x15;

/// A byte that is no key, to show what there is.
const NO_KEY: u8 = 0x07;

/// A read of a file: where it begins, and how many bytes it asks for.
#[derive(Clone, Copy, Debug, PartialEq)]
struct Span {
    off: u64,
    len: usize,
}

/// A file in memory, which states none of its bytes, and tells of its reads.
#[derive(Drop)]
struct Recorded<'a> {
    bytes: &'a [u8],
    reads: &'a mut Vec<Span>,
}

impl<'a> Device for Recorded<'a> {
    type Book = ();

    ghost use Rattle.std.specs.Prelude.{length};
    ghost use Rattle.lazy_file.specs.DeviceTexts.{unstated};

    ghost reading = { λ d. record { stated = unstated (length d.bytes.now); failures = 0; calls = 0 } };

    fn size(&self) -> u64 {
        self.bytes.len() as u64
    }

    fn read_at(
        &mut self,
        _book: &mut (),
        off: u64,
        buffer: &mut [u8],
    ) -> Result<usize, DeviceError> {
        let len = buffer.len();
        // A read that could not be noted is missed below.
        let _ = self.reads.push(Span { off, len });
        let rest = self.bytes.get(off as usize..).unwrap_or(&[]);
        let count = rest.len().min(len);
        buffer[..count].copy_from_slice(&rest[..count]);
        Ok(count)
    }
}

/// Forty lines of 500 bytes.
fn lines<R: AllocGlobal>(rt: &R) -> Result<Vec<u8>, AllocError> {
    let mut text = Vec::new(rt.alloc());
    for _ in 0..40 {
        for _ in 0..499 {
            text.push(b'x').map_err(|_| AllocError)?;
        }
        text.push(b'\n').map_err(|_| AllocError)?;
    }
    Ok(text)
}

/// The reads of a file that keys make, and behind them others with a frame behind each.
fn reads_of<R: AllocGlobal + Abort>(rt: &R, bytes: &[u8], keys: &[u8], shown: &[u8]) -> Vec<Span> {
    let alloc = rt.alloc();
    let mut reads = Vec::new(alloc);
    let blocks = NonZeroUsize::new(BLOCKS).unwrap_or(NonZeroUsize::MIN);
    let mut sources = FileSources::new(alloc, blocks, ()).expect(rt, "blocks");
    let file = Recorded {
        bytes,
        reads: &mut reads,
    };
    assert!(rt; sources.add(file).is_ok());
    let mut editor = Editor::new(alloc, sources).expect(rt, "an editor");
    for byte in keys {
        assert_same(rt, &editor.key(*byte), &Ok(Step::Going), byte);
    }
    for byte in shown {
        assert_same(rt, &editor.key(*byte), &Ok(Step::Going), byte);
        assert!(rt; editor.frame().is_ok());
    }
    drop(editor);
    reads
}

/// Asserts which reads the frame behind 20 keys Down and these makes: each is of 4,096 bytes.
fn assert_reads<R: AllocGlobal + Abort>(rt: &R, keys: &[u8], expected: &[u64]) {
    let bytes = lines(rt).expect(rt, "lines");
    let mut all = Vec::from_slice(rt.alloc(), &[DOWN; 20]).expect(rt, "keys");
    all.extend_from_slice(keys).expect(rt, "keys");
    let before = reads_of(rt, &bytes, &all, &[]);
    let both = reads_of(rt, &bytes, &all, &[NO_KEY]);
    let frame = &both[before.len().min(both.len())..];
    assert_same(rt, &frame.len(), &expected.len(), &"reads");
    for (read, off) in frame.iter().zip(expected) {
        let span = Span {
            off: *off,
            len: 4096,
        };
        assert_same(rt, read, &span, off);
    }
}

/// The place is 10,000, and the first row begins at 4,500. Windows end at 10,000 and at
/// 5,999, and begin at 5,500, 9,500 and 13,500, where the first line is that does not end
/// in the one before; the rows' bytes lie in the blocks from 4,096, 8,192 and 12,288 on.
#[test]
fn a_frame_reads_windows_once_and_rows_by_blocks(rt: HostRuntime) {
    assert_reads(
        &rt,
        &[],
        &[5904, 1903, 4096, 5500, 8192, 9500, 12_288, 13_500],
    );
}

/// A byte was typed at place 10,000. The 4,096 bytes before the cursor lie in two leaves: they are read by their blocks,
/// from 4,096 and 8,192 on. The line breaks down to the one at 5,999 are among them; a window ends there, and the first
/// row begins at 4,500. A window begins at 5,500. The cursor's line is looked through behind that byte, from the file's
/// place 10,000 on. Each is a read that a frame with a window for each line makes too, in its order.
#[test]
fn a_frame_reads_the_rest_of_a_leaf_by_blocks(rt: HostRuntime) {
    assert_reads(
        &rt,
        b"a",
        &[4096, 8192, 1903, 5500, 10_000, 10_500, 12_288, 14_500],
    );
}

/// The cursor stands at the end of a line of 20,000 bytes. Where it begins and ends is known behind the first frame, so
/// that the second one reads no more than its row, whose block is kept.
#[test]
fn a_second_frame_of_a_long_line_reads_nothing(rt: HostRuntime) {
    let mut text = Vec::new(rt.alloc());
    for _ in 0..20 {
        text.extend_from_slice(&[b'x'; 1000]).expect(&rt, "a text");
    }
    let once = reads_of(&rt, &text, &[LINE_END], &[NO_KEY]);
    let twice = reads_of(&rt, &text, &[LINE_END], &[NO_KEY; 2]);
    assert!(&rt; once.len() > 4);
    assert_same(&rt, &twice.len(), &once.len(), &"reads");
}

/// Lines of one byte about one of 1,000,000.
fn long_among_short<R: AllocGlobal>(rt: &R) -> Result<Vec<u8>, AllocError> {
    let mut text = Vec::from_slice(rt.alloc(), b"a\nb\n")?;
    for _ in 0..1000 {
        text.extend_from_slice(&[b'x'; 1000])?;
    }
    text.extend_from_slice(b"\nc\nd\n")?;
    Ok(text)
}

/// How many reads of it keys make, with a frame behind each.
fn count_shown<R: AllocGlobal + Abort>(rt: &R, keys: &[u8]) -> usize {
    let text = long_among_short(rt).expect(rt, "a text");
    reads_of(rt, &text, &[], keys).len()
}

/// A byte is typed in the long line, or erased there, and that is taken back: the frame behind it passes over no line.
#[test]
fn a_frame_behind_undo_passes_over_no_long_line(rt: HostRuntime) {
    let first = count_shown(&rt, &[DOWN, DOWN]);
    assert!(&rt; first > 200, "{first}");
    for change in [b'y', ERASE_AT] {
        let changed = count_shown(&rt, &[DOWN, DOWN, RIGHT, change]);
        let undone = count_shown(&rt, &[DOWN, DOWN, RIGHT, change, UNDO]);
        assert!(&rt; undone.saturating_sub(changed) < first / 2, "{change}");
    }
}
