//! Keys that a terminal gives by blocks: which frames are shown, and what stands in the message's row.

use crate::fakes::{Full, Taker};
use crate::images::ONE_INSERT;
use crate::same::assert_same;
use crate::tools::texts_in;
use cord_tools::{Status, ToolFault, run_typed, run_typed_onto};
use key_journal::Kept;
use std::alloc::AllocGlobal;
use std::io;
use std::io::{BufReader, Read};
use std::process::Abort;
use terminal_keys::TerminalKeys;

/// Gives one of its blocks a read.
#[derive(Clone, Copy, Debug)]
struct Blocks<'a> {
    blocks: &'a [&'a [u8]],
    given: usize,
}

impl Read for Blocks<'_> {
    fn read(&mut self, buf: &mut [u8]) -> io::Result<usize> {
        let mut block: &[u8] = self.blocks.get(self.given).copied().unwrap_or(&[]);
        self.given = self.given.saturating_add(1);
        block.read(buf)
    }
}

/// A frame of a text of one line: the line, what stands in the last row, and the cursor's column.
type Shown<'a> = (&'a str, &'a str, u32);

/// What a first screen says.
const HINT: &str = "image  Ctrl-X saves  Ctrl-C leaves";

/// The keys of blocks, kept in a journal.
fn keys_of<'a, R: AllocGlobal + Abort>(
    rt: &R,
    blocks: &'a [&'a [u8]],
    journal: &'a mut Vec<u8>,
) -> Kept<TerminalKeys<BufReader<Blocks<'a>>>, &'a mut Vec<u8>> {
    let reader = BufReader::new(rt.alloc(), Blocks { blocks, given: 0 }).expect(rt, "a reader");
    Kept::new(TerminalKeys::new(reader), journal)
}

/// Frames, as they are written.
fn frames<R: AllocGlobal + Abort>(rt: &R, all: &[Shown<'_>]) -> Vec<u8> {
    let mut bytes: Vec<u8> = Vec::new(rt.alloc());
    for (line, status, column) in all {
        let text = format!(in rt.alloc(); "\x1b[2J\x1b[H{line}").expect(rt, "a line");
        bytes
            .extend_from_slice(text.as_bytes())
            .expect(rt, "a line");
        for _ in 0..23 {
            bytes.extend_from_slice(b"\r\n").expect(rt, "a row");
        }
        let text = format!(in rt.alloc(); "{status}\x1b[1;{column}H").expect(rt, "a status");
        bytes
            .extend_from_slice(text.as_bytes())
            .expect(rt, "a status");
    }
    bytes
}

/// Blocks of keys behind those that are played show these frames, and are kept.
fn assert_shown<R: AllocGlobal + Abort>(
    rt: &R,
    played: &[u8],
    blocks: &[&[u8]],
    wanted: &[Shown<'_>],
    kept: &[u8],
) {
    let mut journal: Vec<u8> = Vec::new(rt.alloc());
    let mut screen: Vec<u8> = Vec::new(rt.alloc());
    let mut image: Vec<u8> = Vec::new(rt.alloc());
    let mut keys = keys_of(rt, blocks, &mut journal);
    let none = texts_in(rt, &[]);
    let found = run_typed(
        rt.alloc(),
        none,
        Some(HINT),
        played,
        &mut keys,
        &mut screen,
        &mut image,
    );
    drop(keys);
    assert_same(rt, &found, &Ok(Status::Success), &blocks);
    assert_same(
        rt,
        &screen.as_slice(),
        &frames(rt, wanted).as_slice(),
        &blocks,
    );
    assert_same(rt, &journal.as_slice(), &kept, &blocks);
}

const FIRST: Shown<'static> = (
    "",
    "rev 0 byte 0 of 0 image  Ctrl-X saves  Ctrl-C leaves",
    1,
);

#[test]
fn frames_are_left_out_while_keys_are_there(rt: HostRuntime) {
    let two = ("ab", "rev 2 byte 2 of 2", 3);
    let three = ("abc", "rev 3 byte 3 of 3", 4);
    // A sequence that a block ends in is no key yet.
    let blocks: [&[u8]; 4] = [b"ab", b"c\x1b[", b"D", b"d\x18"];
    let left = ("abc", "rev 3 byte 2 of 3", 3);
    assert_shown(&rt, b"", &blocks, &[FIRST, two, three, left], b"abc\x02d");
    // Where no key is left the last state is shown.
    assert_shown(&rt, b"", &[b"abc"], &[FIRST, three], b"abc");
    assert_shown(&rt, b"ab", &[b"c\x03"], &[two], b"c");
}

#[test]
fn bytes_that_are_not_taken_are_counted(rt: HostRuntime) {
    let one = ("", "rev 0 byte 0 of 0 bytes not taken: 1", 1);
    let three = ("", "rev 0 byte 0 of 0 bytes not taken: 3", 1);
    let typed = ("a", "rev 1 byte 1 of 1 bytes not taken: 3", 2);
    let back = ("a", "rev 1 byte 0 of 1", 1);
    let blocks: [&[u8]; 5] = [b"\x80", b"\xc3\xa9", b"a", b"\x02", b"\x18"];
    assert_shown(
        &rt,
        b"",
        &blocks,
        &[FIRST, one, three, typed, back],
        b"\x80\xc3\xa9a\x02",
    );
    // What is pasted and no text is no key.
    let blocks: [&[u8]; 2] = [b"\x1b[200~\xc3\xa9\x03\x1b[201~", b"\x18"];
    assert_shown(&rt, b"", &blocks, &[FIRST, three], b"\x80\x80\x80");
    // So they are within a paste.
    let named = ("nave", "rev 4 byte 4 of 4 bytes not taken: 2", 5);
    let blocks: [&[u8]; 2] = [b"\x1b[200~na\xc3\xafve\x1b[201~", b"\x18"];
    assert_shown(&rt, b"", &blocks, &[FIRST, named], b"na\x80\x80ve");
    // They are counted over keys that are played.
    assert_shown(&rt, b"\x80\x80\x80", &[b"\x18"], &[three], b"");
}

#[test]
fn keys_are_typed_over_an_image(rt: HostRuntime) {
    let mut journal: Vec<u8> = Vec::new(rt.alloc());
    let mut screen: Vec<u8> = Vec::new(rt.alloc());
    let mut image: Vec<u8> = Vec::new(rt.alloc());
    let blocks: [&[u8]; 1] = [b"xy\x18"];
    let mut keys = keys_of(&rt, &blocks, &mut journal);
    let found = run_typed_onto(
        rt.alloc(),
        ONE_INSERT.to_vec(rt.alloc()).expect(&rt, "the older image"),
        texts_in(&rt, &[]),
        Some(HINT),
        b"",
        &mut keys,
        &mut screen,
        &mut image,
    );
    drop(keys);
    assert_same(&rt, &found, &Ok(Status::Success), &"a status");
    let first = (
        "abc",
        "rev 1 byte 0 of 3 image  Ctrl-X saves  Ctrl-C leaves",
        1,
    );
    assert_same(
        &rt,
        &screen.as_slice(),
        &frames(&rt, &[first]).as_slice(),
        &"frames",
    );
    assert!(&rt; image.starts_with(b"CORDSESS"));
}

#[test]
fn a_typed_key_that_is_not_kept_is_not_taken(rt: HostRuntime) {
    let mut journal = Taker::with_room(2, Full::Fails);
    let mut screen: Vec<u8> = Vec::new(rt.alloc());
    let mut image: Vec<u8> = Vec::new(rt.alloc());
    let blocks: [&[u8]; 1] = [b"abc\x18"];
    let reader = BufReader::new(
        rt.alloc(),
        Blocks {
            blocks: &blocks,
            given: 0,
        },
    )
    .expect(&rt, "a reader");
    let mut keys = Kept::new(TerminalKeys::new(reader), &mut journal);
    let found = run_typed(
        rt.alloc(),
        texts_in(&rt, &[]),
        None,
        b"",
        &mut keys,
        &mut screen,
        &mut image,
    );
    drop(keys);
    assert_same(&rt, &found, &Err(ToolFault::Write), &"a full journal");
    assert_same(&rt, &journal.taken(), &b"ab".as_slice(), &"what is kept");
    assert!(&rt; image.is_empty());
}
