//! Keys over a saved session, which is saved again.

use crate::fakes::{Full, Giver, Taker};
use crate::images::{ONE_INSERT, ONE_INSERT_IN_TWO, OPEN_SOURCE};
use crate::same::assert_same;
use crate::tools::{show, texts_in};
use cord_tools::{Status, ToolFault, run_edit, run_edit_onto, run_kept_onto, run_show_wanted};
use image_reader::ReadFault;
use key_journal::Kept;
use saved_session::TakeFault;
use session_checker::{CheckFault, WantedRevision};
use std::alloc::AllocGlobal;
use std::process::Abort;

/// What these keys make of a saved session, and the end of the screen.
fn typed_onto<R: AllocGlobal + Abort>(
    rt: &R,
    older: &[u8],
    file: &[&[u8]],
    keys: &[u8],
    end: &[u8],
) -> Vec<u8> {
    let older = older.to_vec(rt.alloc()).expect(rt, "the older image");
    let mut screen: Vec<u8> = Vec::new(rt.alloc());
    let mut image: Vec<u8> = Vec::new(rt.alloc());
    let found = run_edit_onto(
        rt.alloc(),
        older,
        texts_in(rt, file),
        &mut Giver::of(keys),
        &mut screen,
        &mut image,
    );
    assert_same(rt, &found, &Ok(Status::Success), &keys);
    assert!(rt; screen.ends_with(end), "{keys:?}");
    image
}

/// Asserts that an image has these texts and no others.
fn assert_texts<R: AllocGlobal + Abort>(rt: &R, image: &[u8], texts: &[&[u8]]) {
    let mut k = 0u64;
    for wanted in texts {
        let mut found: Vec<u8> = Vec::new(rt.alloc());
        let shown = show(rt, Giver::of(image), &mut texts_in(rt, &[]), k, &mut found);
        assert_same(rt, &shown, &Ok(()), &k);
        assert_same(rt, &found.as_slice(), wanted, &k);
        k = k.saturating_add(1);
    }
    let mut found: Vec<u8> = Vec::new(rt.alloc());
    let none = show(rt, Giver::of(image), &mut texts_in(rt, &[]), k, &mut found);
    assert_same(rt, &none, &Err(ToolFault::NoRevision), &k);
    let mut last: Vec<u8> = Vec::new(rt.alloc());
    let shown = run_show_wanted(
        rt.alloc(),
        Giver::of(image),
        0,
        &mut texts_in(rt, &[]),
        None,
        WantedRevision::Last,
        &mut last,
    );
    assert_same(rt, &shown, &Ok(()), &k);
    assert_same(rt, &Some(&last.as_slice()), &texts.last(), &k);
}

// What was typed is saved, and undone behind that, and again behind another save.
#[test]
fn undo_crosses_each_save(rt: HostRuntime) {
    let mut screen: Vec<u8> = Vec::new(rt.alloc());
    let mut first: Vec<u8> = Vec::new(rt.alloc());
    let found = run_edit(
        rt.alloc(),
        texts_in(&rt, &[]),
        &mut Giver::of(b"ab\x18"),
        &mut screen,
        &mut first,
    );
    assert_same(&rt, &found, &Ok(Status::Success), &"ab");
    assert_texts(&rt, &first, &[b"", b"a", b"ab"]);
    let end = b"rev 4 byte 1 of 2\x1b[1;2H";
    let second = typed_onto(&rt, &first, &[], b"c\x15\x18", end);
    assert_texts(&rt, &second, &[b"", b"a", b"ab", b"cab", b"ab"]);
    let end = b"rev 6 byte 0 of 0\x1b[1;1H";
    let third = typed_onto(&rt, &second, &[], b"\x15\x15\x18", end);
    assert_texts(&rt, &third, &[b"", b"a", b"ab", b"cab", b"ab", b"a", b""]);
}

#[test]
fn a_session_that_is_saved_untouched_is_in_version_two(rt: HostRuntime) {
    for older in [ONE_INSERT, ONE_INSERT_IN_TWO] {
        let image = typed_onto(&rt, older, &[], b"\x18", b"rev 1 byte 0 of 3\x1b[1;1H");
        assert_same(&rt, &image.as_slice(), &ONE_INSERT_IN_TWO, &older);
    }
    // Nothing is written where the run ends otherwise.
    let image = typed_onto(
        &rt,
        ONE_INSERT,
        &[],
        b"z\x03",
        b"rev 2 byte 1 of 4\x1b[1;2H",
    );
    assert_same(&rt, &image.as_slice(), &b"".as_slice(), &"left");
}

// Keys that were kept over an image are played over it, and the
// others are kept behind them. Undo leaves the place where it is.
#[test]
fn kept_keys_are_played_over_the_image(rt: HostRuntime) {
    let all = b"xy\x15z";
    for cut in 0..5 {
        let played = all.get(..cut).expect(&rt, "the keys before");
        let mut typed = all
            .get(cut..)
            .expect(&rt, "the keys behind")
            .to_vec(rt.alloc())
            .expect(&rt, "keys");
        typed.push(0x18).expect(&rt, "the key Save");
        let mut journal = played.to_vec(rt.alloc()).expect(&rt, "a journal");
        let mut screen: Vec<u8> = Vec::new(rt.alloc());
        let mut image: Vec<u8> = Vec::new(rt.alloc());
        let mut keys = Kept::new(Giver::of(&typed), &mut journal);
        let found = run_kept_onto(
            rt.alloc(),
            ONE_INSERT.to_vec(rt.alloc()).expect(&rt, "the older image"),
            texts_in(&rt, &[]),
            played,
            &mut keys,
            &mut screen,
            &mut image,
        );
        drop(keys);
        assert_same(&rt, &found, &Ok(Status::Success), &cut);
        assert_same(&rt, &journal.as_slice(), &all.as_slice(), &cut);
        assert_texts(
            &rt,
            &image,
            &[b"", b"abc", b"xabc", b"xyabc", b"xabc", b"xazbc"],
        );
    }
}

// Nothing is taken, shown or written before a refusal.
#[test]
fn what_cannot_be_gone_on_with_is_refused(rt: HostRuntime) {
    let cut_off = ONE_INSERT.get(..40).expect(&rt, "a header");
    let truncated = CheckFault::Read(ReadFault::Truncated);
    assert_refused(&rt, b"CORDSES", &[], ToolFault::Refused(truncated));
    assert_refused(&rt, cut_off, &[], ToolFault::Refused(truncated));
    let count = ToolFault::Refused(CheckFault::SourceCount);
    assert_refused(&rt, ONE_INSERT, &[b"abc"], count);
    assert_refused(&rt, OPEN_SOURCE, &[], count);
    let length = ToolFault::Refused(CheckFault::SourceLength(0));
    assert_refused(&rt, OPEN_SOURCE, &[b"ab"], length);
    let taking = ToolFault::TakeUp(TakeFault::OverSource(0));
    assert_refused(&rt, OPEN_SOURCE, &[b"abc"], taking);
}

/// Asserts that keys over an image are refused so, and kept out of the journal.
fn assert_refused<R: AllocGlobal + Abort>(rt: &R, older: &[u8], file: &[&[u8]], wanted: ToolFault) {
    let mut journal = Taker::with_room(9, Full::Fails);
    let mut screen: Vec<u8> = Vec::new(rt.alloc());
    let mut image: Vec<u8> = Vec::new(rt.alloc());
    let mut keys = Kept::new(Giver::of(b"a\x18"), &mut journal);
    let found = run_kept_onto(
        rt.alloc(),
        older.to_vec(rt.alloc()).expect(rt, "the older image"),
        texts_in(rt, file),
        b"",
        &mut keys,
        &mut screen,
        &mut image,
    );
    drop(keys);
    assert_same(rt, &found, &Err(wanted), &older);
    assert!(rt; screen.is_empty());
    assert!(rt; image.is_empty());
    assert!(rt; journal.taken().is_empty());
}
