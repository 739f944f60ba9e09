//! Each call over worked images. What the tests want is counted on the format's tables.

use crate::check::{cord_check, cord_looks_bound};
use crate::open::{CordImage, cord_open};
use crate::origins::cord_origin;
use crate::telling::cord_origins;
use crate::text::{
    NO_PLACE, NOT_HELD, READ, cord_counts, cord_fetch, cord_locate, cord_read, cord_text_len,
};
use cord_types::{CordOrigin, CordRun, CordSource, CordVerdict, POOLED, SOURCED};

/// The insertion of `abc`: its header, node, two revisions, row and pool.
const ONE_INSERT: &[u8] = b"CORDSESS\0\0\0\x01\0\0\0\0\0\0\0\x01\0\0\0\x02\
    \0\0\0\x01\0\0\0\0\0\0\0\0\0\0\0\x03\
    \x01\0\0\0\0\0\0\0\0\0\0\0\0\0\0\x03\0\0\0\0\0\0\0\0\
    \0\0\0\0\0\0\0\0\
    \x01\0\0\0\xff\xff\xff\xff\0\0\0\0\0\0\0\0\0\0\0\0\0\0\0\0\
    \0\0\0\0\0\0\0\0\0\0\0\0\0\0\0\0\0\0\0\0\0\0\0\0\
    \0\0\0\0\0\0\0\0\
    \x03\x01\0\0\0\0\0\0\0\0\0\0\0\0\0\0\0\0\0\0\0\0\0\0\
    \0\0\0\0\0\0\0\0\0\0\0\0\0\0\0\0\0\0\0\0\0\0\0\x03\
    \0\0\0\x01\0\0\0\0\
    \x02\0\0\0\0\0\0\0\0\0\0\0\0\0\0\x03\0\0\0\0\0\0\0\0\
    abc";

/// `ab`, and `c` put in between: its header, six nodes, three revisions, four rows and pool.
const BETWEEN: &[u8] = b"CORDSESS\0\0\0\x01\0\0\0\0\0\0\0\x06\
    \0\0\0\x03\0\0\0\x04\0\0\0\0\0\0\0\0\0\0\0\x03\
    \x01\0\0\0\0\0\0\0\0\0\0\0\0\0\0\x02\0\0\0\0\0\0\0\0\0\0\0\0\0\0\0\0\
    \x01\0\0\0\0\0\0\0\0\0\0\0\0\0\0\x01\0\0\0\0\0\0\0\0\0\0\0\0\0\0\0\0\
    \x01\0\0\0\0\0\0\0\0\0\0\0\0\0\0\x01\0\0\0\0\0\0\0\x02\0\0\0\0\0\0\0\0\
    \x04\x01\0\0\0\0\0\x01\0\0\0\0\0\0\0\x02\0\0\0\x02\0\0\0\0\0\0\0\0\0\0\0\0\
    \x01\0\0\0\0\0\0\0\0\0\0\0\0\0\0\x01\0\0\0\0\0\0\0\x01\0\0\0\0\0\0\0\0\
    \x04\x02\0\0\0\0\0\x03\0\0\0\0\0\0\0\x03\0\0\0\x04\0\0\0\0\0\0\0\0\0\0\0\0\
    \x01\0\0\0\xff\xff\xff\xff\0\0\0\0\0\0\0\0\0\0\0\0\0\0\0\0\0\0\0\0\
    \0\0\0\0\0\0\0\0\0\0\0\0\0\0\0\0\0\0\0\0\0\0\0\0\0\0\0\0\
    \x03\0\0\0\0\0\0\0\0\0\0\0\0\0\0\0\0\0\0\0\0\0\0\0\0\0\0\0\
    \0\0\0\0\0\0\0\0\0\0\0\0\0\0\0\0\0\0\0\x02\0\0\0\x01\0\0\0\0\
    \x03\0\0\0\0\0\0\x05\0\0\0\x01\0\0\0\0\0\0\0\0\0\0\0\x01\0\0\0\0\
    \0\0\0\0\0\0\0\0\0\0\0\x02\0\0\0\0\0\0\0\x01\0\0\0\x03\0\0\0\0\
    \x02\0\0\0\0\0\0\0\0\0\0\0\0\0\0\x02\0\0\0\0\0\0\0\0\
    \x02\0\0\0\0\0\0\0\0\0\0\0\0\0\0\x01\0\0\0\0\0\0\0\0\
    \x02\0\0\0\0\0\0\0\0\0\0\0\0\0\0\x01\0\0\0\0\0\0\0\0\
    \x02\0\0\0\0\0\0\0\0\0\0\0\0\0\0\x01\0\0\0\0\0\0\0\0\
    abc";

/// A source of 3 bytes, opened, whose bytes a row compares: its header, source, node, revision and row.
const OPEN_SOURCE: &[u8] = b"CORDSESS\0\0\0\x01\0\0\0\x01\0\0\0\x01\0\0\0\x01\
    \0\0\0\x01\0\0\0\0\0\0\0\0\0\0\0\0\
    \0\0\0\0\0\0\0\x03\
    \x02\0\0\0\0\0\0\0\0\0\0\0\0\0\0\x03\0\0\0\0\0\0\0\0\
    \0\0\0\0\0\0\0\0\x02\0\0\0\0\0\0\0\0\0\0\0\0\0\0\0\
    \0\0\0\0\0\0\0\0\0\0\0\0\0\0\0\0\0\0\0\0\0\0\0\0\
    \0\0\0\0\0\0\0\0\0\0\0\x01\0\0\0\0\
    \x03\0\0\0\0\0\0\0\0\0\0\0\0\0\0\x03\0\0\0\0\0\0\0\0";

/// A source of 3 bytes, all of which are held.
const HELD: CordSource = CordSource {
    bytes: b"abc",
    size: 3,
};

/// One of which none are.
const NOT_THERE: CordSource = CordSource {
    bytes: b"",
    size: 3,
};

const fn verdict(code: u32, kind: u32, revisions: u32, nodes: u32, rows: u32) -> CordVerdict {
    CordVerdict {
        code,
        kind,
        number: 0,
        revisions,
        nodes,
        rows,
        row: 0,
    }
}

const fn run(kind: u32, start: u64, len: u64) -> CordRun {
    CordRun {
        kind,
        source: 0,
        function: 0,
        pattern_len: 0,
        start,
        len,
        pattern: [0; 16],
    }
}

#[test]
fn images_are_checked_and_opened(rt: HostRuntime) {
    let mut found = verdict(9, 9, 9, 9, 9);
    assert!(rt; cord_check(ONE_INSERT, &[], &mut found));
    assert_eq!(rt; found, verdict(0, 0, 2, 1, 1));
    assert!(rt; !cord_check(OPEN_SOURCE, &[NOT_THERE], &mut found));
    assert_eq!(rt; found, verdict(12, 2, 0, 0, 0));
    let mut image = CordImage::open(ONE_INSERT, &[], &mut found).expect(&rt, "it is accepted");
    assert!(rt; cord_open(OPEN_SOURCE, &[HELD], &mut image, &mut found));
    let mut counts = verdict(9, 9, 9, 9, 9);
    cord_counts(&image, &mut counts);
    assert_eq!(rt;
        (found, counts),
        (verdict(0, 0, 1, 1, 1), verdict(0, 0, 1, 1, 1))
    );
}

#[test]
fn looks_are_bounded_by_counts_and_rows(rt: HostRuntime) {
    let mut bound = 0;
    assert!(rt; cord_looks_bound(ONE_INSERT, &mut bound));
    assert_eq!(rt; bound, 1 + 2 * 2 + 132);
    assert!(rt; cord_looks_bound(OPEN_SOURCE, &mut bound));
    assert_eq!(rt; bound, 1 + 2 + 132 + 132 * 3);
    assert!(rt; !cord_looks_bound(b"CORDSESS", &mut bound));
}

#[test]
fn bytes_are_told_by_the_revision_that_put_them_in(rt: HostRuntime) {
    let mut found = verdict(9, 9, 9, 9, 9);
    let image = CordImage::open(ONE_INSERT, &[], &mut found).expect(&rt, "it is accepted");
    let none = CordOrigin {
        revision: 9,
        kind: 9,
        source: 9,
        byte: 9,
        place: 9,
        start: 9,
        len: 9,
    };
    let mut at = none;
    assert!(rt; !cord_origin(&image, 1, 3, &mut at));
    assert!(rt; !cord_origin(&image, 2, 0, &mut at));
    assert_eq!(rt; at, none);
    assert!(rt; cord_origin(&image, 1, 1, &mut at));
    let wanted = CordOrigin {
        revision: 1,
        kind: POOLED,
        source: 0,
        byte: 0,
        place: 1,
        start: 1,
        len: 2,
    };
    assert_eq!(rt; at, wanted);
}

/// A byte of the pool that a revision put in.
const fn pooled(revision: u32, place: u64, start: u64) -> CordOrigin {
    CordOrigin {
        revision,
        kind: POOLED,
        source: 0,
        byte: 0,
        place,
        start,
        len: 1,
    }
}

#[test]
fn origins_are_told_one_behind_the_other(rt: HostRuntime) {
    let mut found = verdict(9, 9, 9, 9, 9);
    let image = CordImage::open(BETWEEN, &[], &mut found).expect(&rt, "it is accepted");
    let none = pooled(9, 9, 9);
    let wanted = [pooled(1, 0, 0), pooled(2, 1, 2), pooled(1, 1, 1)];
    let (mut many, mut two, mut count) = ([none; 5], [none; 2], 9);
    assert!(rt; cord_origins(&image, 2, 0, &mut many, &mut count));
    assert_eq!(rt; (count, [many[0], many[1], many[2]]), (3, wanted));
    assert!(rt; cord_origins(&image, 2, 1, &mut two, &mut count));
    assert_eq!(rt; (count, two), (2, [wanted[1], wanted[2]]));
    assert!(rt; cord_origins(&image, 2, 0, &mut two, &mut count));
    assert_eq!(rt; (count, two), (2, [wanted[0], wanted[1]]));
    assert!(rt; cord_origins(&image, 2, 0, &mut [], &mut count));
    assert_eq!(rt; count, 0);
    assert!(rt; !cord_origins(&image, 2, 3, &mut two, &mut count));
    assert!(rt; !cord_origins(&image, 3, 0, &mut two, &mut count));
    assert_eq!(rt; (count, two), (0, [wanted[0], wanted[1]]));
}

#[test]
fn texts_are_fetched_located_and_read(rt: HostRuntime) {
    let mut found = verdict(9, 9, 9, 9, 9);
    let image = CordImage::open(ONE_INSERT, &[], &mut found).expect(&rt, "it is accepted");
    let (mut len, mut byte, mut at, mut count) = (9, 0, run(0, 0, 0), 9);
    let mut out = [0; 4];
    assert!(rt; cord_text_len(&image, 0, &mut len));
    assert_eq!(rt; len, 0);
    assert!(rt; cord_text_len(&image, 1, &mut len));
    assert_eq!(rt; len, 3);
    assert_eq!(rt;
        (cord_fetch(&image, &[], 1, 2, &mut byte), byte),
        (READ, b'c')
    );
    assert_eq!(rt; cord_fetch(&image, &[], 1, 3, &mut byte), NO_PLACE);
    assert!(rt; cord_locate(&image, 1, 1, &mut at));
    assert_eq!(rt; at, run(POOLED, 1, 2));
    assert_eq!(rt; cord_read(&image, &[], 1, 1, &mut out, &mut count), READ);
    assert_eq!(rt; (count, out), (2, *b"bc\0\0"));
}

#[test]
fn bytes_of_a_source_are_read_where_they_are_held(rt: HostRuntime) {
    let mut found = verdict(9, 9, 9, 9, 9);
    let image = CordImage::open(OPEN_SOURCE, &[HELD], &mut found).expect(&rt, "it is accepted");
    let (mut byte, mut at, mut count) = (0, run(0, 0, 0), 9);
    let mut out = [0; 2];
    assert!(rt; cord_locate(&image, 0, 1, &mut at));
    assert_eq!(rt; at, run(SOURCED, 1, 2));
    assert_eq!(rt; cord_fetch(&image, &[NOT_THERE], 0, 1, &mut byte), NOT_HELD);
    assert_eq!(rt;
        (cord_fetch(&image, &[HELD], 0, 1, &mut byte), byte),
        (READ, b'b')
    );
    assert_eq!(rt;
        cord_read(&image, &[NOT_THERE], 0, 0, &mut out, &mut count),
        NOT_HELD
    );
    assert_eq!(rt;
        cord_read(&image, &[HELD], 0, 0, &mut out, &mut count),
        READ
    );
    assert_eq!(rt; (count, out), (2, *b"ab"));
}
