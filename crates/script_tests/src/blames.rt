//! Where the bytes of a text come from. The runs of each history were worked by hand.

use super::logs::{SOURCE, sources_of};
use super::tools::{ONE_INSERT, Taker, applied, assert_same};
use image_reader::ReadFault;
use script_tools::{BlameFault, BytesOfText, run_blame};
use session_checker::{CheckFault, WantedRevision};
use std::alloc::AllocGlobal;
use std::process::Abort;

/// The fox, in two steps.
const FOX: &[u8] = b"new\ninsert 0 0 \"the fox\"\ninsert 1 4 \"brown \"\n";

/// The runs of its last text.
const FOX_BLAMED: &[u8] = b"0 4 1 0 insert 0 0 \"the \"
4 6 2 4 insert 1 4 \"brown \"
10 3 1 4 insert 0 0 \"fox\"
";

/// `ab`, in whose place two changes of one command put `x` and `y`, where the pool has `y` in front of `x`: its header,
/// four nodes, three revisions, two splices, three rows and pool, worked by hand.
const EXCHANGED: &[u8] =
    b"CORDSESS\0\0\0\x02\0\0\0\0\0\0\0\x04\0\0\0\x03\0\0\0\x03\0\0\0\x02\0\0\0\0\0\0\0\x04\
    \x01\0\0\0\0\0\0\0\0\0\0\0\0\0\0\x02\0\0\0\0\0\0\0\0\0\0\0\0\0\0\0\0\
    \x01\0\0\0\0\0\0\0\0\0\0\0\0\0\0\x01\0\0\0\0\0\0\0\x03\0\0\0\0\0\0\0\0\
    \x01\0\0\0\0\0\0\0\0\0\0\0\0\0\0\x01\0\0\0\0\0\0\0\x02\0\0\0\0\0\0\0\0\
    \x04\x01\0\0\0\0\0\x01\0\0\0\0\0\0\0\x02\0\0\0\x02\0\0\0\0\0\0\0\0\0\0\0\0\
    \x01\0\0\0\xff\xff\xff\xff\0\0\0\0\0\0\0\0\0\0\0\0\0\0\0\0\0\0\0\0\0\0\0\0\0\0\0\0\0\0\0\0\0\0\0\0\0\0\0\0\0\0\0\0\0\0\0\0\
    \x03\x01\0\0\0\0\0\0\0\0\0\0\0\0\0\0\0\0\0\0\0\0\0\0\0\0\0\0\0\0\0\0\0\0\0\0\0\0\0\0\0\0\0\0\0\0\0\x02\0\0\0\x01\0\0\0\0\
    \x0c\x01\0\0\0\0\0\x03\0\0\0\x01\0\0\0\x02\0\0\0\0\0\0\0\0\0\0\0\0\0\0\0\0\0\0\0\0\0\0\0\0\0\0\0\0\0\0\0\0\0\0\0\x02\0\0\0\0\
    \0\0\0\0\0\0\0\0\0\0\0\0\0\0\0\x01\0\0\0\0\0\0\0\x03\0\0\0\0\0\0\0\x01\
    \0\0\0\0\0\0\0\x01\0\0\0\0\0\0\0\x01\0\0\0\0\0\0\0\x02\0\0\0\0\0\0\0\x01\
    \x02\0\0\0\0\0\0\0\0\0\0\0\0\0\0\x02\0\0\0\0\0\0\0\0\
    \x02\0\0\0\0\0\0\0\0\0\0\0\0\0\0\x01\0\0\0\0\0\0\0\0\
    \x02\0\0\0\0\0\0\0\0\0\0\0\0\0\0\x01\0\0\0\0\0\0\0\0\
    abyx";

/// All bytes of the text of a revision.
fn whole(revision: u64) -> BytesOfText {
    BytesOfText {
        revision: WantedRevision::Number(revision),
        start: 0,
        count: u64::MAX,
    }
}

/// The lines of some bytes of a script's image, which is over these sources.
fn blamed<A: AllocGlobal + Abort>(
    rt: &A,
    script: &[u8],
    texts: &[&[u8]],
    lens: &[u64],
    wanted: BytesOfText,
) -> Vec<u8> {
    let image = applied(rt, script, lens).expect(rt, "an image");
    let mut sources = sources_of(rt, texts);
    let mut lines: Vec<u8> = Vec::new(rt.alloc());
    let answer = run_blame(rt.alloc(), &image, &mut sources, None, wanted, &mut lines);
    assert_same(rt, &answer, &Ok(()));
    lines
}

/// The lines of the last text of a script without sources are these.
fn assert_blamed<A: AllocGlobal + Abort>(rt: &A, script: &[u8], wanted: BytesOfText, lines: &[u8]) {
    let found = blamed(rt, script, &[], &[], wanted);
    assert_same(rt, &found.as_slice(), &lines);
}

#[test]
fn insertion_inside_another(rt: HostRuntime) {
    assert_blamed(&rt, FOX, whole(2), FOX_BLAMED);
    assert_blamed(&rt, FOX, whole(1), b"0 7 1 0 insert 0 0 \"the fox\"\n");
    assert_blamed(&rt, FOX, whole(0), b"");
    let last = BytesOfText {
        revision: WantedRevision::Last,
        start: 0,
        count: u64::MAX,
    };
    assert_blamed(&rt, FOX, last, FOX_BLAMED);
}

#[test]
fn paste_keeps_what_it_copies(rt: HostRuntime) {
    assert_blamed(
        &rt,
        b"new\ninsert 0 0 \"abc\"\npaste 1 1 1 0 3",
        whole(2),
        b"0 1 1 0 insert 0 0 \"a\"
1 3 1 0 insert 0 0 \"abc\"
4 2 1 1 insert 0 0 \"bc\"
",
    );
}

#[test]
fn replacement_and_balance(rt: HostRuntime) {
    assert_blamed(
        &rt,
        b"new
insert 0 0 \"the fox and the dog\"
replace 1 16 3 \"cat\"
insert 2 4 \"quick \"
balance 3",
        whole(4),
        b"0 4 1 0 insert 0 0 \"the \"
4 6 3 4 insert 2 4 \"quick \"
10 12 1 4 insert 0 0 \"fox and the \"
22 3 2 16 replace 1 16 3 \"cat\"
",
    );
}

#[test]
fn source_and_fill_show_no_bytes(rt: HostRuntime) {
    let lines = blamed(&rt, b"open 0\nfill 0 2 45 3", &[b"abcde"], &[5], whole(1));
    assert_same(
        &rt,
        &lines.as_slice(),
        &b"0 2 0 0 open 0\n2 3 1 2 fill 0 2 45 3\n5 3 0 2 open 0\n".as_slice(),
    );
}

#[test]
fn same_byte_typed_again(rt: HostRuntime) {
    let script = b"new\ninsert 0 0 \"abc\"\ndelete 1 1 1\ninsert 2 1 \"b\"\nback 1";
    assert_blamed(&rt, script, whole(4), b"0 3 1 0 insert 0 0 \"abc\"\n");
    assert_blamed(
        &rt,
        script,
        whole(3),
        b"0 1 1 0 insert 0 0 \"a\"\n1 1 3 1 insert 2 1 \"b\"\n2 1 1 2 insert 0 0 \"c\"\n",
    );
}

#[test]
fn changes_side_by_side_are_one_run(rt: HostRuntime) {
    assert_blamed(
        &rt,
        b"new\ninsert 0 0 \"ab\"\nmany 1 0 1 \"x\" 1 1 \"y\"",
        whole(2),
        b"0 2 2 0 many 1 \"xy\"\n",
    );
}

/// The text `xy`, whose two bytes the pool has the other way round.
#[test]
fn changes_that_the_pool_has_in_another_order_are_two_runs(rt: HostRuntime) {
    let mut none = sources_of(&rt, &[]);
    let mut lines: Vec<u8> = Vec::new(rt.alloc());
    let answer = run_blame(rt.alloc(), EXCHANGED, &mut none, None, whole(2), &mut lines);
    assert_same(&rt, &answer, &Ok(()));
    let wanted = b"0 1 2 0 many 1 \"x\"\n1 1 2 1 many 1 \"y\"\n".as_slice();
    assert_same(&rt, &lines.as_slice(), &wanted);
}

#[test]
fn some_bytes_of_a_text(rt: HostRuntime) {
    for (start, count, lines) in [
        (
            2,
            5,
            b"2 2 1 2 insert 0 0 \"e \"\n4 3 2 4 insert 1 4 \"bro\"\n".as_slice(),
        ),
        (12, u64::MAX, b"12 1 1 6 insert 0 0 \"x\"\n"),
        (4, 0, b""),
        (13, 1, b""),
        (u64::MAX, u64::MAX, b""),
    ] {
        let revision = WantedRevision::Number(2);
        assert_blamed(
            &rt,
            FOX,
            BytesOfText {
                revision,
                start,
                count,
            },
            lines,
        );
    }
}

#[test]
fn at_most_sixty_bytes_are_shown(rt: HostRuntime) {
    assert_blamed(
        &rt,
        b"new\ninsert 0 0 \"\\n12345678901234567890123456789012345678901234567890123456789z\"",
        whole(1),
        b"0 61 1 0 insert 0 0 \"\\n12345678901234567890123456789012345678901234567890123456789\"...\n",
    );
}

/// Nothing is written of this image with these sources and this limit, and why is told.
fn assert_none<A: AllocGlobal + Abort>(
    rt: &A,
    image: &[u8],
    texts: &[&[u8]],
    at_most: Option<u64>,
    revision: u64,
    fault: BlameFault,
) {
    let mut sources = sources_of(rt, texts);
    let mut lines: Vec<u8> = Vec::new(rt.alloc());
    let answer = run_blame(
        rt.alloc(),
        image,
        &mut sources,
        at_most,
        whole(revision),
        &mut lines,
    );
    assert_same(rt, &answer, &Err(fault));
    assert_same(rt, &lines.len(), &0);
}

#[test]
fn refused_images_and_revisions(rt: HostRuntime) {
    let short = &ONE_INSERT[..ONE_INSERT.len() - 1];
    let truncated = BlameFault::Check(CheckFault::Read(ReadFault::Truncated));
    assert_none(&rt, short, &[], None, 1, truncated);
    let count = BlameFault::Check(CheckFault::SourceCount);
    assert_none(&rt, ONE_INSERT, &[SOURCE], None, 1, count);
    let looks = BlameFault::Check(CheckFault::Looks(137));
    assert_none(&rt, ONE_INSERT, &[], Some(136), 1, looks);
    for revision in [2, 1 << 32, u64::MAX] {
        assert_none(&rt, ONE_INSERT, &[], None, revision, BlameFault::NoRevision);
    }
}

#[test]
fn writers_that_fail_in_the_lines(rt: HostRuntime) {
    let image = applied(&rt, FOX, &[]).expect(&rt, "an image");
    for left in 0..FOX_BLAMED.len() {
        for fails in [true, false] {
            let mut taken: Vec<u8> = Vec::new(rt.alloc());
            let mut writer = Taker {
                left,
                fails,
                taken: &mut taken,
            };
            let mut sources = sources_of(&rt, &[]);
            let answer = run_blame(
                rt.alloc(),
                &image,
                &mut sources,
                None,
                whole(2),
                &mut writer,
            );
            assert_same(&rt, &answer, &Err(BlameFault::Write));
            assert_same(&rt, &Some(taken.as_slice()), &FOX_BLAMED.get(..left));
        }
    }
}
