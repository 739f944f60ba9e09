//! Images that are accepted or refused, and what is fetched of them.

use super::fakes::{CutShort, FailsFirst, FailsOnce, Unreadable};
use super::records::{
    Node, Records, compared, empty, filled, image_of, insert, inserted, joined, leaf, literal,
    longest_opened, one_insert, open, opened, part, shared, two_opened,
};
use super::texts::{assert_shown, counts, counts_alone};
use super::{assert_same, assert_same_at};
use cord_position::fetch;
use image_reader::{Image, ReadFault};
use lazy_file::{FileSources, MemSources, SourceFault};
use rope_node::{NodeId, NodeSpace};
use session_checker::{CheckFault, check, check_tables, check_told};
use std::alloc::AllocGlobal;
use std::num::NonZeroUsize;
use std::process::Abort;
use work_progress::Progress;

/// The image of `cd`, inserted from the pool `abcd`, whose root is a substring of a substring of two joined literals.
fn substrings<A: AllocGlobal + Abort>(rt: &A) -> Vec<u8> {
    image_of(
        rt,
        &Records {
            version: 1,
            sources: &[],
            nodes: &[
                literal(0, 2),
                literal(2, 2),
                joined(0, 1, 1, 4),
                part(2, 1, 2, 3),
                part(3, 1, 3, 2),
            ],
            revisions: &[empty(), insert(0, 0, 2, 2, 0, 4, 1)],
            splices: &[],
            rows: &[leaf(2)],
            pool: b"abcd",
        },
    )
}

#[test]
fn fetch_gives_the_byte_and_the_nodes_visited(rt: HostRuntime) {
    let mut none = MemSources::new(rt.alloc());
    let bytes = one_insert(&rt, 1);
    let image = check(&bytes, &mut none).expect(&rt, "the image is accepted");
    for (k, i, found) in [
        (1, 2, (Some(0x63), 1)),
        (1, 3, (None, 0)),
        (0, 0, (None, 0)),
        (2, 0, (None, 0)),
    ] {
        assert_same_at(&rt, &image.fetch(&mut none, k, i), &Ok(found), &(k, i));
    }
    let first = (image.root(0), image.mark(0));
    assert_same(&rt, &first, &(Some(None), Some(false)));
    let second = (image.root(1), image.mark(1));
    assert_same(&rt, &second, &(Some(Some(NodeId(0))), Some(true)));
    assert_same(&rt, &(image.root(2), image.mark(2)), &(None, None));
}

/// What was told of a check.
#[derive(Clone, Copy, Debug, Default, PartialEq, Eq)]
struct Heard {
    all: u64,
    last: u64,
    tells: u32,
    has_ended: bool,
}

impl Progress for Heard {
    fn begin(&mut self, all: u64) {
        self.all = all;
    }

    fn tell(&mut self, done: u64) {
        self.last = done;
        self.tells = self.tells.saturating_add(1);
    }

    fn end(&mut self) {
        self.has_ended = true;
    }
}

#[test]
fn check_tells_how_many_records_are_done(rt: HostRuntime) {
    let mut none = MemSources::new(rt.alloc());
    let bytes = substrings(&rt);
    let mut heard = Heard::default();
    let image = check_told(&bytes, &mut none, None, &mut heard).expect(&rt, "it is accepted");
    assert_same(
        &rt,
        &(image.count(), image.revisions(), image.rows()),
        &(5, 2, 1),
    );
    // Before each of five nodes, of two revisions, and of the second one's row; the first one is empty.
    let wanted = Heard {
        all: 8,
        last: 6,
        tells: 8,
        has_ended: true,
    };
    assert_same(&rt, &heard, &wanted);
}

#[test]
fn table_that_passed_is_fetched_from(rt: HostRuntime) {
    let mut none = MemSources::new(rt.alloc());
    let bytes = substrings(&rt);
    assert_same(&rt, &counts_alone(&rt, &bytes), &Ok((2, 1)));
    let image = Image::read(&bytes).expect(&rt, "an image");
    let tables = check_tables(&image, &none).expect(&rt, "the table is good");
    assert!(&rt; tables.count() == 5);
    let root = Some(NodeId(4));
    for (i, found) in [(0, (Some(b'c'), 4)), (1, (Some(b'd'), 4)), (2, (None, 0))] {
        assert_same_at(&rt, &fetch(&tables, &mut none, root, i), &Ok(found), &i);
    }
    let mut one = MemSources::new(rt.alloc());
    assert_same(&rt, &one.add(b"abc"), &Ok(0));
    let refused = check_tables(&image, &one).map(|tables| tables.count());
    assert_same(&rt, &refused, &Err(CheckFault::SourceCount));
}

#[test]
fn numbers_of_records_are_compared(rt: HostRuntime) {
    let whole = one_insert(&rt, 1);
    assert_same(&rt, &counts_alone(&rt, &whole), &Ok((2, 1)));
    // 16,777,217 nodes, 3 revisions, 2 rows; the second revision has 2 rows.
    for (place, number, fault) in [
        (16, 1, ReadFault::Count),
        (23, 3, ReadFault::Truncated),
        (27, 2, ReadFault::Truncated),
        (179, 2, ReadFault::Count),
    ] {
        let mut changed = whole.clone().expect(&rt, "memory");
        *changed.get_mut(place).expect(&rt, "a byte") = number;
        let refused = Err(CheckFault::Read(fault));
        assert_same_at(&rt, &counts_alone(&rt, &changed), &refused, &place);
    }
}

#[test]
fn rows_of_bytes_have_at_most_4096(rt: HostRuntime) {
    let accepted = |n| Ok((2, n));
    let refused = Err(CheckFault::Rows(1, 0));
    for (rows, answer) in [
        ([compared(4097)].as_slice(), refused),
        (&[compared(4096), compared(1)], accepted(2)),
        (&[leaf(4097)], accepted(1)),
        (&[shared(0, 0, 4097)], refused),
    ] {
        let image = inserted(&rt, 1, &[b'a'; 4097], rows);
        assert_same_at(&rt, &counts_alone(&rt, &image), &answer, &rows);
    }
}

/// The image of an empty text whose nodes are `x`, and `n` nodes of which each is the one before it and that again.
fn doubled<A: AllocGlobal + Abort>(rt: &A, n: u64) -> Vec<u8> {
    let mut nodes: Vec<Node> = Vec::new(rt.alloc());
    nodes.push(literal(0, 1)).expect(rt, "memory");
    for k in 0..n {
        let node = joined(k, k, k.saturating_add(1), 2 << k.min(40));
        nodes.push(node).expect(rt, "memory");
    }
    let records = Records {
        version: 1,
        sources: &[],
        nodes: &nodes,
        revisions: &[empty()],
        splices: &[],
        rows: &[],
        pool: b"x",
    };
    image_of(rt, &records)
}

/// The image of `x` whose root is a substring of a substring and so on, `n` times.
fn nested<A: AllocGlobal + Abort>(rt: &A, n: u64) -> Vec<u8> {
    let mut nodes: Vec<Node> = Vec::new(rt.alloc());
    nodes.push(literal(0, 1)).expect(rt, "memory");
    for k in 0..n {
        nodes
            .push(part(k, 0, k.saturating_add(1), 1))
            .expect(rt, "memory");
    }
    let records = Records {
        version: 1,
        sources: &[],
        nodes: &nodes,
        revisions: &[empty(), insert(0, 0, 0, 1, 0, n, 1)],
        splices: &[],
        rows: &[leaf(1)],
        pool: b"x",
    };
    image_of(rt, &records)
}

#[test]
fn thirty_nine_doublings_of_a_node_are_accepted(rt: HostRuntime) {
    assert_same(&rt, &counts_alone(&rt, &doubled(&rt, 39)), &Ok((1, 0)));
    let refused = Err(CheckFault::Length(40));
    assert_same(&rt, &counts_alone(&rt, &doubled(&rt, 40)), &refused);
}

#[test]
fn sixty_four_substrings_are_fetched_through(rt: HostRuntime) {
    let mut none = MemSources::new(rt.alloc());
    let bytes = nested(&rt, 64);
    let image = check(&bytes, &mut none).expect(&rt, "the image is accepted");
    assert_same(&rt, &image.fetch(&mut none, 1, 0), &Ok((Some(0x78), 65)));
    let refused = Err(CheckFault::Depth(65));
    assert_same(&rt, &counts_alone(&rt, &nested(&rt, 65)), &refused);
}

#[test]
fn rows_of_bytes_over_sources_are_compared(rt: HostRuntime) {
    let image = two_opened(&rt);
    let texts = [
        b"abc".to_vec(rt.alloc()).expect(&rt, "memory"),
        b"xyz".to_vec(rt.alloc()).expect(&rt, "memory"),
    ];
    let mut sources = MemSources::new(rt.alloc());
    assert_same(&rt, &sources.add(b"abc"), &Ok(0));
    let refused = Err(CheckFault::SourceCount);
    assert_same(&rt, &counts(&image, &mut sources), &refused);
    let mut short = MemSources::new(rt.alloc());
    assert_same(&rt, &(short.add(b"abc"), short.add(b"xy")), &(Ok(0), Ok(1)));
    let refused = Err(CheckFault::SourceLength(1));
    assert_same(&rt, &counts(&image, &mut short), &refused);
    assert_same(&rt, &sources.add(b"xyz"), &Ok(1));
    assert_shown(&rt, &image, &mut sources, &texts);
}

#[test]
fn fault_of_either_source_is_told_and_not_kept(rt: HostRuntime) {
    let image = two_opened(&rt);
    let fault = CheckFault::Source(SourceFault::Device);
    // The rows of source 0 come first; behind them each side of a row is one read.
    for (failing, reads, more) in [(0, 1, 5), (1, 3, 7)] {
        let mut sources = FailsOnce::of(failing);
        assert_same_at(&rt, &counts(&image, &mut sources), &Err(fault), &failing);
        assert_same_at(&rt, &sources.reads, &reads, &failing);
        assert_same_at(&rt, &counts(&image, &mut sources), &Ok((2, 2)), &failing);
        assert_same_at(&rt, &sources.reads, &more, &failing);
    }
}

#[test]
fn source_is_read_for_rows_of_bytes_alone(rt: HostRuntime) {
    let end = super::fakes::LONGEST;
    let fault = Err(CheckFault::Source(SourceFault::Short));
    for (rows, answer, is_read) in [
        ([leaf(end)].as_slice(), Ok((1, 1)), false),
        (
            &[compared(4097), compared(1)],
            Err(CheckFault::Rows(0, 0)),
            false,
        ),
        (
            &[compared(0), compared(1)],
            Err(CheckFault::Rows(0, 0)),
            false,
        ),
        (
            &[shared(0, 0, 4096), compared(1)],
            Err(CheckFault::Rows(0, 0)),
            false,
        ),
        (
            &[leaf(end), compared(1)],
            Err(CheckFault::Rows(0, 1)),
            false,
        ),
        (&[leaf(end - 1), compared(1)], fault, true),
    ] {
        let mut sources = Unreadable { is_read: false };
        let image = longest_opened(&rt, rows);
        assert_same_at(&rt, &counts(&image, &mut sources), &answer, &rows);
        assert_same_at(&rt, &sources.is_read, &is_read, &rows);
    }
}

/// The image of a source of so many bytes, opened with one row of bytes.
fn one_compared<A: AllocGlobal + Abort>(rt: &A, size: u64) -> Vec<u8> {
    let records = Records {
        version: 1,
        sources: &[[size]],
        nodes: &[opened(0, size)],
        revisions: &[open(0, 0, 0, 1)],
        splices: &[],
        rows: &[compared(size)],
        pool: b"",
    };
    image_of(rt, &records)
}

#[test]
fn a_device_that_fails_once_is_told_and_then_accepted(rt: HostRuntime) {
    let room = FileSources::new(rt.alloc(), NonZeroUsize::MIN, ());
    let mut sources = room.expect(&rt, "room for a block");
    let device = FailsFirst {
        calls: 0,
        failed: 0,
    };
    assert!(&rt; sources.add(device).is_ok());
    let image = one_compared(&rt, 3);
    let fault = Err(CheckFault::Source(SourceFault::Device));
    assert_same(&rt, &counts(&image, &mut sources), &fault);
    assert_same(&rt, &counts(&image, &mut sources), &Ok((1, 1)));
    let longer = one_compared(&rt, 4);
    let fault = Err(CheckFault::SourceLength(0));
    assert_same(&rt, &counts(&longer, &mut sources), &fault);
}

#[test]
fn a_row_of_bytes_over_a_file_that_was_cut_short_is_short(rt: HostRuntime) {
    let room = FileSources::new(rt.alloc(), NonZeroUsize::MIN, ());
    let mut sources = room.expect(&rt, "room for a block");
    assert!(&rt; sources.add(CutShort).is_ok());
    let image = one_compared(&rt, 5);
    let fault = Err(CheckFault::Source(SourceFault::Short));
    assert_same(&rt, &counts(&image, &mut sources), &fault);
}

#[test]
fn a_file_that_was_cut_short_is_accepted_and_fetched_as_short(rt: HostRuntime) {
    let room = FileSources::new(rt.alloc(), NonZeroUsize::MIN, ());
    let mut sources = room.expect(&rt, "room for a block");
    assert!(&rt; sources.add(CutShort).is_ok());
    let records = Records {
        version: 1,
        sources: &[[5]],
        nodes: &[opened(0, 5)],
        revisions: &[open(0, 0, 0, 1)],
        splices: &[],
        rows: &[leaf(5)],
        pool: b"",
    };
    let bytes = image_of(&rt, &records);
    let image = check(&bytes, &mut sources).expect(&rt, "the image is accepted");
    let fetched = image.fetch(&mut sources, 0, 0);
    assert_same(&rt, &fetched, &Err(SourceFault::Short));
}
