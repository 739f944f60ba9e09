//! Sessions that go on from an image that was saved.

ghost use Rattle.saved_session.specs.TakenUp.{WasChecked};

use super::many::three_changes;
use super::records::{
    Records, compared, empty, image_of, insert, inserted, leaf, literal, one_insert, open, opened,
    two_opened,
};
use super::texts::{made, text, two_texts, written};
use super::{assert_same, assert_same_at};
use edit_commands::{Command, Session};
use lazy_file::{MemSources, Sources};
use saved_session::{TakeFault, take_up};
use session_checker::{Checked, check};
use std::alloc::AllocGlobal;
use std::process::Abort;

/// An image that is accepted.
fn accepted<'a, A: Abort, S: Sources>(rt: &A, image: &'a [u8], sources: &mut S) -> Checked<'a>
    ensures { WasChecked result }
{
    match check(image, sources) {
        Ok(checked) => checked,
        Err(fault) => panic!(rt; "{fault}"),
    }
}

/// The session of an accepted image, or why there is none.
fn taken<A: AllocGlobal + Abort, S: Sources>(
    rt: &A,
    image: &[u8],
    sources: &mut S,
) -> Result<Session, TakeFault> {
    let checked = accepted(rt, image, sources);
    take_up(rt.alloc(), &checked)
}

/// The session of an accepted image without sources.
fn taken_alone<A: AllocGlobal + Abort>(rt: &A, image: &[u8]) -> Session {
    let mut none = MemSources::new(rt.alloc());
    taken(rt, image, &mut none).expect(rt, "a session")
}

/// The sources `abc` and `def`, or the first of them.
fn sources_of<A: AllocGlobal + Abort>(rt: &A, texts: &[&'static [u8]]) -> MemSources<'static> {
    let mut sources = MemSources::new(rt.alloc());
    for bytes in texts {
        sources.add(bytes).expect(rt, "a source");
    }
    sources
}

#[test]
fn an_image_is_written_again_in_version_two(rt: HostRuntime) {
    let wanted = one_insert(&rt, 2);
    assert_same(&rt, &wanted.len(), &211);
    for version in [1, 2] {
        let session = taken_alone(&rt, &one_insert(&rt, version));
        assert_same_at(&rt, &written(&rt, &session), &wanted, &version);
    }
}

#[test]
fn a_session_goes_on_behind_its_image(rt: HostRuntime) {
    let mut session = taken_alone(&rt, &one_insert(&rt, 1));
    let more = Command::Insert {
        r: 1,
        p: 3,
        bytes: b"d",
    };
    assert_same(&rt, &made(&rt, &mut session, more), &2);
    // The block of the bytes that were there takes no more, so the `d`
    // is a literal by itself, and then one with the three before it.
    let wanted = Records {
        version: 2,
        sources: &[],
        nodes: &[literal(0, 3), literal(3, 1), literal(4, 4)],
        revisions: &[
            empty(),
            insert(0, 0, 0, 3, 1, 0, 1),
            insert(1, 3, 3, 1, 1, 2, 2),
        ],
        splices: &[],
        rows: &[leaf(3), compared(3), compared(1)],
        pool: b"abcdabcd",
    };
    let image = written(&rt, &session);
    assert_same(&rt, &image, &image_of(&rt, &wanted));
    assert_same(&rt, &image.len(), &384);
    assert_same(&rt, &text(&rt, &session, 2).as_slice(), &b"abcd".as_slice());
}

#[test]
fn rows_that_could_be_longer_are_made_anew(rt: HostRuntime) {
    let image = inserted(&rt, 1, b"abc", &[leaf(1), leaf(2)]);
    assert_same(&rt, &image.len(), &235);
    let session = taken_alone(&rt, &image);
    assert_same(&rt, &written(&rt, &session), &one_insert(&rt, 2));
}

/// The image of five bytes `a`, as a cycle of one, whose mark claims this.
fn cycled<A: AllocGlobal + Abort>(rt: &A, version: u64, mark: u64) -> Vec<u8> {
    let records = Records {
        version,
        sources: &[],
        nodes: &[[3, 0, 3, 1, 0, 5, 0x61 << 56, 0]],
        revisions: &[empty(), [9, mark, 0, 0, 0, 0, 0, 0, 0x61, 5, 1, 0]],
        splices: &[],
        rows: &[compared(5)],
        pool: &[],
    };
    image_of(rt, &records)
}

#[test]
fn a_mark_is_set_to_what_the_rule_says(rt: HostRuntime) {
    let image = cycled(&rt, 1, 0);
    assert_same(&rt, &image.len(), &208);
    let session = taken_alone(&rt, &image);
    assert_same(&rt, &written(&rt, &session), &cycled(&rt, 2, 1));
}

/// The image of two sources of three bytes each opened, the second one's bytes compared.
fn second_compared<A: AllocGlobal + Abort>(rt: &A) -> Vec<u8> {
    let records = Records {
        version: 2,
        sources: &[[3], [3]],
        nodes: &[opened(0, 3), opened(1, 3)],
        revisions: &[open(0, 1, 0, 1), open(1, 1, 1, 1)],
        splices: &[],
        rows: &[leaf(3), compared(3)],
        pool: &[],
    };
    image_of(rt, &records)
}

#[test]
fn no_row_of_bytes_is_over_a_source(rt: HostRuntime) {
    let mut sources = sources_of(&rt, &[b"abc", b"def"]);
    for (image, k) in [(two_opened(&rt), 0), (second_compared(&rt), 1)] {
        let answer = taken(&rt, &image, &mut sources).map(|session| session.count());
        assert_same_at(&rt, &answer, &Err(TakeFault::OverSource(k)), &k);
    }
}

#[test]
fn an_image_without_revisions_has_its_sources(rt: HostRuntime) {
    let records = Records {
        version: 2,
        sources: &[[3]],
        nodes: &[],
        revisions: &[],
        splices: &[],
        rows: &[],
        pool: &[],
    };
    let image = image_of(&rt, &records);
    let mut session = taken(&rt, &image, &mut sources_of(&rt, &[b"abc"])).expect(&rt, "a session");
    assert_same(&rt, &session.count(), &0);
    assert_same(&rt, &made(&rt, &mut session, Command::Open { s: 0 }), &0);
    let opened = Records {
        nodes: &[opened(0, 3)],
        revisions: &[open(0, 1, 0, 1)],
        rows: &[leaf(3)],
        ..records
    };
    assert_same(&rt, &written(&rt, &session), &image_of(&rt, &opened));
}

/// The image of a session, taken up, is that session's again.
fn assert_taken_as_it_was<A: AllocGlobal + Abort>(rt: &A, session: &Session) -> Session {
    let image = written(rt, session);
    let again = taken_alone(rt, &image);
    assert_same(rt, &written(rt, &again), &image);
    again
}

/// Makes three revisions more behind three changes, and looks at every text.
fn go_on<A: AllocGlobal + Abort>(rt: &A, session: &mut Session) {
    let pasted = Command::Paste {
        r: 2,
        p: 1,
        q: 1,
        i: 4,
        n: 2,
    };
    assert_same(rt, &made(rt, session, pasted), &3);
    let back = made(rt, session, Command::Back { r: 1 });
    let shortened = Command::Delete {
        r: back,
        p: 0,
        n: 3,
    };
    assert_same(rt, &made(rt, session, shortened), &5);
    for (k, wanted) in [
        (1, b"abcdef".as_slice()),
        (2, b"aXdYZe"),
        (3, b"aefXdYZe"),
        (4, b"abcdef"),
        (5, b"def"),
    ] {
        assert_same_at(rt, &text(rt, session, k).as_slice(), &wanted, &k);
    }
}

#[test]
fn a_session_is_taken_up_as_it_was_and_goes_on(rt: HostRuntime) {
    let mut session = three_changes(&rt);
    let mut again = assert_taken_as_it_was(&rt, &session);
    go_on(&rt, &mut session);
    go_on(&rt, &mut again);
    assert_taken_as_it_was(&rt, &again);
}

#[test]
fn a_session_of_one_text_is_taken_up_twice(rt: HostRuntime) {
    let session = two_texts(&rt, b"abc");
    let again = assert_taken_as_it_was(&rt, &session);
    assert_taken_as_it_was(&rt, &again);
}

#[test]
fn why_there_is_no_session_prints_its_code(rt: HostRuntime) {
    for (fault, code) in [
        (TakeFault::OverSource(12), "G1(12)"),
        (TakeFault::TooManyRows, "E6"),
        (TakeFault::Memory, "Memory"),
    ] {
        let printed = fault.to_string(rt.alloc()).expect(&rt, "memory");
        assert_same(&rt, &printed.as_str(), &code);
    }
}
