//! Sessions, whose commands and images are worked by hand.

ghost use Rattle.std.specs.Prelude.{◌≡◌, ◌↔◌, IfSome, IsTrue};
ghost use Rattle.std.specs.List.{sum_by};
ghost use Rattle.edit_commands.specs.Refusals.{TakesAll};

use crate::fakes::{ONE_INSERT, ONE_INSERT_IN_TWO, Taker};
use crate::kept::{Reach, byte_at, session_digest, size_of};
use crate::refusals::{Refusals, TRIES, assert_same};
use command_parts::Splice;
use edit_commands::{Change, Command, EditFault, Session};
use image_reader::Image;
use lazy_file::MemSources;
use rope_node::{NodeId, NodeSpace, NodeView};
use session_checker::check;
use session_image::{restate, write};
use std::alloc::AllocGlobal;
use std::process::Abort;

/// How many bytes changes take together.
fn taken(changes: &[Change]) -> Option<u64>
    ensures { IfSome result (λ n. n ≡ sum_by (λ c. c.n) changes.now) }
{
    match changes.split_first() {
        None => Some(0),
        Some((first, rest)) => first.n.checked_add(taken(rest)?),
    }
}

/// Whether the changes of a command, where it has such, take all of its bytes.
fn takes_all(command: &Command<'_>) -> bool
    ensures { IsTrue result → TakesAll command.now }
{
    match *command {
        Command::Many { changes, bytes, .. } => taken(changes) == Some(bytes.len() as u64),
        _ => true,
    }
}

/// What a session answers to a command.
fn apply<A: Abort>(rt: &A, session: &mut Session, command: Command<'_>) -> Result<u32, EditFault> {
    assert!(rt; takes_all(&command));
    session.apply(command)
}

/// What a session answers to a command, which it is handed once more where that was refused memory.
pub(crate) fn applied<A: AllocGlobal + Abort>(
    rt: &A,
    session: &mut Session,
    command: Command<'_>,
    refusals: &mut Refusals,
) -> Result<u32, EditFault> {
    let mut none = MemSources::new(rt.alloc());
    let reach = Reach::of(session.space());
    let before = session_digest(rt, session, &mut none, reach);
    for _ in 0..TRIES {
        match apply(rt, session, command) {
            Err(EditFault::Memory) => {
                let now = session_digest(rt, session, &mut none, reach);
                refusals.met(rt, &now, &before);
            }
            answer => return answer,
        }
    }
    panic!(rt; "refused each time: {command:?}")
}

/// A session after these commands, the first of which is its first.
pub(crate) fn session_of<A: AllocGlobal + Abort>(
    rt: &A,
    commands: &[Command<'_>],
    refusals: &mut Refusals,
) -> Session {
    let mut session = Session::new(rt.alloc());
    for (k, command) in (0u32..).zip(commands.iter()) {
        let made = applied(rt, &mut session, *command, refusals);
        assert_same(rt, &made, &Ok(k), command);
    }
    session
}

/// Fails the test where a session's text is another one.
pub(crate) fn assert_text<A: AllocGlobal + Abort>(
    rt: &A,
    session: &Session,
    k: u32,
    wanted: &[u8],
) {
    let mut none = MemSources::new(rt.alloc());
    let root = session.root(k).expect(rt, "a revision");
    let (len, _) = size_of(rt, session.space(), root);
    assert_same(rt, &len, &(wanted.len() as u64), &k);
    for (i, byte) in (0u64..).zip(wanted.iter()) {
        let found = byte_at(rt, session.space(), &mut none, root, i);
        assert_same(rt, &found, &Some(*byte), &(k, i));
    }
}

/// A writer that has a session's image.
pub(crate) fn image_of<A: Abort>(rt: &A, session: &Session) -> Taker {
    let mut taker = Taker::new();
    write(session, &mut taker).expect(rt, "an image");
    taker
}

/// The length and depth of a revision.
fn size<A: Abort>(rt: &A, session: &Session, k: u32) -> (u64, u8) {
    let root = session.root(k).expect(rt, "a revision");
    size_of(rt, session.space(), root)
}

/// Fails the test where a session's image is not accepted with
/// its numbers of revisions and rows, or has more than 100 rows.
fn assert_accepted<A: AllocGlobal + Abort>(rt: &A, session: &Session) {
    let taker = image_of(rt, session);
    let mut none = MemSources::new(rt.alloc());
    let checked = check(taker.taken(), &mut none).expect(rt, "the image is accepted");
    assert_same(rt, &checked.revisions(), &session.count(), &"revisions");
    let mut rows = 0usize;
    for k in 0..session.count() {
        rows = rows.saturating_add(session.rows(k).map_or(0, |rows| rows.len()));
    }
    assert_same(rt, &(checked.rows() as usize), &rows, &"rows");
    assert!(rt; rows <= 100, "{rows} rows");
}

/// The insertion of `abc`, and its image, which is also what its image of version 1 becomes.
pub(crate) fn one_insert<A: AllocGlobal + Abort>(rt: &A, refusals: &mut Refusals) {
    let commands = [
        Command::New,
        Command::Insert {
            r: 0,
            p: 0,
            bytes: b"abc",
        },
    ];
    let session = session_of(rt, &commands, refusals);
    assert_text(rt, &session, 0, b"");
    assert_text(rt, &session, 1, b"abc");
    assert_accepted(rt, &session);
    if refusals.are_none() {
        let image = image_of(rt, &session);
        assert_same(rt, &image.taken(), &ONE_INSERT_IN_TWO, &"the image");
    }
    let first = Image::read(ONE_INSERT).expect(rt, "an image");
    let mut anew = Taker::new();
    assert_same(rt, &restate(&first, &mut anew), &Ok(()), &"restated");
    assert_same(rt, &anew.taken(), &ONE_INSERT_IN_TWO, &"restated");
}

pub(crate) fn three_inserts<A: AllocGlobal + Abort>(rt: &A, refusals: &mut Refusals) {
    let insert = |r, bytes| Command::Insert {
        r,
        p: u64::from(r),
        bytes,
    };
    let commands = [
        Command::New,
        insert(0, b"a".as_slice()),
        insert(1, b"b"),
        insert(2, b"c"),
    ];
    let session = session_of(rt, &commands, refusals);
    for (k, text) in [(1, b"a".as_slice()), (2, b"ab"), (3, b"abc")] {
        assert_text(rt, &session, k, text);
    }
    assert_accepted(rt, &session);
    if refusals.are_none() {
        assert_grown(rt, &session, &[1, 2, 3]);
    }
}

/// Fails the test where the nodes are not literals of these lengths from the first place of the pool on.
fn assert_grown<A: Abort>(rt: &A, session: &Session, lens: &[u64]) {
    let space = session.space();
    assert_same(rt, &(space.count() as usize), &lens.len(), &"nodes");
    assert_same(rt, &space.pool_len(), &(lens.len() as u64), &"pool");
    for (k, len) in (0u32..).zip(lens.iter()) {
        assert!(rt; k < space.count());
        let node = (space.node(NodeId(k)), NodeSpace::len(space, NodeId(k)));
        assert_same(rt, &node, &(NodeView::Lit { a: 0 }, *len), &k);
    }
}

pub(crate) fn paste_into_itself<A: AllocGlobal + Abort>(rt: &A, refusals: &mut Refusals) {
    let commands = [
        Command::New,
        Command::Insert {
            r: 0,
            p: 0,
            bytes: b"abc",
        },
        Command::Paste {
            r: 1,
            p: 1,
            q: 1,
            i: 0,
            n: 3,
        },
    ];
    let session = session_of(rt, &commands, refusals);
    assert_text(rt, &session, 1, b"abc");
    assert_text(rt, &session, 2, b"aabcbc");
    assert_accepted(rt, &session);
}

pub(crate) fn doublings<A: AllocGlobal + Abort>(rt: &A, refusals: &mut Refusals) {
    let first = [
        Command::New,
        Command::Insert {
            r: 0,
            p: 0,
            bytes: b"x",
        },
    ];
    let mut session = session_of(rt, &first, refusals);
    for r in 1..40 {
        let twice = Command::Join { r, q: r };
        let wanted = r.saturating_add(1);
        let made = applied(rt, &mut session, twice, refusals);
        assert_same(rt, &made, &Ok(wanted), &r);
    }
    assert_same(rt, &size(rt, &session, 40), &(1 << 39, 35), &"the last");
    assert_accepted(rt, &session);
}

/// The most bytes of a text.
const LONGEST: u64 = (1 << 40) - 1;

pub(crate) fn fill_of_the_limit<A: AllocGlobal + Abort>(rt: &A, refusals: &mut Refusals) {
    let fill = |n| Command::Fill {
        r: 0,
        p: 0,
        c: b'a',
        n,
    };
    let mut session = session_of(rt, &[Command::New, fill(LONGEST)], refusals);
    let refused = applied(rt, &mut session, fill(LONGEST + 1), refusals);
    let too_long = Err(EditFault::Node(node_table::NodeFault::TooLong));
    assert_same(rt, &refused, &too_long, &"too long");
    assert_same(rt, &size(rt, &session, 1), &(LONGEST, 0), &"the fill");
    assert_accepted(rt, &session);
}

fn change(p: u64, m: u64, n: u64) -> Change {
    Change { p, m, n }
}

/// `abcdef`, of which `bc` becomes `X`, `YZ` comes before the `e`, and the `f` goes.
pub(crate) fn three_changes<A: AllocGlobal + Abort>(rt: &A, refusals: &mut Refusals) {
    let commands = [
        Command::New,
        Command::Insert {
            r: 0,
            p: 0,
            bytes: b"abcdef",
        },
        Command::Many {
            r: 1,
            changes: &[change(1, 2, 1), change(4, 0, 2), change(5, 1, 0)],
            bytes: b"XYZ",
        },
    ];
    let session = session_of(rt, &commands, refusals);
    assert_text(rt, &session, 1, b"abcdef");
    assert_text(rt, &session, 2, b"aXdYZe");
    assert_accepted(rt, &session);
    if refusals.are_none() {
        let splice = |p, m, a, n| Splice { p, m, a, n };
        let wanted = [splice(1, 2, 6, 1), splice(4, 0, 12, 2), splice(5, 1, 0, 0)];
        assert_same(
            rt,
            &session.splices(2),
            &Some(wanted.as_slice()),
            &"splices",
        );
    }
}

fn add_source(session: &mut Session, len: u64) -> Result<u8, EditFault> {
    session.add_source(len)
}

/// A source that is added behind a text, which stays.
pub(crate) fn added_source<A: AllocGlobal + Abort>(rt: &A, refusals: &mut Refusals) {
    let mut session = session_of(rt, &[Command::New], refusals);
    let mut none = MemSources::new(rt.alloc());
    let reach = Reach::of(session.space());
    let before = session_digest(rt, &session, &mut none, reach);
    for _ in 0..TRIES {
        match add_source(&mut session, 3) {
            Err(EditFault::Memory) => {
                let now = session_digest(rt, &session, &mut none, reach);
                refusals.met(rt, &now, &before);
            }
            answer => {
                assert_same(rt, &answer, &Ok(0), &"a source");
                let made = applied(rt, &mut session, Command::Open { s: 0 }, refusals);
                assert_same(rt, &made, &Ok(1), &"opened");
                assert_same(rt, &size(rt, &session, 1), &(3, 0), &"the source");
                return;
            }
        }
    }
    panic!(rt; "refused each time")
}
