//! Which rows random sessions have: the contracts say that each row fits and is the longest, and these which node a
//! shared one names, where several would do.

use super::assert_same_at;
use super::lists::{next, up_to};
use super::plain_rows::{plain_rows, root, rope_len};
use super::texts::applied;
use edit_commands::{Change, Command, Session};
use std::alloc::AllocGlobal;
use std::process::Abort;

/// Ways down from a rope of at most this depth are short, and none of them is kept from row to row.
const SHALLOW: u8 = 4;

/// Those from a rope of at least this depth are kept.
const DEEP: u8 = 9;

/// A command without its places.
#[derive(Clone, Copy)]
enum Kind {
    New,
    Open,
    Insert,
    Delete,
    Replace,
    Paste,
    Join,
    Cut,
    Fill,
    Back,
    Balance,
    Many,
}

/// How a random session is made.
#[derive(Clone, Copy)]
struct Manner {
    /// What its commands are: a kind that stands here twice comes twice as often.
    kinds: &'static [Kind],
    /// A command is over one of so many last revisions.
    reach: u32,
    /// A text longer than this is cut.
    longest: u64,
    /// How many commands there are.
    commands: u32,
}

/// Every command, over any of many texts.
const MIXED: Manner = Manner {
    kinds: &[
        Kind::New,
        Kind::Open,
        Kind::Insert,
        Kind::Delete,
        Kind::Replace,
        Kind::Paste,
        Kind::Join,
        Kind::Cut,
        Kind::Fill,
        Kind::Back,
        Kind::Balance,
        Kind::Many,
    ],
    reach: 24,
    longest: 5000,
    commands: 500,
};

/// One text that is typed into, whose ropes become deep and are put together anew.
const TYPED: Manner = Manner {
    kinds: &[
        Kind::Insert,
        Kind::Insert,
        Kind::Insert,
        Kind::Insert,
        Kind::Fill,
        Kind::Replace,
        Kind::Many,
    ],
    reach: 1,
    longest: 1 << 20,
    commands: 350,
};

/// Texts that are pasted into themselves, joined with themselves and cut again.
const PASTED: Manner = Manner {
    kinds: &[
        Kind::Insert,
        Kind::Paste,
        Kind::Paste,
        Kind::Join,
        Kind::Join,
        Kind::Cut,
        Kind::Delete,
        Kind::Fill,
        Kind::Replace,
        Kind::Balance,
        Kind::Many,
    ],
    reach: 3,
    longest: 1500,
    commands: 300,
};

/// What is typed.
const TYPING: &[u8] =
    b"some words that are typed, a few of them at a time, and more than a leaf takes";

/// A place of a text at random, and how many bytes from there on.
fn span(seed: &mut u64, len: u64, most: u64) -> (u64, u64) {
    let p = up_to(seed, len as usize) as u64;
    let n = up_to(seed, len.saturating_sub(p).min(most) as usize) as u64;
    (p, n)
}

/// Some of what is typed: one byte or more, mostly a few.
fn typed<A: Abort>(rt: &A, seed: &mut u64) -> &'static [u8] {
    let from = up_to(seed, 30);
    let most = if next(seed) % 8 == 0 { 40 } else { 3 };
    let to = from.saturating_add(up_to(seed, most)).saturating_add(1);
    TYPING.get(from..to).expect(rt, "a span")
}

/// At least one change of a text of this length, at random, each of two bytes for at most three.
fn changes<A: AllocGlobal + Abort>(rt: &A, seed: &mut u64, len: u64) -> Vec<Change> {
    let mut changes: Vec<Change> = Vec::new(rt.alloc());
    let mut least = 0;
    for _ in 0..=up_to(seed, 4) {
        if least > len {
            break;
        }
        let (behind, m) = span(seed, len.saturating_sub(least), 3);
        let p = behind.saturating_add(least);
        let change = Change { p, m, n: 2 };
        changes.push(change).expect(rt, "memory");
        least = p.saturating_add(m.max(1));
    }
    changes
}

/// One of the last revisions at random, and the length of its text.
fn recent<A: Abort>(rt: &A, seed: &mut u64, session: &Session, manner: Manner) -> (u32, u64) {
    let last = session.count().saturating_sub(1);
    let back = up_to(seed, last.min(manner.reach.saturating_sub(1)) as usize);
    let r = last.saturating_sub(u32::try_from(back).expect(rt, "a number"));
    let len = rope_len(rt, session.space(), root(rt, session, r));
    (r, len)
}

/// The texts that a random command is over, with their lengths.
#[derive(Clone, Copy)]
struct Over {
    r: u32,
    len: u64,
    q: u32,
    other: u64,
}

/// A command of this kind at random, with these changes where it has some.
fn random_command<'a, A: Abort>(
    rt: &A,
    seed: &mut u64,
    kind: Kind,
    over: Over,
    changes: &'a [Change],
) -> Command<'a> {
    let Over { r, len, q, other } = over;
    let (p, m) = span(seed, len, 40);
    let (i, n) = span(seed, other, other);
    let bytes = typed(rt, seed);
    match kind {
        Kind::New => Command::New,
        Kind::Open => Command::Open {
            s: u32::try_from(up_to(seed, 2)).expect(rt, "a source"),
        },
        Kind::Insert => Command::Insert { r, p, bytes },
        Kind::Delete => Command::Delete { r, p, n: m },
        Kind::Replace => Command::Replace { r, p, m, bytes },
        Kind::Paste => Command::Paste { r, p, q, i, n },
        Kind::Join => Command::Join { r, q },
        Kind::Cut => Command::Cut { r: q, i, n },
        Kind::Fill => Command::Fill {
            r,
            p,
            c: b'f',
            n: m.max(1),
        },
        Kind::Back => Command::Back { r },
        Kind::Balance => Command::Balance { r },
        Kind::Many => {
            let bytes = TYPING.get(..changes.len().saturating_mul(2));
            Command::Many {
                r,
                changes,
                bytes: bytes.expect(rt, "bytes"),
            }
        }
    }
}

/// Makes a revision at random.
fn go_on<A: AllocGlobal + Abort>(rt: &A, seed: &mut u64, session: &mut Session, manner: Manner) {
    let (r, len) = recent(rt, seed, session, manner);
    let (q, other) = recent(rt, seed, session, manner);
    let changes = changes(rt, seed, len);
    let picked = up_to(seed, manner.kinds.len().saturating_sub(1));
    let mut kind = *manner.kinds.get(picked).expect(rt, "a kind");
    if len.max(other) > manner.longest {
        kind = Kind::Cut;
    }
    let over = Over { r, len, q, other };
    let command = random_command(rt, seed, kind, over, &changes);
    let k = session.count();
    assert_same_at(rt, &applied(rt, session, command), &Ok(k), &command);
}

/// A session made at random over three sources.
fn random_session<A: AllocGlobal + Abort>(rt: &A, seed: &mut u64, manner: Manner) -> Session {
    let mut session = Session::new(rt.alloc());
    for len in [0, 9, 700] {
        session.add_source(len).expect(rt, "a source");
    }
    assert_same_at(rt, &applied(rt, &mut session, Command::New), &Ok(0), &"new");
    for _ in 0..manner.commands {
        go_on(rt, seed, &mut session, manner);
    }
    session
}

/// Fails the test where a row of revision `k` is not what the plainest walk gives.
fn assert_rows<A: AllocGlobal + Abort>(rt: &A, session: &Session, k: u32) {
    let rows = session.rows(k).expect(rt, "a revision");
    let wanted = plain_rows(rt, session, k);
    assert_same_at(rt, &rows.len(), &wanted.len(), &k);
    for (j, (row, plain)) in rows.iter().zip(wanted.iter()).enumerate() {
        assert_same_at(rt, row, plain, &(k, j));
    }
}

/// How deep the root of revision `k` is.
fn depth_of<A: Abort>(rt: &A, session: &Session, k: u32) -> u8 {
    let rope = root(rt, session, k);
    let space = session.space();
    assert!(rt; space.has(rope));
    space.depth(rope)
}

/// The rows of each revision of a session, whose ropes are shallow and deep, are those of the plainest walk.
fn assert_all_rows<A: AllocGlobal + Abort>(rt: &A, session: &Session) {
    let (mut has_shallow, mut has_deep) = (false, false);
    for k in 0..session.count() {
        assert_rows(rt, session, k);
        let depth = depth_of(rt, session, k);
        has_shallow = has_shallow || depth <= SHALLOW;
        has_deep = has_deep || depth >= DEEP;
    }
    assert!(rt; has_shallow && has_deep);
}

#[test]
fn rows_of_every_command_are_the_plainest(rt: HostRuntime) {
    let mut seed = 3;
    for _ in 0..5 {
        assert_all_rows(&rt, &random_session(&rt, &mut seed, MIXED));
    }
}

#[test]
fn rows_of_deep_texts_are_the_plainest(rt: HostRuntime) {
    let mut seed = 5;
    for _ in 0..2 {
        assert_all_rows(&rt, &random_session(&rt, &mut seed, TYPED));
    }
}

#[test]
fn rows_of_texts_pasted_into_themselves_are_the_plainest(rt: HostRuntime) {
    let mut seed = 9;
    for _ in 0..3 {
        assert_all_rows(&rt, &random_session(&rt, &mut seed, PASTED));
    }
}
