//! Random sessions beside plain lists.

use super::assert_same;
use super::texts::{applied, assert_shown, restated, written};
use edit_commands::{Change, Command, Session};
use lazy_file::MemSources;
use std::alloc::AllocGlobal;
use std::process::Abort;

/// The next of some numbers without a pattern that matters.
pub(crate) fn next(seed: &mut u64) -> u64 {
    *seed = seed
        .wrapping_mul(6_364_136_223_846_793_005)
        .wrapping_add(1_442_695_040_888_963_407);
    *seed >> 33
}

/// A number from 0 to `most`.
pub(crate) fn up_to(seed: &mut u64, most: usize) -> usize {
    (next(seed) as usize) % most.saturating_add(1).max(1)
}

/// A span of a text at random: its first place, and its end.
fn span(seed: &mut u64, text: &[u8]) -> (usize, usize) {
    let from = up_to(seed, text.len());
    let n = up_to(seed, text.len().saturating_sub(from));
    (from, from.saturating_add(n))
}

/// Bytes behind others.
fn extend<A: Abort>(rt: &A, text: &mut Vec<u8>, more: Option<&[u8]>) {
    let more = more.expect(rt, "a span");
    text.extend_from_slice(more).expect(rt, "memory");
}

/// The bytes before place `p`, then `x`, then the bytes from place `q` on.
fn spliced<A: AllocGlobal + Abort>(rt: &A, old: &[u8], p: usize, x: &[u8], q: usize) -> Vec<u8> {
    let mut text: Vec<u8> = Vec::new(rt.alloc());
    extend(rt, &mut text, old.get(..p));
    extend(rt, &mut text, Some(x));
    extend(rt, &mut text, old.get(q..));
    text
}

/// Changes of a text, their bytes, and what they give of it as a list.
#[derive(Drop)]
struct RandomChanges {
    changes: Vec<Change>,
    bytes: Vec<u8>,
    text: Vec<u8>,
}

/// One to six changes at random.
fn random_changes<A: AllocGlobal + Abort>(rt: &A, seed: &mut u64, old: &[u8]) -> RandomChanges {
    let mut changes: Vec<Change> = Vec::new(rt.alloc());
    let mut bytes: Vec<u8> = Vec::new(rt.alloc());
    let mut text: Vec<u8> = Vec::new(rt.alloc());
    let (mut from, mut least) = (0, 0);
    for _ in 0..=up_to(seed, 5) {
        if least > old.len() {
            break;
        }
        let p = up_to(seed, old.len().saturating_sub(least)).saturating_add(least);
        let end = up_to(seed, old.len().saturating_sub(p).min(3)).saturating_add(p);
        let new = [(next(seed) % 256) as u8; 3];
        let n = if end == p { 2 } else { up_to(seed, 3) };
        extend(rt, &mut bytes, new.get(..n));
        extend(rt, &mut text, old.get(from..p));
        extend(rt, &mut text, new.get(..n));
        let m = end.saturating_sub(p) as u64;
        let change = Change {
            p: p as u64,
            m,
            n: n as u64,
        };
        changes.push(change).expect(rt, "memory");
        from = end;
        least = end.max(p.saturating_add(1));
    }
    extend(rt, &mut text, old.get(from..));
    RandomChanges {
        changes,
        bytes,
        text,
    }
}

/// The texts that a random command is over: one, its number, and another.
#[derive(Clone, Copy)]
struct Over<'a> {
    r: u32,
    t: &'a [u8],
    q: u32,
    u: &'a [u8],
}

/// A text of the list, and its number.
fn listed<'a, A: Abort>(rt: &A, seed: &mut u64, texts: &'a [Vec<u8>]) -> (u32, &'a [u8]) {
    let k = up_to(seed, texts.len().saturating_sub(1));
    let text = texts.get(k).expect(rt, "a text");
    (u32::try_from(k).expect(rt, "a number"), text.as_slice())
}

/// One command at random, and what it gives as a list.
fn random_command<'a, A: AllocGlobal + Abort>(
    rt: &A,
    seed: &mut u64,
    over: &Over<'_>,
    many: &'a RandomChanges,
) -> (Command<'a>, Vec<u8>) {
    let Over { r, t, q, u } = *over;
    let (at, end) = span(seed, t);
    let (from, to) = span(seed, u);
    let part = u.get(from..to).expect(rt, "a span");
    let bytes = b"new".as_slice();
    let (p, m) = (at as u64, end.saturating_sub(at) as u64);
    let (i, n) = (from as u64, part.len() as u64);
    match up_to(seed, 11) {
        0 => (Command::New, spliced(rt, &[], 0, &[], 0)),
        1 => (Command::Delete { r, p, n: m }, spliced(rt, t, at, &[], end)),
        2 => (
            Command::Replace { r, p, m, bytes },
            spliced(rt, t, at, bytes, end),
        ),
        3 => (
            Command::Paste { r, p, q, i, n },
            spliced(rt, t, at, part, at),
        ),
        4 => (Command::Cut { r: q, i, n }, spliced(rt, part, 0, &[], 0)),
        5 => (
            Command::Fill {
                r,
                p,
                c: b'f',
                n: 3,
            },
            spliced(rt, t, at, b"fff", at),
        ),
        6 => (Command::Back { r }, spliced(rt, t, 0, &[], 0)),
        7 => (Command::Balance { r }, spliced(rt, t, 0, &[], 0)),
        8 => (Command::Join { r, q }, spliced(rt, u, 0, t, 0)),
        9 => (
            Command::Insert { r, p, bytes },
            spliced(rt, t, at, bytes, at),
        ),
        _ => (
            Command::Many {
                r,
                changes: &many.changes,
                bytes: &many.bytes,
            },
            spliced(rt, &many.text, 0, &[], 0),
        ),
    }
}

/// Makes a revision at random, and lists its text.
fn go_on<A: AllocGlobal + Abort>(
    rt: &A,
    seed: &mut u64,
    session: &mut Session,
    texts: &mut Vec<Vec<u8>>,
) {
    let (r, t) = listed(rt, seed, texts);
    let (q, u) = listed(rt, seed, texts);
    let many = random_changes(rt, seed, t);
    let (command, wanted) = random_command(rt, seed, &Over { r, t, q, u }, &many);
    let k = u32::try_from(texts.len()).expect(rt, "a number");
    assert_same(rt, &applied(rt, session, command), &Ok(k));
    texts.push(wanted).expect(rt, "memory");
}

/// A session over sources of these texts, which opens each and
/// makes at most forty revisions more, and its texts as lists.
fn random_session<A: AllocGlobal + Abort>(
    rt: &A,
    seed: &mut u64,
    given: &[&[u8]],
) -> (Session, Vec<Vec<u8>>) {
    let mut session = Session::new(rt.alloc());
    let mut texts: Vec<Vec<u8>> = Vec::new(rt.alloc());
    assert_same(rt, &applied(rt, &mut session, Command::New), &Ok(0));
    texts.push(Vec::new(rt.alloc())).expect(rt, "memory");
    for (s, text) in (0u32..).zip(given.iter()) {
        session.add_source(text.len() as u64).expect(rt, "a source");
        let opened = applied(rt, &mut session, Command::Open { s });
        assert_same(rt, &opened, &Ok(s.saturating_add(1)));
        texts
            .push(spliced(rt, text, 0, &[], 0))
            .expect(rt, "memory");
    }
    for _ in 0..up_to(seed, 40) {
        go_on(rt, seed, &mut session, &mut texts);
    }
    (session, texts)
}

/// Sources that hold these texts.
fn holding<'a, A: AllocGlobal + Abort>(rt: &A, given: &[&'a [u8]]) -> MemSources<'a> {
    let mut sources = MemSources::new(rt.alloc());
    for text in given {
        sources.add(text).expect(rt, "a source");
    }
    sources
}

#[test]
fn written_sessions_show_what_lists_give(rt: HostRuntime) {
    let mut seed = 7;
    let given = [b"source".as_slice(), b"", b"another source, a longer one"];
    for number in 0..600usize {
        let given = given.get(..number % 4).expect(&rt, "sources");
        let (session, texts) = random_session(&rt, &mut seed, given);
        let image = written(&rt, &session);
        assert_shown(&rt, &image, &mut holding(&rt, given), &texts);
        assert_same(&rt, &restated(&rt, &image), &image);
    }
}
