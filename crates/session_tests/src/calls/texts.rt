//! Sessions and accepted images, and the texts that they hold.

ghost use Rattle.std.specs.Prelude.{◌≡◌, ◌↔◌, IfSome, IsTrue};
ghost use Rattle.std.specs.List.{sum_by};
ghost use Rattle.edit_commands.specs.Refusals.{TakesAll};
ghost use Rattle.rope_node.specs.Denotes.{IsRope};

use super::{assert_same, assert_same_at};
use cord_search::put;
use edit_commands::{Change, Command, EditFault, Session};
use image_reader::Image;
use lazy_file::{MemSources, Sources};
use rope_node::{NodeSpace, Rope};
use session_checker::{CheckFault, check};
use session_image::{restate, write};
use std::alloc::AllocGlobal;
use std::process::Abort;

// What a call ensures is not needed to prove a test, so each stands in a function of its own that ensures nothing.

/// How many bytes changes take together.
fn taken(changes: &[Change]) -> Option<u64>
    ensures { IfSome result (λ n. n ≡ sum_by (λ c. c.n) changes.now) }
{
    match changes.split_first() {
        None => Some(0),
        Some((first, rest)) => first.n.checked_add(taken(rest)?),
    }
}

/// Whether the changes of a command, where it has such, take all of its bytes.
fn takes_all(command: &Command<'_>) -> bool
    ensures { IsTrue result → TakesAll command.now }
{
    match *command {
        Command::Many { changes, bytes, .. } => taken(changes) == Some(bytes.len() as u64),
        _ => true,
    }
}

/// What a session answers to a command.
pub(crate) fn applied<A: Abort>(
    rt: &A,
    session: &mut Session,
    command: Command<'_>,
) -> Result<u32, EditFault> {
    assert!(rt; takes_all(&command));
    session.apply(command)
}

/// The number of the revision that a command makes.
pub(crate) fn made<A: Abort>(rt: &A, session: &mut Session, command: Command<'_>) -> u32 {
    applied(rt, session, command).expect(rt, "a revision")
}

/// A session of an empty text and these bytes.
pub(crate) fn two_texts<A: AllocGlobal + Abort>(rt: &A, bytes: &[u8]) -> Session {
    let mut session = Session::new(rt.alloc());
    assert_same(rt, &made(rt, &mut session, Command::New), &0);
    let first = Command::Insert { r: 0, p: 0, bytes };
    assert_same(rt, &made(rt, &mut session, first), &1);
    session
}

/// Whether a rope is one of this table.
pub(crate) fn has<S: NodeSpace>(space: &S, rope: Rope) -> bool
    ensures { IsTrue result ↔ IsRope (S.table space.now) rope }
{
    match rope {
        None => true,
        Some(node) => node.0 < space.count(),
    }
}

/// The text of a rope.
fn text_of<A: AllocGlobal + Abort, S: NodeSpace, T: Sources>(
    rt: &A,
    space: &S,
    sources: &mut T,
    rope: Rope,
) -> Vec<u8> {
    assert!(rt; has(space, rope));
    let mut bytes: Vec<u8> = Vec::new(rt.alloc());
    put(rt.alloc(), space, sources, rope, &mut bytes).expect(rt, "a text");
    bytes
}

/// The text of revision `k` of a session without sources.
pub(crate) fn text<A: AllocGlobal + Abort>(rt: &A, session: &Session, k: u32) -> Vec<u8> {
    let mut none = MemSources::new(rt.alloc());
    let root = session.root(k).expect(rt, "a revision");
    text_of(rt, session.space(), &mut none, root)
}

/// The length and depth of revision `k` of a session.
pub(crate) fn size<A: Abort>(rt: &A, session: &Session, k: u32) -> (u64, u8) {
    let space = session.space();
    let root = session.root(k).expect(rt, "a revision");
    assert!(rt; space.has(root));
    (space.len(root), space.depth(root))
}

/// How many rows a session has.
pub(crate) fn row_count(session: &Session) -> usize {
    let mut rows = 0usize;
    for k in 0..session.count() {
        rows = rows.saturating_add(session.rows(k).map_or(0, |rows| rows.len()));
    }
    rows
}

/// The image of a session.
pub(crate) fn written<A: AllocGlobal + Abort>(rt: &A, session: &Session) -> Vec<u8> {
    let mut image: Vec<u8> = Vec::new(rt.alloc());
    write(session, &mut image).expect(rt, "an image");
    image
}

/// How many revisions and rows an accepted image has.
pub(crate) fn counts<S: Sources>(
    image: &[u8],
    sources: &mut S,
) -> Result<(u32, usize), CheckFault> {
    let checked = check(image, sources)?;
    Ok((checked.revisions(), checked.rows() as usize))
}

/// How many revisions and rows an accepted image without sources has.
pub(crate) fn counts_alone<A: AllocGlobal>(
    rt: &A,
    image: &[u8],
) -> Result<(u32, usize), CheckFault> {
    counts(image, &mut MemSources::new(rt.alloc()))
}

/// Fails the test where the texts of an image that is accepted are not these.
pub(crate) fn assert_shown<A: AllocGlobal + Abort, S: Sources>(
    rt: &A,
    image: &[u8],
    sources: &mut S,
    texts: &[Vec<u8>],
) {
    let checked = check(image, sources).expect(rt, "the image is accepted");
    assert_same(rt, &(checked.revisions() as usize), &texts.len());
    for (k, wanted) in (0u32..).zip(texts.iter()) {
        let root = checked.root(k).expect(rt, "a revision");
        let text = text_of(rt, &checked, sources, root);
        assert_same_at(rt, &text, wanted, &k);
    }
}

/// An image written anew.
pub(crate) fn restated<A: AllocGlobal + Abort>(rt: &A, image: &[u8]) -> Vec<u8> {
    let image = Image::read(image).expect(rt, "an image");
    let mut anew: Vec<u8> = Vec::new(rt.alloc());
    restate(&image, &mut anew).expect(rt, "an image");
    anew
}
