//! A session that goes on from an image: it is taken up once more where that was refused memory.

ghost use Rattle.saved_session.specs.TakenUp.{WasChecked};

use crate::refusals::{Refusals, TRIES, assert_same};
use crate::sessions::{applied, assert_text, image_of, session_of};
use edit_commands::{Change, Command, Session};
use lazy_file::MemSources;
use saved_session::{TakeFault, take_up};
use session_checker::{Checked, check};
use std::alloc::AllocGlobal;
use std::process::Abort;

/// An image that is accepted.
fn accepted<'a, A: AllocGlobal + Abort>(rt: &A, image: &'a [u8]) -> Checked<'a>
    ensures { WasChecked result }
{
    match check(image, &mut MemSources::new(rt.alloc())) {
        Ok(checked) => checked,
        Err(fault) => panic!(rt; "{fault}"),
    }
}

/// The session of an accepted image.
fn taken<A: AllocGlobal + Abort>(rt: &A, image: &[u8], refusals: &mut Refusals) -> Session {
    let checked = accepted(rt, image);
    for _ in 0..TRIES {
        match take_up(rt.alloc(), &checked) {
            Err(TakeFault::Memory) => refusals.met(rt, &image.len(), &image.len()),
            answer => return answer.expect(rt, "a session"),
        }
    }
    panic!(rt; "refused each time")
}

/// Three revisions, the last of two changes, whose image is taken up, written again and gone on with.
pub(crate) fn taken_up<A: AllocGlobal + Abort>(rt: &A, refusals: &mut Refusals) {
    let change = |p, m, n| Change { p, m, n };
    let commands = [
        Command::New,
        Command::Insert {
            r: 0,
            p: 0,
            bytes: b"abcd",
        },
        Command::Many {
            r: 1,
            changes: &[change(1, 2, 1), change(4, 0, 1)],
            bytes: b"XY",
        },
    ];
    let session = session_of(rt, &commands, refusals);
    let image = image_of(rt, &session);
    let mut again = taken(rt, image.taken(), refusals);
    let written = image_of(rt, &again);
    assert_same(rt, &written.taken(), &image.taken(), &"the image");
    let joined = Command::Join { r: 2, q: 1 };
    let made = applied(rt, &mut again, joined, refusals);
    assert_same(rt, &made, &Ok(3), &joined);
    for (k, text) in [(1, b"abcd".as_slice()), (2, b"aXdY"), (3, b"aXdYabcd")] {
        assert_text(rt, &again, k, text);
    }
}
