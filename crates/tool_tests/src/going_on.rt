//! The editor over a session that was made before.

ghost use Rattle.std.specs.Prelude.{◌≡◌, []};
ghost use Rattle.edit_commands.specs.Refusals.{TakesAll};

use crate::same::assert_same;
use edit_commands::{Command, Session};
use lazy_file::{MemSources, Sources};
use screen_editor::{Editor, EditorFault, Step};
use std::alloc::AllocGlobal;
use std::process::Abort;

/// A revision more. No source is added by it.
fn make<A: Abort>(rt: &A, session: &mut Session, command: Command<'_>)
    requires { TakesAll command }
    ensures { session.new.held.sources ≡ session.old.held.sources }
{
    let made = session.apply(command);
    assert!(rt; made.is_ok());
}

/// The bytes put in at a place of a revision's text.
fn insert<A: Abort>(rt: &A, session: &mut Session, r: u32, p: u64, bytes: &[u8])
    ensures { session.new.held.sources ≡ session.old.held.sources }
{
    make(rt, session, Command::Insert { r, p, bytes });
}

/// An empty text, `abc` in it, and of that one text with `x` before it and one with `y` behind it.
fn two_of_one<R: AllocGlobal + Abort>(rt: &R) -> Session
    ensures { result.held.sources ≡ [] }
{
    let mut session = Session::new(rt.alloc());
    make(rt, &mut session, Command::New);
    insert(rt, &mut session, 0, 0, b"abc");
    insert(rt, &mut session, 1, 0, b"x");
    insert(rt, &mut session, 1, 3, b"y");
    session
}

/// An editor over a session of no source.
fn going_on<'a, R: AllocGlobal + Abort>(
    rt: &R,
    session: Session,
) -> Result<Editor<MemSources<'a>>, EditorFault>
    requires { session.held.sources ≡ [] }
{
    Editor::over(rt.alloc(), MemSources::new(rt.alloc()), session)
}

/// Asserts that the screen ends so.
fn assert_shown<S: Sources + Drop, A: Abort>(rt: &A, editor: &mut Editor<S>, end: &str) {
    let frame = editor.frame().expect(rt, "a frame");
    assert!(rt; frame.ends_with(end.as_bytes()), "{end}");
}

fn press<S: Sources + Drop, A: Abort>(rt: &A, editor: &mut Editor<S>, byte: u8) {
    assert_same(rt, &editor.key(byte), &Ok(Step::Going), &byte);
}

// Undo follows the commands: from the text with `y` to `abc`,
// from there to the empty one. The text with `x` is not met.
#[test]
fn undo_crosses_what_was_made_before(rt: HostRuntime) {
    let mut editor = going_on(&rt, two_of_one(&rt)).expect(&rt, "an editor");
    assert_shown(&rt, &mut editor, "rev 3 byte 0 of 4\x1b[1;1H");
    for end in [
        "rev 4 byte 0 of 3\x1b[1;1H",
        "rev 5 byte 0 of 0\x1b[1;1H",
        "rev 5 byte 0 of 0\x1b[1;1H",
    ] {
        press(&rt, &mut editor, 0x15);
        assert_shown(&rt, &mut editor, end);
    }
    assert_same(&rt, &editor.session().count(), &6, &());
}

#[test]
fn a_session_without_revisions_begins_with_its_first_source(rt: HostRuntime) {
    let mut editor = going_on(&rt, Session::new(rt.alloc())).expect(&rt, "an editor");
    assert_shown(&rt, &mut editor, "rev 0 byte 0 of 0\x1b[1;1H");
    let mut session = Session::new(rt.alloc());
    assert!(&rt; session.add_source(3).is_ok());
    let mut sources = MemSources::new(rt.alloc());
    assert!(&rt; sources.add(b"abc").is_ok());
    let mut editor = Editor::over(rt.alloc(), sources, session).expect(&rt, "an editor");
    assert_shown(&rt, &mut editor, "rev 0 byte 0 of 3\x1b[1;1H");
}
