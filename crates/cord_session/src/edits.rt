//! The commands of a session, as they are recorded.

ghost use Rattle.std.specs.Prelude.{◌≡◌};
ghost use Rattle.edit_commands.specs.Session.{edit_of, mark_of};
ghost use Rattle.cord_session.specs.Asked.{AsksSession};
ghost use Rattle.cord_session.specs.Edits.{TellsEdit, balance_number, told_edit};

use crate::codes::NO_REVISION;
use crate::handle::CordSession;
use command_parts::Edit;
use cord_store::codes::{CLOSED, DONE};
use edit_commands::Session;
use std::alloc::Global;

/// The command of a revision: its code, and its numbers as an image records them; what it does not use is 0.
#[repr(C)]
#[derive(Clone, Copy, Debug, PartialEq, Eq, Drop)]
pub struct CordEdit {
    pub code: u32,
    /// The revision that it names first.
    pub r: u32,
    /// The other revision; the source of an open; how many changes there are.
    pub q: u32,
    /// 1 where the rope of its text is marked as balanced.
    pub balanced: u32,
    /// A place in the text of `r`.
    pub p: u64,
    /// How many bytes a replacement takes out.
    pub m: u64,
    /// The place of the bytes that come in or stay, in the pool or a text; the byte of a fill.
    pub a: u64,
    /// How many bytes come in, stay, or go out.
    pub n: u64,
}

/// 1 where a root is marked as balanced.
fn balance_number(mark: Option<bool>) -> u32
    ensures { result ≡ balance_number mark }
{
    match mark {
        Some(true) => 1,
        Some(false) | None => 0,
    }
}

/// A command as it is told.
fn told_edit(edit: Edit, mark: Option<bool>) -> CordEdit
    ensures { result ≡ told_edit edit mark }
{
    let recorded = edit.recorded();
    let numbers = recorded.numbers;
    CordEdit {
        code: u32::from(recorded.code),
        r: numbers.r,
        q: numbers.q,
        balanced: balance_number(mark),
        p: numbers.p,
        m: numbers.m,
        a: numbers.a,
        n: numbers.n,
    }
}

/// Tells the command of a revision.
fn tell_edit(session: &Session, revision: u32, edit: &mut CordEdit) -> u32
    ensures { TellsEdit session.now revision result edit.old edit.new }
{
    match session.edit(revision) {
        Some(found) => {
            *edit = told_edit(found, session.mark(revision));
            DONE
        }
        None => NO_REVISION,
    }
}

/// The command of a revision.
#[unsafe(no_mangle)]
pub extern "C" fn cord_session_edit(
    alloc: Global,
    session: &mut CordSession,
    revision: u32,
    edit: &mut CordEdit,
) -> u32
    ensures { AsksSession session.old.slot.value session.new.slot.value result (edit.new ≡ edit.old)
        (λ v. TellsEdit v revision result edit.old edit.new) }
{
    match session.take(alloc) {
        Some(kept) => {
            let outcome = tell_edit(&kept.session, revision, edit);
            *session = CordSession::of(kept);
            outcome
        }
        None => CLOSED,
    }
}
