//! The session that an editor begins with.

ghost use Rattle.std.specs.Prelude.{◌≡◌, ◌↔◌, ◌≤◌, ◌<◌, ℕ, IsTrue, IfErr, IfOk, OnOk, IsErrOf, [], get_or, length, nat_lt};
ghost use Rattle.edit_commands.specs.Session.{length_at};
ghost use Rattle.edit_commands.specs.Applying.{AppliesOrNot};
ghost use Rattle.screen_editor.specs.declared.workspace.TheConstants.{LONGEST_TEXT};
ghost use Rattle.screen_editor.specs.Opening.{GoesOnFrom, HasLongText, HoldsOnly, IsFirstSession, IsOpenFault, IsTooLongToOpen};
ghost use Rattle.screen_editor.specs.Refusals.{IsNewFault, IsTooLong, first_command};

use crate::fault::EditorFault;
use crate::workspace::LONGEST_TEXT;
use command_parts::Roots;
use edit_commands::{Command, EditFault, Session};
use lazy_file::Sources;
use rope_node::{NodeSpace, rope_len};
use std::alloc::Global;

/// Whether source 0 has too many bytes.
fn is_too_long<R: Sources>(sources: &R) -> bool
    ensures { IsTrue result ↔ IsTooLong (R.reading sources.now).stated }
{
    sources.count() > 0 && sources.len(0) > LONGEST_TEXT
}

/// Adds every source, by its size.
fn add_sources<R: Sources>(session: &mut Session, sources: &R) -> Result<(), EditFault>
    requires none { HoldsOnly [] session.old }
    ensures added { OnOk result (HoldsOnly (R.reading sources.now).stated.sizes session.new) }
    ensures fault { IfErr result (λ f. f ≡ EditFault.Memory) }
{
    for s in 0..sources.count() {
        session.add_source(sources.len(s))?;
    }
    Ok(())
}

/// Opens source 0, or makes an empty text where there is no source.
fn open_first(session: &mut Session, is_there: bool) -> Result<u32, EditFault>
    requires there { is_there ≡ nat_lt 0 (length session.old.held.sources) }
    ensures { AppliesOrNot session.old (first_command session.old.held.sources) result session.new }
{
    if is_there {
        return session.apply(Command::Open { s: 0 });
    }
    session.apply(Command::New)
}

/// Whether some text of a session is too long.
#[tactic(auto, using(crate::proofs::CurrentTexts::session_root_is_rope))]
fn has_long_text(session: &Session) -> bool
    ensures { IsTrue result ↔ HasLongText session.now }
{
    for k in 0..session.count() {
        if rope_len(session.space(), Roots::root(session, k)) > LONGEST_TEXT {
            return true;
        }
    }
    false
}

/// Whether the first source of a session is too long.
fn has_long_source(session: &Session) -> bool
    ensures { IsTrue result ↔ LONGEST_TEXT < get_or session.now.held.sources 0 0 }
{
    let space = session.space();
    space.source_count() > 0 && space.source_len(0) > LONGEST_TEXT
}

/// The session that is gone on with: where it has no revision, with the text of source 0, or an empty one where there
/// is no source.
pub(crate) fn opened_session(session: Session) -> Result<Session, EditorFault>
    ensures begins { IfOk result (GoesOnFrom session) }
    ensures some { IfOk result (λ v. 1 ≤ length v.revisions) }
    ensures short { IfOk result (λ v. (k : ℕ) → k < length v.revisions → length_at v k ≤ LONGEST_TEXT) }
    ensures sources { IfOk result (λ v. v.held.sources ≡ session.held.sources) }
    ensures too_long { IsErrOf result EditorFault.TooLong ↔ IsTooLongToOpen session }
    ensures fault { IfErr result (IsOpenFault session) }
{
    let mut session = session;
    if session.count() > 0 {
        if has_long_text(&session) {
            return Err(EditorFault::TooLong);
        }
        return Ok(session);
    }
    if has_long_source(&session) {
        return Err(EditorFault::TooLong);
    }
    let is_there = session.space().source_count() > 0;
    open_first(&mut session, is_there)?;
    // The session keeps its rules, as its count says.
    let _one = session.count();
    Ok(session)
}

/// A session of the sources, whose one revision is the text of source 0, or an empty one where there is no source.
pub(crate) fn first_session<R: Sources>(alloc: Global, sources: &R) -> Result<Session, EditorFault>
    ensures first { IfOk result (IsFirstSession (R.reading sources.now).stated.sizes) }
    ensures too_long { IsErrOf result EditorFault.TooLong ↔ IsTooLong (R.reading sources.now).stated }
    ensures fault { IfErr result (IsNewFault (R.reading sources.now).stated) }
{
    if is_too_long(sources) {
        return Err(EditorFault::TooLong);
    }
    let mut session = Session::new(alloc);
    add_sources(&mut session, sources)?;
    open_first(&mut session, sources.count() > 0)?;
    // The session keeps its rules, as its count says.
    let _one = session.count();
    Ok(session)
}
