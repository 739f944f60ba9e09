//! The functions for C on sessions.

ghost use Rattle.std.specs.Prelude.{◌≡◌, ◌≢◌, [], None, Some};
ghost use Rattle.node_table.specs.Held.{held_coded};
ghost use Rattle.edit_commands.specs.Refusals.{TakesAll};
ghost use Rattle.edit_commands.specs.Session.{new_session, root_of, session_table};
ghost use Rattle.cord_types.specs.HeldTexts.{stated_as_held};
ghost use Rattle.cord_store.specs.declared.codes.TheConstants.{DONE, MEMORY};
ghost use Rattle.cord_store.specs.Asked.{LocatesNamed, ReadsNamed, TellsLen};
ghost use Rattle.cord_session.specs.declared.codes.TheConstants.{NO_REVISION};
ghost use Rattle.cord_session.specs.Sessions.{session_of};
ghost use Rattle.cord_session.specs.Applied.{TakesSource, AddsTold, AppliesNamed, AppliesTold};
ghost use Rattle.cord_session.specs.Asked.{AsksSession, sizes_of};

use crate::asking::{locate_text, read_text, text_len};
use crate::commands::{CordCommand, edit_number, told};
use crate::handle::CordSession;
use crate::images::hold;
use cord_store::codes::{CLOSED, DONE, MEMORY, NO_COMMAND};
use cord_types::{CordRun, CordSource};
use edit_commands::{Command, Session};
use rope_node::NodeSpace;
use std::alloc::Global;

/// How large a session is.
#[repr(C)]
#[derive(Clone, Copy, Debug, PartialEq, Eq, Drop)]
pub struct CordSizes {
    pub revisions: u32,
    pub nodes: u32,
    pub sources: u32,
    /// It is 0.
    pub unused: u32,
    /// How long its pool is.
    pub pool: u64,
}

/// Begins a session without sources and revisions. One that was there is ended.
#[unsafe(no_mangle)]
pub extern "C" fn cord_session_begin(alloc: Global, session: &mut CordSession) -> u32
    ensures done { result ≡ DONE → session_of session.new.slot.value ≡ Some (new_session []) }
    ensures refused { result ≢ DONE → (result ≡ MEMORY) × (session.new.slot.value ≡ session.old.slot.value) }
{
    hold(alloc, session, Session::new(alloc))
}

/// Ends a session, where there is one.
#[unsafe(no_mangle)]
pub extern "C" fn cord_session_end(alloc: Global, session: &mut CordSession)
    ensures { session.new.slot.value ≡ None }
{
    *session = CordSession::none(alloc);
}

/// Adds a source, and tells its number.
fn add(session: &mut Session, len: u64, source: &mut u32) -> u32
    ensures { AddsTold session.old session.new len result source.old source.new }
{
    match session.add_source(len) {
        Ok(number) => {
            *source = u32::from(number);
            DONE
        }
        Err(fault) => edit_number(fault),
    }
}

/// Adds a source of so many bytes, and tells its number.
#[unsafe(no_mangle)]
pub extern "C" fn cord_session_add_source(
    alloc: Global,
    session: &mut CordSession,
    len: u64,
    source: &mut u32,
) -> u32
    ensures { TakesSource (session_of session.old.slot.value) (session_of session.new.slot.value)
        len result source.old source.new }
{
    match session.take(alloc) {
        Some(mut kept) => {
            let outcome = add(&mut kept.session, len, source);
            *session = CordSession::of(kept);
            outcome
        }
        None => CLOSED,
    }
}

/// Makes the revision that a command gives, and tells its number.
fn apply(session: &mut Session, command: Command<'_>, revision: &mut u32) -> u32
    requires { TakesAll command }
    ensures { AppliesTold session.old session.new command.entry result revision.old revision.new }
{
    match session.apply(command) {
        Ok(k) => {
            *revision = k;
            DONE
        }
        Err(fault) => edit_number(fault),
    }
}

/// Makes the revision that a command gives, and tells its number.
#[unsafe(no_mangle)]
pub extern "C" fn cord_session_apply(
    alloc: Global,
    session: &mut CordSession,
    command: &CordCommand,
    revision: &mut u32,
) -> u32
    ensures { AppliesNamed (session_of session.old.slot.value) (session_of session.new.slot.value)
        command.now result revision.old revision.new }
{
    match session.take(alloc) {
        Some(mut kept) => {
            let outcome = match told(command) {
                Some(command) => apply(&mut kept.session, command, revision),
                None => NO_COMMAND,
            };
            *session = CordSession::of(kept);
            outcome
        }
        None => CLOSED,
    }
}

/// How large a session is.
fn sizes_of(session: &Session) -> CordSizes
    ensures { result ≡ sizes_of session.now }
{
    let space = session.space();
    CordSizes {
        revisions: session.count(),
        nodes: space.count(),
        sources: space.source_count(),
        unused: 0,
        pool: space.pool_len(),
    }
}

/// How large a session is.
#[unsafe(no_mangle)]
pub extern "C" fn cord_session_sizes(
    alloc: Global,
    session: &mut CordSession,
    sizes: &mut CordSizes,
) -> u32
    ensures { AsksSession session.old.slot.value session.new.slot.value result (sizes.new ≡ sizes.old)
        (λ v. (result ≡ DONE) × (sizes.new ≡ sizes_of v)) }
{
    match session.take(alloc) {
        Some(kept) => {
            *sizes = sizes_of(&kept.session);
            *session = CordSession::of(kept);
            DONE
        }
        None => CLOSED,
    }
}

/// How long the text of a revision is.
#[unsafe(no_mangle)]
pub extern "C" fn cord_session_len(
    alloc: Global,
    session: &mut CordSession,
    revision: u32,
    len: &mut u64,
) -> u32
    ensures { AsksSession session.old.slot.value session.new.slot.value result (len.new ≡ len.old)
        (λ v. TellsLen (session_table v) (root_of v revision) NO_REVISION result len.old len.new) }
{
    match session.take(alloc) {
        Some(kept) => {
            let outcome = text_len(&kept.session, revision, len);
            *session = CordSession::of(kept);
            outcome
        }
        None => CLOSED,
    }
}

/// Bytes of the text of a revision from a place on, as many as `out` takes, up to the end of the run there.
#[unsafe(no_mangle)]
pub extern "C" fn cord_session_read(
    alloc: Global,
    session: &mut CordSession,
    sources: &[CordSource],
    revision: u32,
    place: u64,
    out: &mut [u8],
    count: &mut usize,
) -> u32
    ensures { AsksSession session.old.slot.value session.new.slot.value result ((count.new ≡ 0) × (out.new ≡ out.old))
        (λ v. ReadsNamed (session_table v) (stated_as_held sources.now) (root_of v revision) NO_REVISION place
        out.old out.new count.new result) }
{
    match session.take(alloc) {
        Some(kept) => {
            let outcome = read_text(&kept.session, sources, revision, place, out, count);
            *session = CordSession::of(kept);
            outcome
        }
        None => {
            *count = 0;
            CLOSED
        }
    }
}

/// Where the byte at a place of the text of a revision stands, and how many bytes follow it there.
#[unsafe(no_mangle)]
pub extern "C" fn cord_session_locate(
    alloc: Global,
    session: &mut CordSession,
    revision: u32,
    place: u64,
    run: &mut CordRun,
) -> u32
    ensures { AsksSession session.old.slot.value session.new.slot.value result (run.new ≡ run.old)
        (λ v. LocatesNamed (session_table v) (held_coded v.held) (root_of v revision) NO_REVISION place
        run.old run.new result) }
{
    match session.take(alloc) {
        Some(kept) => {
            let outcome = locate_text(&kept.session, revision, place, run);
            *session = CordSession::of(kept);
            outcome
        }
        None => CLOSED,
    }
}
