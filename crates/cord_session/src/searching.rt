//! The functions for C that seek in texts of sessions, and compare them.

ghost use Rattle.std.specs.Prelude.{◌≡◌};
ghost use Rattle.edit_commands.specs.Session.{root_of, session_table};
ghost use Rattle.cord_types.specs.HeldTexts.{stated_as_held};
ghost use Rattle.cord_store.specs.Asked.{ComparesNamed, FindsByteNamed, FindsLastNamed, FindsNamed};
ghost use Rattle.cord_session.specs.declared.codes.TheConstants.{NO_REVISION};
ghost use Rattle.cord_session.specs.Asked.{AsksSession};

use crate::asking::root_of;
use crate::codes::NO_REVISION;
use crate::handle::CordSession;
use cord_store::codes::CLOSED;
use cord_store::{compare_ropes, find_byte, find_last_byte, find_pattern};
use cord_types::CordSource;
use edit_commands::Session;
use std::alloc::Global;

/// The first place of a pattern in the text of a revision from a place on; of none the largest number.
fn find_in(
    alloc: Global,
    session: &Session,
    sources: &[CordSource],
    revision: u32,
    from: u64,
    pattern: &[u8],
    place: &mut u64,
) -> u32
    ensures { FindsNamed (session_table session.now) (stated_as_held sources.now) (root_of session.now revision)
        NO_REVISION pattern.now from result place.old place.new }
{
    let root = root_of(session, revision);
    find_pattern(
        alloc,
        session.space(),
        sources,
        root,
        NO_REVISION,
        from,
        pattern,
        place,
    )
}

/// The first place of a pattern in the text of a revision from a place on; of none the largest number.
#[unsafe(no_mangle)]
pub extern "C" fn cord_session_find(
    alloc: Global,
    session: &mut CordSession,
    sources: &[CordSource],
    revision: u32,
    from: u64,
    pattern: &[u8],
    place: &mut u64,
) -> u32
    ensures { AsksSession session.old.slot.value session.new.slot.value result (place.new ≡ place.old)
        (λ v. FindsNamed (session_table v) (stated_as_held sources.now) (root_of v revision) NO_REVISION pattern.now
        from result place.old place.new) }
{
    match session.take(alloc) {
        Some(kept) => {
            let outcome = find_in(
                alloc,
                &kept.session,
                sources,
                revision,
                from,
                pattern,
                place,
            );
            *session = CordSession::of(kept);
            outcome
        }
        None => CLOSED,
    }
}

/// The first place of a byte in the text of a revision from a place on; of none the largest number.
fn find_byte_in(
    alloc: Global,
    session: &Session,
    sources: &[CordSource],
    revision: u32,
    from: u64,
    byte: u8,
    place: &mut u64,
) -> u32
    ensures { FindsByteNamed (session_table session.now) (stated_as_held sources.now) (root_of session.now revision)
        NO_REVISION byte from result place.old place.new }
{
    let root = root_of(session, revision);
    find_byte(
        alloc,
        session.space(),
        sources,
        root,
        NO_REVISION,
        from,
        byte,
        place,
    )
}

/// The first place of a byte in the text of a revision from a place on; of none the largest number.
#[unsafe(no_mangle)]
pub extern "C" fn cord_session_chr(
    alloc: Global,
    session: &mut CordSession,
    sources: &[CordSource],
    revision: u32,
    from: u64,
    byte: u8,
    place: &mut u64,
) -> u32
    ensures { AsksSession session.old.slot.value session.new.slot.value result (place.new ≡ place.old)
        (λ v. FindsByteNamed (session_table v) (stated_as_held sources.now) (root_of v revision) NO_REVISION byte from
        result place.old place.new) }
{
    match session.take(alloc) {
        Some(kept) => {
            let outcome = find_byte_in(alloc, &kept.session, sources, revision, from, byte, place);
            *session = CordSession::of(kept);
            outcome
        }
        None => CLOSED,
    }
}

/// The last place of a byte in the text of a revision at a place or earlier; of none the largest number.
fn find_last_in(
    alloc: Global,
    session: &Session,
    sources: &[CordSource],
    revision: u32,
    from: u64,
    byte: u8,
    place: &mut u64,
) -> u32
    ensures { FindsLastNamed (session_table session.now) (stated_as_held sources.now) (root_of session.now revision)
        NO_REVISION byte from result place.old place.new }
{
    let root = root_of(session, revision);
    find_last_byte(
        alloc,
        session.space(),
        sources,
        root,
        NO_REVISION,
        from,
        byte,
        place,
    )
}

/// The last place of a byte in the text of a revision at a place or earlier; of none the largest number.
#[unsafe(no_mangle)]
pub extern "C" fn cord_session_rchr(
    alloc: Global,
    session: &mut CordSession,
    sources: &[CordSource],
    revision: u32,
    from: u64,
    byte: u8,
    place: &mut u64,
) -> u32
    ensures { AsksSession session.old.slot.value session.new.slot.value result (place.new ≡ place.old)
        (λ v. FindsLastNamed (session_table v) (stated_as_held sources.now) (root_of v revision) NO_REVISION byte from
        result place.old place.new) }
{
    match session.take(alloc) {
        Some(kept) => {
            let outcome = find_last_in(alloc, &kept.session, sources, revision, from, byte, place);
            *session = CordSession::of(kept);
            outcome
        }
        None => CLOSED,
    }
}

/// The order of `n` bytes of one text from `i` on and of another from `j` on: 0 less, 1 equal, 2 greater.
fn compare_in(
    alloc: Global,
    session: &Session,
    sources: &[CordSource],
    r: u32,
    i: u64,
    q: u32,
    j: u64,
    n: u64,
    order: &mut u32,
) -> u32
    ensures { ComparesNamed (session_table session.now) (stated_as_held sources.now) (root_of session.now r)
        (root_of session.now q) NO_REVISION i j n result order.old order.new }
{
    let left = root_of(session, r);
    let right = root_of(session, q);
    compare_ropes(
        alloc,
        session.space(),
        sources,
        left,
        i,
        right,
        j,
        n,
        NO_REVISION,
        order,
    )
}

/// The order of `n` bytes of one text from `i` on and of another from `j` on: 0 less, 1 equal, 2 greater.
#[unsafe(no_mangle)]
pub extern "C" fn cord_session_compare(
    alloc: Global,
    session: &mut CordSession,
    sources: &[CordSource],
    r: u32,
    i: u64,
    q: u32,
    j: u64,
    n: u64,
    order: &mut u32,
) -> u32
    ensures { AsksSession session.old.slot.value session.new.slot.value result (order.new ≡ order.old)
        (λ v. ComparesNamed (session_table v) (stated_as_held sources.now) (root_of v r) (root_of v q) NO_REVISION i j n
        result order.old order.new) }
{
    match session.take(alloc) {
        Some(kept) => {
            let outcome = compare_in(alloc, &kept.session, sources, r, i, q, j, n, order);
            *session = CordSession::of(kept);
            outcome
        }
        None => CLOSED,
    }
}
