//! Where the bytes of a session's texts come from, as numbers.

ghost use Rattle.std.specs.Prelude.{◌≡◌};
ghost use Rattle.cord_session.specs.Asked.{AsksSession};
ghost use Rattle.cord_session.specs.Origins.{TracesNamed, TracesPlace};

use crate::codes::NO_REVISION;
use crate::handle::CordSession;
use cord_store::codes::{CLOSED, DONE, RANGE};
use cord_types::CordOrigin;
use edit_commands::Session;
use session_origins::origin;
use std::alloc::Global;

/// Where the byte at a place of the text of a revision comes from, where the text has the place.
fn trace_place(session: &Session, revision: u32, place: u64, run: &mut CordOrigin) -> u32
    ensures { TracesPlace session.now revision place run.old run.new result }
{
    match origin(session, revision, place) {
        Some(found) => {
            *run = CordOrigin::of(found);
            DONE
        }
        None => RANGE,
    }
}

/// The same, where there is such a revision.
fn trace_text(session: &Session, revision: u32, place: u64, run: &mut CordOrigin) -> u32
    ensures { TracesNamed session.now revision place run.old run.new result }
{
    match session.root(revision) {
        Some(_) => trace_place(session, revision, place, run),
        None => NO_REVISION,
    }
}

/// Where the byte at a place of the text of a revision comes from, and how
/// many bytes of the text from it on came in together with it.
#[unsafe(no_mangle)]
pub extern "C" fn cord_session_origin(
    alloc: Global,
    session: &mut CordSession,
    revision: u32,
    place: u64,
    run: &mut CordOrigin,
) -> u32
    ensures { AsksSession session.old.slot.value session.new.slot.value result (run.new ≡ run.old)
        (λ v. TracesNamed v revision place run.old run.new result) }
{
    match session.take(alloc) {
        Some(kept) => {
            let outcome = trace_text(&kept.session, revision, place, run);
            *session = CordSession::of(kept);
            outcome
        }
        None => CLOSED,
    }
}
