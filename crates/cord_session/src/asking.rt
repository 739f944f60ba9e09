//! What is asked of the texts of a session.

ghost use Rattle.std.specs.Prelude.{◌≡◌, IfSome};
ghost use Rattle.rope_node.specs.Denotes.{IsRope};
ghost use Rattle.node_table.specs.Held.{held_coded};
ghost use Rattle.edit_commands.specs.Session.{root_of, session_table};
ghost use Rattle.cord_types.specs.HeldTexts.{stated_as_held};
ghost use Rattle.cord_store.specs.Asked.{LocatesNamed, ReadsNamed, TellsLen};
ghost use Rattle.cord_session.specs.declared.codes.TheConstants.{NO_REVISION};

use crate::codes::NO_REVISION;
use cord_store::{locate_byte, read_bytes, tell_len};
use cord_types::{CordRun, CordSource};
use edit_commands::Session;
use rope_node::Rope;

/// The root of a revision, where there is one.
pub fn root_of(session: &Session, revision: u32) -> Option<Rope>
    ensures value { result ≡ root_of session.now revision }
    ensures rope { IfSome result (IsRope (session_table session.now)) }
{
    // The session keeps its rules, as its count says.
    let _count = session.count();
    session.root(revision)
}

/// How long the text of a revision is.
pub fn text_len(session: &Session, revision: u32, len: &mut u64) -> u32
    ensures { TellsLen (session_table session.now) (root_of session.now revision) NO_REVISION
        result len.old len.new }
{
    let root = root_of(session, revision);
    tell_len(session.space(), root, NO_REVISION, len)
}

/// Bytes of the text of a revision from a place on.
pub fn read_text(
    session: &Session,
    sources: &[CordSource],
    revision: u32,
    place: u64,
    out: &mut [u8],
    count: &mut usize,
) -> u32
    ensures { ReadsNamed (session_table session.now) (stated_as_held sources.now) (root_of session.now revision)
        NO_REVISION place out.old out.new count.new result }
{
    let root = root_of(session, revision);
    read_bytes(
        session.space(),
        sources,
        root,
        NO_REVISION,
        place,
        out,
        count,
    )
}

/// Where the byte at a place of the text of a revision stands.
pub fn locate_text(session: &Session, revision: u32, place: u64, run: &mut CordRun) -> u32
    ensures { LocatesNamed (session_table session.now) (held_coded session.now.held)
        (root_of session.now revision) NO_REVISION place run.old run.new result }
{
    let root = root_of(session, revision);
    locate_byte(session.space(), root, NO_REVISION, place, run)
}
