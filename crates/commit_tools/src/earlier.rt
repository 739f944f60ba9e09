//! The texts of a session beside a file.

ghost use Rattle.std.specs.Prelude.{◌≡◌, ◌≤◌, length, IfOk};
ghost use Rattle.rope_node.specs.Denotes.{IsRope};
ghost use Rattle.edit_commands.specs.Session.{session_table};
ghost use Rattle.commit_tools.specs.Earlier.{FindsLatest};
ghost use Rattle.commit_tools.specs.Texts.{ReadsAsLong, revision_root};

use crate::stretches::{WINDOW, same_front};
use edit_commands::Session;
use lazy_file::{SourceFault, Sources};
use rope_node::{Rope, rope_len};

/// So many texts of a file's length are compared with it, where there are as many.
pub const TEXTS_COMPARED: usize = 8;

/// And then further ones, until so many times the file's bytes are compared, and so many bytes more.
const TIMES_COMPARED: u64 = 8;

const MORE_COMPARED: u64 = 1 << 20;

/// A text that is compared counts for so many bytes at least.
const LEAST_COMPARED: u64 = 1024;

/// The root of a revision, nil where there is none.
pub fn revision_root(session: &Session, r: u32) -> Rope
    ensures root { result ≡ revision_root session.now r }
    ensures rope { IsRope (session_table session.now) result }
{
    // The session keeps its rules, as its count says.
    let _made = session.count();
    match session.root(r) {
        Some(root) => root,
        None => None,
    }
}

/// How many bytes may be compared before no further text is.
fn room_for(file: &[u8]) -> u64 {
    (file.len() as u64)
        .saturating_mul(TIMES_COMPARED)
        .saturating_add(MORE_COMPARED)
}

/// What is left of them behind a text that has so many in common with the file.
fn room_behind(room: u64, file: &[u8], same: usize) -> u64 {
    let read = (same as u64).saturating_add(file.len().min(WINDOW) as u64);
    room.saturating_sub(read.max(LEAST_COMPARED))
}

/// The latest revision whose text is a file's, among those that are compared: texts of the file's length, the latest
/// first, until enough are.
pub fn latest_same<T: Sources>(
    session: &Session,
    sources: &mut T,
    file: &[u8],
) -> Result<Option<u32>, SourceFault>
    ensures latest { IfOk result (λ found. FindsLatest (T.reading sources.old).stated session.now file.now found) }
    ensures reads { ReadsAsLong session.now file.now (T.reading sources.old) (T.reading sources.new) result }
{
    let space = session.space();
    let mut r = session.count();
    let mut owed = TEXTS_COMPARED;
    let mut room = room_for(file);
    while r > 0 && (owed > 0 || room > 0) {
        r -= 1;
        let rope = revision_root(session, r);
        if rope_len(space, rope) != file.len() as u64 {
            continue;
        }
        let same = same_front(space, sources, rope, file)?;
        if same == file.len() {
            return Ok(Some(r));
        }
        owed = owed.saturating_sub(1);
        room = room_behind(room, file, same);
    }
    Ok(None)
}
