//! The text of a file as the next state of a session.

ghost use Rattle.std.specs.Prelude.{◌≡◌, ◌↔◌, ◌+◌, ◌-◌, ◌<◌, ◌≤◌, [], length, take, drop, IfOk, IfErr, OnOk, IsTrue};
ghost use Rattle.rope_node.specs.Denotes.{IsRope, rope_len};
ghost use Rattle.cord_search.specs.Stated.{OfText};
ghost use Rattle.commit_tools.specs.Commits.{CommitsText};
ghost use Rattle.commit_tools.specs.Earlier.{FindsNone};
ghost use Rattle.commit_tools.specs.Found.{FrontsEndBefore, IsBeside, text_before, text_from};
ghost use Rattle.commit_tools.specs.Put.{BeginsEmpty, GoesBack, GoesOnToText};
ghost use Rattle.commit_tools.specs.Texts.{IsReadingFault, ReadsRope, ReadsRopeOr, ReadsTexts};

use crate::answer::Commit;
use crate::batches::{make, put_changes};
use crate::earlier::{latest_same, revision_root};
use crate::fault::CommitFault;
use crate::found::{Ends, Found};
use crate::stretches::{read_part, same_back, same_front};
use edit_commands::{Command, Session};
use lazy_file::{SourceFault, Sources};
use line_changes::{changes, whole_back, whole_front};
use rope_node::{NodeSpace, Rope, rope_len};
use std::alloc::Global;

/// The `count` bytes of a rope's text from a place on.
fn middle_of<S: NodeSpace, T: Sources>(
    alloc: Global,
    space: &S,
    sources: &mut T,
    rope: Rope,
    from: u64,
    count: usize,
) -> Result<Vec<u8>, CommitFault>
    requires rope { IsRope (S.table space.now) rope }
    requires inside { from + count ≤ rope_len (S.table space.now) rope }
    ensures length { IfOk result (λ middle. length middle.items ≡ count) }
    ensures bytes { IfOk result (λ middle. OfText (S.table space.now) (T.reading sources.old).stated rope
        (λ u. middle.items ≡ take count (drop from u))) }
    ensures fault { IfErr result IsReadingFault }
    ensures reads { ReadsRopeOr (S.table space.now) rope (T.reading sources.old) (T.reading sources.new) result }
{
    let mut middle = match vec![in alloc; 0; count] {
        Ok(middle) => middle,
        Err(_) => return Err(CommitFault::Memory),
    };
    match read_part(space, sources, rope, from, &mut middle) {
        Ok(()) => Ok(middle),
        Err(fault) => Err(CommitFault::Read(fault)),
    }
}

/// What a rope's text and a file have in common at both ends, in whole lines.
fn ends_of<S: NodeSpace, T: Sources>(
    space: &S,
    sources: &mut T,
    rope: Rope,
    file: &[u8],
) -> Result<Ends, SourceFault>
    requires rope { IsRope (S.table space.now) rope }
    ensures inside { IfOk result (λ ends. ends.front + ends.back ≤ rope_len (S.table space.now) rope) }
    ensures within { IfOk result (λ ends. ends.front + ends.back ≤ length file.now) }
    ensures front { IfOk result (λ ends. OfText (S.table space.now) (T.reading sources.old).stated rope
        (λ u. take ends.front u ≡ take ends.front file.now)) }
    ensures back { IfOk result (λ ends. OfText (S.table space.now) (T.reading sources.old).stated rope
        (λ u. drop (rope_len (S.table space.now) rope - ends.back) u ≡ drop (length file.now - ends.back) file.now)) }
    ensures apart { IfOk result (λ ends. OfText (S.table space.now) (T.reading sources.old).stated rope
        (λ u. FrontsEndBefore (rope_len (S.table space.now) rope) u file.now ends.back)) }
    ensures reads { ReadsRope (S.table space.now) rope (T.reading sources.old) (T.reading sources.new) result }
{
    let front = same_front(space, sources, rope, file)?;
    let front = whole_front(file, front);
    let left = rope_len(space, rope) - front as u64;
    let most = left.min((file.len() - front) as u64) as usize;
    let back = same_back(space, sources, rope, file, most)?;
    Ok(Ends {
        front,
        back: whole_back(file, back),
    })
}

/// What turns a rope's text into a file's.
fn found_beside<S: NodeSpace, T: Sources>(
    alloc: Global,
    space: &S,
    sources: &mut T,
    rope: Rope,
    file: &[u8],
) -> Result<Found, CommitFault>
    requires { IsRope (S.table space.now) rope }
    ensures found { IfOk result (λ found. IsBeside found file.now) }
    ensures text { IfOk result (λ found. OfText (S.table space.now) (T.reading sources.old).stated rope
        (λ u. u ≡ text_from found file.now (length found.changes.items))) }
    ensures len { IfOk result (λ found. rope_len (S.table space.now) rope ≡ length (text_before found file.now)) }
    ensures apart { IfOk result (λ found. OfText (S.table space.now) (T.reading sources.old).stated rope
        (λ u. FrontsEndBefore (rope_len (S.table space.now) rope) u file.now (length file.now - found.end))) }
    ensures fault { IfErr result IsReadingFault }
    ensures reads { ReadsRopeOr (S.table space.now) rope (T.reading sources.old) (T.reading sources.new) result }
{
    let Ends { front, back } = match ends_of(space, sources, rope, file) {
        Ok(ends) => ends,
        Err(fault) => return Err(CommitFault::Read(fault)),
    };
    let count = (rope_len(space, rope) - front as u64 - back as u64) as usize;
    let middle = middle_of(alloc, space, sources, rope, front as u64, count)?;
    let end = file.len() - back;
    match changes(alloc, &middle, &file[front..end]) {
        Ok(changes) => Ok(Found {
            front,
            end,
            middle,
            changes,
        }),
        Err(_) => Err(CommitFault::Memory),
    }
}

/// Whether there is nothing to change.
fn is_same(found: &Found) -> bool
    ensures { IsTrue result ↔ (found.now.changes.items ≡ []) }
{
    found.changes.is_empty()
}

/// Goes on with a session by the changes that turn its last text into a file's. Answers whether there are any.
fn commit_changes<T: Sources>(
    alloc: Global,
    session: &mut Session,
    sources: &mut T,
    file: &[u8],
) -> Result<bool, CommitFault>
    requires some { 1 ≤ length session.old.revisions }
    requires none { FindsNone (T.reading sources.old).stated session.old file.now }
    ensures text { GoesOnToText (T.reading sources.old).stated session.old file.now result session.new }
    ensures some { OnOk result (1 ≤ length session.new.revisions) }
    ensures reads { ReadsTexts session.old file.now (T.reading sources.old) (T.reading sources.new) result }
{
    let rope = revision_root(session, session.count() - 1);
    let found = found_beside(alloc, session.space(), sources, rope, file)?;
    if is_same(&found) {
        return Ok(false);
    }
    put_changes(alloc, session, &found, file)?;
    Ok(true)
}

/// Goes back with a session to the text of revision `r`, the latest one that is a file's, where that is not the last.
/// Answers whether it is another.
fn go_back(session: &mut Session, r: u32) -> Result<bool, CommitFault>
    requires { r < length session.old.revisions }
    ensures text { GoesBack session.old r result session.new }
    ensures some { OnOk result (1 ≤ length session.new.revisions) }
{
    if r == session.count() - 1 {
        return Ok(false);
    }
    make(session, Command::Back { r })?;
    Ok(true)
}

/// Goes on with a session to a file's text, where its last text is another. Answers whether it is.
fn commit_behind<T: Sources>(
    alloc: Global,
    session: &mut Session,
    sources: &mut T,
    file: &[u8],
) -> Result<bool, CommitFault>
    requires { 1 ≤ length session.old.revisions }
    ensures text { GoesOnToText (T.reading sources.old).stated session.old file.now result session.new }
    ensures some { OnOk result (1 ≤ length session.new.revisions) }
    ensures reads { ReadsTexts session.old file.now (T.reading sources.old) (T.reading sources.new) result }
{
    let latest = match latest_same(session, sources, file) {
        Ok(latest) => latest,
        Err(fault) => return Err(CommitFault::Read(fault)),
    };
    match latest {
        Some(r) => go_back(session, r),
        None => commit_changes(alloc, session, sources, file),
    }
}

/// Begins a session without revisions with an empty text.
fn begin(session: &mut Session) -> Result<(), CommitFault>
    requires { session.old.revisions ≡ [] }
    ensures { BeginsEmpty session.old result session.new }
{
    make(session, Command::New)
}

/// Makes a file's text the last one of a session: where it is that already, nothing changes.
pub fn commit_text<T: Sources>(
    alloc: Global,
    session: &mut Session,
    sources: &mut T,
    file: &[u8],
) -> Result<Commit, CommitFault>
    ensures text { CommitsText (T.reading sources.old).stated session.old file.now result session.new }
    ensures reads { ReadsTexts session.old file.now (T.reading sources.old) (T.reading sources.new) result }
{
    if session.count() == 0 {
        begin(session)?;
        commit_behind(alloc, session, sources, file)?;
        return Ok(Commit::Added(session.count() - 1));
    }
    let added = commit_behind(alloc, session, sources, file)?;
    let last = session.count() - 1;
    if added {
        Ok(Commit::Added(last))
    } else {
        Ok(Commit::Same(last))
    }
}
