//! An image that goes on to the text of a file.

ghost use Rattle.std.specs.Prelude.{Ok};
ghost use Rattle.saved_session.specs.TakenUp.{WasChecked};
ghost use Rattle.commit_tools.specs.Commits.{BeginsCommit, BeginsBehind, CommitsAnew, CommitsOnto};

use crate::answer::Commit;
use crate::fault::CommitFault;
use crate::texts::commit_text;
use edit_commands::Session;
use lazy_file::{MemSources, Sources};
use saved_session::take_up;
use session_checker::{Checked, check_told};
use session_image::write;
use std::alloc::Global;
use std::io;
use work_progress::Progress;

/// The session of an image that was checked.
fn begun_over(alloc: Global, image: &Checked) -> Result<Session, CommitFault>
    requires { WasChecked image.now }
    ensures { BeginsCommit (Ok image.now) result }
{
    match take_up(alloc, image) {
        Ok(session) => Ok(session),
        Err(fault) => Err(CommitFault::TakeUp(fault)),
    }
}

/// The session of an image that is checked with these sources. The image's bytes are gone then.
fn begun_onto<S: Sources, P: Progress>(
    alloc: Global,
    image: Vec<u8>,
    sources: &mut S,
    at_most: Option<u64>,
    progress: &mut P,
) -> Result<Session, CommitFault>
    ensures { BeginsBehind at_most (S.reading sources.old) (S.reading sources.new) image.items result }
{
    match check_told(&image, sources, at_most, progress) {
        Ok(checked) => begun_over(alloc, &checked),
        Err(fault) => Err(CommitFault::Check(fault)),
    }
}

/// Makes a file's text the last one of an image, once that is checked with these sources, within `at_most` looks at
/// nodes, if there is a limit: where it is another, writes the image of a session that goes on to it, in version 2. It
/// tells on the way how many of the image's records are checked. The image's bytes are given back before the last text
/// is compared; of that only what stands between the lines that it has in common with the file at both ends is held.
///
/// # Errors
///
/// In this order: `Check`, with the fault of an image that is not accepted; `TakeUp`, where no session goes on from it;
/// `Read`, where a byte of the last text could not be read; `Edit`, where a limit of the session is met; and `Memory`:
/// nothing was written then. `Write`, where the writer failed or took no byte: a prefix of the image was written.
pub fn run_commit<S: Sources, W: io::Write, P: Progress>(
    alloc: Global,
    image: Vec<u8>,
    sources: &mut S,
    at_most: Option<u64>,
    file: &[u8],
    writer: &mut W,
    progress: &mut P,
) -> Result<Commit, CommitFault>
    ensures { CommitsOnto at_most (S.reading sources.old) (S.reading sources.new) image.items file.now
        (W.contents writer.old) (W.contents writer.new) result }
{
    let mut session = begun_onto(alloc, image, sources, at_most, &mut *progress)?;
    let commit = commit_text(alloc, &mut session, sources, file)?;
    // The session keeps its rules, as its count says.
    let _made = session.count();
    progress.end();
    match commit {
        Commit::Same(_) => Ok(commit),
        Commit::Added(_) => match write(&session, writer) {
            Ok(()) => Ok(commit),
            Err(_) => Err(CommitFault::Write),
        },
    }
}

/// Writes the image of a new session without sources whose last text is a file's.
///
/// # Errors
///
/// `Edit`, where a limit of the session is met, and `Memory`: nothing was written then. `Write`, where the writer
/// failed or took no byte: a prefix of the image was written.
pub fn run_commit_anew<W: io::Write>(
    alloc: Global,
    file: &[u8],
    writer: &mut W,
) -> Result<Commit, CommitFault>
    ensures { CommitsAnew file.now (W.contents writer.old) (W.contents writer.new) result }
{
    let mut session = Session::new(alloc);
    let commit = commit_text(alloc, &mut session, &mut MemSources::new(alloc), file)?;
    // The session keeps its rules, as its count says.
    let _made = session.count();
    match write(&session, writer) {
        Ok(()) => Ok(commit),
        Err(_) => Err(CommitFault::Write),
    }
}
