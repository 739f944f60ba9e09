//! A saved session gone on with on a screen, and saved again.

ghost use Rattle.std.specs.Prelude.{◌≡◌, IfErr, IfOk};
ghost use Rattle.key_journal.specs.Left.{keys_kept, keys_left};
ghost use Rattle.saved_session.specs.GoneFurther.{IsTakenUp};
ghost use Rattle.saved_session.specs.TakenUp.{WasChecked};
ghost use Rattle.cord_tools.specs.EditingOnto.{OpensOnto, EditsFileOnto, EditsKeptOnto, IsUntaken};

use crate::edit::conclude;
use crate::fault::ToolFault;
use crate::status::Status;
use edit_commands::Session;
use key_journal::Kept;
use lazy_file::Sources;
use saved_session::take_up;
use screen_editor::Editor;
use session_checker::{Checked, check_told};
use std::alloc::Global;
use std::io;
use work_progress::Untold;

/// The session of an image that was checked.
fn begun_over(alloc: Global, image: &Checked) -> Result<Session, ToolFault>
    requires { WasChecked image.now }
    ensures begun { IfOk result (IsTakenUp image.now) }
    ensures fault { IfErr result (IsUntaken image.now) }
{
    Ok(take_up(alloc, image)?)
}

/// The session of an image that is checked with these sources. The image's bytes are gone then.
pub(crate) fn begun_onto<S: Sources>(
    alloc: Global,
    older: Vec<u8>,
    sources: &mut S,
) -> Result<Session, ToolFault>
    ensures begins { OpensOnto (S.reading sources.old) (S.reading sources.new) older.items result }
    ensures stated { (S.reading sources.new).stated ≡ (S.reading sources.old).stated }
    ensures sizes { IfOk result (λ s. s.held.sources ≡ (S.reading sources.new).stated.sizes) }
{
    match check_told(&older, sources, None, &mut Untold) {
        Ok(checked) => begun_over(alloc, &checked),
        Err(fault) => Err(ToolFault::from(fault)),
    }
}

/// Goes on with the session of an image, which is checked with the sources, by any number of looks at
/// nodes, as `run_edit` goes on with the text of source 0: it begins at the first byte of the
/// session's last text. The bytes of the older image are given back before the first frame. Behind the
/// key Save it writes the image of the whole session, whose first revisions are the older image's.
///
/// # Errors
///
/// In this order: `Refused`, where the older image is not accepted, and `Read`, where a row compares a byte of a source
/// that could not be read; `TakeUp`, where no session goes on from it; `TextTooLong`, where some text of it has more
/// than 2,147,483,647 bytes, or where it has no revision and source 0 has; `Edit`, where it has no revision and refuses
/// its first; `Memory`: nothing was written then, and no key taken. Those of `run_edit` then.
pub fn run_edit_onto<S: Sources + Drop, K: io::Read, W: io::Write, I: io::Write>(
    alloc: Global,
    older: Vec<u8>,
    sources: S,
    keys: &mut K,
    screen: &mut W,
    image: &mut I,
) -> Result<Status, ToolFault>
    ensures { EditsFileOnto S.reading sources older.items (K.remaining keys.old) (K.remaining keys.new)
        (W.contents screen.old) (W.contents screen.new) (I.contents image.old) (I.contents image.new) result }
{
    let mut sources = sources;
    let session = begun_onto(alloc, older, &mut sources)?;
    let mut editor = Editor::over(alloc, sources, session)?;
    let end = editor.run(keys, screen);
    conclude(&editor, end, image)
}

/// Goes on as `run_edit_onto` does, but behind keys that are played first, and with keys that are kept: each is written
/// to the journal before it is taken, but for one that ends the run.
///
/// # Errors
///
/// Those of `run_edit_onto`, and `Write`, where a key could not be kept.
pub fn run_kept_onto<
    S: Sources + Drop,
    K: io::Read + Drop,
    J: io::Write + Drop,
    W: io::Write,
    I: io::Write,
>(
    alloc: Global,
    older: Vec<u8>,
    sources: S,
    played: &[u8],
    keys: &mut Kept<K, J>,
    screen: &mut W,
    image: &mut I,
) -> Result<Status, ToolFault>
    ensures { EditsKeptOnto S.reading sources older.items played.now
        (keys_left K.remaining keys.old) (keys_left K.remaining keys.new)
        (keys_kept J.contents keys.old) (keys_kept J.contents keys.new)
        (W.contents screen.old) (W.contents screen.new) (I.contents image.old) (I.contents image.new) result }
{
    let mut sources = sources;
    let session = begun_onto(alloc, older, &mut sources)?;
    let mut editor = Editor::over(alloc, sources, session)?;
    let end = editor.resume(played, keys, screen);
    conclude(&editor, end, image)
}
