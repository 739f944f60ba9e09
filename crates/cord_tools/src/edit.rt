//! A file edited on a screen, and its session saved.

ghost use Rattle.std.specs.Prelude.{◌≡◌, ◌↔◌, IfErr, IsOk};
ghost use Rattle.key_journal.specs.Left.{keys_kept, keys_left};
ghost use Rattle.image_reader.specs.declared.fault.ReadFault.TheVariants.{Magic};
ghost use Rattle.session_checker.specs.declared.fault.CheckFault.TheVariants as CheckFault;
ghost use Rattle.cord_tools.specs.declared.fault.ToolFault.TheVariants.{Refused};
ghost use Rattle.cord_tools.specs.Editing.{Concludes, EditsFile, EditsKept, MayReplace, SavesImage};

use crate::fault::ToolFault;
use crate::status::Status;
use image_reader::{MAGIC, ReadFault};
use key_journal::Kept;
use lazy_file::Sources;
use screen_editor::{Editor, End, RunFault};
use session_checker::CheckFault;
use session_image::write;
use std::alloc::Global;
use std::io;

/// Writes the image of an editor's session.
fn save<S: Sources + Drop, I: io::Write>(
    editor: &Editor<S>,
    image: &mut I,
) -> Result<Status, ToolFault>
    ensures { SavesImage (S.reading editor.now.sources).stated.sizes editor.now.editing
        (I.contents image.old) (I.contents image.new) result }
{
    write(editor.session(), image)?;
    Ok(Status::Success)
}

/// What follows the end of an editor's run: behind the key Save, the image of its session is written.
pub(crate) fn conclude<S: Sources + Drop, I: io::Write>(
    editor: &Editor<S>,
    end: Result<End, RunFault>,
    image: &mut I,
) -> Result<Status, ToolFault>
    ensures { Concludes (S.reading editor.now.sources).stated.sizes end editor.now.editing
        (I.contents image.old) (I.contents image.new) result }
{
    match end? {
        End::Save => save(editor, image),
        End::Leave => Ok(Status::Success),
    }
}

/// Edits the text of source 0, or an empty one where there is no source: writes a frame to the screen, takes a key, and
/// so on, to the key Save or Leave or the last key. Behind Save alone, it writes the image of the session.
///
/// # Errors
///
/// `TextTooLong`, where source 0 has more than 2,147,483,647 bytes, `Edit`, where the session has
/// no room for the first revision, and `Memory`: nothing was written then. `Read`, where the keys
/// could not be read, or a byte that a frame shows. `TooManyKeys`, and `Memory`: all frames before
/// were written then, and no image. `Write`, where the screen failed or took no byte: a prefix of
/// the frames was written, and no image; or where the image did: a prefix of it was written.
pub fn run_edit<S: Sources + Drop, K: io::Read, W: io::Write, I: io::Write>(
    alloc: Global,
    sources: S,
    keys: &mut K,
    screen: &mut W,
    image: &mut I,
) -> Result<Status, ToolFault>
    ensures { EditsFile S.reading sources (K.remaining keys.old) (K.remaining keys.new)
        (W.contents screen.old) (W.contents screen.new) (I.contents image.old) (I.contents image.new) result }
{
    let mut editor = Editor::new(alloc, sources)?;
    let end = editor.run(keys, screen);
    conclude(&editor, end, image)
}

/// Edits as `run_edit` does, but behind keys that are played first, and with keys that are kept: each is written to the
/// journal before it is taken, but for one that ends the run.
///
/// # Errors
///
/// Those of `run_edit`, and `Write`, where a key could not be kept.
pub fn run_kept<
    S: Sources + Drop,
    K: io::Read + Drop,
    J: io::Write + Drop,
    W: io::Write,
    I: io::Write,
>(
    alloc: Global,
    sources: S,
    played: &[u8],
    keys: &mut Kept<K, J>,
    screen: &mut W,
    image: &mut I,
) -> Result<Status, ToolFault>
    ensures { EditsKept S.reading sources played.now
        (keys_left K.remaining keys.old) (keys_left K.remaining keys.new)
        (keys_kept J.contents keys.old) (keys_kept J.contents keys.new)
        (W.contents screen.old) (W.contents screen.new) (I.contents image.old) (I.contents image.new) result }
{
    let mut editor = Editor::new(alloc, sources)?;
    let end = editor.resume(played, keys, screen);
    conclude(&editor, end, image)
}

/// Whether the file of an image may be replaced, of which these
/// are the first bytes: it is empty, or begins as an image does.
///
/// # Errors
///
/// `Refused`, by the fault of an image that does not begin so.
pub fn may_replace(front: &[u8]) -> Result<(), ToolFault>
    ensures ok { IsOk result ↔ MayReplace front.now }
    ensures fault { IfErr result (λ f. f ≡ Refused (CheckFault.Read Magic)) }
{
    if front.is_empty() {
        return Ok(());
    }
    match front.strip_prefix(&MAGIC.to_be_bytes()) {
        Some(_) => Ok(()),
        None => Err(ToolFault::Refused(CheckFault::Read(ReadFault::Magic))),
    }
}
