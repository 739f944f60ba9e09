//! A file edited, or a saved session gone on with, by keys that are typed at a terminal.

ghost use Rattle.std.specs.Prelude.{◌≡◌};
ghost use Rattle.std.specs.Option.{option_map};
ghost use Rattle.key_journal.specs.Left.{keys_kept, keys_left};
ghost use Rattle.cord_tools.specs.EditingTyped.{EditsTyped, EditsTypedOnto};

use crate::edit::conclude;
use crate::edit_onto::begun_onto;
use crate::fault::ToolFault;
use crate::status::Status;
use key_journal::{Kept, Ready};
use lazy_file::Sources;
use screen_editor::Editor;
use std::alloc::Global;
use std::io;

/// Edits as `run_kept` does, but shows the states alone before which no key is there already, and the last one where no
/// key is left. The hint stands in the message's row before the first key, where none is played, and then how many bytes
/// in a row were no key.
///
/// # Errors
///
/// Those of `run_kept`.
pub fn run_typed<
    S: Sources + Drop,
    K: Ready + Drop,
    J: io::Write + Drop,
    W: io::Write,
    I: io::Write,
>(
    alloc: Global,
    sources: S,
    hint: Option<&str>,
    played: &[u8],
    keys: &mut Kept<K, J>,
    screen: &mut W,
    image: &mut I,
) -> Result<Status, ToolFault>
    ensures { EditsTyped S.reading sources (option_map (λ h. h.now) hint.entry) played.now
        (keys_left K.remaining keys.old) (keys_left K.remaining keys.new)
        (keys_kept J.contents keys.old) (keys_kept J.contents keys.new)
        (W.contents screen.old) (W.contents screen.new) (I.contents image.old) (I.contents image.new) result }
{
    let mut editor = Editor::new(alloc, sources)?;
    let end = editor.resume_typed(hint, played, keys, screen);
    conclude(&editor, end, image)
}

/// Goes on with a saved session as `run_kept_onto` does, and shows what `run_typed` does.
///
/// # Errors
///
/// Those of `run_kept_onto`.
pub fn run_typed_onto<
    S: Sources + Drop,
    K: Ready + Drop,
    J: io::Write + Drop,
    W: io::Write,
    I: io::Write,
>(
    alloc: Global,
    older: Vec<u8>,
    sources: S,
    hint: Option<&str>,
    played: &[u8],
    keys: &mut Kept<K, J>,
    screen: &mut W,
    image: &mut I,
) -> Result<Status, ToolFault>
    ensures { EditsTypedOnto S.reading sources older.items (option_map (λ h. h.now) hint.entry) played.now
        (keys_left K.remaining keys.old) (keys_left K.remaining keys.new)
        (keys_kept J.contents keys.old) (keys_kept J.contents keys.new)
        (W.contents screen.old) (W.contents screen.new) (I.contents image.old) (I.contents image.new) result }
{
    let mut sources = sources;
    let session = begun_onto(alloc, older, &mut sources)?;
    let mut editor = Editor::over(alloc, sources, session)?;
    let end = editor.resume_typed(hint, played, keys, screen);
    conclude(&editor, end, image)
}
