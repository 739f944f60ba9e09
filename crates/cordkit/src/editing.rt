//! The tool `edit`.

ghost use Rattle.std.specs.Prelude.{◌≡◌, ◌<◌};

use crate::answer::{Answer, Note};
use crate::digests::{SourceLines, is_large};
use crate::editing_onto::edit_onto;
use crate::keys_played::Keyed;
use crate::opening::{OpenedSources, opened_sources};
use cord_tools::{Status, ToolFault, run_edit};
use image_files::{Faults, FileState, ImageFile, Put, STANDARD_INPUT};
use lazy_file::Sources;
use session_files::{Beginning, Journal, read_beginning, refuse_lines, write_beginning};
use std::fs;
use std::fs::File;
use std::io::ErrorKind;
use std::sync::ledger::{Blank, Ledger};

/// What `edit` is asked for.
#[derive(Clone, Copy)]
pub struct Editing<'a> {
    pub onto: Option<&'a str>,
    pub keys: Option<&'a str>,
    pub session: Option<&'a str>,
    pub no_clobber: bool,
    pub replace: bool,
    pub image: &'a str,
    pub file: Option<&'a str>,
    pub faults: &'a Faults,
}

/// The session, behind the keys that its journal has.
pub(crate) fn keyed<'a>(
    rt: &'a HostRuntime,
    words: Editing<'a>,
    journal: &'a Journal<'a>,
) -> Keyed<'a> {
    Keyed {
        rt,
        faults: words.faults,
        name: words.image,
        journal,
    }
}

/// What follows an edit: an image that is whole is put in its place.
pub(crate) fn finish(
    status: Result<Status, ToolFault>,
    image: &ImageFile<'_>,
) -> Result<Put, ToolFault> {
    let put = match status {
        Ok(_) => image.put(),
        Err(fault) => Err(image.cause(fault)),
    };
    if put.is_err() {
        image.drop_part();
    }
    put
}

/// The image of the words. Where it does not go on with what it takes the place of, it is open to nobody to whom its file is
/// not, or the image that it goes on from. What it takes the place of is kept, where the words do not say that it may go.
fn image_of<'a>(rt: &'a HostRuntime, words: Editing<'a>) -> Result<ImageFile<'a>, ToolFault> {
    let mut image = ImageFile::new(rt, words.image, words.faults)?;
    if words.onto != Some(words.image) {
        for path in [words.file, words.onto].into_iter().flatten() {
            image.begins_with(path);
        }
    }
    if !words.replace {
        image.keep_old();
    }
    Ok(image)
}

/// Whether an image is there that is not to be replaced.
pub(crate) fn refuse_image(words: Editing<'_>, image: &ImageFile<'_>) -> Result<(), ToolFault> {
    if words.no_clobber && image.is_there() {
        Err(ToolFault::ImageThere)
    } else {
        Ok(())
    }
}

/// Looks at what is there when a session begins, and keeps it in the session's file, for when it goes on.
fn begin(
    rt: &HostRuntime,
    words: Editing<'_>,
    journal: &Journal<'_>,
    image: &ImageFile<'_>,
) -> Result<Option<FileState>, ToolFault> {
    refuse_image(words, image)?;
    let there = image.look();
    if let Some(session) = words.session {
        let beginning = Beginning {
            keys: journal.birth()?,
            image: there,
        };
        write_beginning(rt, session, &beginning, words.faults)?;
    }
    Ok(there)
}

/// The image of a session that has the lock of its keys: it takes the place of what was there when the session began.
pub(crate) fn begun_image<'a>(
    rt: &'a HostRuntime,
    words: Editing<'a>,
    journal: &Journal<'_>,
    begun: Option<Beginning>,
) -> Result<ImageFile<'a>, ToolFault> {
    refuse_lines(rt, words.image, words.faults)?;
    let mut image = image_of(rt, words)?;
    let there = match begun {
        Some(beginning) => beginning.image,
        None => begin(rt, words, journal, &image)?,
    };
    image.replace_only(there);
    Ok(image)
}

/// What a session began with that goes on.
pub(crate) fn beginning_of(
    rt: &HostRuntime,
    words: Editing<'_>,
) -> Result<Option<Beginning>, ToolFault> {
    match words.session {
        Some(session) => read_beginning(rt, session, words.faults),
        None => Ok(None),
    }
}

/// Takes away the file of a session, which was saved.
pub(crate) fn close(rt: &HostRuntime, words: Editing<'_>) -> Result<(), ToolFault> {
    let Some(session) = words.session else {
        return Ok(());
    };
    match fs::remove_file(rt, session) {
        Err(error) if error.kind() != ErrorKind::NotFound => {
            Err(words.faults.unwritten(session, error))
        }
        _ => Ok(()),
    }
}

/// Has a session that took no key begin again, where it goes on: its keys are about to be taken away.
pub(crate) fn begin_again(rt: &HostRuntime, words: Editing<'_>) {
    if let Some(session) = words.session {
        let mut options = File::options();
        // One that stays finds that its keys are gone.
        let _ = options.write(true).truncate(true).open(rt, session);
    }
}

/// What becomes of a session whose image may not be replaced: where it is that of its keys, it was saved before.
fn saved_before<S: Sources + Drop>(
    rt: &HostRuntime,
    words: Editing<'_>,
    journal: &Journal<'_>,
    sources: S,
) -> Result<Put, ToolFault> {
    if !keyed(rt, words, journal).is_saved(sources)? {
        return Err(ToolFault::ImageThere);
    }
    // It may have a second name.
    let _ = ImageFile::new(rt, words.image, words.faults)?.look();
    Ok(Put::Before)
}

/// Edits, and keeps the keys until they are saved.
fn edit_kept<S: Sources + Drop>(
    rt: &HostRuntime,
    words: Editing<'_>,
    keys: &str,
    sources: S,
) -> Result<Put, ToolFault> {
    let mut sources = sources;
    let begun = beginning_of(rt, words)?;
    let journal = Journal::open(rt, keys, begun.map(|b| b.keys), &mut sources, words.faults)?;
    let put = match begun_image(rt, words, &journal, begun) {
        Ok(mut image) => {
            let status = keyed(rt, words, &journal).edit(sources, &mut image);
            finish(status, &image)
        }
        Err(ToolFault::ImageThere) => saved_before(rt, words, &journal, sources),
        Err(fault) => Err(fault),
    };
    match &put {
        Ok(Put::InPlace | Put::Over(_) | Put::Before) => {
            close(rt, words)?;
            journal.remove()?;
        }
        _ if journal.only_looks() => {
            begin_again(rt, words);
            journal.remove()?;
        }
        _ => journal.sync(),
    }
    put
}

/// Edits, and keeps no keys.
fn edit_unkept<S: Sources + Drop>(
    rt: &HostRuntime,
    words: Editing<'_>,
    sources: S,
    image: &mut ImageFile<'_>,
) -> Result<Put, ToolFault> {
    let status = run_edit(
        rt.alloc(),
        sources,
        &mut words.faults.input(STANDARD_INPUT, rt.reader()),
        &mut words.faults.output(rt),
        image,
    );
    finish(status, image)
}

/// Edits a file, or an empty text, by its words, and saves the session.
fn edit_file<L: Ledger>(
    rt: &HostRuntime,
    words: Editing<'_>,
    image: &mut ImageFile<'_>,
    blank: Blank,
) -> Result<Put, ToolFault>
    requires name { blank.name ≡ L.name }
    requires parts { blank.parts ≡ L.parts }
    requires many { 2 < blank.parts }
{
    let sources = sources_of::<L>(rt, words.file, blank)?;
    match words.keys {
        Some(keys) => edit_kept(rt, words, keys, sources),
        None => {
            refuse_image(words, image)?;
            edit_unkept(rt, words, sources, image)
        }
    }
}

/// The file as source 0, or no source.
pub(crate) fn sources_of<L: Ledger>(
    rt: &HostRuntime,
    file: Option<&str>,
    blank: Blank,
) -> Result<OpenedSources<L>, ToolFault>
    requires name { blank.name ≡ L.name }
    requires parts { blank.parts ≡ L.parts }
    requires many { 2 < blank.parts }
{
    match file {
        Some(file) => opened_sources::<L>(rt, &[file], blank),
        None => opened_sources::<L>(rt, &[], blank),
    }
}

/// What is to stand beside the image of the file of a session. A new session that keeps no keys reads no more of a large
/// file than it shows.
fn lines_of(rt: &HostRuntime, words: Editing<'_>) -> Result<SourceLines, ToolFault> {
    let Some(file) = words.file else {
        return SourceLines::over(rt, None, &[]);
    };
    if words.keys.is_none() && words.onto.is_none() && is_large(rt, file) {
        return SourceLines::of_unread(rt);
    }
    SourceLines::over(rt, words.onto, &[file])
}

/// Edits a file, or an empty text, or goes on with an image, and saves the
/// session. The image is looked at before, and opened when it is saved.
pub fn edit<L: Ledger, W>(
    rt: &HostRuntime,
    words: Editing<'_>,
    answer: &mut Answer<'_, W>,
    blank: Blank,
) -> Result<Status, ToolFault>
    requires name { blank.name ≡ L.name }
    requires parts { blank.parts ≡ L.parts }
    requires many { 2 < blank.parts }
{
    let mut image = image_of(rt, words)?;
    refuse_lines(rt, words.image, words.faults)?;
    let lines = lines_of(rt, words)?;
    let put = match words.onto {
        Some(older) => edit_onto::<L>(rt, words, older, &mut image, blank)?,
        None => edit_file::<L>(rt, words, &mut image, blank)?,
    };
    match put {
        Put::Beside(name) => {
            lines.keep_beside(rt, &name);
            answer.set_note(Note::OtherName(name));
            Err(ToolFault::OtherImage)
        }
        Put::Before => {
            lines.keep_beside(rt, image.path());
            let name = String::from_str(rt.alloc(), words.image)?;
            answer.set_note(Note::SavedBefore(name));
            Ok(Status::Success)
        }
        Put::Over(name) => {
            lines.keep_beside(rt, image.path());
            answer.set_note(Note::Kept(name));
            Ok(Status::Success)
        }
        Put::InPlace => {
            lines.keep_beside(rt, image.path());
            Ok(Status::Success)
        }
        Put::None => Ok(Status::Success),
    }
}
