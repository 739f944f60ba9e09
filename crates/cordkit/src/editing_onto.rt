//! The tool `edit` over a saved session.

ghost use Rattle.std.specs.Prelude.{◌≡◌, ◌<◌};

use crate::editing::{
    Editing, begin_again, beginning_of, begun_image, close, finish, keyed, refuse_image, sources_of,
};
use crate::opening::OpenedSources;
use cord_tools::{Status, ToolFault, read_image, run_edit_onto};
use image_files::{FileState, ImageFile, Put, STANDARD_INPUT, open, state_of, told_size};
use key_journal::header_onto;
use lazy_file::Sources;
use session_files::{Beginning, Front, Journal, LockedJournal, put_behind};
use std::fs::File;
use std::sync::ledger::{Blank, Ledger};

/// An image that is gone on from, as it was when it was opened, and its source.
#[derive(Drop)]
struct Older<L: Ledger> {
    file: File,
    state: Option<FileState>,
    bytes: Vec<u8>,
    sources: OpenedSources<L>,
}

/// Opens an image and then its source, and reads the image.
fn opened_older<L: Ledger>(
    rt: &HostRuntime,
    words: Editing<'_>,
    path: &str,
    blank: Blank,
) -> Result<Older<L>, ToolFault>
    requires name { blank.name ≡ L.name }
    requires parts { blank.parts ≡ L.parts }
    requires many { 2 < blank.parts }
{
    let file = open(rt, path)?;
    let state = state_of(&file);
    let expected = told_size(&file);
    let sources = sources_of::<L>(rt, words.file, blank)?;
    let bytes = read_image(rt.alloc(), &file, expected)?;
    Ok(Older {
        file,
        state,
        bytes,
        sources,
    })
}

/// The image of a session over an older one. Where a session begins that is to take the older one's place, that one has
/// to be there still, as it was when it was opened.
fn image_over<'a>(
    rt: &'a HostRuntime,
    words: Editing<'a>,
    journal: &Journal<'_>,
    begun: Option<Beginning>,
    older: &File,
    state: Option<FileState>,
) -> Result<ImageFile<'a>, ToolFault> {
    let mut image = begun_image(rt, words, journal, begun)?;
    image.keep_whole(older)?;
    match state {
        Some(state)
            if begun.is_none() && words.onto == Some(words.image) && !image.replaces(state) => {
            Err(ToolFault::OtherImage)
        }
        _ => Ok(image),
    }
}

/// What follows an edit whose keys are kept.
fn finish_kept(
    status: Result<Status, ToolFault>,
    journal: &Journal<'_>,
    image: &ImageFile<'_>,
) -> Result<Put, ToolFault> {
    let put = match status {
        Ok(_) => put_behind(journal, image),
        Err(fault) => Err(image.cause(fault)),
    };
    if put.is_err() {
        image.drop_part();
    }
    put
}

/// What becomes of a session whose image may not be replaced: where it is that of its keys, it was saved before.
fn saved_before<S: Sources + Drop>(
    rt: &HostRuntime,
    words: Editing<'_>,
    journal: &Journal<'_>,
    older: Vec<u8>,
    sources: S,
) -> Result<Put, ToolFault> {
    if !keyed(rt, words, journal).is_saved_onto(older, sources)? {
        return Err(ToolFault::ImageThere);
    }
    // It may have a second name.
    let _ = ImageFile::new(rt, words.image, words.faults)?.look();
    Ok(Put::Before)
}

/// Goes on with an image, and keeps the keys until they are saved. Their file is
/// locked before the image is opened: so no two sessions go on from one image.
fn edit_kept<L: Ledger>(
    rt: &HostRuntime,
    words: Editing<'_>,
    keys: &str,
    path: &str,
    blank: Blank,
) -> Result<Put, ToolFault>
    requires name { blank.name ≡ L.name }
    requires parts { blank.parts ≡ L.parts }
    requires many { 2 < blank.parts }
{
    let begun = beginning_of(rt, words)?;
    let locked = LockedJournal::open(rt, keys, begun.map(|b| b.keys), words.faults)?;
    let older = match opened_older::<L>(rt, words, path, blank) {
        Ok(older) => older,
        Err(fault) => {
            locked.drop_empty(rt, keys);
            return Err(fault);
        }
    };
    let Older {
        file,
        state,
        bytes,
        mut sources,
    } = older;
    let front = Front::of_keys(rt.alloc(), &header_onto(&mut sources, &bytes)?)?;
    let journal = Journal::onto(rt, keys, locked, &front, None, words.faults)?;
    let begun = journal.begun_with(begun);
    let put = match image_over(rt, words, &journal, begun, &file, state) {
        Ok(mut image) => {
            let status = keyed(rt, words, &journal).edit_onto(bytes, sources, &mut image);
            finish_kept(status, &journal, &image)
        }
        Err(ToolFault::ImageThere) => saved_before(rt, words, &journal, bytes, sources),
        Err(fault) => Err(fault),
    };
    match &put {
        // Whoever finds no keys finds an image that no session holds any more.
        Ok(Put::InPlace | Put::Over(_)) => {
            close(rt, words)?;
            journal.remove_saved()?;
        }
        Ok(Put::Before) => {
            close(rt, words)?;
            journal.remove()?;
        }
        _ if journal.only_looks() => {
            begin_again(rt, words);
            journal.remove()?;
        }
        _ => journal.sync(),
    }
    put
}

/// Goes on with an image, and keeps no keys.
fn edit_unkept<L: Ledger>(
    rt: &HostRuntime,
    words: Editing<'_>,
    path: &str,
    image: &mut ImageFile<'_>,
    blank: Blank,
) -> Result<Put, ToolFault>
    requires name { blank.name ≡ L.name }
    requires parts { blank.parts ≡ L.parts }
    requires many { 2 < blank.parts }
{
    refuse_image(words, image)?;
    let older = opened_older::<L>(rt, words, path, blank)?;
    image.keep_whole(&older.file)?;
    let status = run_edit_onto(
        rt.alloc(),
        older.bytes,
        older.sources,
        &mut words.faults.input(STANDARD_INPUT, rt.reader()),
        &mut words.faults.output(rt),
        image,
    );
    finish(status, image)
}

/// Goes on with the image at this path, over the file that it was
/// made over, and saves the session as the image of the words.
pub fn edit_onto<L: Ledger>(
    rt: &HostRuntime,
    words: Editing<'_>,
    path: &str,
    image: &mut ImageFile<'_>,
    blank: Blank,
) -> Result<Put, ToolFault>
    requires name { blank.name ≡ L.name }
    requires parts { blank.parts ≡ L.parts }
    requires many { 2 < blank.parts }
{
    match words.keys {
        Some(keys) => edit_kept::<L>(rt, words, keys, path, blank),
        None => edit_unkept::<L>(rt, words, path, image, blank),
    }
}
