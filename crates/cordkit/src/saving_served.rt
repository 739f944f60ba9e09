//! A session that is served, saved: it goes on over its new image.

use crate::digests::SourceLines;
use crate::serving::{Served, Serving, image_at};
use cord_tools::ToolFault;
use image_files::{FileState, ImageFile, Put, open};
use key_journal::header_onto;
use lazy_file::Sources;
use session_files::{Front, Journal, Place, keep_over, put_behind};
use session_image::write;

/// An image that stands beside what took its place.
#[derive(Drop)]
pub struct Beside {
    pub image: String,
    /// What lines begin with that go on from it.
    pub front: Front,
    pub state: Option<FileState>,
}

/// What became of the image of a session that goes on.
#[derive(Drop)]
pub enum Saved {
    /// It is in its place, and the journal is begun anew over it.
    InPlace,
    /// Something else stands there. The journal stays till the session goes on over its image.
    Beside(Beside),
}

/// Puts an image that is whole in its place. The journal is set aside meanwhile, where its name leads to it.
fn put_image(journal: &Journal<'_>, image: &ImageFile<'_>) -> Result<Put, ToolFault> {
    if journal.is_named() {
        put_behind(journal, image)
    } else {
        image.put()
    }
}

/// Writes the image of a session, which is to take the place of the one that it goes on from, and puts it there, or
/// beside what stands there by now.
fn write_and_put<S: Sources + Drop>(
    served: &Served<'_, S>,
    image: &mut ImageFile<'_>,
) -> Result<Put, ToolFault> {
    let put = match write(&served.session, &mut *image) {
        Ok(()) => put_image(&served.journal, image),
        Err(_) => Err(image.cause(ToolFault::Write)),
    };
    if put.is_err() {
        image.drop_part();
    }
    put
}

/// What lines begin with that go on from the image that was written.
fn front_over<S: Sources>(
    rt: &HostRuntime,
    sources: &mut S,
    image: &ImageFile<'_>,
) -> Result<Front, ToolFault> {
    let bytes = image.read_back()?;
    let header = header_onto(sources, &bytes)?;
    Ok(Front::of_lines(rt.alloc(), &header)?)
}

/// Begins the journal anew over the image that was saved, and takes the older one away, which is set aside till then.
fn begin_anew<'a, S: Sources + Drop>(
    rt: &'a HostRuntime,
    words: Serving<'a>,
    place: Place<'a>,
    served: &mut Served<'a, S>,
    image: &ImageFile<'_>,
) -> Result<(), ToolFault> {
    let front = front_over(rt, &mut served.sources, image)?;
    if served.journal.is_named() {
        served.journal.set_aside()?;
    }
    let mut journal = Journal::anew_in_turn(rt, place.lines, &front, words.faults)?;
    journal.sync_told()?;
    journal.forget();
    served.journal.drop_aside();
    served.journal = journal;
    served.state = keep_over(rt, place, image.state());
    Ok(())
}

/// Saves a session, which goes on: whole or not at all. What was kept of it is in the image then.
///
/// # Errors
///
/// `Write`, where it cannot be saved: the image is as it was, and the journal keeps what it kept; or where no journal can
/// be begun behind it: the image has all that was kept. `Read` and `Memory`.
pub fn save<'a, S: Sources + Drop>(
    rt: &'a HostRuntime,
    words: Serving<'a>,
    place: Place<'a>,
    digests: &SourceLines,
    served: &mut Served<'a, S>,
) -> Result<Saved, ToolFault> {
    let mut image = image_at(rt, words, place)?;
    image.replace_still(served.state);
    if let Ok(older) = open(rt, place.image) {
        image.keep_whole(&older)?;
    }
    match write_and_put(served, &mut image)? {
        Put::Beside(name) => Ok(Saved::Beside(Beside {
            front: front_over(rt, &mut served.sources, &image)?,
            image: name,
            state: image.state(),
        })),
        Put::None | Put::InPlace | Put::Over(_) | Put::Before => {
            digests.keep_beside(rt, place.image);
            begin_anew(rt, words, place, served, &image)?;
            Ok(Saved::InPlace)
        }
    }
}
