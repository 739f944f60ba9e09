//! The tool `restore`.

ghost use Rattle.std.specs.Prelude.{◌≡◌, ◌*◌, ◌<◌, length};

use crate::committing::{Committing, answer, begin, commit_begun};
use crate::digests::SourceLines;
use crate::last_commit::keep_restored;
use crate::meter::Meter;
use crate::opening::{OpenedImage, opened_with_sources};
use crate::text_file::{Part, TextFile};
use cord_tools::{Status, ToolFault, run_show_wanted};
use image_files::Faults;
use lazy_file::Sources;
use session_checker::WantedRevision;
use std::fs;
use std::sync::ledger::{Blank, Ledger};

/// Which revision of an image a file gets the text of.
#[derive(Clone, Copy)]
pub struct Restoring<'a> {
    pub at_most: Option<u64>,
    pub image: &'a str,
    pub revision: WantedRevision,
    pub file: &'a str,
    pub sources: &'a [&'a str],
    pub faults: &'a Faults,
}

/// Refuses the file beside an image that is to be the next one.
fn refuse_part(rt: &HostRuntime, image: &str, file: &TextFile) -> Result<(), ToolFault> {
    let whole = fs::canonicalize(rt, image);
    let path = match &whole {
        Ok(whole) => whole.as_str(),
        Err(_) => image,
    };
    let part = format!(in rt.alloc(); "{path}.new")?;
    if file.is_called(rt, &part) {
        return Err(ToolFault::OwnFile);
    }
    Ok(())
}

/// Commits what the file holds, and tells that.
fn commit_first<'a, S: Sources>(
    rt: &'a HostRuntime,
    words: Restoring<'a>,
    sources: &mut S,
    meter: &mut Meter<'_>,
) -> Result<Status, ToolFault> {
    let words = Committing {
        at_most: words.at_most,
        image: words.image,
        file: words.file,
        sources: words.sources,
        restored: Some(words.revision),
        faults: words.faults,
    };
    let begun = begin(rt, words)?;
    let lines = SourceLines::over_told(rt, words.image, words.sources)?;
    let line = commit_begun(rt, words, begun, sources, &lines, meter)?;
    answer(rt, words, line)
}

/// Writes the text of the revision beside the file, commits what the file holds, where there
/// is one, and puts the text in its place.
fn write_and_put<'a, L: Ledger>(
    rt: &'a HostRuntime,
    words: Restoring<'a>,
    file: &TextFile,
    part: &mut Part<'_>,
    image: OpenedImage<L>,
    meter: &mut Meter<'_>,
) -> Result<(), ToolFault> {
    let mut image = image;
    run_show_wanted(
        rt.alloc(),
        image.file,
        image.expected,
        &mut image.sources,
        image.at_most,
        words.revision,
        &mut *part,
    )?;
    if file.is_there() {
        commit_first(rt, words, &mut image.sources, meter)?;
    }
    file.replace(rt, part)?;
    if !file.is_there() && words.revision == WantedRevision::Last {
        keep_restored(rt, words.image, words.file);
    }
    Ok(())
}

/// Gives a file the text of a revision of an image, once what it holds is committed. Each refusal leaves it as it was.
pub fn restore<L: Ledger>(
    rt: &HostRuntime,
    words: Restoring<'_>,
    meter: &mut Meter<'_>,
    blank: Blank,
) -> Result<Status, ToolFault>
    requires name { blank.name ≡ L.name }
    requires parts { blank.parts ≡ L.parts }
    requires many { 2 * length words.sources.now < blank.parts }
{
    let mut file = TextFile::find(rt, words.file, words.faults)?;
    let image = opened_with_sources::<L>(rt, words.at_most, words.image, words.sources, blank)?;
    refuse_part(rt, words.image, &file)?;
    file.has_text_of(rt, words.image);
    let mut part = file.part(rt, words.faults)?;
    let put = write_and_put(rt, words, &file, &mut part, image, meter);
    if put.is_err() {
        part.take_away(rt);
    }
    put?;
    Ok(Status::Success)
}
