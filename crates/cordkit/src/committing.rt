//! The tool `commit`.

ghost use Rattle.std.specs.Prelude.{◌≡◌, ◌*◌, ◌<◌, length};

use crate::digests::SourceLines;
use crate::last_commit::{is_committed_from, keep_committed, tell_other};
use crate::meter::Meter;
use crate::opening::opened_sources;
use commit_tools::{Commit, CommitFault, run_commit, run_commit_anew};
use cord_tools::{Status, ToolFault, read_image, read_source};
use edit_commands::EditFault;
use image_files::{Faults, FileState, ImageFile, is_named, open, state_behind, told_size};
use image_reader::Image;
use lazy_file::Sources;
use leaf_buffer::POOL_LIMIT;
use node_table::NodeFault;
use session_checker::WantedRevision;
use session_files::refuse_lines;
use std::fs;
use std::io::{self, ErrorKind, Write};
use std::sync::ledger::{Blank, Ledger};
use work_progress::Progress;

/// A file that changes while it is read is read so many times.
const TRIES: usize = 3;

/// A commit that finds another one's image begins anew so many times at most.
const BEGINNINGS: usize = 1000;

/// What is committed, and behind what.
#[derive(Clone, Copy)]
pub struct Committing<'a> {
    pub at_most: Option<u64>,
    pub image: &'a str,
    pub file: &'a str,
    pub sources: &'a [&'a str],
    /// The revision whose text the file gets next, where it gets one.
    pub restored: Option<WantedRevision>,
    pub faults: &'a Faults,
}

impl Committing<'_> {
    /// Whether the file gets the text of this revision, the last one that was there.
    fn brings_back(self, revision: u32) -> bool {
        match self.restored {
            Some(WantedRevision::Number(number)) => number == u64::from(revision),
            Some(WantedRevision::Last) => true,
            None => false,
        }
    }
}

/// How it is told why there is no new image.
fn told_fault(fault: CommitFault) -> ToolFault {
    match fault {
        CommitFault::Check(fault) => ToolFault::from(fault),
        CommitFault::TakeUp(fault) => ToolFault::from(fault),
        CommitFault::Read(fault) => ToolFault::from(fault),
        CommitFault::Edit(fault) => ToolFault::from(fault),
        CommitFault::Memory => ToolFault::Memory,
        CommitFault::Write => ToolFault::Write,
    }
}

/// Refuses a file that is the image, the file beside it that is to be the image, or a source of its session.
fn refuse_own(
    rt: &HostRuntime,
    words: Committing<'_>,
    image: &ImageFile<'_>,
) -> Result<(), ToolFault> {
    let file = open(rt, words.file)?;
    if image.has(&file) {
        return Err(ToolFault::OwnFile);
    }
    for source in words.sources {
        if is_named(rt, source, &file) {
            return Err(ToolFault::OwnFile);
        }
    }
    Ok(())
}

/// Refuses an image beside which keys of a session are kept.
fn refuse_keys(rt: &HostRuntime, image: &str, faults: &Faults) -> Result<(), ToolFault> {
    let keys = format!(in rt.alloc(); "{image}.keys")?;
    match fs::metadata(rt, keys.as_str()) {
        Ok(metadata) if metadata.len() > 0 => Err(ToolFault::KeysInUse),
        Ok(_) => Ok(()),
        Err(error) if error.kind() == ErrorKind::NotFound => Ok(()),
        // What cannot even be looked at lies in the image's folder.
        Err(error) => Err(faults.unread(image, error)),
    }
}

/// The bytes of a file, and what stood under its name before they were read.
fn read_once(
    rt: &HostRuntime,
    path: &str,
    faults: &Faults,
) -> Result<(Vec<u8>, Option<FileState>), ToolFault> {
    let too_long = Err(ToolFault::Edit(EditFault::Node(NodeFault::PoolFull)));
    let state = state_behind(rt, path);
    let file = open(rt, path)?;
    // What a session's pool does not take is not read.
    if told_size(&file) >= POOL_LIMIT {
        return too_long;
    }
    let bytes = read_source(rt.alloc(), faults.input(path, file))?;
    if bytes.len() as u64 >= POOL_LIMIT {
        return too_long;
    }
    Ok((bytes, state))
}

/// The bytes that a file has, as far as its size and its times tell: read anew where these changed meanwhile.
fn read_file(rt: &HostRuntime, path: &str, faults: &Faults) -> Result<Vec<u8>, ToolFault> {
    for _ in 0..TRIES {
        let (bytes, state) = read_once(rt, path, faults)?;
        if state_behind(rt, path) == state {
            return Ok(bytes);
        }
    }
    Err(faults.unread(
        path,
        io::Error::other("it changed each time that it was read"),
    ))
}

/// What a commit begins from: the image, what the file holds, and whether there is an image to go on from.
#[derive(Drop)]
pub(crate) struct Begun<'a> {
    image: ImageFile<'a>,
    text: Vec<u8>,
    is_new: bool,
    /// So many bytes has the image that is there.
    size: u64,
    /// Its last revision, where that was not committed from the file.
    other: Option<u32>,
}

/// Looks at the image, and reads the file.
pub(crate) fn begin<'a>(
    rt: &'a HostRuntime,
    words: Committing<'a>,
) -> Result<Begun<'a>, ToolFault> {
    let mut image = ImageFile::new(rt, words.image, words.faults)?;
    image.has_text_of(words.file);
    image.give_way();
    refuse_own(rt, words, &image)?;
    refuse_keys(rt, words.image, words.faults)?;
    refuse_lines(rt, words.image, words.faults)?;
    // What this look tells is what is replaced: a later one may fail.
    let there = image.look();
    image.replace_only(there);
    let text = read_file(rt, words.file, words.faults)?;
    Ok(Begun {
        image,
        text,
        is_new: there.is_none_or(|state| state.size == 0),
        size: there.map_or(0, |state| state.size),
        other: None,
    })
}

/// The number of the last revision of the image that is there, where it was not committed from the file.
fn other_revision(
    rt: &HostRuntime,
    words: Committing<'_>,
    begun: &Begun<'_>,
    bytes: &[u8],
) -> Result<Option<u32>, ToolFault> {
    if is_committed_from(rt, begun.image.path(), begun.size, words.file)? {
        return Ok(None);
    }
    let Ok(image) = Image::read(bytes) else {
        return Ok(None);
    };
    match image.revision_count().checked_sub(1) {
        // Of an empty text nothing is taken out.
        Some(last) if image.root(last).is_some() => Ok(Some(last)),
        _ => Ok(None),
    }
}

/// The commit behind an image that is there.
fn commit_onto<S: Sources>(
    rt: &HostRuntime,
    words: Committing<'_>,
    begun: &mut Begun<'_>,
    sources: &mut S,
    meter: &mut Meter<'_>,
) -> Result<Commit, ToolFault> {
    let older = open(rt, words.image)?;
    begun.image.keep_whole(&older)?;
    let expected = told_size(&older);
    let bytes = read_image(rt.alloc(), older, expected)?;
    begun.other = other_revision(rt, words, begun, &bytes)?;
    meter.start("records");
    let commit = run_commit(
        rt.alloc(),
        bytes,
        sources,
        words.at_most,
        &begun.text,
        &mut begun.image,
        meter,
    );
    commit.map_err(told_fault)
}

/// The commit, behind the image that is there or as a new one.
fn committed<S: Sources>(
    rt: &HostRuntime,
    words: Committing<'_>,
    begun: &mut Begun<'_>,
    sources: &mut S,
    meter: &mut Meter<'_>,
) -> Result<Commit, ToolFault> {
    if begun.is_new && words.sources.is_empty() {
        run_commit_anew(rt.alloc(), &begun.text, &mut begun.image).map_err(told_fault)
    } else {
        commit_onto(rt, words, begun, sources, meter)
    }
}

/// Puts the image in its place, and gives the line of the answer. That is made first: nothing wants memory behind it.
fn put_and_tell(
    rt: &HostRuntime,
    words: Committing<'_>,
    begun: &Begun<'_>,
    commit: Commit,
    lines: &SourceLines,
) -> Result<String, ToolFault> {
    let line = format!(in rt.alloc(); "{commit}\n")?;
    refuse_lines(rt, words.image, words.faults)?;
    begun.image.put_here()?;
    let image = begun.image.path();
    let is_added = matches!(commit, Commit::Added(_));
    if is_added {
        lines.keep_beside(rt, image);
    }
    match begun.other {
        Some(revision) if is_added && !words.brings_back(revision) => {
            // Where there is no memory for it, nothing is told.
            let _ = tell_other(rt, words, revision);
        }
        _ => {}
    }
    if begun.other.is_some() || is_added {
        keep_committed(rt, image, words.file);
    }
    Ok(line)
}

/// Commits, and gives the line of the answer.
fn commit_once<S: Sources>(
    rt: &HostRuntime,
    words: Committing<'_>,
    begun: &mut Begun<'_>,
    sources: &mut S,
    lines: &SourceLines,
    meter: &mut Meter<'_>,
) -> Result<String, ToolFault> {
    let put = match committed(rt, words, begun, sources, &mut *meter) {
        Ok(commit) => put_and_tell(rt, words, begun, commit, lines),
        Err(_) if begun.image.is_busy() => Err(ToolFault::OtherImage),
        Err(fault) => Err(begun.image.cause(fault)),
    };
    meter.end();
    if put.is_err() {
        begun.image.drop_part();
    }
    put
}

/// Commits, and gives the line of the answer. Where another one came between, it begins anew.
pub(crate) fn commit_begun<'a, S: Sources>(
    rt: &'a HostRuntime,
    words: Committing<'a>,
    begun: Begun<'a>,
    sources: &mut S,
    lines: &SourceLines,
    meter: &mut Meter<'_>,
) -> Result<String, ToolFault> {
    let mut begun = begun;
    for _ in 0..BEGINNINGS {
        match commit_once(rt, words, &mut begun, sources, lines, meter) {
            Err(ToolFault::OtherImage | ToolFault::Write) if !begun.image.is_as_begun() => {
                begun = begin(rt, words)?;
            }
            line => return line,
        }
    }
    Err(ToolFault::OtherImage)
}

/// Makes what a file holds now the last text of an image, and puts the new image in the place of the one that was there
/// when it was read. Where another one came between, it begins anew. Answers on standard output which revision has it.
pub fn commit<L: Ledger>(
    rt: &HostRuntime,
    words: Committing<'_>,
    meter: &mut Meter<'_>,
    blank: Blank,
) -> Result<Status, ToolFault>
    requires name { blank.name ≡ L.name }
    requires parts { blank.parts ≡ L.parts }
    requires many { 2 * length words.sources.now < blank.parts }
{
    let begun = begin(rt, words)?;
    let lines = SourceLines::over(rt, Some(words.image), words.sources)?;
    let mut sources = opened_sources::<L>(rt, words.sources, blank)?;
    let line = commit_begun(rt, words, begun, &mut sources, &lines, meter)?;
    answer(rt, words, line)
}

/// Tells which revision has the text.
pub(crate) fn answer(
    rt: &HostRuntime,
    words: Committing<'_>,
    line: String,
) -> Result<Status, ToolFault> {
    match words.faults.output(rt).write_all(line.as_bytes()) {
        Ok(()) => Ok(Status::Success),
        Err(_) => Err(ToolFault::Write),
    }
}
