//! The tool `serve`.

ghost use Rattle.std.specs.Prelude.{◌≡◌, ◌<◌};

use crate::answer::Answer;
use crate::digests::SourceLines;
use crate::editing::sources_of;
use crate::meter::Meter;
use crate::opening::OpenedSources;
use crate::saving_served::{Beside, Saved, save};
use crate::scripts::{lens_of, refuse_script};
use cord_tools::{Status, ToolFault, read_image};
use edit_commands::Session;
use edit_script::{Room as ScriptRoom, Stopped, apply_script_told, push_escaped};
use image_files::{
    Faults, FileState, ImageFile, Input, STANDARD_INPUT, open, state_of, told, told_size,
};
use key_journal::header_onto;
use lazy_file::Sources;
use line_server::{End, Room, ServeFault};
use script_tools::{OntoFault, begun_alone, begun_onto};
use session_files::{
    Front, Journal, LockedJournal, Place, drop_over, keep_over, place_of, refuse_keys,
};
use session_image::write;
use session_server::{Question, Speaking, asked, serve_speaking};
use std::alloc::Global;
use std::fs;
use std::io::{self, BufReader, StdinLock, Write};
use std::sync::ledger::{Blank, Ledger};
use work_progress::Progress;

/// What `serve` is asked for.
#[derive(Clone, Copy)]
pub struct Serving<'a> {
    pub at_most: Option<u64>,
    pub image: &'a str,
    pub source: Option<&'a str>,
    pub faults: &'a Faults,
}

/// Requests, which are read by blocks.
type Requests<'a> = BufReader<Input<'a, StdinLock<'a>>>;

/// What a session is begun from.
#[derive(Drop)]
struct Base<L: Ledger> {
    bytes: Vec<u8>,
    /// The image in its state when it was opened. There is none yet, where that is nothing.
    state: Option<FileState>,
    sources: OpenedSources<L>,
}

/// A session that is begun, before it takes what was kept of it.
#[derive(Drop)]
struct Begun<L: Ledger> {
    session: Session,
    sources: OpenedSources<L>,
    front: Front,
    state: Option<FileState>,
}

/// A session that is served.
#[derive(Drop)]
pub struct Served<'a, S> {
    pub session: Session,
    pub sources: S,
    pub journal: Journal<'a>,
    /// The image that it goes on from, in its state when it was read or saved.
    pub state: Option<FileState>,
}

/// A session whose image stands beside what took its place, before it goes on over that image.
#[derive(Drop)]
struct Moved<S> {
    session: Session,
    sources: S,
    beside: Beside,
    /// The journal that it had.
    lines: String,
}

/// What some requests leave.
#[derive(Drop)]
enum Left<'a, S> {
    On(Served<'a, S>),
    Moved(Moved<S>),
    Nothing,
}

/// What ends a run of requests, and is answered by the program.
#[derive(Clone, Copy)]
enum Leaving {
    Sync,
    Save,
    Quit,
}

/// The image of a session that is served. A new one is open to nobody to whom its source is not.
pub fn image_at<'a>(
    rt: &'a HostRuntime,
    words: Serving<'a>,
    place: Place<'_>,
) -> Result<ImageFile<'a>, ToolFault> {
    let mut image = ImageFile::new(rt, place.image, words.faults)?;
    if let Some(source) = words.source {
        image.has_text_of(source);
    }
    Ok(image)
}

/// Whether there is something to go on from: a regular file that is not empty, or a folder, which cannot be read.
fn is_there(rt: &HostRuntime, image: &str, faults: &Faults) -> Result<bool, ToolFault> {
    match fs::metadata(rt, image) {
        Ok(metadata) if metadata.is_dir() => Ok(true),
        Ok(metadata) if metadata.is_file() => Ok(metadata.len() > 0),
        Ok(_) => Err(faults.unwritten(image, io::Error::other("it is no regular file"))),
        Err(_) => Ok(false),
    }
}

/// The bytes of the image of a session over these sources that has no revisions.
fn first_image<S: Sources>(alloc: Global, sources: &S) -> Result<Vec<u8>, ToolFault> {
    let session = begun_alone(alloc, &lens_of(alloc, sources)?)?;
    let mut bytes = Vec::new(alloc);
    match write(&session, &mut bytes) {
        Ok(()) => Ok(bytes),
        Err(_) => Err(ToolFault::Memory),
    }
}

/// Opens the image and then its source, and reads the image; or makes the bytes of the first one.
fn opened_base<L: Ledger>(
    rt: &HostRuntime,
    words: Serving<'_>,
    place: Place<'_>,
    blank: Blank,
) -> Result<Base<L>, ToolFault>
    requires name { blank.name ≡ L.name }
    requires parts { blank.parts ≡ L.parts }
    requires many { 2 < blank.parts }
{
    if !is_there(rt, place.image, words.faults)? {
        let sources = sources_of::<L>(rt, words.source, blank)?;
        let bytes = first_image(rt.alloc(), &sources)?;
        return Ok(Base {
            bytes,
            state: None,
            sources,
        });
    }
    let file = open(rt, place.image)?;
    let state = state_of(&file);
    let expected = told_size(&file);
    let sources = sources_of::<L>(rt, words.source, blank)?;
    let bytes = read_image(rt.alloc(), &file, expected)?;
    Ok(Base {
        bytes,
        state,
        sources,
    })
}

/// The session of an image, which is checked with its sources.
fn checked_session<S: Sources>(
    alloc: Global,
    words: Serving<'_>,
    bytes: Vec<u8>,
    sources: &mut S,
    meter: &mut Meter<'_>,
) -> Result<Session, ToolFault> {
    meter.start("records");
    let begun = begun_onto(alloc, bytes, sources, words.at_most, &mut *meter);
    meter.end();
    match begun {
        Ok(session) => Ok(session),
        Err(OntoFault::Check(fault)) => Err(ToolFault::from(fault)),
        Err(OntoFault::TakeUp(fault)) => Err(ToolFault::from(fault)),
        Err(OntoFault::Stop(_) | OntoFault::Write) => Err(ToolFault::Write),
    }
}

/// Puts the first image in its place, as Save does, and gives its state.
fn put_first(
    rt: &HostRuntime,
    words: Serving<'_>,
    place: Place<'_>,
    session: &Session,
) -> Result<Option<FileState>, ToolFault> {
    let mut image = image_at(rt, words, place)?;
    let there = image.look();
    image.replace_only(there);
    image.give_way();
    let put = match write(session, &mut image) {
        Ok(()) => image.put_here(),
        Err(_) => Err(image.cause(ToolFault::Write)),
    };
    if let Err(fault) = put {
        image.drop_part();
        return Err(fault);
    }
    Ok(image.state())
}

/// Has a session take the lines that were kept of it.
fn take_kept(
    alloc: Global,
    session: &mut Session,
    journal: &Journal<'_>,
    meter: &mut Meter<'_>,
) -> Result<(), Stopped> {
    meter.start("bytes");
    let script = journal.script();
    let taken = apply_script_told(session, script, &mut ScriptRoom::new(alloc), &mut *meter);
    meter.end();
    taken
}

/// What a line asks for that ended a run of requests.
fn asked_for(alloc: Global, line: &[u8]) -> Leaving {
    match asked(line, &mut Vec::new(alloc)) {
        Ok(Question::Sync) => Leaving::Sync,
        Ok(Question::Save) => Leaving::Save,
        _ => Leaving::Quit,
    }
}

/// Takes requests, up to one that the program answers, or to their end.
fn run_requests<S: Sources>(
    rt: &HostRuntime,
    words: Serving<'_>,
    speaking: &mut Speaking<S>,
    journal: &Journal<'_>,
    requests: &mut Requests<'_>,
    room: &mut Room,
) -> Result<Leaving, ToolFault> {
    let mut answers = words.faults.output(rt);
    match serve_speaking(
        speaking,
        requests,
        &mut journal.synced(),
        &mut answers,
        room,
    ) {
        Ok(End::Input) => Ok(Leaving::Quit),
        Ok(End::Asked) => Ok(asked_for(rt.alloc(), &room.line)),
        Err(ServeFault::Read) => Err(ToolFault::Read),
        Err(ServeFault::Keep | ServeFault::Write) => Err(ToolFault::Write),
        Err(ServeFault::Memory) => Err(ToolFault::Memory),
    }
}

/// An answer of one word, and the last revision, or none.
fn last_told(alloc: Global, word: &str, session: &Session) -> Result<String, ToolFault> {
    match session.count().checked_sub(1) {
        Some(last) => Ok(format!(in alloc; "{word} {last}\n")?),
        None => Ok(format!(in alloc; "{word} none\n")?),
    }
}

/// The answer of a save whose image got another name.
fn beside_told(alloc: Global, name: &str) -> Result<Vec<u8>, ToolFault> {
    let mut told = Vec::new(alloc);
    told.extend_from_slice(b"beside \"")?;
    push_escaped(&mut told, name.as_bytes())?;
    told.extend_from_slice(b"\"\n")?;
    Ok(told)
}

/// Tells an answer.
fn tell(rt: &HostRuntime, words: Serving<'_>, told: &[u8]) -> Result<(), ToolFault> {
    match words.faults.output(rt).write_all(told) {
        Ok(()) => Ok(()),
        Err(_) => Err(ToolFault::Write),
    }
}

/// Syncs the journal, and tells that. One whose name was taken away keeps nothing for the next session.
fn answer_sync<S: Sources + Drop>(
    rt: &HostRuntime,
    words: Serving<'_>,
    served: &Served<'_, S>,
) -> Result<(), ToolFault> {
    if !served.journal.is_named() {
        return tell(rt, words, b"refused J5\n");
    }
    let told = last_told(rt.alloc(), "synced", &served.session)?;
    served.journal.sync_told()?;
    tell(rt, words, told.as_bytes())
}

/// Saves the session, and tells that. Where something else has the place of its image, it is to go on beside that.
fn answer_save<'a, S: Sources + Drop>(
    rt: &'a HostRuntime,
    words: Serving<'a>,
    place: Place<'a>,
    digests: &SourceLines,
    served: Served<'a, S>,
) -> Result<Left<'a, S>, ToolFault> {
    let told = last_told(rt.alloc(), "saved", &served.session)?;
    let lines = String::from_str(rt.alloc(), place.lines)?;
    let mut served = served;
    match save(rt, words, place, digests, &mut served)? {
        Saved::InPlace => {
            tell(rt, words, told.as_bytes())?;
            Ok(Left::On(served))
        }
        Saved::Beside(beside) => {
            let Served {
                session,
                sources,
                ..
            } = served;
            Ok(Left::Moved(Moved {
                session,
                sources,
                beside,
                lines,
            }))
        }
    }
}

/// Takes requests up to one that the program answers, and answers that.
fn serve_some<'a, S: Sources + Drop>(
    rt: &'a HostRuntime,
    words: Serving<'a>,
    place: Place<'a>,
    digests: &SourceLines,
    served: Served<'a, S>,
    requests: &mut Requests<'_>,
    room: &mut Room,
) -> Result<Left<'a, S>, ToolFault> {
    let Served {
        session,
        sources,
        journal,
        state,
    } = served;
    let mut speaking = Speaking::new(rt.alloc(), session, sources);
    let left = run_requests(rt, words, &mut speaking, &journal, requests, room);
    journal.sync();
    let left = left?;
    let (session, sources) = speaking.into_parts();
    let served = Served {
        session,
        sources,
        journal,
        state,
    };
    match left {
        Leaving::Sync => {
            answer_sync(rt, words, &served)?;
            Ok(Left::On(served))
        }
        Leaving::Save => answer_save(rt, words, place, digests, served),
        Leaving::Quit => {
            if served.journal.close() {
                drop_over(rt, place.lines);
            }
            Ok(Left::Nothing)
        }
    }
}

/// Takes requests, to their end, or until the session is to go on over another image.
fn serve_all<'a, S: Sources + Drop>(
    rt: &'a HostRuntime,
    words: Serving<'a>,
    place: Place<'a>,
    digests: &SourceLines,
    served: Served<'a, S>,
    requests: &mut Requests<'_>,
    room: &mut Room,
) -> Result<Option<Moved<S>>, ToolFault> {
    let mut served = served;
    for _ in 0..u64::MAX {
        match serve_some(
            rt,
            words,
            place,
            digests,
            served,
            &mut *requests,
            &mut *room,
        )? {
            Left::On(left) => served = left,
            Left::Moved(moved) => return Ok(Some(moved)),
            Left::Nothing => return Ok(None),
        }
    }
    Err(ToolFault::Read)
}

/// Has a session go on over the image that it wrote beside what took its image's place: its journal is begun anew beside
/// that, the older one goes, and that is told. Then it takes requests.
fn serve_beside<S: Sources + Drop>(
    rt: &HostRuntime,
    words: Serving<'_>,
    digests: &SourceLines,
    moved: Moved<S>,
    requests: &mut Requests<'_>,
    room: &mut Room,
) -> Result<Option<Moved<S>>, ToolFault> {
    let Moved {
        session,
        sources,
        beside,
        lines: older,
    } = moved;
    let Beside {
        image,
        front,
        state,
    } = beside;
    let lines = format!(in rt.alloc(); "{image}.lines")?;
    let told = beside_told(rt.alloc(), &image)?;
    let place = Place {
        image: &image,
        lines: &lines,
    };
    let journal = Journal::anew_in_turn(rt, place.lines, &front, words.faults)?;
    journal.sync_told()?;
    let state = keep_over(rt, place, state);
    // What stays is over another image than the one that is there.
    let _ = fs::remove_file(rt, older.as_str());
    drop_over(rt, &older);
    tell(rt, words, &told)?;
    let served = Served {
        session,
        sources,
        journal,
        state,
    };
    serve_all(rt, words, place, digests, served, requests, room)
}

/// Takes requests from standard input, to their end.
fn serve_input<'a, S: Sources + Drop>(
    rt: &'a HostRuntime,
    words: Serving<'a>,
    place: Place<'a>,
    digests: &SourceLines,
    served: Served<'a, S>,
) -> Result<Status, ToolFault> {
    let input = words.faults.input(STANDARD_INPUT, rt.reader());
    let mut requests = BufReader::new(rt.alloc(), input).map_err(told)?;
    let mut room = Room::new(rt.alloc());
    let mut left = serve_all(rt, words, place, digests, served, &mut requests, &mut room)?;
    for _ in 0..u64::MAX {
        let Some(moved) = left else {
            return Ok(Status::Success);
        };
        left = serve_beside(rt, words, digests, moved, &mut requests, &mut room)?;
    }
    Err(ToolFault::Read)
}

/// The state of the image, which is made where there is none yet.
fn placed(
    rt: &HostRuntime,
    words: Serving<'_>,
    place: Place<'_>,
    digests: &SourceLines,
    state: Option<FileState>,
    session: &Session,
) -> Result<Option<FileState>, ToolFault> {
    if state.is_some() {
        return Ok(state);
    }
    let made = put_first(rt, words, place, session)?;
    digests.keep_beside(rt, place.image);
    Ok(made)
}

/// Has the session take the lines that were kept, and serves it.
fn serve_begun<'a, L: Ledger, W>(
    rt: &'a HostRuntime,
    words: Serving<'a>,
    place: Place<'a>,
    journal: Journal<'a>,
    begun: Begun<L>,
    digests: &SourceLines,
    answer: &mut Answer<'_, W>,
    meter: &mut Meter<'_>,
) -> Result<Status, ToolFault> {
    let mut journal = journal;
    let Begun {
        mut session,
        sources,
        state,
        ..
    } = begun;
    let state = match placed(rt, words, place, digests, state, &session) {
        Ok(state) => state,
        Err(fault) => {
            journal.close();
            return Err(fault);
        }
    };
    if let Err(stopped) = take_kept(rt.alloc(), &mut session, &journal, meter) {
        return refuse_script(rt, stopped, answer);
    }
    journal.cut()?;
    journal.forget();
    let served = Served {
        session,
        sources,
        journal,
        state: keep_over(rt, place, state),
    };
    serve_input(rt, words, place, digests, served)
}

/// Begins a session, once no other one keeps anything beside the image.
fn begun_locked<L: Ledger>(
    rt: &HostRuntime,
    words: Serving<'_>,
    place: Place<'_>,
    meter: &mut Meter<'_>,
    blank: Blank,
) -> Result<Begun<L>, ToolFault>
    requires name { blank.name ≡ L.name }
    requires parts { blank.parts ≡ L.parts }
    requires many { 2 < blank.parts }
{
    refuse_keys(rt, words.image, place.image, words.faults)?;
    let Base {
        bytes,
        state,
        mut sources,
    } = opened_base::<L>(rt, words, place, blank)?;
    let front = Front::of_lines(rt.alloc(), &header_onto(&mut sources, &bytes)?)?;
    let session = checked_session(rt.alloc(), words, bytes, &mut sources, meter)?;
    Ok(Begun {
        session,
        sources,
        front,
        state,
    })
}

/// Digests of the source, beside those that stand beside the image: it is told where that has other bytes.
fn digests_of(rt: &HostRuntime, words: Serving<'_>) -> Result<SourceLines, ToolFault> {
    match words.source {
        Some(source) => SourceLines::over(rt, Some(words.image), &[source]),
        None => SourceLines::over(rt, None, &[]),
    }
}

/// Serves a session: each line of standard input is a request, and has a line of standard output as its answer. What is
/// answered is kept in the journal beside the image, which is locked before the image is opened.
pub fn serve<L: Ledger, W>(
    rt: &HostRuntime,
    words: Serving<'_>,
    answer: &mut Answer<'_, W>,
    meter: &mut Meter<'_>,
    blank: Blank,
) -> Result<Status, ToolFault>
    requires name { blank.name ≡ L.name }
    requires parts { blank.parts ≡ L.parts }
    requires many { 2 < blank.parts }
{
    let image = place_of(rt, words.image)?;
    let lines = format!(in rt.alloc(); "{image}.lines")?;
    let place = Place {
        image: &image,
        lines: &lines,
    };
    let digests = digests_of(rt, words)?;
    let locked = LockedJournal::open(rt, place.lines, None, words.faults)?;
    let begun = match begun_locked::<L>(rt, words, place, &mut *meter, blank) {
        Ok(begun) => begun,
        Err(fault) => {
            locked.drop_empty(rt, place.lines);
            return Err(fault);
        }
    };
    let part = format!(in rt.alloc(); "{image}.new")?;
    let journal = Journal::onto(
        rt,
        place.lines,
        locked,
        &begun.front,
        Some(&part),
        words.faults,
    )?;
    serve_begun(rt, words, place, journal, begun, &digests, answer, meter)
}
