//! The program `cordkit`: it opens what its words name, and ends as its tool says.
#![tactic(auto)]

mod answer;
mod blaming;
mod committing;
mod digests;
mod editing;
mod editing_onto;
mod few_rows;
mod going_on;
mod hint;
mod keys_played;
mod last_commit;
mod meter;
mod opening;
mod restoring;
mod revision_words;
mod saved_before;
mod saving_served;
mod scripts;
mod serving;
mod side_file;
mod standard_streams;
mod text_file;

ghost use Rattle.std.specs.Prelude.{◌≡◌, ◌*◌, ◌-◌, ◌^◌, ◌<◌, length};

use crate::answer::Answer;
use crate::blaming::write_blame;
use crate::committing::{Committing, commit};
use crate::digests::tell_changed;
use crate::editing::{Editing, edit};
use crate::going_on::apply_onto;
use crate::meter::Meter;
use crate::opening::{
    OpenedImage, names_of, opened_image, opened_image_of, opened_sources, opened_with_sources,
};
use crate::restoring::{Restoring, restore};
use crate::revision_words::{wanted, with_last};
use crate::scripts::{lens_of, read_script, refuse_script, write_log};
use crate::serving::{Serving, serve};
use crate::standard_streams::StandardStreams;
use cord_explanations::{ShownName, explained};
use cord_tools::{
    Outcome, Status, ToolFault, exit_status, read_image, refuse_check, run_check_told, run_cmp,
    run_cut, run_find, run_find_all_told, run_join, run_migrate_told, run_show_wanted, run_stdin,
};
use cord_words::{Action, Lengths, Request, WordsFault, no_text, words};
use image_files::{Faults, STANDARD_INPUT};
use lazy_file::Sources;
use script_tools::{ApplyFault, BytesOfText, run_apply_told};
use session_checker::WantedRevision;
use session_files::discard;
use std::io::{ErrorKind, IsTerminal};
use std::marker::Brand;
use std::process::ExitCode;
use std::sync::ledger::{Blank, Ledger};
use std::{env, io};
use work_progress::Progress;

/// An image and its sources, of some of which the length alone is given.
fn opened_with<L: Ledger>(
    rt: &HostRuntime,
    at_most: Option<u64>,
    lengths: &Lengths,
    image: &str,
    paths: &[&str],
    blank: Blank,
) -> Result<OpenedImage<L>, ToolFault>
    requires name { blank.name ≡ L.name }
    requires parts { blank.parts ≡ L.parts }
    requires many { blank.parts ≡ 2 ^ 64 - 1 }
{
    let names = names_of(rt.alloc(), lengths, paths)?;
    opened_image_of::<L>(rt, at_most, image, &names, blank)
}

/// The same, to be checked: of files alone it is told whether they are those that the session was made from.
fn opened_to_check<L: Ledger>(
    rt: &HostRuntime,
    at_most: Option<u64>,
    lengths: &Lengths,
    image: &str,
    paths: &[&str],
    blank: Blank,
) -> Result<OpenedImage<L>, ToolFault>
    requires name { blank.name ≡ L.name }
    requires parts { blank.parts ≡ L.parts }
    requires many { blank.parts ≡ 2 ^ 64 - 1 }
{
    let opened = opened_with::<L>(rt, at_most, lengths, image, paths, blank)?;
    if lengths.numbers.is_empty() {
        // Where there is no memory for it, nothing is told.
        let _ = tell_changed(rt, image, paths);
    }
    Ok(opened)
}

/// Checks an image with its sources. Sources that are refused answer for it.
fn check<L: Ledger, W: io::Write>(
    rt: &HostRuntime,
    opened: Result<OpenedImage<L>, ToolFault>,
    answer: &mut Answer<'_, W>,
    meter: &mut Meter<'_>,
) -> Result<Status, ToolFault> {
    match opened {
        Ok(mut image) => {
            meter.start("records");
            run_check_told(
                rt.alloc(),
                image.file,
                image.expected,
                &mut image.sources,
                image.at_most,
                answer,
                meter,
            )
        }
        Err(ToolFault::Source(refusal)) => refuse_check(rt.alloc(), refusal, answer),
        Err(fault) => Err(fault),
    }
}

/// Writes the text of a revision of an image, which is checked.
fn show<L: Ledger>(
    rt: &HostRuntime,
    opened: Result<OpenedImage<L>, ToolFault>,
    revision: WantedRevision,
    faults: &Faults,
) -> Result<Status, ToolFault> {
    let mut image = opened?;
    run_show_wanted(
        rt.alloc(),
        image.file,
        image.expected,
        &mut image.sources,
        image.at_most,
        revision,
        &mut faults.output(rt),
    )?;
    Ok(Status::Success)
}

/// Writes an image anew in version 2, which is checked.
fn migrate<L: Ledger>(
    rt: &HostRuntime,
    opened: Result<OpenedImage<L>, ToolFault>,
    faults: &Faults,
    meter: &mut Meter<'_>,
) -> Result<Status, ToolFault> {
    let mut image = opened?;
    meter.start("records");
    run_migrate_told(
        rt.alloc(),
        image.file,
        image.expected,
        &mut image.sources,
        image.at_most,
        &mut faults.output(rt),
        meter,
    )?;
    Ok(Status::Success)
}

/// Writes the script of an image, which is checked.
fn log<L: Ledger>(
    rt: &HostRuntime,
    opened: Result<OpenedImage<L>, ToolFault>,
    brief: bool,
    faults: &Faults,
    meter: &mut Meter<'_>,
) -> Result<Status, ToolFault> {
    let mut image = opened?;
    let bytes = read_image(rt.alloc(), image.file, image.expected)?;
    let output = faults.output(rt);
    write_log(
        rt,
        &bytes,
        &mut image.sources,
        image.at_most,
        brief,
        output,
        meter,
    )?;
    Ok(Status::Success)
}

/// Writes where some bytes of a text come from, of an image that is checked.
fn blame<L: Ledger>(
    rt: &HostRuntime,
    opened: Result<OpenedImage<L>, ToolFault>,
    wanted: BytesOfText,
    faults: &Faults,
    meter: &mut Meter<'_>,
) -> Result<Status, ToolFault> {
    let mut image = opened?;
    let bytes = read_image(rt.alloc(), image.file, image.expected)?;
    let output = faults.output(rt);
    write_blame(
        rt,
        &bytes,
        &mut image.sources,
        image.at_most,
        wanted,
        output,
        meter,
    )?;
    Ok(Status::Success)
}

/// Writes a part of a file.
fn cut<L: Ledger>(
    rt: &HostRuntime,
    start: u64,
    count: u64,
    file: &str,
    faults: &Faults,
    blank: Blank,
) -> Result<Status, ToolFault>
    requires name { blank.name ≡ L.name }
    requires parts { blank.parts ≡ L.parts }
    requires many { 2 < blank.parts }
{
    let mut sources = opened_sources::<L>(rt, &[file], blank)?;
    run_cut(
        rt.alloc(),
        &mut sources,
        start,
        count,
        &mut faults.output(rt),
    )?;
    Ok(Status::Success)
}

/// Writes files, one behind the other.
fn join<L: Ledger>(
    rt: &HostRuntime,
    files: &[&str],
    faults: &Faults,
    blank: Blank,
) -> Result<Status, ToolFault>
    requires name { blank.name ≡ L.name }
    requires parts { blank.parts ≡ L.parts }
    requires many { 2 * length files.now < blank.parts }
{
    let mut sources = opened_sources::<L>(rt, files, blank)?;
    run_join(rt.alloc(), &mut sources, &mut faults.output(rt))?;
    Ok(Status::Success)
}

/// Writes the first place of a pattern in a file, or all of them.
fn find<L: Ledger>(
    rt: &HostRuntime,
    all: bool,
    start: u64,
    pattern: &[u8],
    file: &str,
    faults: &Faults,
    meter: &mut Meter<'_>,
    blank: Blank,
) -> Result<Status, ToolFault>
    requires name { blank.name ≡ L.name }
    requires parts { blank.parts ≡ L.parts }
    requires many { 2 < blank.parts }
{
    let mut sources = opened_sources::<L>(rt, &[file], blank)?;
    let mut writer = faults.output(rt);
    if all {
        meter.start("bytes");
        let found = run_find_all_told(
            rt.alloc(),
            &mut sources,
            start,
            pattern,
            &mut writer,
            &mut *meter,
        );
        meter.end();
        found
    } else {
        run_find(rt.alloc(), &mut sources, start, pattern, &mut writer)
    }
}

/// Writes how a file compares with another.
fn compare<L: Ledger>(
    rt: &HostRuntime,
    first: &str,
    second: &str,
    faults: &Faults,
    blank: Blank,
) -> Result<Status, ToolFault>
    requires name { blank.name ≡ L.name }
    requires parts { blank.parts ≡ L.parts }
    requires many { 4 < blank.parts }
{
    let mut sources = opened_sources::<L>(rt, &[first, second], blank)?;
    run_cmp(rt.alloc(), &mut sources, &mut faults.output(rt))
}

/// Writes the image of the session that a script makes.
fn apply<L: Ledger, W>(
    rt: &HostRuntime,
    script: &str,
    paths: &[&str],
    answer: &mut Answer<'_, W>,
    meter: &mut Meter<'_>,
    blank: Blank,
) -> Result<Status, ToolFault>
    requires name { blank.name ≡ L.name }
    requires parts { blank.parts ≡ L.parts }
    requires many { 2 * length paths.now < blank.parts }
{
    let script = read_script(rt, script)?;
    let sources = opened_sources::<L>(rt, paths, blank)?;
    let lens = lens_of(rt.alloc(), &sources)?;
    meter.start("bytes");
    let mut writer = answer.faults().output(rt);
    let applied = run_apply_told(rt.alloc(), &script, &lens, &mut writer, &mut *meter);
    meter.end();
    match applied {
        Ok(()) => Ok(Status::Success),
        Err(ApplyFault::Stop(stopped)) => refuse_script(rt, stopped, answer),
        Err(ApplyFault::Source(fault)) => Err(ToolFault::from(fault)),
        Err(ApplyFault::Write) => Err(ToolFault::Write),
    }
}

/// Says what is waited for, where it is somebody at a terminal who is to give it.
fn tell_waiting(rt: &HostRuntime) {
    if rt.stdin().is_terminal() {
        // There is no other place to tell that standard error is closed.
        let _ = rt.eprintln(
            "cordkit waits for an image on standard input; cordkit --help shows what else it does",
        );
    }
}

/// Tells where bytes of a text come from, where the words ask for it; else checks the image of standard input.
fn run_blame_or_stdin<L: Ledger, W: io::Write>(
    rt: &HostRuntime,
    action: &Action<'_>,
    answer: &mut Answer<'_, W>,
    meter: &mut Meter<'_>,
    blank: Blank,
) -> Result<Status, ToolFault>
    requires name { blank.name ≡ L.name }
    requires parts { blank.parts ≡ L.parts }
    requires many { blank.parts ≡ 2 ^ 64 - 1 }
{
    match action {
        Action::Blame {
            at_most,
            start,
            count,
            image,
            revision,
            sources,
        } => blame(
            rt,
            opened_image::<L>(rt, *at_most, image, sources, blank),
            BytesOfText {
                revision: wanted(*revision),
                start: start.unwrap_or(0),
                count: count.unwrap_or(u64::MAX),
            },
            answer.faults(),
            meter,
        ),
        _ => {
            tell_waiting(rt);
            let input = answer.faults().input(STANDARD_INPUT, rt.reader());
            run_stdin(rt.alloc(), input, answer)
        }
    }
}

/// Writes what an image records, anew or as a script, where the words ask for it; or does what else they ask for.
fn run_over_records<L: Ledger, W: io::Write>(
    rt: &HostRuntime,
    action: &Action<'_>,
    answer: &mut Answer<'_, W>,
    meter: &mut Meter<'_>,
    blank: Blank,
) -> Result<Status, ToolFault>
    requires name { blank.name ≡ L.name }
    requires parts { blank.parts ≡ L.parts }
    requires many { blank.parts ≡ 2 ^ 64 - 1 }
{
    match action {
        Action::Migrate {
            at_most,
            lengths,
            image,
            sources,
        } => migrate(
            rt,
            opened_with::<L>(rt, *at_most, lengths, image, sources, blank),
            answer.faults(),
            meter,
        ),
        Action::Log {
            at_most,
            lengths,
            brief,
            image,
            sources,
        } => log(
            rt,
            opened_with::<L>(rt, *at_most, lengths, image, sources, blank),
            *brief,
            answer.faults(),
            meter,
        ),
        _ => run_blame_or_stdin::<L, W>(rt, action, answer, meter, blank),
    }
}

/// Does what the words ask for over an image: that of standard input, where they name none.
fn run_over_image<L: Ledger, W: io::Write>(
    rt: &HostRuntime,
    action: &Action<'_>,
    answer: &mut Answer<'_, W>,
    meter: &mut Meter<'_>,
    blank: Blank,
) -> Result<Status, ToolFault>
    requires name { blank.name ≡ L.name }
    requires parts { blank.parts ≡ L.parts }
    requires many { blank.parts ≡ 2 ^ 64 - 1 }
{
    match action {
        Action::Check {
            at_most,
            lengths,
            image,
            sources,
        } => check(
            rt,
            opened_to_check::<L>(rt, *at_most, lengths, image, sources, blank),
            answer,
            meter,
        ),
        Action::Show {
            at_most,
            image,
            revision,
            sources,
        } => show(
            rt,
            opened_with_sources::<L>(rt, *at_most, image, sources, blank),
            wanted(*revision),
            answer.faults(),
        ),
        _ => run_over_records::<L, W>(rt, action, answer, meter, blank),
    }
}

/// Makes a session or goes on with one, as the words ask.
fn run_session<L: Ledger, W: io::Write>(
    rt: &HostRuntime,
    action: &Action<'_>,
    answer: &mut Answer<'_, W>,
    meter: &mut Meter<'_>,
    blank: Blank,
) -> Result<Status, ToolFault>
    requires name { blank.name ≡ L.name }
    requires parts { blank.parts ≡ L.parts }
    requires many { blank.parts ≡ 2 ^ 64 - 1 }
{
    match action {
        Action::Edit {
            onto,
            keys,
            session,
            no_clobber,
            replace,
            image,
            file,
        } => {
            let words = Editing {
                onto: *onto,
                keys: *keys,
                session: *session,
                no_clobber: *no_clobber,
                replace: *replace,
                image,
                file: *file,
                faults: answer.faults(),
            };
            edit::<L, W>(rt, words, answer, blank)
        }
        Action::Discard { keys } => discard(rt, keys, answer.faults()),
        Action::Apply {
            onto: Some(image),
            at_most,
            script,
            sources,
        } => apply_onto::<L, W>(rt, image, *at_most, script, sources, answer, meter, blank),
        Action::Apply {
            script,
            sources,
            ..
        } => apply::<L, W>(rt, script, sources, answer, meter, blank),
        _ => run_over_image::<L, W>(rt, action, answer, meter, blank),
    }
}

/// Commits a file, or restores it, or serves a session, or does what else the words ask for over one.
fn run_states<L: Ledger, W: io::Write>(
    rt: &HostRuntime,
    action: &Action<'_>,
    answer: &mut Answer<'_, W>,
    meter: &mut Meter<'_>,
    blank: Blank,
) -> Result<Status, ToolFault>
    requires name { blank.name ≡ L.name }
    requires parts { blank.parts ≡ L.parts }
    requires many { blank.parts ≡ 2 ^ 64 - 1 }
{
    match action {
        Action::Commit {
            at_most,
            image,
            file,
            sources,
        } => {
            let words = Committing {
                at_most: *at_most,
                image,
                file,
                sources,
                restored: None,
                faults: answer.faults(),
            };
            commit::<L>(rt, words, meter, blank)
        }
        Action::Restore {
            at_most,
            image,
            revision,
            file,
            sources,
        } => {
            let words = Restoring {
                at_most: *at_most,
                image,
                revision: wanted(*revision),
                file,
                sources,
                faults: answer.faults(),
            };
            restore::<L>(rt, words, meter, blank)
        }
        Action::Serve {
            at_most,
            image,
            source,
        } => {
            let words = Serving {
                at_most: *at_most,
                image,
                source: *source,
                faults: answer.faults(),
            };
            serve::<L, W>(rt, words, answer, meter, blank)
        }
        _ => run_session::<L, W>(rt, action, answer, meter, blank),
    }
}

/// Does what the words ask for. Files are opened in the order of the words
/// before anything is written, the image of `edit` when it is saved.
fn run<L: Ledger, W: io::Write>(
    rt: &HostRuntime,
    action: &Action<'_>,
    answer: &mut Answer<'_, W>,
    meter: &mut Meter<'_>,
    blank: Blank,
) -> Result<Status, ToolFault>
    requires name { blank.name ≡ L.name }
    requires parts { blank.parts ≡ L.parts }
    requires many { blank.parts ≡ 2 ^ 64 - 1 }
{
    match action {
        Action::CheckInput
        | Action::Check { .. }
        | Action::Show { .. }
        | Action::Migrate { .. }
        | Action::Log { .. }
        | Action::Blame { .. } => run_over_image::<L, W>(rt, action, answer, meter, blank),
        Action::Cut { start, count, file } => {
            cut::<L>(rt, *start, *count, file, answer.faults(), blank)
        }
        Action::Join { files } => join::<L>(rt, files.as_slice(), answer.faults(), blank),
        Action::Find {
            all,
            start,
            pattern,
            file,
        } => {
            let pattern = pattern.as_bytes();
            find::<L>(
                rt,
                *all,
                *start,
                pattern,
                file,
                answer.faults(),
                meter,
                blank,
            )
        }
        Action::Cmp { first, second } => { compare::<L>(rt, first, second, answer.faults(), blank) }
        Action::Edit { .. }
        | Action::Discard { .. }
        | Action::Commit { .. }
        | Action::Restore { .. }
        | Action::Serve { .. }
        | Action::Apply { .. } => { run_states::<L, W>(rt, action, answer, meter, blank) }
    }
}

/// How the program ended. What ended it without its answer goes to standard error.
fn outcome(rt: &HostRuntime, answer: Result<Status, ToolFault>) -> Outcome {
    match answer {
        Ok(status) => Outcome::Answered(status),
        Err(fault) => {
            // There is no other place to tell that standard error is closed.
            let _ = rt.eprintln(fault);
            Outcome::Ended(fault)
        }
    }
}

/// Tells on standard error what the code means that a run of this action ended with.
fn tell(rt: &HostRuntime, action: &Action<'_>, code: &str) {
    if let Some(explanation) = explained(rt, action, code) {
        // There is no other place to tell that standard error is closed.
        let _ = rt.eprintln(explanation);
    }
}

/// Tells on standard error why a run ended by this fault: by the file that failed, where one is known.
fn tell_fault<W>(rt: &HostRuntime, action: &Action<'_>, fault: ToolFault, answer: &Answer<'_, W>) {
    let Ok(told) = format!(in rt.alloc(); "{fault}") else {
        return;
    };
    let code = told.strip_prefix("refused ").unwrap_or(&told);
    match answer.faults().explained(fault, code) {
        Some(explanation) => {
            // There is no other place to tell that standard error is closed.
            let _ = rt.eprintln(explanation);
        }
        None => tell(rt, action, code),
    }
}

/// Explains on standard error why the program ended without what was asked of it, if it did.
fn explain<W>(rt: &HostRuntime, action: &Action<'_>, outcome: Outcome, answer: &Answer<'_, W>) {
    if let Outcome::Ended(fault) = outcome {
        tell_fault(rt, action, fault, answer);
    } else if let Some(code) = answer.refusal() {
        tell(rt, action, code);
    }
}

/// Whether it is explained unasked on a terminal how a run ended: by a file that could not be read or written.
fn is_of_files(outcome: Outcome) -> bool {
    matches!(outcome, Outcome::Ended(ToolFault::Read | ToolFault::Write))
}

/// Tells on standard error what became of the image of a session, where that is not plain.
fn tell_note<W>(rt: &HostRuntime, answer: &Answer<'_, W>) {
    if let Some(note) = answer.note() {
        // There is no other place to tell that standard error is closed.
        let _ = rt.eprintln(note);
    }
}

/// Does what is asked for, and explains how it ended.
fn run_request(rt: &HostRuntime, request: &Request<'_>) -> Outcome {
    let faults = Faults::new(rt.alloc());
    let mut answer = Answer::new(rt.alloc(), faults.output(rt), &faults);
    let mut meter = Meter::new(rt, request.quiet);
    let ended = run::<Brand, _>(
        rt,
        &request.action,
        &mut answer,
        &mut meter,
        Blank::new(u64::MAX),
    );
    let outcome = outcome(rt, ended);
    tell_note(rt, &answer);
    if request.explain || (is_of_files(outcome) && rt.stderr().is_terminal()) {
        explain(rt, &request.action, outcome, &answer);
    }
    outcome
}

/// Tells why words were not taken. They may hold control characters, which a terminal would take for its own.
fn tell_misuse(rt: &HostRuntime, error: &clap::Error) {
    let Ok(told) = format!(in rt.alloc(); "{error}") else {
        return;
    };
    for name in told.lines() {
        // There is no other place to tell that standard error is closed.
        let _ = rt.eprintln(ShownName { name });
    }
}

/// What was asked for is not in the words.
fn refused_words(rt: &HostRuntime, fault: WordsFault) -> Outcome {
    match fault {
        WordsFault::Memory => outcome(rt, Err(ToolFault::Memory)),
        WordsFault::Version(version) => match rt.print(version) {
            Ok(()) => Outcome::Answered(Status::Success),
            Err(_) => outcome(rt, Err(ToolFault::Write)),
        },
        WordsFault::Usage(error) => {
            tell_misuse(rt, &error);
            Outcome::Misused
        }
    }
}

/// Does what the words of the command line ask for.
fn run_words(rt: &HostRuntime) -> Outcome {
    let given = match env::args(rt) {
        Ok(given) => given,
        Err(error) if error.kind() == ErrorKind::InvalidData => {
            return refused_words(rt, no_text(rt.alloc()));
        }
        Err(_) => return outcome(rt, Err(ToolFault::Memory)),
    };
    let Ok(given) = given.collect::<Vec<String>>(rt.alloc()) else {
        return outcome(rt, Err(ToolFault::Memory));
    };
    let Ok(given) = with_last(rt.alloc(), given) else {
        return outcome(rt, Err(ToolFault::Memory));
    };
    match words(rt.alloc(), &given) {
        Ok(request) => run_request(rt, &request),
        Err(fault) => refused_words(rt, fault),
    }
}

fn main(rt: HostRuntime) -> ExitCode {
    let _streams = StandardStreams::hold(&rt);
    ExitCode::from(exit_status(run_words(&rt)))
}
