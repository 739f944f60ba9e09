//! What a refusal or a fault means, for people.

ghost use Rattle.std.specs.Prelude.{◌≡◌, IfSome};

use crate::looking::{first_too_long, first_unread, is_image, len, source_count, source_len};
use crate::meaning::meaning;
use crate::script_line::seen_in_line;
use crate::sentence::Sentence;
use cord_words::Action;
use std::alloc::{AllocError, AllocGlobal, Global};
use std::fmt;
use std::fs::Files;
use std::io::ErrorKind;

/// A code with the sentence that explains it.
#[derive(Drop)]
pub struct Explanation<'a> {
    pub code: &'a str,
    sentence: Sentence,
}

impl fmt::Display for Explanation<'_> {
    fn fmt<W: fmt::Write>(&self, f: &mut fmt::Formatter<W>) -> fmt::Result {
        let Explanation { code, sentence } = self;
        write!(f, "{code}: {sentence}")
    }
}

/// The name of a code and its numbers: `C1(I3)` is I3, `E7(N1,7)` is N1 at 7, `looks 9` is looks of 9.
fn parts_of(code: &str) -> (&str, &str) {
    if let Some(number) = code.strip_prefix("looks ") {
        return ("looks", number);
    }
    let Some((name, rest)) = code.split_once('(') else {
        return (code, "");
    };
    let numbers = rest.trim_end_matches(')');
    if name == "C1" {
        return (numbers, "");
    }
    if name == "E7" {
        return numbers.split_once(',').unwrap_or((numbers, ""));
    }
    (name, numbers)
}

/// Files that there are, and then others.
fn gathered<'a>(
    alloc: Global,
    first: [Option<&'a str>; 2],
    rest: &[&'a str],
) -> Result<Vec<&'a str>, AllocError> {
    let mut files = Vec::new(alloc);
    for file in first.into_iter().flatten() {
        files.push(file)?;
    }
    files.extend_from_slice(rest)?;
    Ok(files)
}

/// The files that a run reads, in the order in which it opens them.
#[rattlefmt::skip]
fn inputs<'a>(alloc: Global, action: &Action<'a>) -> Result<Vec<&'a str>, AllocError> {
    match action {
        Action::CheckInput | Action::Discard { .. } => Ok(Vec::new(alloc)),
        Action::Check { image, sources, .. }
        | Action::Migrate { image, sources, .. }
        | Action::Show { image, sources, .. }
        | Action::Log { image, sources, .. }
        | Action::Blame { image, sources, .. } => gathered(alloc, [Some(*image), None], sources),
        Action::Apply { onto, script, sources, .. } => gathered(alloc, [*onto, Some(*script)], sources),
        Action::Commit { image, file, sources, .. } => gathered(alloc, [Some(*file), Some(*image)], sources),
        Action::Restore { image, file, sources, .. } => {
            let mut inputs = gathered(alloc, [Some(*image), None], sources)?;
            inputs.push(*file)?;
            Ok(inputs)
        }
        Action::Cut { file, .. } | Action::Find { file, .. } => gathered(alloc, [Some(*file), None], &[]),
        Action::Join { files } => gathered(alloc, [None, None], files),
        Action::Cmp { first, second } => gathered(alloc, [Some(*first), Some(*second)], &[]),
        Action::Edit { onto, file, .. } => gathered(alloc, [*onto, *file], &[]),
        Action::Serve { image, source, .. } => gathered(alloc, [Some(*image), *source], &[]),
    }
}

/// The session of an editor, as the words name it.
#[derive(Clone, Copy)]
struct Editing<'a> {
    onto: Option<&'a str>,
    keys: Option<&'a str>,
    image: &'a str,
    file: Option<&'a str>,
}

/// What the code of a run may be about beside the files that it reads.
#[derive(Clone, Copy)]
enum Run<'a> {
    /// Nothing: it writes to standard output what files say, or standard input.
    Reads,
    /// The files together.
    Joins,
    /// A line of this script.
    Applies { script: &'a str },
    /// The file whose bytes become the last text of this image.
    Commits { image: &'a str, file: &'a str },
    /// The session of an editor.
    Edits(Editing<'a>),
    /// The session that goes on from this image, and the lines beside it.
    Serves { image: &'a str },
    /// This file of keys.
    Discards { keys: &'a str },
}

/// Of which sort a run is.
fn run_of<'a>(action: &Action<'a>) -> Run<'a> {
    match action {
        Action::CheckInput
        | Action::Check { .. }
        | Action::Migrate { .. }
        | Action::Show { .. }
        | Action::Log { .. }
        | Action::Blame { .. }
        | Action::Cut { .. }
        | Action::Find { .. }
        | Action::Cmp { .. } => Run::Reads,
        Action::Join { .. } => Run::Joins,
        Action::Apply { script, .. } => Run::Applies { script },
        Action::Commit { image, file, .. } | Action::Restore { image, file, .. } => {
            Run::Commits { image, file }
        }
        Action::Edit {
            onto,
            keys,
            image,
            file,
            ..
        } => Run::Edits(Editing {
            onto: *onto,
            keys: *keys,
            image,
            file: *file,
        }),
        Action::Discard { keys } => Run::Discards { keys },
        Action::Serve { image, .. } => Run::Serves { image },
    }
}

/// The sentence about a file that cannot be read.
pub(crate) fn failure(why: ErrorKind) -> &'static str {
    match why {
        ErrorKind::NotFound => "there is no file %",
        ErrorKind::PermissionDenied => "% may not be read",
        ErrorKind::IsADirectory => "% is a folder",
        ErrorKind::NotADirectory => "% is below what is no folder",
        ErrorKind::FilesystemLoop => "% is a link that leads to itself",
        _ => "% cannot be opened",
    }
}

/// An image and its sources, where the run is over one.
fn image_of<'a, 'b>(action: &'b Action<'a>) -> Option<(&'a str, &'b [&'a str])> {
    match action {
        Action::Check { image, sources, .. }
        | Action::Migrate { image, sources, .. }
        | Action::Show { image, sources, .. }
        | Action::Log { image, sources, .. }
        | Action::Blame { image, sources, .. }
        | Action::Commit { image, sources, .. }
        | Action::Restore { image, sources, .. }
        | Action::Apply {
            onto: Some(image),
            sources,
            ..
        } => Some((image, sources)),
        Action::CheckInput
        | Action::Cut { .. }
        | Action::Join { .. }
        | Action::Find { .. }
        | Action::Cmp { .. }
        | Action::Edit { .. }
        | Action::Discard { .. }
        | Action::Serve { .. }
        | Action::Apply { onto: None, .. } => None,
    }
}

/// Whether a code is of the image, and not of what is put behind it, a line of a script or a file, nor of keys.
fn is_of_image(run: Run<'_>, name: &str, numbers: &str) -> bool {
    match run {
        Run::Applies { .. } => {
            numbers.is_empty() || !matches!(name.as_bytes(), [b'E' | b'N' | b'P', ..])
        }
        Run::Commits { .. } => {
            !matches!(name, "J2" | "J6") && !matches!(name.as_bytes(), [b'E' | b'N', ..])
        }
        Run::Reads | Run::Joins | Run::Edits(_) | Run::Discards { .. } | Run::Serves { .. } => true,
    }
}

/// From how many sources an image was made, and how many are given; and from how long a one, where it is one.
fn other_count<R: Files + AllocGlobal>(rt: &R, image: &str, sources: &[&str]) -> Option<Sentence> {
    let made = source_count(rt, image)?;
    let given = sources.len();
    if made == 1 {
        let len = source_len(rt, image, 0)?;
        let numbers = format!(in rt.alloc(); "{len},{given}").ok()?;
        return Sentence::new(
            rt.alloc(),
            "% was made over one source, of # bytes, and # are given",
            image,
            &numbers,
        );
    }
    let text = "the sources of % are # in number, and # are given";
    let numbers = format!(in rt.alloc(); "{made},{given}").ok()?;
    Sentence::new(rt.alloc(), text, image, &numbers)
}

/// The lengths that a run was given in the place of sources.
fn lengths_of<'b>(action: &'b Action<'_>) -> &'b [u64] {
    match action {
        Action::Check { lengths, .. }
        | Action::Migrate { lengths, .. }
        | Action::Log { lengths, .. } => lengths.numbers.as_slice(),
        Action::CheckInput
        | Action::Show { .. }
        | Action::Blame { .. }
        | Action::Cut { .. }
        | Action::Join { .. }
        | Action::Find { .. }
        | Action::Cmp { .. }
        | Action::Edit { .. }
        | Action::Discard { .. }
        | Action::Commit { .. }
        | Action::Restore { .. }
        | Action::Serve { .. }
        | Action::Apply { .. } => &[],
    }
}

/// What an image says of sources of which the lengths alone are given, all or some.
fn other_lengths<R: Files + AllocGlobal>(
    rt: &R,
    image: &str,
    given: usize,
    source: &str,
) -> Option<Sentence> {
    let alloc = rt.alloc();
    if source.is_empty() {
        let text = "the sources of % are # in number, and # are given";
        let numbers = format!(in alloc; "{},{given}", source_count(rt, image)?).ok()?;
        return Sentence::new(alloc, text, image, &numbers);
    }
    let text = "source # of % had # bytes when that was made, and has others now";
    let then = source_len(rt, image, source.parse::<u8>().ok()?)?;
    let numbers = format!(in alloc; "{source},{then}").ok()?;
    Sentence::new(alloc, text, image, &numbers)
}

/// Where nothing but the length of some source is given, its bytes cannot be read.
fn only_length<R: Files + AllocGlobal>(rt: &R, action: &Action<'_>) -> Option<Sentence> {
    if lengths_of(action).is_empty() {
        return None;
    }
    let text = "bytes of a source are wanted whose length alone is given: name the file of each";
    Sentence::new(rt.alloc(), text, "", "")
}

/// How long a source is, and how long it was when the image was made.
fn other_len<R: Files + AllocGlobal>(
    rt: &R,
    image: &str,
    sources: &[&str],
    source: &str,
) -> Option<Sentence> {
    let text = "source #, %, has # bytes, and the image was made over #";
    let number = source.parse::<u8>().ok()?;
    let path = sources.get(number as usize)?;
    let now = len(rt, path)?;
    let then = source_len(rt, image, number)?;
    let numbers = format!(in rt.alloc(); "{source},{now},{then}").ok()?;
    Sentence::new(rt.alloc(), text, path, &numbers)
}

/// The first of the files that cannot be read.
fn unread<R: Files + AllocGlobal>(rt: &R, action: &Action<'_>) -> Option<Sentence> {
    let unread = first_unread(rt, &inputs(rt.alloc(), action).ok()?)?;
    Sentence::new(rt.alloc(), failure(unread.why), unread.path, "")
}

/// The first of the files that is too long.
fn too_long<R: Files + AllocGlobal>(rt: &R, action: &Action<'_>) -> Option<Sentence> {
    let path = first_too_long(rt, &inputs(rt.alloc(), action).ok()?)?;
    Sentence::new(rt.alloc(), meaning("S5"), path, "")
}

/// What an image says of the sources that are given with it.
fn other_given<R: Files + AllocGlobal>(
    rt: &R,
    image: &str,
    sources: &[&str],
    numbers: &str,
) -> Option<Sentence> {
    if numbers.is_empty() {
        other_count(rt, image, sources)
    } else {
        other_len(rt, image, sources, numbers)
    }
}

/// What the files of a run over an image say of its sources.
fn other_sources<R: Files + AllocGlobal>(
    rt: &R,
    action: &Action<'_>,
    numbers: &str,
) -> Option<Sentence> {
    if let Action::Edit {
        onto: Some(image),
        file: source,
        ..
    }
    | Action::Serve { image, source, .. } = action
    {
        return match source {
            Some(source) => other_given(rt, image, &[*source], numbers),
            None => other_given(rt, image, &[], numbers),
        };
    }
    let (image, sources) = image_of(action)?;
    let lengths = lengths_of(action).len();
    if lengths > 0 {
        return other_lengths(rt, image, sources.len() + lengths, numbers);
    }
    other_given(rt, image, sources, numbers)
}

/// Which file is no image, and stays: the image, or the one beside it that was to be the image.
fn no_image<R: Files + AllocGlobal>(rt: &R, image: &str) -> Option<Sentence> {
    let text =
        "% is no image: it does not begin with CORDSESS. It stays as it is: move it away and give \
        the same command again, or name another image";
    if !is_image(rt, image) {
        return Sentence::new(rt.alloc(), text, image, "");
    }
    let part = format!(in rt.alloc(); "{image}.new").ok()?;
    Sentence::new(rt.alloc(), text, &part, "")
}

/// Which lines are of another session.
fn other_lines<R: Files + AllocGlobal>(rt: &R, image: &str) -> Option<Sentence> {
    let lines = format!(in rt.alloc(); "{image}.lines").ok()?;
    let over = format!(in rt.alloc(); "{lines}.over").ok()?;
    let text = if len(rt, &over).is_some() {
        "% has the lines of another image, which is kept as %.over, or of another file"
    } else {
        "% has the lines of another image or file, or something else"
    };
    Sentence::new(rt.alloc(), text, &lines, "")
}

/// Which lines a session keeps, where no keys are kept beside the image.
fn kept_lines<R: Files + AllocGlobal>(rt: &R, image: &str) -> Option<Sentence> {
    let keys = format!(in rt.alloc(); "{image}.keys").ok()?;
    if len(rt, &keys).is_some_and(|size| size > 0) {
        return None;
    }
    let lines = format!(in rt.alloc(); "{image}.lines").ok()?;
    let aside = format!(in rt.alloc(); "{lines}.saved").ok()?;
    if len(rt, &lines).is_none() && len(rt, &aside).is_none() {
        return None;
    }
    let text = "cordkit serve keeps the lines of a session in %, and has not saved them";
    Sentence::new(rt.alloc(), text, &lines, "")
}

/// What the files say, where they say more than the code means.
fn seen<R: Files + AllocGlobal>(
    rt: &R,
    action: &Action<'_>,
    name: &str,
    numbers: &str,
) -> Option<Sentence> {
    match name {
        "read" => match unread(rt, action) {
            None => only_length(rt, action),
            file => file,
        },
        "S5" => too_long(rt, action),
        "I3" => match run_of(action) {
            Run::Edits(Editing { image, .. })
            | Run::Commits { image, .. }
            | Run::Serves { image } => no_image(rt, image),
            Run::Reads | Run::Joins | Run::Applies { .. } | Run::Discards { .. } => None,
        },
        "J1" => match run_of(action) {
            Run::Serves { image } => other_lines(rt, image),
            Run::Reads
            | Run::Joins
            | Run::Applies { .. }
            | Run::Commits { .. }
            | Run::Edits(_)
            | Run::Discards { .. } => None,
        },
        "J2" => match run_of(action) {
            Run::Edits(Editing { image, .. })
            | Run::Commits { image, .. }
            | Run::Serves { image } => kept_lines(rt, image),
            Run::Reads | Run::Joins | Run::Applies { .. } | Run::Discards { .. } => None,
        },
        "C2" | "C3" => other_sources(rt, action, numbers),
        "E3" | "N1" | "P" => match run_of(action) {
            Run::Applies { script } => seen_in_line(rt, script, name, numbers),
            Run::Reads
            | Run::Joins
            | Run::Commits { .. }
            | Run::Edits(_)
            | Run::Discards { .. }
            | Run::Serves { .. } => None,
        },
        _ => None,
    }
}

/// What a run writes to.
fn output(alloc: Global, action: &Action<'_>) -> Result<String, AllocError> {
    if let Action::Restore { image, file, .. } = action {
        return format!(in alloc; "the image {image}, {file} or standard output");
    }
    match run_of(action) {
        Run::Edits(Editing { image, .. }) => {
            format!(in alloc; "the image {image}, the file of keys or standard output")
        }
        Run::Discards { keys } => String::from_str(alloc, keys),
        Run::Commits { image, .. } => format!(in alloc; "the image {image} or standard output"),
        Run::Serves { image } => {
            format!(in alloc; "the image {image}, the file of its lines or standard output")
        }
        Run::Reads | Run::Joins | Run::Applies { .. } => String::from_str(alloc, "standard output"),
    }
}

/// The file that a run reads, or those that it may have been where it reads several.
fn one_input(alloc: Global, action: &Action<'_>) -> Result<String, AllocError> {
    let inputs = inputs(alloc, action)?;
    match inputs.as_slice() {
        [] => String::from_str(alloc, "standard input"),
        [file] => String::from_str(alloc, file),
        [first, second] => format!(in alloc; "{first} or {second}"),
        [first, .., last] => format!(in alloc; "one of the files from {first} to {last}"),
    }
}

/// What a run reads.
fn input(alloc: Global, action: &Action<'_>) -> Result<String, AllocError> {
    match run_of(action) {
        Run::Edits(Editing { image, file, .. }) => {
            let file = file.unwrap_or(image);
            format!(in alloc; "standard input, the file of keys or {file}")
        }
        Run::Discards { keys } => String::from_str(alloc, keys),
        Run::Serves { image } => {
            format!(in alloc; "standard input, {image} or the file of its lines")
        }
        Run::Reads | Run::Joins | Run::Applies { .. } | Run::Commits { .. } => {
            one_input(alloc, action)
        }
    }
}

/// What the code of a refusal of an editor's session is about.
fn refused_session(alloc: Global, session: Editing<'_>, name: &str) -> Result<String, AllocError> {
    let Editing {
        onto,
        keys,
        image,
        file,
    } = session;
    match name {
        "J1" | "J2" | "J5" => String::from_str(alloc, keys.unwrap_or(image)),
        "J3" | "J4" | "I3" => String::from_str(alloc, image),
        "K1" => match onto {
            Some(older) => format!(in alloc; "a text of {older}"),
            None => String::from_str(alloc, file.unwrap_or(image)),
        },
        "N1" | "N3" | "N4" => String::from_str(alloc, onto.unwrap_or(file.unwrap_or(image))),
        _ => String::from_str(alloc, onto.unwrap_or(image)),
    }
}

/// What the code of a refusal is about, where a session is served: a line that was kept, their file, or the image.
fn refused_service(
    alloc: Global,
    image: &str,
    name: &str,
    numbers: &str,
) -> Result<String, AllocError> {
    match name.as_bytes() {
        [b'E' | b'N' | b'P', ..] if !numbers.is_empty() => {
            format!(in alloc; "line {numbers} of {image}.lines")
        }
        _ if name == "J2" => format!(in alloc; "{image}.keys"),
        _ if name == "J1" => format!(in alloc; "{image}.lines"),
        _ => String::from_str(alloc, image),
    }
}

/// What the code of a refusal is about: a file, or a line of a script.
fn refused(
    alloc: Global,
    action: &Action<'_>,
    name: &str,
    numbers: &str,
) -> Result<String, AllocError> {
    let run = run_of(action);
    match run {
        Run::Applies { script } if !is_of_image(run, name, numbers) => {
            format!(in alloc; "line {numbers} of {script}")
        }
        Run::Commits { image, file } => match name {
            "J2" => format!(in alloc; "{image}.keys"),
            "J6" => String::from_str(alloc, file),
            _ => format!(in alloc; "the commit of {file}"),
        },
        Run::Discards { keys } => String::from_str(alloc, keys),
        Run::Edits(session) => refused_session(alloc, session, name),
        Run::Serves { image } => refused_service(alloc, image, name, numbers),
        Run::Joins => String::from_str(alloc, "the files together"),
        Run::Reads | Run::Applies { .. } => input(alloc, action),
    }
}

/// What a code is about.
fn about(
    alloc: Global,
    action: &Action<'_>,
    name: &str,
    numbers: &str,
) -> Result<String, AllocError> {
    match name {
        "write" => output(alloc, action),
        "read" => input(alloc, action),
        _ => match image_of(action) {
            Some((image, _)) if is_of_image(run_of(action), name, numbers) => {
                String::from_str(alloc, image)
            }
            _ => refused(alloc, action, name, numbers),
        },
    }
}

/// A code with its sentence.
pub(crate) fn with_code<'a>(told: &'a str, sentence: Sentence) -> Explanation<'a>
    ensures { result.code ≡ told.entry }
{
    Explanation {
        code: told,
        sentence,
    }
}

/// What the code means that a run of this action ended with, as the files say
/// that it reads. There is nothing to tell where memory has no room for it.
pub fn explained<'a, R: Files + AllocGlobal>(
    rt: &R,
    action: &Action<'_>,
    code: &'a str,
) -> Option<Explanation<'a>>
    ensures code { IfSome result (λ e. e.code ≡ code.entry) }
{
    let (name, numbers) = parts_of(code);
    if let Some(sentence) = seen(rt, action, name, numbers) {
        return Some(with_code(code, sentence));
    }
    let about = about(rt.alloc(), action, name, numbers).ok()?;
    let sentence = Sentence::new(rt.alloc(), meaning(name), &about, numbers)?;
    Some(with_code(code, sentence))
}
