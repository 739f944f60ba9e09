//! Words and what is read of them. What the program prints of words that it refuses, its own table shows.

use clap::error::ErrorKind;
use cord_words::{WordsFault, no_text, words};
use std::alloc::{AllocError, AllocGlobal};
use std::process::Abort;
use std::test::Fail;

/// The words of a line, which stand one space apart.
fn line<A: AllocGlobal>(rt: &A, text: &str) -> Result<Vec<String>, AllocError> {
    let alloc = rt.alloc();
    let mut words = Vec::new(alloc);
    for word in text.split(' ') {
        words.push(String::from_str(alloc, word)?)?;
    }
    Ok(words)
}

/// What is read of a line, as it is written in Rust, behind a word where it is to be explained, and one where nothing
/// is told on the way; the kind of the refusal alone; the version.
fn told<A: AllocGlobal>(rt: &A, text: &str) -> Result<String, AllocError> {
    let alloc = rt.alloc();
    let line = line(rt, text)?;
    match words(alloc, line.as_slice()) {
        Ok(request) => {
            let explained = if request.explain { "explained " } else { "" };
            let quiet = if request.quiet { "quiet " } else { "" };
            let action = request.action;
            format!(in alloc; "{explained}{quiet}{action:?}")
        }
        Err(WordsFault::Version(error)) => format!(in alloc; "{error}"),
        Err(WordsFault::Memory) => Err(AllocError),
        Err(WordsFault::Usage(error)) => {
            let kind: ErrorKind = error.kind();
            format!(in alloc; "{kind:?}")
        }
    }
}

/// Each line is told so.
fn assert_told<A: AllocGlobal + Abort>(rt: &A, rows: &[(&str, &str)]) -> Result<(), Fail> {
    for (text, wanted) in rows {
        let read = told(rt, text)?;
        assert_eq!(rt; read.as_str(), *wanted, "{text}");
    }
    Ok(())
}

#[test]
fn words_over_images_are_read(rt: HostRuntime) -> Result<(), Fail> {
    assert_told(
        &rt,
        &[
            ("cordkit", "CheckInput"),
            (
                "cordkit check a.cord",
                r#"Check { at_most: None, lengths: Lengths { numbers: [], files_before: [] }, image: "a.cord", sources: [] }"#,
            ),
            (
                "cordkit check a -- b -c",
                r#"Check { at_most: None, lengths: Lengths { numbers: [], files_before: [] }, image: "a", sources: ["b", "-c"] }"#,
            ),
            (
                "cordkit migrate --at-most 0 a b",
                r#"Migrate { at_most: Some(0), lengths: Lengths { numbers: [], files_before: [] }, image: "a", sources: ["b"] }"#,
            ),
            (
                "cordkit log a b",
                r#"Log { at_most: None, lengths: Lengths { numbers: [], files_before: [] }, brief: false, image: "a", sources: ["b"] }"#,
            ),
            (
                "cordkit log a --brief --at-most=7",
                r#"Log { at_most: Some(7), lengths: Lengths { numbers: [], files_before: [] }, brief: true, image: "a", sources: [] }"#,
            ),
            (
                "cordkit check --length 7 a b --length=0 c",
                r#"Check { at_most: None, lengths: Lengths { numbers: [7, 0], files_before: [0, 1] }, image: "a", sources: ["b", "c"] }"#,
            ),
            (
                "cordkit log a --brief --length 18446744073709551615",
                r#"Log { at_most: None, lengths: Lengths { numbers: [18446744073709551615], files_before: [0] }, brief: true, image: "a", sources: [] }"#,
            ),
            (
                "cordkit migrate --length 3 --length 2 a",
                r#"Migrate { at_most: None, lengths: Lengths { numbers: [3, 2], files_before: [0, 0] }, image: "a", sources: [] }"#,
            ),
            (
                "cordkit check --length 18446744073709551616 a",
                "ValueValidation",
            ),
            ("cordkit check --length 1 --length x a", "ValueValidation"),
        ],
    )
}

#[test]
fn words_that_name_a_revision_are_read(rt: HostRuntime) -> Result<(), Fail> {
    assert_told(
        &rt,
        &[
            (
                "cordkit show a 18446744073709551615 c b",
                r#"Show { at_most: None, image: "a", revision: Some(18446744073709551615), sources: ["c", "b"] }"#,
            ),
            (
                "cordkit show a 2 --at-most 137",
                r#"Show { at_most: Some(137), image: "a", revision: Some(2), sources: [] }"#,
            ),
            (
                "cordkit show a",
                r#"Show { at_most: None, image: "a", revision: None, sources: [] }"#,
            ),
            (
                "cordkit show --at-most 0 a last b",
                r#"Show { at_most: Some(0), image: "a", revision: None, sources: ["b"] }"#,
            ),
            (
                "cordkit blame a 2 b",
                r#"Blame { at_most: None, start: None, count: None, image: "a", revision: Some(2), sources: ["b"] }"#,
            ),
            (
                "cordkit blame --start 4 --count=1 --at-most 7 a 2",
                r#"Blame { at_most: Some(7), start: Some(4), count: Some(1), image: "a", revision: Some(2), sources: [] }"#,
            ),
            (
                "cordkit blame a --start 4",
                r#"Blame { at_most: None, start: Some(4), count: None, image: "a", revision: None, sources: [] }"#,
            ),
        ],
    )
}

#[test]
fn words_of_scripts_and_commits_are_read(rt: HostRuntime) -> Result<(), Fail> {
    assert_told(
        &rt,
        &[
            (
                "cordkit apply s.txt b a",
                r#"Apply { onto: None, at_most: None, script: "s.txt", sources: ["b", "a"] }"#,
            ),
            (
                "cordkit apply --onto a.cord s.txt b",
                r#"Apply { onto: Some("a.cord"), at_most: None, script: "s.txt", sources: ["b"] }"#,
            ),
            (
                "cordkit apply --at-most 9 s.txt --onto=-",
                r#"Apply { onto: Some("-"), at_most: Some(9), script: "s.txt", sources: [] }"#,
            ),
            (
                "cordkit commit a b",
                r#"Commit { at_most: None, image: "a", file: "b", sources: [] }"#,
            ),
            (
                "cordkit commit --at-most=7 a b c d",
                r#"Commit { at_most: Some(7), image: "a", file: "b", sources: ["c", "d"] }"#,
            ),
            (
                "cordkit restore a 3 b",
                r#"Restore { at_most: None, image: "a", revision: Some(3), file: "b", sources: [] }"#,
            ),
            (
                "cordkit restore a last b",
                r#"Restore { at_most: None, image: "a", revision: None, file: "b", sources: [] }"#,
            ),
            (
                "cordkit restore --at-most=7 a 3 b c d",
                r#"Restore { at_most: Some(7), image: "a", revision: Some(3), file: "b", sources: ["c", "d"] }"#,
            ),
            (
                "cordkit serve a",
                r#"Serve { at_most: None, image: "a", source: None }"#,
            ),
            (
                "cordkit serve a --at-most=7 b",
                r#"Serve { at_most: Some(7), image: "a", source: Some("b") }"#,
            ),
        ],
    )
}

#[test]
fn words_over_files_are_read(rt: HostRuntime) -> Result<(), Fail> {
    assert_told(
        &rt,
        &[
            (
                "cordkit cut 3 10 a.txt",
                r#"Cut { start: 3, count: 10, file: "a.txt" }"#,
            ),
            ("cordkit join c b c", r#"Join { files: ["c", "b", "c"] }"#),
            (
                "cordkit find 7 needle a.txt",
                r#"Find { all: false, start: 7, pattern: "needle", file: "a.txt" }"#,
            ),
            (
                "cordkit find --all 7 needle a.txt",
                r#"Find { all: true, start: 7, pattern: "needle", file: "a.txt" }"#,
            ),
            (
                "cordkit find 7 -- --all a.txt",
                r#"Find { all: false, start: 7, pattern: "--all", file: "a.txt" }"#,
            ),
            ("cordkit cmp b a", r#"Cmp { first: "b", second: "a" }"#),
            (
                "cordkit edit a.cord",
                r#"Edit { onto: None, keys: None, session: None, no_clobber: false, replace: false, image: "a.cord", file: None }"#,
            ),
            (
                "cordkit edit a.cord b.txt",
                r#"Edit { onto: None, keys: None, session: None, no_clobber: false, replace: false, image: "a.cord", file: Some("b.txt") }"#,
            ),
            (
                "cordkit edit --keep k a.cord b.txt",
                r#"Edit { onto: None, keys: Some("k"), session: None, no_clobber: false, replace: false, image: "a.cord", file: Some("b.txt") }"#,
            ),
            (
                "cordkit edit --keep=k -- -a.cord",
                r#"Edit { onto: None, keys: Some("k"), session: None, no_clobber: false, replace: false, image: "-a.cord", file: None }"#,
            ),
            (
                "cordkit edit --keep k --no-clobber --session s a.cord",
                r#"Edit { onto: None, keys: Some("k"), session: Some("s"), no_clobber: true, replace: false, image: "a.cord", file: None }"#,
            ),
            (
                "cordkit edit --onto o --keep k a.cord b.txt",
                r#"Edit { onto: Some("o"), keys: Some("k"), session: None, no_clobber: false, replace: false, image: "a.cord", file: Some("b.txt") }"#,
            ),
            (
                "cordkit edit --replace a.cord",
                r#"Edit { onto: None, keys: None, session: None, no_clobber: false, replace: true, image: "a.cord", file: None }"#,
            ),
            ("cordkit edit --discard k", r#"Discard { keys: "k" }"#),
            (
                "cordkit edit --discard --explain -- -k",
                r#"explained Discard { keys: "-k" }"#,
            ),
        ],
    )
}

#[test]
fn words_are_refused_by_their_kinds(rt: HostRuntime) -> Result<(), Fail> {
    assert_told(
        &rt,
        &[
            ("cordkit edit --keep", "InvalidValue"),
            ("cordkit edit --discard", "MissingRequiredArgument"),
            ("cordkit edit --discard k a", "ArgumentConflict"),
            ("cordkit edit --discard --keep j k", "ArgumentConflict"),
            ("cordkit edit k --discard --session s", "ArgumentConflict"),
            ("cordkit edit --discard --no-clobber k", "ArgumentConflict"),
            ("cordkit edit --discard --replace k", "ArgumentConflict"),
            ("cordkit edit --discard --onto o k", "ArgumentConflict"),
            ("cordkit edit --onto o", "MissingRequiredArgument"),
            ("cordkit edit --onto o --onto p a", "ArgumentConflict"),
            ("cordkit frob", "InvalidSubcommand"),
            ("cordkit show a -1", "UnknownArgument"),
            ("cordkit show", "MissingRequiredArgument"),
            ("cordkit show a LAST", "ValueValidation"),
            ("cordkit show a x", "ValueValidation"),
            ("cordkit check --at-most x a", "ValueValidation"),
            ("cordkit log --at-most x a", "ValueValidation"),
            ("cordkit restore a b c", "ValueValidation"),
            ("cordkit restore a 1", "MissingRequiredArgument"),
            ("cordkit apply --at-most 9 s", "MissingRequiredArgument"),
            ("cordkit apply --at-most x s", "MissingRequiredArgument"),
            ("cordkit apply --at-most x --onto a s", "ValueValidation"),
            ("cordkit apply --onto a", "MissingRequiredArgument"),
            ("cordkit find --all x b a", "ValueValidation"),
            ("cordkit find --all --all 1 b a", "ArgumentConflict"),
            ("cordkit log --brief=yes a", "TooManyValues"),
            ("cordkit check --brief a", "UnknownArgument"),
            ("cordkit help show", "DisplayHelp"),
        ],
    )
}

#[test]
fn explanations_silence_and_the_version_are_asked_for(rt: HostRuntime) -> Result<(), Fail> {
    assert_told(
        &rt,
        &[
            ("cordkit --quiet", "quiet CheckInput"),
            (
                "cordkit cmp --quiet b a --explain",
                r#"explained quiet Cmp { first: "b", second: "a" }"#,
            ),
            ("cordkit --quiet join a", r#"quiet Join { files: ["a"] }"#),
            (
                "cordkit cmp b -- --quiet",
                r#"Cmp { first: "b", second: "--quiet" }"#,
            ),
            ("cordkit check a --quiet b --quiet", "ArgumentConflict"),
            ("cordkit --explain", "explained CheckInput"),
            (
                "cordkit cmp b --explain a",
                r#"explained Cmp { first: "b", second: "a" }"#,
            ),
            (
                "cordkit --explain cmp b a",
                r#"explained Cmp { first: "b", second: "a" }"#,
            ),
            (
                "cordkit cmp b -- --explain",
                r#"Cmp { first: "b", second: "--explain" }"#,
            ),
            ("cordkit check --explain", "MissingRequiredArgument"),
            ("cordkit cmp --version", "UnknownArgument"),
            (
                "cordkit --version",
                "cordkit 1.0.0 (rattle-kit-13f logic dac8208d650f15bf)\n",
            ),
            (
                "cordkit -V",
                "cordkit 1.0.0 (rattle-kit-13f logic dac8208d650f15bf)\n",
            ),
        ],
    )
}

#[test]
fn words_that_are_no_text_are_refused_with_the_usage(rt: HostRuntime) -> Result<(), Fail> {
    let WordsFault::Usage(error) = no_text(rt.alloc()) else {
        return Err(Fail::from(AllocError));
    };
    let told = format!(in rt.alloc(); "{error}")?;
    let wanted =
        "error: a word is no UTF-8\n\nUsage: cordkit [OPTIONS] [COMMAND]\n\nFor more information, try '--help'.\n";
    assert_eq!(rt; told.as_str(), wanted);
    Ok(())
}
