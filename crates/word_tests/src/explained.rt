//! What codes mean, of runs that ended with them. With files, tests/program.sh shows it.

use cord_explanations::{explained, explained_file};
use cord_words::{Action, Lengths};
use std::alloc::AllocGlobal;
use std::fs::Files;
use std::io::{Error, ErrorKind};
use std::process::Abort;
use std::test::Fail;

/// Each code of a run is explained so.
fn assert_explained<R: Files + AllocGlobal + Abort>(
    rt: &R,
    rows: &[(Action<'_>, &str, &str)],
) -> Result<(), Fail> {
    for (action, code, wanted) in rows {
        let told = explained(rt, action, code).expect(rt, "an explanation");
        assert_eq!(rt; told.code, *code);
        let told = format!(in rt.alloc(); "{told}")?;
        assert_eq!(rt; told.as_str(), *wanted);
    }
    Ok(())
}

#[test]
fn codes_are_explained(rt: HostRuntime) -> Result<(), Fail> {
    let alloc = rt.alloc();
    assert_explained(
        &rt,
        &[
            (
                Action::CheckInput,
                "C1(I3)",
                "C1(I3): standard input is no image: it does not begin with CORDSESS",
            ),
            (
                Action::Check {
                    at_most: Some(1),
                    lengths: Lengths {
                        numbers: Vec::new(alloc),
                        files_before: Vec::new(alloc),
                    },
                    image: "a.cord",
                    sources: Vec::new(alloc),
                },
                "looks 9",
                "looks 9: the check of a.cord may take 9 looks at nodes, more than --at-most allows",
            ),
            (
                Action::Cut {
                    start: 0,
                    count: 1,
                    file: "missing/a.txt",
                },
                "read",
                "read: there is no file missing/a.txt",
            ),
            (
                Action::Discard { keys: "a.keys" },
                "J5",
                "J5: a.keys is not there, or not the one that the session had",
            ),
        ],
    )
}

#[test]
fn codes_of_a_script_behind_an_image_are_explained(rt: HostRuntime) -> Result<(), Fail> {
    let onto = || Action::Apply {
        onto: Some("a.cord"),
        at_most: None,
        script: "missing/s",
        sources: Vec::new(rt.alloc()),
    };
    assert_explained(
        &rt,
        &[
            (
                onto(),
                "G1(4)",
                "G1(4): revision 4 of a.cord has a row that compares bytes of a source: a session of its commands is made by cordkit log a.cord SOURCE.. | cordkit apply /dev/stdin SOURCE..",
            ),
            (
                onto(),
                "E6",
                "E6: a.cord would make more than 16,777,216 rows",
            ),
            (
                onto(),
                "C4(7)",
                "C4(7): node 7 of a.cord names one that is not earlier, or a source that is not there",
            ),
            (
                onto(),
                "looks 9",
                "looks 9: the check of a.cord may take 9 looks at nodes, more than --at-most allows",
            ),
            (
                onto(),
                "E1(2)",
                "E1(2): line 2 of missing/s names a revision that is not there",
            ),
            (
                onto(),
                "E7(N3,2)",
                "E7(N3,2): line 2 of missing/s would make more nodes than there may be",
            ),
        ],
    )
}

#[test]
fn codes_of_an_edit_behind_an_image_are_explained(rt: HostRuntime) -> Result<(), Fail> {
    let edit = || Action::Edit {
        onto: Some("missing/a.cord"),
        keys: Some("a.keys"),
        session: None,
        no_clobber: false,
        replace: false,
        image: "b.cord",
        file: Some("a.txt"),
    };
    assert_explained(
        &rt,
        &[
            (
                edit(),
                "C1(I4)",
                "C1(I4): missing/a.cord is of a version of the format that is not known",
            ),
            (
                edit(),
                "C3(0)",
                "C3(0): source 0 is not as long as it was when missing/a.cord was made",
            ),
            (
                edit(),
                "G1(4)",
                "G1(4): revision 4 of missing/a.cord has a row that compares bytes of a source: a session of its commands is made by cordkit log missing/a.cord SOURCE.. | cordkit apply /dev/stdin SOURCE..",
            ),
            (
                edit(),
                "K1",
                "K1: a text of missing/a.cord has more than 2,147,483,647 bytes",
            ),
            (
                edit(),
                "J1",
                "J1: a.keys has the keys of another file or image, or something else",
            ),
            (
                edit(),
                "J4",
                "J4: another run has put something else in place of b.cord, or is writing to it: it stays as it is",
            ),
            (edit(), "read", "read: there is no file missing/a.cord"),
        ],
    )
}

#[test]
fn codes_of_a_commit_are_explained(rt: HostRuntime) -> Result<(), Fail> {
    let commit = || Action::Commit {
        at_most: None,
        image: "missing/a.cord",
        file: "a.txt",
        sources: Vec::new(rt.alloc()),
    };
    assert_explained(
        &rt,
        &[
            (
                commit(),
                "C4(1)",
                "C4(1): node 1 of missing/a.cord names one that is not earlier, or a source that is not there",
            ),
            (
                commit(),
                "E5",
                "E5: the commit of a.txt would be more than 1,048,576 revisions",
            ),
            (
                commit(),
                "E7(N4)",
                "E7(N4): the commit of a.txt would put in more bytes than there may be",
            ),
            (
                commit(),
                "J2",
                "J2: a session keeps its keys in missing/a.cord.keys, and has not saved them",
            ),
            (
                commit(),
                "J4",
                "J4: another run has put something else in place of missing/a.cord, or is writing to it: it stays as it is",
            ),
            (
                commit(),
                "J6",
                "J6: a.txt is the image itself, the file beside it that is to be the image, or a source of its session",
            ),
        ],
    )
}

#[test]
fn codes_of_a_session_that_is_served_are_explained(rt: HostRuntime) -> Result<(), Fail> {
    let serve = || Action::Serve {
        at_most: None,
        image: "missing/a.cord",
        source: Some("a.txt"),
    };
    assert_explained(
        &rt,
        &[
            (
                serve(),
                "C4(1)",
                "C4(1): node 1 of missing/a.cord names one that is not earlier, or a source that is not there",
            ),
            (
                serve(),
                "E6",
                "E6: missing/a.cord would make more than 16,777,216 rows",
            ),
            (
                serve(),
                "E1(3)",
                "E1(3): line 3 of missing/a.cord.lines names a revision that is not there",
            ),
            (
                serve(),
                "J1",
                "J1: missing/a.cord.lines has the lines of another image or file, or something else",
            ),
            (
                serve(),
                "J2",
                "J2: a session keeps its keys in missing/a.cord.keys, and has not saved them",
            ),
        ],
    )
}

#[test]
fn files_that_fail_are_explained(rt: HostRuntime) -> Result<(), Fail> {
    let rows = [
        (
            "write",
            ErrorKind::StorageFull,
            "write: a\\x1b[2J.cord could not be written: its disk is full",
        ),
        (
            "write",
            ErrorKind::NotFound,
            "write: a\\x1b[2J.cord could not be written: its folder is not there",
        ),
        (
            "write",
            ErrorKind::BrokenPipe,
            "write: a\\x1b[2J.cord could not be written: it is a pipe that nobody reads any more",
        ),
        (
            "read",
            ErrorKind::IsADirectory,
            "read: a\\x1b[2J.cord is a folder",
        ),
    ];
    for (code, kind, wanted) in rows {
        let told = explained_file(rt.alloc(), code, "a\x1b[2J.cord", Error::from(kind)).expect(
            &rt,
            "an explanation",
        );
        assert_eq!(rt; told.code, code);
        let told = format!(in rt.alloc(); "{told}")?;
        assert_eq!(rt; told.as_str(), wanted);
    }
    let told = explained_file(rt.alloc(), "read", "a", Error::other("it changed")).expect(
        &rt,
        "an explanation",
    );
    let told = format!(in rt.alloc(); "{told}")?;
    assert_eq!(rt;
        told.as_str(),
        "read: a could not be read to its end: it changed"
    );
    Ok(())
}
