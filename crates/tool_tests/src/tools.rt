//! Each tool over readers, writers and sources that fail at one place after the other.

use crate::fakes::{Flaky, Full, Giver, Taker};
use crate::images::{ONE_INSERT, ONE_INSERT_IN_TWO, OPEN_SOURCE};
use crate::same::assert_same;
use cord_tools::{
    Outcome, Status, ToolFault, exit_status, read_source, refuse_check, run_check, run_cmp,
    run_cut, run_find, run_find_all, run_join, run_migrate, run_show, run_stdin,
};
use edit_commands::EditFault;
use image_reader::ReadFault;
use lazy_file::{AddFault, MemSources, SourceFault, Sources};
use node_table::NodeFault;
use rebalance::BalanceFault;
use saved_session::TakeFault;
use session_checker::CheckFault;
use std::alloc::AllocGlobal;
use std::io::Write;
use std::process::Abort;

/// A tool, with what it is given beside sources and a writer.
#[derive(Clone, Copy, Debug)]
enum Tool<'a> {
    Stdin(Giver<'a>),
    Check(Giver<'a>),
    Show(Giver<'a>, u64),
    Migrate(Giver<'a>),
    Refuse(AddFault),
    Cut(u64, u64),
    Join,
    Find(u64, &'a [u8]),
    FindAll(u64, &'a [u8]),
    Cmp,
}

/// Checks an image with its sources.
fn check<R: AllocGlobal, S: Sources, W: Write>(
    rt: &R,
    image: Giver<'_>,
    sources: &mut S,
    writer: &mut W,
) -> Result<Status, ToolFault> {
    run_check(rt.alloc(), image, 0, sources, None, writer)
}

/// Checks standard input.
fn check_input<R: AllocGlobal, W: Write>(
    rt: &R,
    input: Giver<'_>,
    writer: &mut W,
) -> Result<Status, ToolFault> {
    run_stdin(rt.alloc(), input, writer)
}

/// Shows a revision.
pub(crate) fn show<R: AllocGlobal, S: Sources, W: Write>(
    rt: &R,
    image: Giver<'_>,
    sources: &mut S,
    revision: u64,
    writer: &mut W,
) -> Result<(), ToolFault> {
    run_show(rt.alloc(), image, 0, sources, None, revision, writer)
}

/// Runs the tool. Where it is one of files, they are as many as it asks for.
fn run<R: AllocGlobal + Abort, S: Sources, W: Write>(
    rt: &R,
    tool: Tool<'_>,
    sources: &mut S,
    writer: &mut W,
) -> Result<Status, ToolFault> {
    let alloc = rt.alloc();
    let count = sources.count();
    match tool {
        Tool::Stdin(input) => return check_input(rt, input, writer),
        Tool::Check(image) => return check(rt, image, sources, writer),
        Tool::Refuse(refusal) => return refuse_check(alloc, refusal, writer),
        Tool::Show(image, revision) => show(rt, image, sources, revision, writer)?,
        Tool::Migrate(image) => run_migrate(alloc, image, 0, sources, None, writer)?,
        Tool::Join => run_join(alloc, sources, writer)?,
        Tool::Cut(start, most) => {
            assert!(rt; count >= 1);
            run_cut(alloc, sources, start, most, writer)?;
        }
        Tool::Find(start, pattern) => {
            assert!(rt; count >= 1);
            return run_find(alloc, sources, start, pattern, writer);
        }
        Tool::FindAll(start, pattern) => {
            assert!(rt; count >= 1);
            return run_find_all(alloc, sources, start, pattern, writer);
        }
        Tool::Cmp => {
            assert!(rt; count >= 2);
            return run_cmp(alloc, sources, writer);
        }
    }
    Ok(Status::Success)
}

/// A tool over texts: of which of them it reads bytes, what it writes, and how it ends.
#[derive(Clone, Copy)]
struct Case<'a> {
    tool: Tool<'a>,
    texts: &'a [&'a [u8]],
    read: &'a [u8],
    answer: &'a [u8],
    status: Status,
}

/// The tools over images.
fn cases_of_images() -> [Case<'static>; 5] {
    [
        Case {
            tool: Tool::Stdin(Giver::of(ONE_INSERT)),
            texts: &[],
            read: &[],
            answer: b"accepted 2 revisions 1 nodes 1 rows\n",
            status: Status::Success,
        },
        Case {
            tool: Tool::Check(Giver::of(OPEN_SOURCE)),
            texts: &[b"abc"],
            read: &[0],
            answer: b"accepted 1 revisions 1 nodes 1 rows\n",
            status: Status::Success,
        },
        Case {
            tool: Tool::Check(Giver::of(ONE_INSERT)),
            texts: &[b"abc"],
            read: &[],
            answer: b"refused C2\n",
            status: Status::Failure,
        },
        Case {
            tool: Tool::Show(Giver::of(OPEN_SOURCE), 0),
            texts: &[b"abc"],
            read: &[0],
            answer: b"abc",
            status: Status::Success,
        },
        Case {
            tool: Tool::Migrate(Giver::of(ONE_INSERT)),
            texts: &[],
            read: &[],
            answer: ONE_INSERT_IN_TWO,
            status: Status::Success,
        },
    ]
}

/// The tools over texts, and what is said of one that is too long.
fn cases_of_texts() -> [Case<'static>; 6] {
    [
        Case {
            tool: Tool::Refuse(AddFault::SourceTooLong),
            texts: &[],
            read: &[],
            answer: b"refused S5\n",
            status: Status::Failure,
        },
        Case {
            tool: Tool::Cut(3, 10),
            texts: &[b"abcde", b"ab"],
            read: &[0],
            answer: b"de",
            status: Status::Success,
        },
        Case {
            tool: Tool::Join,
            texts: &[b"abcde", b"ab"],
            read: &[0, 1],
            answer: b"abcdeab",
            status: Status::Success,
        },
        Case {
            tool: Tool::Find(1, b"cd"),
            texts: &[b"abcde", b"ab"],
            read: &[0],
            answer: b"2\n",
            status: Status::Success,
        },
        Case {
            tool: Tool::FindAll(1, b"aa"),
            texts: &[b"aaaaa", b"ab"],
            read: &[0],
            answer: b"1\n3\n",
            status: Status::Success,
        },
        Case {
            tool: Tool::Cmp,
            texts: &[b"ab", b"abc"],
            read: &[0, 1],
            answer: b"less\n",
            status: Status::Failure,
        },
    ]
}

/// Each tool once.
fn cases() -> [Case<'static>; 11] {
    let [stdin, check, refused, show, migrate] = cases_of_images();
    let [long, cut, join, find, find_all, cmp] = cases_of_texts();
    [
        stdin, check, refused, show, migrate, long, cut, join, find, find_all, cmp,
    ]
}

/// The texts as sources.
pub(crate) fn texts_in<'a, R: AllocGlobal + Abort>(rt: &R, texts: &[&'a [u8]]) -> MemSources<'a> {
    let mut sources = MemSources::new(rt.alloc());
    for text in texts {
        // The texts get the numbers of their order.
        let _ = sources.add(*text).expect(rt, "a source");
    }
    sources
}

/// Asserts that a writer with this room has that much of the answer, and that the tool says so.
fn assert_written<R: AllocGlobal + Abort>(rt: &R, case: &Case<'_>, room: usize, full: Full) {
    let mut writer = Taker::with_room(room, full);
    let mut sources = texts_in(rt, case.texts);
    let found = run(rt, case.tool, &mut sources, &mut writer);
    let wanted = if room < case.answer.len() {
        Err(ToolFault::Write)
    } else {
        Ok(case.status)
    };
    assert_same(rt, &found, &wanted, &(case.tool, room));
    let part = case.answer.get(..room).unwrap_or(case.answer);
    assert_same(rt, &writer.taken(), &part, &(case.tool, room));
}

#[test]
fn a_writer_has_the_answer_as_far_as_it_takes_it(rt: HostRuntime) {
    for case in cases() {
        for room in 0..case.answer.len().saturating_add(1) {
            assert_written(&rt, &case, room, Full::Fails);
            assert_written(&rt, &case, room, Full::TakesNothing);
        }
    }
}

/// Asserts what the tool does where its input fails behind so many bytes: nothing is written.
fn assert_unread<R: AllocGlobal + Abort>(rt: &R, tool: Tool<'_>, texts: &[&[u8]], cut: usize) {
    let mut writer = Taker::with_room(64, Full::Fails);
    let mut sources = texts_in(rt, texts);
    let found = run(rt, tool, &mut sources, &mut writer);
    assert_same(rt, &found, &Err(ToolFault::Read), &(tool, cut));
    assert_same(rt, &writer.taken().len(), &0, &(tool, cut));
}

#[test]
fn nothing_is_written_where_an_input_fails(rt: HostRuntime) {
    for cut in 0..ONE_INSERT.len() {
        let image = Giver::cut_at(ONE_INSERT, cut);
        assert_unread(&rt, Tool::Stdin(image), &[], cut);
        assert_unread(&rt, Tool::Check(image), &[], cut);
        assert_unread(&rt, Tool::Show(image, 1), &[], cut);
        assert_unread(&rt, Tool::Migrate(image), &[], cut);
        let fault = read_source(rt.alloc(), image).err();
        assert_same(&rt, &fault, &Some(ToolFault::Read), &cut);
    }
    for cut in 0..OPEN_SOURCE.len() {
        let image = Giver::cut_at(OPEN_SOURCE, cut);
        assert_unread(&rt, Tool::Check(image), &[b"abc"], cut);
        assert_unread(&rt, Tool::Show(image, 0), &[b"abc"], cut);
    }
}

/// Asserts what the tool answers and writes.
fn assert_answers<R: AllocGlobal + Abort>(
    rt: &R,
    tool: Tool<'_>,
    wanted: Result<Status, ToolFault>,
    line: &[u8],
) {
    let mut writer = Taker::with_room(64, Full::Fails);
    let mut sources = texts_in(rt, &[]);
    let found = run(rt, tool, &mut sources, &mut writer);
    assert_same(rt, &found, &wanted, &tool);
    assert_same(rt, &writer.taken(), &line, &tool);
}

#[test]
fn an_image_that_ends_too_early_is_refused(rt: HostRuntime) {
    let refused = Err(ToolFault::Refused(CheckFault::Read(ReadFault::Truncated)));
    for n in 0..ONE_INSERT.len() {
        let image = Giver::of(ONE_INSERT.get(..n).unwrap_or_default());
        let line = b"refused C1(I1)\n";
        assert_answers(&rt, Tool::Stdin(image), Ok(Status::Failure), line);
        assert_answers(&rt, Tool::Check(image), Ok(Status::Failure), line);
        assert_answers(&rt, Tool::Show(image, 1), refused, b"");
        assert_answers(&rt, Tool::Migrate(image), refused, b"");
    }
}

/// Runs the tool over files of which one fails once, behind so many of its reads, and tells whether it did. The tool
/// says so then, and run again, it writes its answer.
fn has_failed<R: AllocGlobal + Abort>(rt: &R, case: &Case<'_>, broken: u8, left: u64) -> bool {
    let mut files = Flaky {
        texts: texts_in(rt, case.texts),
        broken,
        left,
        failed: 0,
    };
    let at = (case.tool, broken, left);
    let mut writer = Taker::with_room(64, Full::Fails);
    let found = run(rt, case.tool, &mut files, &mut writer);
    let has_failed = files.failed > 0;
    if has_failed {
        assert_same(rt, &found, &Err(ToolFault::Read), &at);
        assert!(rt; case.answer.starts_with(writer.taken()), "{at:?}");
        writer = Taker::with_room(64, Full::Fails);
        let again = run(rt, case.tool, &mut files, &mut writer);
        assert_same(rt, &again, &Ok(case.status), &at);
    } else {
        assert_same(rt, &found, &Ok(case.status), &at);
    }
    assert_same(rt, &writer.taken(), &case.answer, &at);
    has_failed
}

#[test]
fn each_read_of_a_file_that_fails_is_told(rt: HostRuntime) {
    for case in cases() {
        for s in 0..texts_in(&rt, case.texts).count() {
            // A file that is read fails at its first read, and one that is not at none.
            let wanted = case.read.contains(&s);
            assert_same(&rt, &has_failed(&rt, &case, s, 0), &wanted, &case.tool);
            for left in 1..8 {
                // Whether a later read is made depends on the tool.
                let _ = has_failed(&rt, &case, s, left);
            }
        }
    }
}

#[test]
fn a_fault_has_its_word_or_its_code_and_a_status(rt: HostRuntime) {
    let too_long = BalanceFault::Node(NodeFault::TooLong);
    let magic = CheckFault::Read(ReadFault::Magic);
    for (fault, words, status) in [
        (ToolFault::from(SourceFault::Memory), "memory", 3),
        (ToolFault::from(SourceFault::Short), "read", 3),
        (ToolFault::Write, "write", 3),
        (ToolFault::from(magic), "refused C1(I3)", 1),
        (ToolFault::from(AddFault::TooManySources), "refused S4", 1),
        (ToolFault::NoRevision, "refused no revision", 1),
        (ToolFault::PatternTooLong, "refused F1", 1),
        (ToolFault::from(too_long), "refused N1", 1),
        (ToolFault::from(EditFault::TooManyRows), "refused E6", 1),
        (
            ToolFault::from(TakeFault::OverSource(7)),
            "refused G1(7)",
            1,
        ),
        (ToolFault::from(TakeFault::TooManyRows), "refused E6", 1),
        (ToolFault::from(TakeFault::Memory), "memory", 3),
        (ToolFault::TextTooLong, "refused K1", 1),
        (ToolFault::TooManyKeys, "refused K2", 1),
        (ToolFault::OtherKeys, "refused J1", 1),
        (ToolFault::KeysInUse, "refused J2", 1),
        (ToolFault::ImageThere, "refused J3", 1),
        (ToolFault::OtherImage, "refused J4", 1),
        (ToolFault::KeysGone, "refused J5", 1),
        (ToolFault::OwnFile, "refused J6", 1),
    ] {
        let printed = format!(in rt.alloc(); "{fault}").expect(&rt, "a line");
        assert_same(&rt, &printed.as_str(), &words, &fault);
        assert_same(&rt, &exit_status(Outcome::Ended(fault)), &status, &fault);
    }
    for (outcome, status) in [
        (Outcome::Answered(Status::Success), 0),
        (Outcome::Answered(Status::Failure), 1),
        (Outcome::Misused, 2),
    ] {
        assert_same(&rt, &exit_status(outcome), &status, &outcome);
    }
}
