//! The tools on worked inputs, each run again where it was refused
//! memory: what was written then is a front of its answer.

use crate::fakes::{Giver, ONE_INSERT, ONE_INSERT_IN_TWO, Taker};
use crate::refusals::{Refusals, TRIES, assert_same};
use crate::searches::added;
use cord_tools::{
    Outcome, Status, ToolFault, exit_status, refuse_check, run_check, run_cmp, run_cut, run_find,
    run_find_all, run_join, run_migrate, run_show, run_stdin,
};
use lazy_file::{AddFault, MemSources, Sources};
use std::alloc::AllocGlobal;
use std::process::Abort;

/// A tool, with what it is given beside sources and a writer.
#[derive(Clone, Copy, Debug)]
pub enum Tool<'a> {
    Stdin(&'a [u8]),
    Check(&'a [u8]),
    Show(&'a [u8], u64),
    Migrate(&'a [u8]),
    Refuse(AddFault),
    Cut(u64, u64),
    Join,
    Find(u64, &'a [u8]),
    FindAll(u64, &'a [u8]),
    Cmp,
}

type Answer = Result<Status, ToolFault>;

fn done(answer: Result<(), ToolFault>) -> Answer {
    match answer {
        Ok(()) => Ok(Status::Success),
        Err(fault) => Err(fault),
    }
}

/// Runs a tool of images.
fn run_of_image<A: AllocGlobal + Abort>(
    rt: &A,
    tool: Tool<'_>,
    sources: &mut MemSources<'_>,
    writer: &mut Taker,
) -> Answer {
    let alloc = rt.alloc();
    match tool {
        Tool::Stdin(bytes) => run_stdin(alloc, Giver { bytes }, writer),
        Tool::Check(bytes) => run_check(alloc, Giver { bytes }, 0, sources, None, writer),
        Tool::Show(bytes, k) => {
            done(run_show(alloc, Giver { bytes }, 0, sources, None, k, writer))
        }
        Tool::Migrate(bytes) => {
            done(run_migrate(alloc, Giver { bytes }, 0, sources, None, writer))
        }
        Tool::Refuse(refusal) => refuse_check(alloc, refusal, writer),
        Tool::Cut(..) | Tool::Join | Tool::Find(..) | Tool::FindAll(..) | Tool::Cmp => {
            panic!(rt; "no tool of images")
        }
    }
}

/// Runs a tool.
fn run<A: AllocGlobal + Abort>(
    rt: &A,
    tool: Tool<'_>,
    sources: &mut MemSources<'_>,
    writer: &mut Taker,
) -> Answer {
    let alloc = rt.alloc();
    let count = sources.count();
    match tool {
        Tool::Cut(start, most) => {
            assert!(rt; count >= 1);
            done(run_cut(alloc, sources, start, most, writer))
        }
        Tool::Find(start, pattern) => {
            assert!(rt; count >= 1);
            run_find(alloc, sources, start, pattern, writer)
        }
        Tool::FindAll(start, pattern) => {
            assert!(rt; count >= 1);
            run_find_all(alloc, sources, start, pattern, writer)
        }
        Tool::Cmp => {
            assert!(rt; count >= 2);
            run_cmp(alloc, sources, writer)
        }
        Tool::Join => done(run_join(alloc, sources, writer)),
        Tool::Stdin(_) | Tool::Check(_) | Tool::Show(..) | Tool::Migrate(_) | Tool::Refuse(_) => {
            run_of_image(rt, tool, sources, writer)
        }
    }
}

/// Runs a tool over these texts, once more where it was refused memory, and looks at what it answers and writes.
fn answers<A: AllocGlobal + Abort>(
    rt: &A,
    tool: Tool<'_>,
    texts: &[&[u8]],
    wanted: (Answer, &[u8]),
    refusals: &mut Refusals,
) {
    let mut sources = MemSources::new(rt.alloc());
    for text in texts {
        // The texts get the numbers of their order.
        let _ = added(rt, &mut sources, *text, refusals);
    }
    let (answer, line) = wanted;
    for _ in 0..TRIES {
        let mut writer = Taker::new();
        let found = run(rt, tool, &mut sources, &mut writer);
        if found == Err(ToolFault::Memory) {
            let status = exit_status(Outcome::Ended(ToolFault::Memory));
            assert_same(rt, &status, &3, &tool);
            let count = writer.taken().len();
            refusals.met(rt, &Some(writer.taken()), &line.get(..count));
        } else {
            assert_same(rt, &found, &answer, &tool);
            assert_same(rt, &writer.taken(), &line, &tool);
            return;
        }
    }
    panic!(rt; "refused each time: {tool:?}")
}

const ACCEPTED: &[u8] = b"accepted 2 revisions 1 nodes 1 rows\n";

pub(crate) fn checked<A: AllocGlobal + Abort>(rt: &A, refusals: &mut Refusals) {
    let accepted = (Ok(Status::Success), ACCEPTED);
    answers(rt, Tool::Stdin(ONE_INSERT), &[], accepted, refusals);
    answers(rt, Tool::Check(ONE_INSERT), &[], accepted, refusals);
    let refused = (Ok(Status::Failure), b"refused C2\n".as_slice());
    answers(rt, Tool::Check(ONE_INSERT), &[b"abc"], refused, refusals);
    let long = (Ok(Status::Failure), b"refused S5\n".as_slice());
    let tool = Tool::Refuse(AddFault::SourceTooLong);
    answers(rt, tool, &[], long, refusals);
}

pub(crate) fn shown<A: AllocGlobal + Abort>(rt: &A, refusals: &mut Refusals) {
    let text = (Ok(Status::Success), b"abc".as_slice());
    answers(rt, Tool::Show(ONE_INSERT, 1), &[], text, refusals);
    let none = (Err(ToolFault::NoRevision), b"".as_slice());
    answers(rt, Tool::Show(ONE_INSERT, 2), &[], none, refusals);
}

pub(crate) fn migrated<A: AllocGlobal + Abort>(rt: &A, refusals: &mut Refusals) {
    let anew = (Ok(Status::Success), ONE_INSERT_IN_TWO);
    answers(rt, Tool::Migrate(ONE_INSERT), &[], anew, refusals);
}

/// The tools of texts.
pub(crate) fn texts<A: AllocGlobal + Abort>(rt: &A, refusals: &mut Refusals) {
    let files = [b"abcde".as_slice(), b"ab"];
    for (tool, status, line) in [
        (Tool::Cut(3, 10), Status::Success, b"de".as_slice()),
        (Tool::Cut(9, 1), Status::Success, b""),
        (Tool::Join, Status::Success, b"abcdeab"),
        (Tool::Find(0, b"zz"), Status::Failure, b""),
        (Tool::Find(1, b"cd"), Status::Success, b"2\n"),
        (Tool::FindAll(1, b"de"), Status::Success, b"3\n"),
        (Tool::FindAll(2, b""), Status::Success, b"2\n3\n4\n5\n"),
        (Tool::FindAll(0, b"zz"), Status::Failure, b""),
        (Tool::Cmp, Status::Failure, b"greater\n"),
    ] {
        answers(rt, tool, &files, (Ok(status), line), refusals);
    }
    let less = (Ok(Status::Failure), b"less\n".as_slice());
    answers(rt, Tool::Cmp, &[b"ab", b"abc"], less, refusals);
}
