//! Scripts that go on from an image. The images are worked by hand from the tables of the format.

use super::logs::{EACH, SOURCE, logged, sources_of};
use super::tools::{ONE_INSERT, Taker, applied, assert_same};
use edit_commands::EditFault;
use edit_script::{Stop, Stopped};
use image_reader::ReadFault;
use saved_session::TakeFault;
use script_tools::{LogTexts, OntoFault, run_apply_onto};
use session_checker::CheckFault;
use std::alloc::AllocGlobal;
use std::process::Abort;
use work_progress::Untold;

/// The insertion of `abc` and behind it that of `d`: the block of the bytes that were there takes no more, so the `d`
/// is a literal by itself, and then one with the three before it.
const TWO_INSERTS: &[u8] = b"CORDSESS\0\0\0\x02\0\0\0\0\0\0\0\x03\0\0\0\x03\0\0\0\x03\
    \0\0\0\0\0\0\0\0\0\0\0\x08\
    \x01\0\0\0\0\0\0\0\0\0\0\0\0\0\0\x03\0\0\0\0\0\0\0\0\
    \0\0\0\0\0\0\0\0\
    \x01\0\0\0\0\0\0\0\0\0\0\0\0\0\0\x01\0\0\0\0\0\0\0\x03\
    \0\0\0\0\0\0\0\0\
    \x01\0\0\0\0\0\0\0\0\0\0\0\0\0\0\x04\0\0\0\0\0\0\0\x04\
    \0\0\0\0\0\0\0\0\
    \x01\0\0\0\xff\xff\xff\xff\0\0\0\0\0\0\0\0\0\0\0\0\0\0\0\0\
    \0\0\0\0\0\0\0\0\0\0\0\0\0\0\0\0\0\0\0\0\0\0\0\0\
    \0\0\0\0\0\0\0\0\
    \x03\x01\0\0\0\0\0\0\0\0\0\0\0\0\0\0\0\0\0\0\0\0\0\0\
    \0\0\0\0\0\0\0\0\0\0\0\0\0\0\0\0\0\0\0\0\0\0\0\x03\
    \0\0\0\x01\0\0\0\0\
    \x03\x01\0\0\0\0\0\x02\0\0\0\x01\0\0\0\0\0\0\0\0\0\0\0\x03\
    \0\0\0\0\0\0\0\0\0\0\0\0\0\0\0\x03\0\0\0\0\0\0\0\x01\
    \0\0\0\x02\0\0\0\0\
    \x02\0\0\0\0\0\0\0\0\0\0\0\0\0\0\x03\0\0\0\0\0\0\0\0\
    \x03\0\0\0\0\0\0\0\0\0\0\0\0\0\0\x03\0\0\0\0\0\0\0\0\
    \x03\0\0\0\0\0\0\0\0\0\0\0\0\0\0\x01\0\0\0\0\0\0\0\0\
    abcdabcd";

/// A source of three bytes opened, whose bytes a row compares.
const COMPARED: &[u8] = b"CORDSESS\0\0\0\x02\0\0\0\x01\0\0\0\x01\0\0\0\x01\0\0\0\x01\
    \0\0\0\0\0\0\0\0\0\0\0\0\
    \0\0\0\0\0\0\0\x03\
    \x02\0\0\0\0\0\0\0\0\0\0\0\0\0\0\x03\0\0\0\0\0\0\0\0\
    \0\0\0\0\0\0\0\0\
    \x02\x01\0\0\0\0\0\0\0\0\0\0\0\0\0\0\0\0\0\0\0\0\0\0\
    \0\0\0\0\0\0\0\0\0\0\0\0\0\0\0\0\0\0\0\0\0\0\0\0\
    \0\0\0\x01\0\0\0\0\
    \x03\0\0\0\0\0\0\0\0\0\0\0\0\0\0\x03\0\0\0\0\0\0\0\0";

/// The image that a script makes behind this one, or why it makes none.
fn gone_on<A: AllocGlobal + Abort>(
    rt: &A,
    image: &[u8],
    texts: &[&[u8]],
    script: &[u8],
) -> Result<Vec<u8>, OntoFault> {
    let older = image.to_vec(rt.alloc()).expect(rt, "room");
    let mut sources = sources_of(rt, texts);
    let mut newer: Vec<u8> = Vec::new(rt.alloc());
    run_apply_onto(
        rt.alloc(),
        older,
        &mut sources,
        None,
        script,
        &mut newer,
        &mut Untold,
    )?;
    Ok(newer)
}

#[test]
fn a_script_of_no_command_gives_the_image_in_version_two(rt: HostRuntime) {
    let mut first = ONE_INSERT.to_vec(rt.alloc()).expect(&rt, "room");
    first[11] = 1;
    for image in [first.as_slice(), ONE_INSERT] {
        for script in [b"".as_slice(), b"\n  # nothing\n"] {
            let newer = gone_on(&rt, image, &[], script).expect(&rt, "an image");
            assert_same(&rt, &newer.as_slice(), &ONE_INSERT);
        }
    }
}

#[test]
fn an_insertion_behind_an_image(rt: HostRuntime) {
    assert_same(&rt, &TWO_INSERTS.len(), &384);
    let newer = gone_on(&rt, ONE_INSERT, &[], b"insert 1 3 \"d\"\n").expect(&rt, "an image");
    assert_same(&rt, &newer.as_slice(), &TWO_INSERTS);
}

/// A log without what it tells of revisions.
fn commands_in<A: AllocGlobal + Abort>(rt: &A, log: &[u8]) -> Vec<u8> {
    let mut commands: Vec<u8> = Vec::new(rt.alloc());
    let mut told = false;
    for byte in log {
        if *byte == b'#' {
            told = true;
            commands.pop();
        }
        told &= *byte != b'\n';
        if !told {
            commands.push(*byte).expect(rt, "room");
        }
    }
    commands
}

#[test]
fn a_script_that_is_cut_at_any_line(rt: HostRuntime) {
    let mut cuts = 0u64;
    for end in 0..EACH.len() {
        if EACH[end] == b'\n' {
            let front = applied(&rt, &EACH[..end], &[10]).expect(&rt, "an image");
            let whole = gone_on(&rt, &front, &[SOURCE], &EACH[end..]).expect(&rt, "an image");
            let log = logged(&rt, &whole, &[SOURCE], LogTexts::Whole);
            assert_same(&rt, &commands_in(&rt, &log).as_slice(), &EACH);
            cuts = cuts.saturating_add(1);
        }
    }
    assert_same(&rt, &cuts, &12);
}

/// Why nothing is written of this.
fn assert_refused<A: AllocGlobal + Abort>(
    rt: &A,
    image: &[u8],
    texts: &[&[u8]],
    at_most: Option<u64>,
    script: &[u8],
    fault: OntoFault,
) {
    let older = image.to_vec(rt.alloc()).expect(rt, "room");
    let mut sources = sources_of(rt, texts);
    let mut newer: Vec<u8> = Vec::new(rt.alloc());
    let answer = run_apply_onto(
        rt.alloc(),
        older,
        &mut sources,
        at_most,
        script,
        &mut newer,
        &mut Untold,
    );
    assert_same(rt, &answer, &Err(fault));
    assert_same(rt, &newer.len(), &0);
}

#[test]
fn images_that_no_script_goes_on_from(rt: HostRuntime) {
    let check = OntoFault::Check;
    // What is refused of the image comes before what is refused of the script.
    for script in [b"".as_slice(), b"news"] {
        let short = &ONE_INSERT[..ONE_INSERT.len() - 1];
        let truncated = check(CheckFault::Read(ReadFault::Truncated));
        assert_refused(&rt, short, &[], None, script, truncated);
        let number = check(CheckFault::SourceCount);
        assert_refused(&rt, COMPARED, &[], None, script, number);
        // A node, two revisions and a row: 1 + 2 * 2 + 132.
        let dear = check(CheckFault::Looks(137));
        assert_refused(&rt, ONE_INSERT, &[], Some(136), script, dear);
        let compared = OntoFault::TakeUp(TakeFault::OverSource(0));
        assert_refused(&rt, COMPARED, &[b"abc"], None, script, compared);
    }
}

#[test]
fn scripts_that_do_not_go_on(rt: HostRuntime) {
    for (script, line, why) in [
        (b"insert 1 3 \"d\"\nnews".as_slice(), 2, Stop::NoCommand),
        (b"insert 1 4 \"d\"", 1, Stop::Refused(EditFault::Range)),
        (b"back 2", 1, Stop::Refused(EditFault::NoRevision)),
        (b"\nopen 0", 2, Stop::Refused(EditFault::NoSource)),
    ] {
        let stopped = OntoFault::Stop(Stopped { line, why });
        assert_refused(&rt, ONE_INSERT, &[], Some(137), script, stopped);
    }
}

#[test]
fn writers_that_fail_behind_an_image(rt: HostRuntime) {
    for left in 0..TWO_INSERTS.len() {
        for fails in [true, false] {
            let older = ONE_INSERT.to_vec(rt.alloc()).expect(&rt, "room");
            let mut taken: Vec<u8> = Vec::new(rt.alloc());
            let mut writer = Taker {
                left,
                fails,
                taken: &mut taken,
            };
            let answer = run_apply_onto(
                rt.alloc(),
                older,
                &mut sources_of(&rt, &[]),
                None,
                b"insert 1 3 \"d\"",
                &mut writer,
                &mut Untold,
            );
            assert_same(&rt, &answer, &Err(OntoFault::Write));
            assert_same(&rt, &Some(taken.as_slice()), &TWO_INSERTS.get(..left));
        }
    }
}
