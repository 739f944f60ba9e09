//! Images logged as scripts. What a log tells of each revision was found
//! by hand or by `bin/cordkit-verify`, on other bytes than the log's.

use super::tools::{ONE_INSERT, ONE_INSERT_LINES, Taker, applied, assert_same, stopped};
use edit_commands::EditFault;
use edit_script::Stop;
use image_reader::ReadFault;
use lazy_file::MemSources;
use node_table::NodeFault;
use script_tools::{LogFault, LogTexts, run_log};
use session_checker::CheckFault;
use std::alloc::AllocGlobal;
use std::process::Abort;

/// The source of the sessions here.
pub(crate) const SOURCE: &[u8] = b"0123456789";

/// Each command once.
pub(crate) const EACH: &[u8] = b"new
open 0
insert 1 4 \"a\\\"\\n\"
delete 2 0 2
replace 2 1 2 \"\\x00\\xff~\"
paste 2 0 1 3 4
join 1 2
cut 2 3 5
fill 1 2 97 3
back 2
balance 6
many 1 0 1 \"X\" 3 0 \"YZ\" 5 2 \"\"
";

/// Its log.
const EACH_LOGGED: &[u8] = b"new # 0: 0 bytes, depth 0, 0 rows
open 0 # 1: 10 bytes, depth 0, balanced, 1 rows
insert 1 4 \"a\\\"\\n\" # 2: 13 bytes, depth 2, balanced, 3 rows
delete 2 0 2 # 3: 11 bytes, depth 3, balanced, 1 rows
replace 2 1 2 \"\\x00\\xff~\" # 4: 14 bytes, depth 4, balanced, 3 rows
paste 2 0 1 3 4 # 5: 17 bytes, depth 3, balanced, 2 rows
join 1 2 # 6: 23 bytes, depth 3, balanced, 2 rows
cut 2 3 5 # 7: 5 bytes, depth 3, balanced, 1 rows
fill 1 2 97 3 # 8: 13 bytes, depth 2, balanced, 3 rows
back 2 # 9: 13 bytes, depth 2, balanced, 1 rows
balance 6 # 10: 23 bytes, depth 3, balanced, 4 rows
many 1 0 1 \"X\" 3 0 \"YZ\" 5 2 \"\" # 11: 10 bytes, depth 4, balanced, 5 rows
";

/// The texts as sources.
pub(crate) fn sources_of<'a, A: AllocGlobal + Abort>(rt: &A, texts: &[&'a [u8]]) -> MemSources<'a> {
    let mut sources = MemSources::new(rt.alloc());
    for text in texts {
        sources.add(*text).expect(rt, "a source");
    }
    sources
}

/// The log of an image that is accepted with these sources.
pub(crate) fn logged<A: AllocGlobal + Abort>(
    rt: &A,
    image: &[u8],
    texts: &[&[u8]],
    form: LogTexts,
) -> Vec<u8> {
    let mut sources = sources_of(rt, texts);
    let mut log: Vec<u8> = Vec::new(rt.alloc());
    let answer = run_log(rt.alloc(), image, &mut sources, None, form, &mut log);
    assert_same(rt, &answer, &Ok(()));
    log
}

#[test]
fn log_of_one_insertion(rt: HostRuntime) {
    let log = logged(&rt, ONE_INSERT, &[], LogTexts::Whole);
    assert_same(&rt, &log.as_slice(), &ONE_INSERT_LINES);
}

#[test]
fn log_of_each_command(rt: HostRuntime) {
    let image = applied(&rt, EACH, &[10]).expect(&rt, "an image");
    let log = logged(&rt, &image, &[SOURCE], LogTexts::Whole);
    assert_same(&rt, &log.as_slice(), &EACH_LOGGED);
    let brief = logged(&rt, &image, &[SOURCE], LogTexts::Brief);
    assert_same(&rt, &brief.as_slice(), &EACH_LOGGED);
    // Its log makes it again.
    let again = applied(&rt, &log, &[10]).expect(&rt, "an image");
    assert_same(&rt, &again, &image);
}

/// The image of one insertion, of `len` bytes `a` in place of its three.
fn one_insert_of<A: AllocGlobal + Abort>(rt: &A, len: u64) -> Vec<u8> {
    let mut image: Vec<u8> = Vec::new(rt.alloc());
    // What stands before the lengths of the pool, the node, the command and the row.
    for (from, to) in [(0, 32), (40, 48), (56, 168), (176, 192)] {
        let before = ONE_INSERT.get(from..to).expect(rt, "a piece");
        image.extend_from_slice(before).expect(rt, "room");
        image
            .extend_from_slice(&len.to_be_bytes())
            .expect(rt, "room");
    }
    let before = ONE_INSERT.get(200..208).expect(rt, "a piece");
    image.extend_from_slice(before).expect(rt, "room");
    for _ in 0..len {
        image.push(b'a').expect(rt, "room");
    }
    image
}

#[test]
fn a_log_that_hands_in_too_many_bytes_at_once(rt: HostRuntime) {
    let longest = one_insert_of(&rt, 65_536);
    let log = logged(&rt, &longest, &[], LogTexts::Whole);
    assert_same(&rt, &applied(&rt, &log, &[]), &Ok(longest));
    let longer = one_insert_of(&rt, 65_537);
    let log = logged(&rt, &longer, &[], LogTexts::Whole);
    let too_long = Stop::Refused(EditFault::Node(NodeFault::TooLong));
    assert_same(&rt, &applied(&rt, &log, &[]), &Err(stopped(2, too_long)));
}

/// The log in brief of texts of 60 and of 61 bytes.
const LONGER_IN_BRIEF: &[u8] = b"new # 0: 0 bytes, depth 0, 0 rows
insert 0 0 \"012345678901234567890123456789012345678901234567890123456789\" # 1: 60 bytes, depth 0, balanced, 1 rows
insert 0 0 \"\\n12345678901234567890123456789012345678901234567890123456789\"... # 2: 61 bytes, depth 0, balanced, 1 rows
";

#[test]
fn texts_in_brief(rt: HostRuntime) {
    let script = b"new
insert 0 0 \"012345678901234567890123456789012345678901234567890123456789\"
insert 0 0 \"\\n12345678901234567890123456789012345678901234567890123456789z\"";
    let image = applied(&rt, script, &[]).expect(&rt, "an image");
    let brief = logged(&rt, &image, &[], LogTexts::Brief);
    assert_same(&rt, &brief.as_slice(), &LONGER_IN_BRIEF);
    assert!(&rt; applied(&rt, &brief, &[]).is_err());
}

/// A script that puts in so many bytes 7.
fn bells<A: AllocGlobal + Abort>(rt: &A, count: usize) -> Vec<u8> {
    let mut script: Vec<u8> = Vec::new(rt.alloc());
    script
        .extend_from_slice(b"new # 0: 0 bytes, depth 0, 0 rows\ninsert 0 0 \"")
        .expect(rt, "room");
    for _ in 0..count {
        script.extend_from_slice(b"\\x07").expect(rt, "room");
    }
    script.push(b'"').expect(rt, "room");
    script
}

#[test]
fn text_of_many_pieces(rt: HostRuntime) {
    let mut script = bells(&rt, 10_000);
    let image = applied(&rt, &script, &[]).expect(&rt, "an image");
    script
        .extend_from_slice(b" # 1: 10000 bytes, depth 0, balanced, 1 rows\n")
        .expect(&rt, "room");
    let log = logged(&rt, &image, &[], LogTexts::Whole);
    assert_same(&rt, &log, &script);
}

/// Logs an image that is not accepted with these sources and this limit.
fn assert_refused<A: AllocGlobal + Abort>(
    rt: &A,
    image: &[u8],
    texts: &[&[u8]],
    at_most: Option<u64>,
    fault: CheckFault,
) {
    let mut sources = sources_of(rt, texts);
    let mut log: Vec<u8> = Vec::new(rt.alloc());
    let answer = run_log(
        rt.alloc(),
        image,
        &mut sources,
        at_most,
        LogTexts::Whole,
        &mut log,
    );
    assert_same(rt, &answer, &Err(LogFault::Check(fault)));
    assert_same(rt, &log.len(), &0);
}

#[test]
fn images_that_are_not_accepted(rt: HostRuntime) {
    let short = &ONE_INSERT[..ONE_INSERT.len() - 1];
    assert_refused(
        &rt,
        short,
        &[],
        None,
        CheckFault::Read(ReadFault::Truncated),
    );
    assert_refused(&rt, ONE_INSERT, &[SOURCE], None, CheckFault::SourceCount);
    // A node, two revisions and a row: 1 + 2 * 2 + 132.
    assert_refused(&rt, ONE_INSERT, &[], Some(136), CheckFault::Looks(137));
}

#[test]
fn writers_that_fail_in_a_log(rt: HostRuntime) {
    let image = applied(&rt, EACH, &[10]).expect(&rt, "an image");
    for left in 0..EACH_LOGGED.len() {
        for fails in [true, false] {
            let mut taken: Vec<u8> = Vec::new(rt.alloc());
            let mut writer = Taker {
                left,
                fails,
                taken: &mut taken,
            };
            let mut sources = sources_of(&rt, &[SOURCE]);
            let answer = run_log(
                rt.alloc(),
                &image,
                &mut sources,
                None,
                LogTexts::Whole,
                &mut writer,
            );
            assert_same(&rt, &answer, &Err(LogFault::Write));
            assert_same(&rt, &Some(taken.as_slice()), &EACH_LOGGED.get(..left));
        }
    }
}
