//! Texts in memory, read by number, and the codes of faults.

use super::{assert_same, assert_same_at};
use edit_commands::EditFault;
use image_reader::ReadFault;
use lazy_file::{AddFault, MemSources, SourceFault, Sources};
use node_table::NodeFault;
use session_checker::CheckFault;
use std::alloc::AllocGlobal;
use std::fmt::Display;
use std::process::Abort;

#[test]
fn texts_in_memory_are_read(rt: HostRuntime) {
    let mut sources = MemSources::new(rt.alloc());
    let added = (sources.add(b"abcde"), sources.add(b"xy"));
    assert_same(&rt, &added, &(Ok(0), Ok(1)));
    assert!(&rt; sources.count() == 2);
    assert_same(&rt, &(sources.len(0), sources.len(1)), &(5, 2));
    for (s, off, wanted) in [
        (0, 1, Ok(b"bc")),
        (0, 3, Ok(b"de")),
        (1, 0, Ok(b"xy")),
        (0, 4, Err(SourceFault::BadSource)),
        (0, u64::MAX, Err(SourceFault::BadSource)),
        (2, 0, Err(SourceFault::BadSource)),
    ] {
        let mut two = [0; 2];
        let found = sources.read(s, off, &mut two).map(|_| &two);
        assert_same_at(&rt, &found, &wanted, &(s, off));
    }
    assert_same(&rt, &sources.read(0, 5, &mut []), &Ok(()));
    let behind = sources.read(0, 6, &mut []);
    assert_same(&rt, &behind, &Err(SourceFault::BadSource));
}

/// A text of more than 2^40 - 1 bytes cannot be made here, so `SourceTooLong` rests on its clause alone.
#[test]
fn last_text_in_memory_is_the_255th(rt: HostRuntime) {
    let mut sources = MemSources::new(rt.alloc());
    for s in 0..255 {
        assert_same(&rt, &sources.add(b"a"), &Ok(s));
    }
    assert_same(&rt, &sources.add(b""), &Err(AddFault::TooManySources));
    assert_same(&rt, &sources.count(), &255);
}

/// Fails the test where this is not the code of a fault.
fn assert_code<A: AllocGlobal + Abort, F: Display + Drop>(rt: &A, fault: F, code: &str) {
    let printed = fault.to_string(rt.alloc()).expect(rt, "memory");
    assert_same(rt, &printed.as_str(), &code);
}

#[test]
fn faults_print_their_codes(rt: HostRuntime) {
    assert_code(&rt, SourceFault::Device, "S1");
    assert_code(&rt, SourceFault::Short, "S2");
    assert_code(&rt, SourceFault::BadSource, "S3");
    assert_code(&rt, AddFault::TooManySources, "S4");
    assert_code(&rt, AddFault::SourceTooLong, "S5");
    assert_code(&rt, EditFault::TooManyRevisions, "E5");
    assert_code(&rt, EditFault::Node(NodeFault::TooLong), "E7(N1)");
    assert_code(&rt, EditFault::TooManyPieces, "E8");
    assert_code(&rt, EditFault::SpliceCount, "E9");
    assert_code(&rt, CheckFault::Read(ReadFault::Count), "C1(I5)");
    assert_code(&rt, CheckFault::Rows(1, 0), "C11(1,0)");
    assert_code(&rt, CheckFault::Source(SourceFault::Device), "C12(S1)");
}
