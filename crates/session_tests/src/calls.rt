//! Each public call with ample memory: a fault that a test does not expect fails it. The values that a test wants come
//! from the format's tables and from plain lists.

mod checking;
mod commands;
mod counting;
mod fakes;
mod images;
mod lists;
mod many;
mod origins;
mod plain_rows;
mod recorded;
mod records;
mod row_choices;
mod saved;
mod sources;
mod spans;
mod texts;
mod writing;

use std::fmt::Debug;
use std::process::Abort;

/// Fails the test where the two differ, and prints both. It stands
/// for `assert_eq!`, which would be proved anew in each test.
fn assert_same<A: Abort, T: PartialEq + Debug>(rt: &A, found: &T, wanted: &T) {
    assert_eq!(rt; found, wanted);
}

/// Fails one of several tries where the two differ: `at` says which try.
fn assert_same_at<A: Abort, T: PartialEq + Debug, L: Debug>(rt: &A, found: &T, wanted: &T, at: &L) {
    assert_eq!(rt; found, wanted, "{at:?}");
}
