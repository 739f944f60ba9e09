//! Each public call of a crate, with ample memory: a fault that a test does not expect fails it.
//! What a call leaves as it was where memory is refused, its contract says.

mod agreement;
mod balance;
mod faults;
mod files;
mod functions;
mod patterns;
mod places;
mod pools;
mod positions;
mod repeats;
mod ropes;
mod searches;
mod slots;
mod stores;
mod tables;
mod walks;

use std::fmt::Debug;
use std::process::Abort;

/// Fails the test where the two differ, and prints both. It stands
/// for `assert_eq!`, which would be proved anew in each test.
fn assert_same<A: Abort, T: PartialEq + Debug>(rt: &A, found: &T, wanted: &T) {
    assert_eq!(rt; found, wanted);
}

/// Fails one of several tries where the two differ: `at` says which try.
fn assert_same_at<A: Abort, T: PartialEq + Debug, L: Debug>(rt: &A, found: &T, wanted: &T, at: &L) {
    assert_eq!(rt; found, wanted, "{at:?}");
}
