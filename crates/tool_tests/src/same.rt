//! What a test finds beside what it wants. It stands for `assert_eq!`, which would be proved anew in each test.

use std::fmt::Debug;
use std::process::Abort;

/// Fails the test where the two differ, and prints both, and at which of its tries.
pub(crate) fn assert_same<A: Abort, T: PartialEq + Debug, L: Debug>(
    rt: &A,
    found: &T,
    wanted: &T,
    at: &L,
) {
    assert_eq!(rt; found, wanted, "{at:?}");
}
