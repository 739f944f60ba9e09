//! Lines read and printed, and scripts applied to sessions.

mod applying;
mod printing;
mod reading;

use std::fmt::Debug;
use std::process::Abort;

/// Fails the test where the two differ, and prints both and of which of several tries it is.
pub(crate) fn assert_same_at<A: Abort, T: PartialEq + Debug, L: Debug>(
    rt: &A,
    found: &T,
    wanted: &T,
    at: &L,
) {
    assert_eq!(rt; found, wanted, "{at:?}");
}
