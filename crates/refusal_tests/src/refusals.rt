//! How many calls of a run may be refused memory.

use std::fmt::Debug;
use std::process::Abort;

/// How often a call is made at most: once, and again behind each of two refusals.
pub const TRIES: usize = 3;

/// How many calls may still be refused memory.
#[derive(Debug, Drop)]
pub struct Refusals {
    left: u8,
    met: u8,
}

impl Refusals {
    pub(crate) fn at_most(left: u8) -> Refusals {
        Refusals { left, met: 0 }
    }

    /// A call was refused: one may be, and what was there before it still is.
    pub(crate) fn met<A: Abort, T: PartialEq + Debug>(&mut self, rt: &A, found: &T, before: &T) {
        assert!(rt; self.left > 0, "one refusal more than there was");
        self.left = self.left.saturating_sub(1);
        self.met = self.met.saturating_add(1);
        assert_same(rt, found, before, &"what was there before the refusal");
    }

    /// Whether no call was refused so far.
    pub(crate) fn are_none(&self) -> bool {
        self.met == 0
    }
}

/// Fails the test where the two differ, and prints both, and at what.
/// It stands for `assert_eq!`, which would be proved anew in each test.
pub(crate) fn assert_same<A: Abort, T: PartialEq + Debug, L: Debug>(
    rt: &A,
    found: &T,
    wanted: &T,
    at: &L,
) {
    assert_eq!(rt; found, wanted, "{at:?}");
}
