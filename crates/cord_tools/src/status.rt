//! How a tool ends that was not stopped.

/// The status of a program whose answer is out.
#[derive(Clone, Copy, Debug, PartialEq, Eq)]
pub enum Status {
    /// 0: accepted, found or equal.
    Success,
    /// 1: refused, different or not found.
    Failure,
}
