//! What a line comes to.

use edit_script::Stop;

/// What a line comes to.
#[derive(Clone, Copy, Debug, PartialEq, Eq)]
pub enum Outcome {
    /// This revision was made.
    Made(u32),
    /// The line has no words.
    Nothing,
    /// The line was not taken.
    Stopped(Stop),
}
