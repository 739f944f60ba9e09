//! What a commit answers.

ghost use Rattle.std.specs.Prelude.{Some};
ghost use Rattle.commit_tools.specs.Codes.{answer_text};

use std::fmt;

/// What became of a file's text.
#[derive(Clone, Copy, Debug, PartialEq, Eq)]
pub enum Commit {
    /// The last revision, which is this one, had it already: nothing was written.
    Same(u32),
    /// It is the text of this revision, the last one of the image that was written.
    Added(u32),
}

/// `same N` or `committed N`.
impl fmt::Display for Commit {
    ghost output = { λ commit. Some (answer_text commit) };

    fn fmt<W: fmt::Write>(&self, f: &mut fmt::Formatter<W>) -> fmt::Result {
        match self {
            Commit::Same(revision) => write!(f, "same {revision}"),
            Commit::Added(revision) => write!(f, "committed {revision}"),
        }
    }
}
