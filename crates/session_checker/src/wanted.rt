//! Which revision of an image is wanted.

ghost use Rattle.std.specs.Prelude.{◌≡◌};
ghost use Rattle.session_checker.specs.Wanted.{wanted_number};

/// A revision by its number, or the last one.
#[derive(Clone, Copy, Debug, PartialEq, Eq)]
pub enum WantedRevision {
    /// That of this number, counted from 0.
    Number(u64),
    /// The last revision.
    Last,
}

impl WantedRevision {
    /// Its number, where there are so many revisions. It is below `count` only where there is such a revision.
    pub fn number(self, count: u32) -> u64
        ensures { result ≡ wanted_number self count }
    {
        match self {
            WantedRevision::Number(number) => number,
            WantedRevision::Last => u64::from(count).saturating_sub(1),
        }
    }
}
