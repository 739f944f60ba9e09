//! What the program is asked to do.

/// The lengths that were given in the place of sources, and how many files stand before each.
#[derive(Debug, Drop, PartialEq, Eq)]
pub struct Lengths {
    pub numbers: Vec<u64>,
    pub files_before: Vec<usize>,
}

/// A subcommand with its texts, which are the words as they stand, and its numbers.
#[derive(Debug, Drop, PartialEq, Eq)]
pub enum Action<'a> {
    /// Check the image on standard input.
    CheckInput,
    /// Check the image of a file. The sources are the files that its session was made from, in
    /// their order, and among them those of which the length alone is given. The check may take no
    /// more looks at nodes than `at_most`, if that is given.
    Check {
        at_most: Option<u64>,
        lengths: Lengths,
        image: &'a str,
        sources: Vec<&'a str>,
    },
    /// Write the image of a file anew in version 2. Its session has these sources. So many looks may its
    /// check take.
    Migrate {
        at_most: Option<u64>,
        lengths: Lengths,
        image: &'a str,
        sources: Vec<&'a str>,
    },
    /// Write the text of a revision of the image of a file, whose session has these sources. So many
    /// looks may its check take.
    Show {
        at_most: Option<u64>,
        image: &'a str,
        revision: Option<u64>,
        sources: Vec<&'a str>,
    },
    /// Write at most `count` bytes of a file, from its byte `start` on.
    Cut {
        start: u64,
        count: u64,
        file: &'a str,
    },
    /// Write the bytes of files, one behind the other.
    Join {
        files: Vec<&'a str>,
    },
    /// Write the place at which a pattern first occurs in a file, from its byte
    /// `start` on, or all such places, each behind the end of the one before.
    Find {
        all: bool,
        start: u64,
        pattern: &'a str,
        file: &'a str,
    },
    /// Say how the bytes of a file compare with those of another.
    Cmp {
        first: &'a str,
        second: &'a str,
    },
    /// Edit a text on the screen, which begins as that of a file or empty, or go on with the session of
    /// the image `onto`, where there is one, which was made over that file. Save its session as an
    /// image. Keep the keys of the terminal in the file `keys`, where there is one, and begin with
    /// those that it has. Under `no_clobber` an image that is there is refused, and under `replace` it
    /// may go. The file `session`, where there is one, has what there was when the session began, and
    /// goes once the image is saved.
    Edit {
        onto: Option<&'a str>,
        keys: Option<&'a str>,
        session: Option<&'a str>,
        no_clobber: bool,
        replace: bool,
        image: &'a str,
        file: Option<&'a str>,
    },
    /// Take away a file of keys, which no session may have. Words for a session were not given.
    Discard {
        keys: &'a str,
    },
    /// Write the script of the image of a file, whose session has these sources. So many looks may its check take.
    /// Where it is `brief`, long texts are cut short.
    Log {
        at_most: Option<u64>,
        lengths: Lengths,
        brief: bool,
        image: &'a str,
        sources: Vec<&'a str>,
    },
    /// Write where `count` bytes of the text of a revision of the image of a file come from,
    /// from its byte `start` on: all that there are, where no count is given, and from its first
    /// one, where no start is. The session has these sources. So many looks may its check take.
    Blame {
        at_most: Option<u64>,
        start: Option<u64>,
        count: Option<u64>,
        image: &'a str,
        revision: Option<u64>,
        sources: Vec<&'a str>,
    },
    /// Make the bytes of a file the last text of the image of a file, whose session has these sources: the image is
    /// made where there is none. So many looks may its check take.
    Commit {
        at_most: Option<u64>,
        image: &'a str,
        file: &'a str,
        sources: Vec<&'a str>,
    },
    /// Make the bytes of a file the last text of the image of a file, as `Commit` does, and then give that file the text
    /// of a revision that the image had before. Where there is no such file, it is made.
    Restore {
        at_most: Option<u64>,
        image: &'a str,
        revision: Option<u64>,
        file: &'a str,
        sources: Vec<&'a str>,
    },
    /// Take requests from standard input and answer them, for the session of the image of a file, which has this source
    /// or none: the image is made where there is none. So many looks may its check take.
    Serve {
        at_most: Option<u64>,
        image: &'a str,
        source: Option<&'a str>,
    },
    /// Write the image of the session that a script makes, over files of these lengths: behind the last revision of the
    /// image `onto`, where there is one, whose session has these sources. So many looks may the check of that one take.
    Apply {
        onto: Option<&'a str>,
        at_most: Option<u64>,
        script: &'a str,
        sources: Vec<&'a str>,
    },
}
