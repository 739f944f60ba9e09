//! Commands as they are handed in.

/// The next `n` of the bytes handed in, to stand in place of the `m` bytes of a text from place `p` on.
#[repr(C)]
#[derive(Clone, Copy, Debug, PartialEq, Eq)]
pub struct Change {
    pub p: u64,
    pub m: u64,
    pub n: u64,
}

/// A command on a session. A revision is named by its number; places and lengths are in bytes.
#[derive(Clone, Copy, Debug, PartialEq, Eq)]
pub enum Command<'a> {
    /// An empty text.
    New,
    /// The text of source `s`.
    Open {
        s: u32,
    },
    /// The text of revision `r`, with these bytes put in at place `p`.
    Insert {
        r: u32,
        p: u64,
        bytes: &'a [u8],
    },
    /// The text of revision `r` without its `n` bytes from `p` on.
    Delete {
        r: u32,
        p: u64,
        n: u64,
    },
    /// The text of revision `r`, with these bytes in place of its `m` bytes from `p` on.
    Replace {
        r: u32,
        p: u64,
        m: u64,
        bytes: &'a [u8],
    },
    /// The text of revision `r`, with the `n` bytes of that of `q` from `i` on put in at place `p`.
    Paste {
        r: u32,
        p: u64,
        q: u32,
        i: u64,
        n: u64,
    },
    /// The text of revision `r` and then that of `q`.
    Join {
        r: u32,
        q: u32,
    },
    /// The `n` bytes of the text of revision `r` from `i` on.
    Cut {
        r: u32,
        i: u64,
        n: u64,
    },
    /// The text of revision `r`, with `n` bytes `c` put in at place `p`.
    Fill {
        r: u32,
        p: u64,
        c: u8,
        n: u64,
    },
    /// The text of revision `r`, with its rope.
    Back {
        r: u32,
    },
    /// The text of revision `r`, its rope balanced.
    Balance {
        r: u32,
    },
    /// The text of revision `r` with all of these changes, whose places are those of that text. They take these
    /// bytes, one behind the other, and leave none.
    Many {
        r: u32,
        changes: &'a [Change],
        bytes: &'a [u8],
    },
}

/// What a command hands in.
#[derive(Clone, Copy)]
pub(crate) enum Hands<'a> {
    /// Nothing.
    Nothing,
    /// These bytes, for one place.
    Text(&'a [u8]),
    /// These changes, and the bytes that they take.
    Changes(&'a [Change]),
}

impl<'a> Command<'a> {
    ghost use Rattle.edit_commands.specs.HandedIn.{HandsIn};

    /// What the command hands in.
    pub(crate) fn hands(&self) -> Hands<'a>
        ensures { HandsIn self.now result }
    {
        match *self {
            Command::Insert { bytes, .. } | Command::Replace { bytes, .. } => Hands::Text(bytes),
            Command::Many { changes, .. } => Hands::Changes(changes),
            Command::New
            | Command::Open { .. }
            | Command::Delete { .. }
            | Command::Paste { .. }
            | Command::Join { .. }
            | Command::Cut { .. }
            | Command::Fill { .. }
            | Command::Back { .. }
            | Command::Balance { .. } => Hands::Nothing,
        }
    }
}
