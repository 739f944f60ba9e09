//! Commands as they are recorded.

ghost use Rattle.std.specs.Prelude.{◌≡◌};

use crate::codes::{
    BACK, BALANCE, CUT, DELETE, FILL, INSERT, JOIN, MANY, NEW, OPEN, PASTE, REPLACE,
};
use crate::numbers::{Numbers, UNUSED};

/// The most revisions of a session.
pub const MOST_REVISIONS: u32 = 1 << 20;

/// The most splices of a command.
pub const MOST_SPLICES: u32 = 4096;

/// The most splices of a session.
pub const SPLICES_LIMIT: usize = 1 << 24;

/// The `n` bytes of the pool from `a` on, to stand in place of the `m` bytes of a text from place `p` on.
#[derive(Clone, Copy, Debug, PartialEq, Eq)]
pub struct Splice {
    pub p: u64,
    pub m: u64,
    pub a: u64,
    pub n: u64,
}

/// A command that makes a revision. A revision is named by its number; places and lengths are in
/// bytes.
#[derive(Clone, Copy, Debug, PartialEq, Eq)]
pub enum Edit {
    /// An empty text.
    New,
    /// The text of source `s`.
    Open {
        s: u32,
    },
    /// The text of revision `r`, with the `n` bytes of the pool from `a` on put in at place `p`.
    Insert {
        r: u32,
        p: u64,
        a: u64,
        n: u64,
    },
    /// The text of revision `r` without its `n` bytes from `p` on.
    Delete {
        r: u32,
        p: u64,
        n: u64,
    },
    /// The text of revision `r`, with the `n` bytes of the pool from `a` on in place of its `m` bytes
    /// from `p` on.
    Replace {
        r: u32,
        p: u64,
        m: u64,
        a: u64,
        n: u64,
    },
    /// The text of revision `r`, with the `n` bytes of that of `q` from `i` on put in at place `p`.
    Paste {
        r: u32,
        p: u64,
        q: u32,
        i: u64,
        n: u64,
    },
    /// The text of revision `r` and then that of `q`.
    Join {
        r: u32,
        q: u32,
    },
    /// The `n` bytes of the text of revision `r` from `i` on.
    Cut {
        r: u32,
        i: u64,
        n: u64,
    },
    /// The text of revision `r`, with `n` bytes `c` put in at place `p`.
    Fill {
        r: u32,
        p: u64,
        c: u64,
        n: u64,
    },
    /// The text of revision `r`.
    Back {
        r: u32,
    },
    /// The text of revision `r`, its rope rebalanced.
    Balance {
        r: u32,
    },
    /// The text of revision `r`, with each of `count` splices, the first of which stands at place `first` in the
    /// list of all splices, put in place of what it names. All their places are those of that text.
    Many {
        r: u32,
        first: u32,
        count: u32,
    },
}

/// A command as it is recorded: its code, and its numbers.
#[derive(Clone, Copy, Debug, PartialEq, Eq)]
pub struct EditRecord {
    pub code: u8,
    pub numbers: Numbers,
}

impl Edit {
    ghost use Rattle.command_parts.specs.Fields.{edit_by, field_of, numbers_of, recorded, splices_of, FitsRecord};

    /// The code of the command, and its numbers: what it does not use is 0.
    pub fn recorded(self) -> EditRecord
        ensures code { result.code ≡ (recorded self).code }
        ensures numbers { result.numbers ≡ numbers_of self }
        ensures fits { FitsRecord self }
    {
        #[rattlefmt::skip]
        match self {
            Edit::New => EditRecord { code: NEW, numbers: UNUSED },
            Edit::Open { s } => EditRecord { code: OPEN, numbers: Numbers { q: s, ..UNUSED } },
            Edit::Insert { r, p, a, n } => EditRecord { code: INSERT, numbers: Numbers { r, p, a, n, ..UNUSED } },
            Edit::Delete { r, p, n } => EditRecord { code: DELETE, numbers: Numbers { r, p, n, ..UNUSED } },
            Edit::Replace { r, p, m, a, n } => EditRecord { code: REPLACE, numbers: Numbers { r, p, m, a, n, ..UNUSED } },
            Edit::Paste { r, p, q, i, n } => EditRecord { code: PASTE, numbers: Numbers { r, q, p, a: i, n, ..UNUSED } },
            Edit::Join { r, q } => EditRecord { code: JOIN, numbers: Numbers { r, q, ..UNUSED } },
            Edit::Cut { r, i, n } => EditRecord { code: CUT, numbers: Numbers { r, a: i, n, ..UNUSED } },
            Edit::Fill { r, p, c, n } => EditRecord { code: FILL, numbers: Numbers { r, p, a: c, n, ..UNUSED } },
            Edit::Back { r } => EditRecord { code: BACK, numbers: Numbers { r, ..UNUSED } },
            Edit::Balance { r } => EditRecord { code: BALANCE, numbers: Numbers { r, ..UNUSED } },
            Edit::Many { r, count, .. } => EditRecord { code: MANY, numbers: Numbers { r, q: count, ..UNUSED } },
        }
    }

    /// The command of a code, over these numbers, where the commands before it have `first` splices. A code that
    /// stands for none is read as that of an empty text.
    pub fn of_code(first: u32, code: u8, numbers: Numbers) -> Edit
        ensures { result ≡ edit_by first code (field_of numbers) }
    {
        let Numbers { r, q, p, m, a, n } = numbers;
        match code {
            OPEN => Edit::Open { s: q },
            INSERT => Edit::Insert { r, p, a, n },
            DELETE => Edit::Delete { r, p, n },
            REPLACE => Edit::Replace { r, p, m, a, n },
            PASTE => Edit::Paste { r, p, q, i: a, n },
            JOIN => Edit::Join { r, q },
            CUT => Edit::Cut { r, i: a, n },
            FILL => Edit::Fill { r, p, c: a, n },
            BACK => Edit::Back { r },
            BALANCE => Edit::Balance { r },
            MANY => Edit::Many { r, first, count: q },
            _ => Edit::New,
        }
    }

    /// How many splices the command has.
    pub fn splice_count(self) -> u32
        ensures { result ≡ splices_of self }
    {
        match self {
            Edit::Many { count, .. } => count,
            _ => 0,
        }
    }
}
