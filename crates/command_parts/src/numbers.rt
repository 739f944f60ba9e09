//! The numbers of a command, as a revision's record holds them.

/// The numbers of a revision's record that are its command's.
#[derive(Clone, Copy, Debug, PartialEq, Eq)]
pub struct Numbers {
    /// The revision that the command names first.
    pub r: u32,
    /// The other revision; the source of `Open`; how many splices `Many` has.
    pub q: u32,
    /// A place in the text of `r`.
    pub p: u64,
    /// How many bytes `Replace` takes out.
    pub m: u64,
    /// The place of the bytes that come in or stay, in the pool or a text; the byte of `Fill`.
    pub a: u64,
    /// How many bytes come in, stay (`Cut`), or go out (`Delete`).
    pub n: u64,
}

/// The numbers of a command that uses none.
pub const UNUSED: Numbers = Numbers {
    r: 0,
    q: 0,
    p: 0,
    m: 0,
    a: 0,
    n: 0,
};
