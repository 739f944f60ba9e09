//! What a journal begins with: which session it belongs to, and what it keeps.

ghost use Rattle.std.specs.Prelude.{◌≡◌, ◌↔◌, ◌≤◌, IfOk, IsTrue, drop, length};
ghost use Rattle.session_server.specs.Fronts.{lines_front};
ghost use Rattle.session_files.specs.declared.journal_front.Kind.TheVariants.{Keys, Lines};
ghost use Rattle.session_files.specs.declared.journal_front.Standing.TheVariants.{Kept, Other, Torn};
ghost use Rattle.session_files.specs.Fronts.{IsPartOfFront, KeepsBehindFront};

use key_journal::{Found, HEADER_SIZE, find_keys};
use line_server::{is_torn, kept_lines};
use session_server::lines_front;
use std::alloc::{AllocError, Global};

/// The bytes with which a file of keys begins.
pub const FRONT_OF_KEYS: &[u8] = b"CORDKEYS";

/// The bytes with which a file of lines begins.
const FRONT_OF_LINES: &[u8] = b"# cordkit lines ";

/// The bytes of the front of a file of keys.
pub const KEYS_FRONT_SIZE: u64 = 56;

/// The bytes of the front of a file of lines: those 16, two digits for each byte of a header, and the end of the line.
pub const LINES_FRONT_SIZE: u64 = 129;

/// What a journal keeps.
#[derive(Clone, Copy)]
pub enum Kind {
    Keys,
    Lines,
}

/// What stands in a file.
#[derive(Clone, Copy, PartialEq, Eq)]
pub enum Standing {
    /// The front, and what is kept behind it.
    Kept,
    /// A part of the front: there was a crash before anything was kept.
    Torn,
    /// Neither: what was kept over another text, or no journal.
    Other,
}

/// What the journal of a session begins with.
#[derive(Drop)]
pub struct Front {
    pub kind: Kind,
    pub bytes: Vec<u8>,
}

impl Front {
    /// That of a file of keys: the header.
    pub fn of_keys(alloc: Global, header: &[u8; HEADER_SIZE]) -> Result<Front, AllocError>
        ensures { IfOk result (λ front. (front.kind ≡ Keys) × (front.bytes.items ≡ header.now)) }
    {
        Ok(Front {
            kind: Kind::Keys,
            bytes: Vec::from_slice(alloc, header)?,
        })
    }

    /// That of a file of lines: a comment, which holds the header.
    pub fn of_lines(alloc: Global, header: &[u8; HEADER_SIZE]) -> Result<Front, AllocError>
        ensures { IfOk result (λ front. (front.kind ≡ Lines) × (front.bytes.items ≡ lines_front header.now)) }
    {
        Ok(Front {
            kind: Kind::Lines,
            bytes: lines_front(alloc, header)?,
        })
    }

    /// So many bytes it has.
    pub fn len(&self) -> usize
        ensures { result ≡ length self.now.bytes.items }
    {
        self.bytes.len()
    }

    /// Its bytes from a place on.
    pub fn behind(&self, place: usize) -> &[u8]
        ensures { result.now ≡ drop place self.now.bytes.items }
    {
        self.bytes.get(place..).unwrap_or(&[])
    }

    /// What stands in a file of these bytes.
    pub fn standing(&self, bytes: &[u8]) -> Standing
        ensures kept { (result ≡ Kept) ↔ KeepsBehindFront self.now.kind self.now.bytes.items bytes.now }
        ensures torn { result ≡ Torn → IsPartOfFront self.now.kind self.now.bytes.items bytes.now }
        ensures other { result ≡ Other → IsPartOfFront self.now.kind self.now.bytes.items bytes.now → ⊥ }
    {
        match self.kind {
            Kind::Keys => match find_keys(&self.bytes, bytes) {
                Found::Keys => Standing::Kept,
                Found::Torn => Standing::Torn,
                Found::Other => Standing::Other,
            },
            Kind::Lines => {
                if kept_lines(&self.bytes, bytes).is_some() {
                    Standing::Kept
                } else if is_torn(&self.bytes, bytes) {
                    Standing::Torn
                } else {
                    Standing::Other
                }
            }
        }
    }

    /// Whether nothing is kept in a file of these bytes: it ends with the front of a session, or within one.
    pub fn keeps_nothing(&self, bytes: &[u8]) -> bool
        ensures short { IsTrue result → length bytes.now ≤ length self.now.bytes.items }
        ensures bare { length bytes.now ≤ length self.now.bytes.items
            → KeepsBehindFront self.now.kind self.now.bytes.items bytes.now → IsTrue result }
        ensures torn { length bytes.now ≤ length self.now.bytes.items
            → IsPartOfFront self.now.kind self.now.bytes.items bytes.now → IsTrue result }
    {
        let begins = match self.kind {
            Kind::Keys => FRONT_OF_KEYS,
            Kind::Lines => FRONT_OF_LINES,
        };
        bytes.len() <= self.bytes.len()
            && (self.standing(bytes) != Standing::Other || bytes.starts_with(begins))
    }

    /// Whether what was set aside are lines over another image.
    pub fn is_of_older_lines(&self, kept: &[u8]) -> bool
        ensures lines { IsTrue result → self.now.kind ≡ Lines }
        ensures older { IsTrue result → KeepsBehindFront self.now.kind self.now.bytes.items kept.now → ⊥ }
    {
        match self.kind {
            Kind::Keys => false,
            Kind::Lines => kept.starts_with(FRONT_OF_LINES)
                && self.standing(kept) == Standing::Other,
        }
    }
}
