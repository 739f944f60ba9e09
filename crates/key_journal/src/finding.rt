//! What stands in a journal.

ghost use Rattle.std.specs.Prelude.{◌≡◌, ◌≢◌, ◌↔◌, ◌++◌, List, ℕ, MatchOption};
ghost use Rattle.std.specs.List.{list_all};
ghost use Rattle.key_journal.specs.Keys.{goes_on};
ghost use Rattle.key_journal.specs.Journal.{IsJournal, IsTorn};
ghost use Rattle.key_journal.specs.declared.finding.Found.TheVariants.{Keys, Torn};

use crate::kept::goes_on;

/// What stands in a journal of a header.
#[derive(Clone, Copy, Debug, PartialEq, Eq)]
pub enum Found {
    /// The header, and keys behind it.
    Keys,
    /// A part of the header: there was a crash before the first key.
    Torn,
    /// Neither: keys of another text, or no journal.
    Other,
}

/// What stands in a text behind its front, where it begins with that.
fn behind<'a>(front: &[u8], text: &'a [u8]) -> Option<&'a [u8]>
    ensures { MatchOption result ((rest : List ℕ) → text.entry.now ≢ front.now ++ rest)
        (λ rest. text.entry.now ≡ front.now ++ rest.now) }
{
    text.strip_prefix(front)
}

/// Whether a run goes on behind each of these keys.
fn all_go_on(keys: &[u8]) -> bool
    ensures { result ≡ list_all goes_on keys.now }
{
    for key in keys {
        if !goes_on(*key) {
            return false;
        }
    }
    true
}

/// What stands in a journal of this header: whether its bytes are the header and keys, or a part of the header.
pub fn find_keys(header: &[u8], bytes: &[u8]) -> Found
    ensures keys { (result ≡ Keys) ↔ IsJournal header.now bytes.now }
    ensures torn { (result ≡ Torn) ↔ IsTorn header.now bytes.now }
{
    if let Some(keys) = behind(header, bytes) {
        if all_go_on(keys) {
            Found::Keys
        } else {
            Found::Other
        }
    } else {
        match behind(bytes, header) {
            Some(_) => Found::Torn,
            None => Found::Other,
        }
    }
}
