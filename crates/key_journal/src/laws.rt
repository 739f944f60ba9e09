//! What a crash leaves of a journal. Each law is a contract, and its body does nothing.

ghost use Rattle.std.specs.Prelude.{◌≡◌, ℕ, List, ◌++◌, ◌⊎◌, ◌<◌, ◌^◌, length, take};
ghost use Rattle.key_journal.specs.Keys.{AllGoOn, kept_of};
ghost use Rattle.key_journal.specs.Headers.{header_of};
ghost use Rattle.key_journal.specs.Journal.{IsJournal, IsTorn};

/// What a write that was cut short leaves of a journal is a
/// part of the header, or the header and the first of the keys.
pub fn crashes()
    ensures { (header keys : List ℕ) (n : ℕ) → AllGoOn keys → IsTorn header (take n (header ++ keys))
        ⊎ ((m : ℕ) × (take n (header ++ keys) ≡ header ++ take m keys) × AllGoOn (take m keys)) }
{}

/// A journal that keeps keys is a journal, whichever keys these are.
pub fn keeping()
    ensures { (header bytes keys : List ℕ) → IsJournal header bytes → IsJournal header (bytes ++ kept_of keys) }
{}

/// A journal has one header: it is of one number of the format, of one number of sources, of one size, and of one
/// digest. So no journal of a session that goes on from an image is one of a session that begins from its sources.
pub fn one_header()
    ensures { (i j s t m n : ℕ) (d e bytes : List ℕ) → m < 2 ^ 64 → n < 2 ^ 64 → length d ≡ length e
        → IsJournal (header_of i s m d) bytes → IsJournal (header_of j t n e) bytes
        → (i ≡ j) × (s ≡ t) × (m ≡ n) × (d ≡ e) }
{}
