//! The pattern that a cycle repeats.
ghost use Rattle.std.specs.Prelude.{◌≡◌, ◌↔◌, ◌%◌, IfSome, IsSome, IsTrue, length, slice_index};
ghost use Rattle.function_leaf.specs.Pattern.{IsPatternLength};

use std::marker::Model;

/// The most bytes in a pattern.
pub const PATTERN_LIMIT: usize = 16;

/// A pattern of 1 to 16 bytes, kept with zeros behind it.
#[derive(Clone, Copy, Debug, PartialEq, Eq)]
pub struct Pattern {
    bytes: [u8; PATTERN_LIMIT],
    size: u8,
}

impl Model for Pattern {
    ghost use Rattle.std.specs.Prelude.{List, ℕ, length, take};
    ghost use Rattle.function_leaf.specs.Pattern.{IsPadded, padded};

    ghost Value = { List ℕ };

    ghost view = { λ p. take p.size p.bytes };

    ghost invariant = { λ p. IsPadded p.bytes p.size };

    ghost inverse = { λ xs. record { bytes = padded xs; size = length xs } };

    ghost use Rattle.function_leaf.specs.Padding.{fields_back};

    ghost inverse_ok = { fields_back };
}

impl Pattern {
    /// The pattern of these bytes, or `None` where there are none or more than 16.
    pub(crate) fn new(pattern: &[u8]) -> Option<Pattern>
        ensures variant { IsSome result ↔ IsPatternLength (length pattern.now) }
        ensures value { IfSome result (λ kept. kept ≡ pattern.now) }
    {
        if pattern.is_empty() || pattern.len() > PATTERN_LIMIT {
            return None;
        }
        let mut bytes = [0; PATTERN_LIMIT];
        bytes[..pattern.len()].copy_from_slice(pattern);
        Some(Pattern {
            bytes,
            size: pattern.len() as u8,
        })
    }

    /// The bytes of the pattern.
    pub fn as_slice(&self) -> &[u8]
        ensures value { result.now ≡ self.now }
        ensures length { IsPatternLength (length self.now) }
    {
        &self.bytes[..self.size as usize]
    }

    /// The byte at place `i` of the pattern repeated without end.
    pub(crate) fn byte_at(&self, i: u64) -> u8
        ensures { result ≡ slice_index self.now (i % length self.now) }
    {
        let bytes = self.as_slice();
        bytes[(i % bytes.len() as u64) as usize]
    }

    /// Whether both patterns have the same bytes.
    pub fn is_same(&self, other: &Pattern) -> bool
        ensures { IsTrue result ↔ (self.now ≡ other.now) }
    {
        self.as_slice() == other.as_slice()
    }
}
