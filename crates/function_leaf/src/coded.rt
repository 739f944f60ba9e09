//! The functions that an image can hold.
ghost use Rattle.std.specs.Prelude.{◌≡◌, ◌↔◌, IfSome, IsSome, IsTrue, length};
ghost use Rattle.function_leaf.specs.Pattern.{IsPatternLength};

use crate::leaf_fn::LeafFn;
use crate::pattern::Pattern;

/// A leaf function that an image can hold.
#[derive(Clone, Copy, Debug, PartialEq, Eq)]
pub enum Coded {
    /// This byte at every place.
    Fill(u8),
    /// This byte plus the place, modulo 256.
    Ramp(u8),
    /// This pattern again and again.
    Cycle(Pattern),
}

impl Coded {
    /// `byte` at every place.
    pub fn fill(byte: u8) -> Coded
        ensures { result ≡ Coded.Fill byte }
    {
        Coded::Fill(byte)
    }

    /// `first` plus the place, modulo 256.
    pub fn ramp(first: u8) -> Coded
        ensures { result ≡ Coded.Ramp first }
    {
        Coded::Ramp(first)
    }

    /// The pattern again and again, or `None` where it has no bytes or more than 16.
    pub fn cycle(pattern: &[u8]) -> Option<Coded>
        ensures variant { IsSome result ↔ IsPatternLength (length pattern.now) }
        ensures value { IfSome result (λ coded. coded ≡ Coded.Cycle pattern.now) }
    {
        Some(Coded::Cycle(Pattern::new(pattern)?))
    }

    /// Whether both are of one kind and have one byte or pattern.
    pub fn is_same(&self, other: &Coded) -> bool
        ensures { IsTrue result ↔ (self.now ≡ other.now) }
    {
        match (self, other) {
            (Coded::Fill(a), Coded::Fill(b)) => a == b,
            (Coded::Ramp(a), Coded::Ramp(b)) => a == b,
            (Coded::Cycle(a), Coded::Cycle(b)) => a.is_same(b),
            _ => false,
        }
    }
}

impl LeafFn for Coded {
    ghost use Rattle.function_leaf.specs.Coded.{coded_byte};

    ghost meaning = { coded_byte };

    fn byte(&self, i: u64) -> u8 {
        match self {
            Coded::Fill(c) => *c,
            Coded::Ramp(c) => c.wrapping_add((i % 256) as u8),
            Coded::Cycle(pattern) => pattern.byte_at(i),
        }
    }

    fn period(&self) -> Option<u64> {
        Some(match self {
            Coded::Fill(_) => 1,
            Coded::Ramp(_) => 256,
            Coded::Cycle(pattern) => pattern.as_slice().len() as u64,
        })
    }
}
