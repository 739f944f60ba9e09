//! Sources in memory.
ghost use Rattle.std.specs.Prelude.{◌≡◌, ◌↔◌, ◌+◌, ◌<◌, ◌≤◌, ◌++◌, ◌∷◌, [], IfOk, IfSome, IsErrOf, OnErr, OnOk, drop, is_some, length, map, slice_index_or, take};
ghost use Rattle.lazy_file.specs.SourceTexts.{holds_span, stated_in_memory};
ghost use Rattle.lazy_file.specs.declared.sources.TheConstants.{COUNT_LIMIT, SOURCE_LIMIT};

use crate::faults::{AddFault, SourceFault};
use crate::sources::{COUNT_LIMIT, SOURCE_LIMIT, Sources};
use std::alloc::Global;
use std::marker::Model;

/// Texts that lie in memory.
#[derive(Drop)]
pub struct MemSources<'a> {
    slices: Vec<&'a [u8]>,
}

impl<'a> Model for MemSources<'a> {
    ghost use Rattle.std.specs.Prelude.{List, ℕ, length, map};
    ghost use Rattle.lazy_file.specs.SourceTexts.{AreSizes};

    ghost Value = { List (List ℕ) };

    ghost view = { λ a. map (λ slice. slice.now) a.slices.items };

    ghost invariant = { λ a. AreSizes (map length (map (λ slice. slice.now) a.slices.items)) };
}

impl<'a> MemSources<'a> {
    /// No sources.
    pub fn new(alloc: Global) -> MemSources<'a>
        ensures { result ≡ [] }
    {
        MemSources {
            slices: Vec::new(alloc),
        }
    }

    /// Adds a text behind the others, and answers its place.
    ///
    /// # Errors
    ///
    /// `TooManySources` where there are 255, `SourceTooLong` for more than 2^40 - 1 bytes, `Memory`. The sources are
    /// then as before.
    pub fn add(&mut self, text: &'a [u8]) -> Result<u8, AddFault>
        ensures place { IfOk result (λ s. s ≡ length self.old) }
        ensures ok { OnOk result (self.new ≡ self.old ++ text.now ∷ []) }
        ensures too_many { IsErrOf result AddFault.TooManySources
            ↔ (length self.old ≡ COUNT_LIMIT) }
        ensures too_long { IsErrOf result AddFault.SourceTooLong
            ↔ ((length self.old < COUNT_LIMIT) × (SOURCE_LIMIT < length text.now)) }
        ensures err { OnErr result (self.new ≡ self.old) }
    {
        let place = self.slices.len();
        if place >= COUNT_LIMIT as usize {
            return Err(AddFault::TooManySources);
        }
        if text.len() as u64 > SOURCE_LIMIT {
            return Err(AddFault::SourceTooLong);
        }
        self.slices.push(text).map_err(|_| AddFault::Memory)?;
        Ok(place as u8)
    }

    /// The text of source `s`.
    fn text(&self, s: u8) -> &'a [u8]
        requires { s < length self.now }
        ensures value { result.now ≡ slice_index_or self.now s [] }
        ensures limit { length result.now ≤ SOURCE_LIMIT }
    {
        self.slices[s as usize]
    }

    /// The `n` bytes of source `s` from place `off` on, if it has them.
    #[tactic(auto, using(crate::proofs::MemoryTexts::size_of_text))]
    fn span(&self, s: u8, off: u64, n: usize) -> Option<&'a [u8]>
        ensures variant { is_some result ≡ holds_span (stated_in_memory self.now) s off n }
        ensures value { IfSome result (λ part.
            part.now ≡ take n (drop off (slice_index_or self.now s []))) }
    {
        if s >= self.count() {
            return None;
        }
        let start = off as usize;
        let end = start.checked_add(n)?;
        self.text(s).get(start..end)
    }
}

impl<'a> Sources for MemSources<'a> {
    ghost reading = { λ xs. record { stated = stated_in_memory xs; failures = λ _. 0 } };

    fn count(&self) -> u8 {
        self.slices.len() as u8
    }

    #[tactic(auto, using(crate::proofs::MemoryTexts::size_of_text))]
    fn len(&self, s: u8) -> u64 {
        self.text(s).len() as u64
    }

    #[tactic(auto, using(crate::proofs::MemoryTexts::memory_reads))]
    fn read(&mut self, s: u8, off: u64, buffer: &mut [u8]) -> Result<(), SourceFault> {
        match self.span(s, off, buffer.len()) {
            Some(span) => {
                buffer.copy_from_slice(span);
                Ok(())
            }
            None => Err(SourceFault::BadSource),
        }
    }
}
