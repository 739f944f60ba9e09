//! Sources that a caller hands in: how long each is, and those of its bytes that the caller holds.

ghost use Rattle.std.specs.Prelude.{◌≡◌, ◌≢◌, ◌↔◌, ◌+◌, ◌<◌, ◌≤◌, IsErrOf, IsOk, IfErr, IfOk, IfSome, OnOk, is_some, nat_le, false, true, length, max, slice_index, take, drop};
ghost use Rattle.std.specs.List.{list_all};
ghost use Rattle.cord_types.specs.HeldTexts.{held_bytes, held_sizes, is_short, limit_fault, reading_of, stated_as_held};
ghost use Rattle.lazy_file.specs.SourceTexts.{AreSizes, holds_span, text_at};
ghost use Rattle.lazy_file.specs.Readings.{fault_in, InSpan, Reads};

use lazy_file::{AddFault, COUNT_LIMIT, SOURCE_LIMIT, SourceFault, Sources};
use std::marker::Model;

/// A source of a session: how many bytes it has, and those that are held of
/// it, from its first on. Where none are held, its length alone is known.
#[repr(C)]
#[derive(Clone, Copy, Drop)]
pub struct CordSource<'a> {
    pub bytes: &'a [u8],
    pub size: u64,
}

/// The sources of a session, in their order.
#[derive(Drop)]
pub struct HeldSources<'a> {
    sources: &'a [CordSource<'a>],
}

impl<'a> Model for HeldSources<'a> {
    ghost use Rattle.lazy_file.specs.SourceTexts.{AreSizes, Stated};
    ghost use Rattle.cord_types.specs.HeldTexts.{held_sizes, stated_as_held};

    ghost Value = { Stated };

    ghost view = { λ a. stated_as_held a.sources.now };

    ghost invariant = { λ a. AreSizes (held_sizes a.sources.now) };
}

/// Whether no source is longer than a source may be.
fn are_short(sources: &[CordSource]) -> bool
    ensures { result ≡ list_all is_short sources.now }
{
    sources.iter().all(|source| source.size <= SOURCE_LIMIT)
}

/// Whether `n` bytes from `off` on are inside `size` bytes.
fn is_inside(off: u64, n: usize, size: u64) -> bool
    ensures { result ≡ nat_le (off + n) size }
{
    match off.checked_add(n as u64) {
        Some(end) => end <= size,
        None => false,
    }
}

impl<'a> HeldSources<'a> {
    /// The sources, in the order that they are handed in.
    ///
    /// # Errors
    ///
    /// `TooManySources` where there are more than 255, else `SourceTooLong` where one has more than 2^40 - 1 bytes.
    pub fn new(sources: &'a [CordSource<'a>]) -> Result<HeldSources<'a>, AddFault>
        ensures value { IfOk result (λ s. s ≡ stated_as_held sources.now) }
        ensures ok { IsOk result ↔ AreSizes (held_sizes sources.now) }
        ensures fault { IfErr result (λ f. f ≡ limit_fault (held_sizes sources.now)) }
    {
        if sources.len() > COUNT_LIMIT as usize {
            return Err(AddFault::TooManySources);
        }
        if !are_short(sources) {
            return Err(AddFault::SourceTooLong);
        }
        Ok(HeldSources { sources })
    }

    /// The bytes of source `s` from place `off` on, `n` of them, which lie inside it, where they are held.
    fn span(&self, s: u8, off: u64, n: usize) -> Option<&'a [u8]>
        requires there { s < length self.now.sizes }
        requires inside { off + n ≤ slice_index self.now.sizes s }
        ensures variant { is_some result ≡ nat_le (off + n) (length (held_bytes self.now s)) }
        ensures value { IfSome result (λ part. part.now ≡ take n (drop off (held_bytes self.now s))) }
        ensures always { self.now.never_fails ≡ true → off + n ≤ length (held_bytes self.now s) }
    {
        let start = off as usize;
        self.sources[s as usize].bytes.get(start..start + n)
    }
}

impl<'a> Sources for HeldSources<'a> {
    ghost use Rattle.cord_types.specs.HeldTexts.{reading_of};

    ghost reading = { reading_of };

    fn count(&self) -> u8 {
        self.sources.len() as u8
    }

    fn len(&self, s: u8) -> u64 {
        self.sources[s as usize].size
    }

    /// Its faults are `BadSource`, and `Short` where the bytes are not all held.
    fn read(&mut self, s: u8, off: u64, buffer: &mut [u8]) -> Result<(), SourceFault>
        ensures reads { Reads (reading_of self.old) (reading_of self.new)
            (InSpan s off (max 1 (length buffer.old))) (fault_in result) }
        ensures bytes { OnOk result (IfSome (text_at self.old s)
            (λ t. buffer.new ≡ take (length buffer.old) (drop off t))) }
        ensures bad_source { IsErrOf result SourceFault.BadSource
            ↔ (holds_span self.old s off (length buffer.old) ≡ false) }
        ensures short { IfErr result (λ f. f ≢ SourceFault.BadSource
            → (f ≡ SourceFault.Short) × (length (held_bytes self.old s) < off + length buffer.old)) }
    {
        if s >= self.count() || !is_inside(off, buffer.len(), self.len(s)) {
            return Err(SourceFault::BadSource);
        }
        match self.span(s, off, buffer.len()) {
            Some(span) => {
                buffer.copy_from_slice(span);
                Ok(())
            }
            None => Err(SourceFault::Short),
        }
    }
}
