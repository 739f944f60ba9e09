//! Texts by number, read span by span.
ghost use Rattle.std.specs.Prelude.{◌≡◌, ◌↔◌, ◌<◌, ◌≤◌, ℕ, false, drop, length, max, slice_index, take, IfSome, IsErrOf, OnOk};
ghost use Rattle.lazy_file.specs.SourceTexts.{AreSizes, holds_span, text_at};
ghost use Rattle.lazy_file.specs.declared.sources.TheConstants.{SOURCE_LIMIT};
ghost use Rattle.lazy_file.specs.Readings.{fault_in, InSpan, Reading, Reads};

use crate::faults::SourceFault;

/// The most sources.
pub const COUNT_LIMIT: u8 = 255;

/// The most bytes in a source.
pub const SOURCE_LIMIT: u64 = (1 << 40) - 1;

/// Sources by number. A source has a size, and may state its text: a file states none, and a text
/// may be shorter than its size.
pub trait Sources {
    ghost reading: { Self → Reading };

    /// How many sources there are.
    fn count(&self) -> u8
        ensures value { result ≡ length (reading self.now).stated.sizes }
        ensures sizes { AreSizes (reading self.now).stated.sizes };

    /// The size of source `s` in bytes.
    fn len(&self, s: u8) -> u64
        requires { s < length (reading self.now).stated.sizes }
        ensures value { result ≡ slice_index (reading self.now).stated.sizes s }
        ensures limit { result ≤ SOURCE_LIMIT };

    /// Reads the bytes of source `s` from place `off` on into the whole of `buffer`. The sources state the same as
    /// before.
    ///
    /// # Errors
    ///
    /// `BadSource` where there is no such source, or it has no such bytes; else what its read ended with: `Device`,
    /// `Short` or `Memory`. The buffer may hold any bytes then.
    fn read(&mut self, s: u8, off: u64, buffer: &mut [u8]) -> Result<(), SourceFault>
        ensures reads { Reads (reading self.old) (reading self.new)
            (InSpan s off (max 1 (length buffer.old))) (fault_in result) }
        ensures bytes { OnOk result (IfSome (text_at (reading self.old).stated s)
            (λ t. buffer.new ≡ take (length buffer.old) (drop off t))) }
        ensures bad_source { IsErrOf result SourceFault.BadSource
            ↔ (holds_span (reading self.old).stated s off (length buffer.old) ≡ false) };
}
