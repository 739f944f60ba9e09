//! Sources that are devices, such as files.
ghost use Rattle.std.specs.Prelude.{◌≡◌, ◌↔◌, ◌<◌, ◌≤◌, ◌+◌, ◌*◌, ◌++◌, ◌∷◌, [], false, IfErr, IfOk, IfSome, IsErrAnd, IsErrOf, OnErr, OnOk, Contains, drop, length, map, max, take};
ghost use Rattle.std.specs.NonZero.{non_zero_usize_get};
ghost use Rattle.lazy_file.specs.declared.sources.TheConstants.{COUNT_LIMIT, SOURCE_LIMIT};
ghost use Rattle.lazy_file.specs.SourceTexts.{holds_span, text_at};
ghost use Rattle.lazy_file.specs.Readings.{fault_in, InSpan, Reads};
ghost use Rattle.lazy_file.specs.DeviceTexts.{blocks_in, calls_of, failures_of, KeepsOthers, reading_by};
ghost use Rattle.lazy_file.specs.declared.kept_blocks.TheConstants.{BLOCK_SIZE};
ghost use Rattle.lazy_file.specs.KeptBlocks.{AreKeptFor, last_block, UsesBlocks};

use crate::device::Device;
use crate::device_blocks::{read_source, source_size};
use crate::faults::{AddFault, SourceFault};
use crate::refused::Refused;
use crate::sources::{COUNT_LIMIT, SOURCE_LIMIT, Sources};
use lru::LruCache;
use std::alloc::{AllocError, Global};
use std::marker::Model;
use std::num::NonZeroUsize;

/// Sources that are devices. Short reads go by blocks, the last of which are kept in memory.
#[derive(Drop)]
pub struct FileSources<D: Device> {
    devices: Vec<D>,
    kept: LruCache<(u8, u64), Vec<u8>>,
    book: D::Book,
    alloc: Global,
}

impl<D: Device> Model for FileSources<D> {
    ghost use Rattle.std.specs.Prelude.{map};
    ghost use Rattle.std.specs.Map.{keys_of};
    ghost use Rattle.lazy_file.specs.SourceTexts.{AreSizes};
    ghost use Rattle.lazy_file.specs.DeviceTexts.{reading_by, stated_texts};
    ghost use Rattle.lazy_file.specs.KeptBlocks.{AreKept, AreWithin, Files};

    ghost Value = { Files D };

    ghost view = { λ a. record { devices = a.devices.items; most = a.kept.cap; kept = keys_of a.kept.entries } };

    ghost invariant = { λ a. AreSizes (reading_by (map D.reading a.devices.items)).stated.sizes
        × AreKept (stated_texts (map D.reading a.devices.items)) a.kept.entries
        × AreWithin a.kept.cap (keys_of a.kept.entries) };
}

impl<D: Device> FileSources<D> {
    /// No sources, room to keep `blocks` blocks, and what the devices count their reads in.
    ///
    /// # Errors
    ///
    /// `AllocError`, where there was no memory for that.
    pub fn new(
        alloc: Global,
        blocks: NonZeroUsize,
        book: D::Book,
    ) -> Result<FileSources<D>, AllocError>
        ensures { IfOk result (λ sources. sources
            ≡ record { devices = []; most = non_zero_usize_get blocks; kept = [] }) }
    {
        Ok(FileSources {
            devices: Vec::new(alloc),
            kept: LruCache::new(alloc, blocks)?,
            book,
            alloc,
        })
    }

    /// Adds a device behind the others, and answers its place.
    ///
    /// # Errors
    ///
    /// `TooManySources` where there are 255, `SourceTooLong` for more than 2^40 - 1 bytes, `Memory`. The device
    /// is handed back, and the sources are as before.
    pub fn add(&mut self, device: D) -> Result<u8, Refused<D>>
        ensures place { IfOk result (λ s. s ≡ length self.old.devices) }
        ensures ok { OnOk result
            (self.new ≡ record self.old { devices = self.old.devices ++ device ∷ [] }) }
        ensures too_many { IsErrAnd result (λ refused. refused.fault ≡ AddFault.TooManySources)
            ↔ (length self.old.devices ≡ COUNT_LIMIT) }
        ensures too_long { IsErrAnd result (λ refused. refused.fault ≡ AddFault.SourceTooLong)
            ↔ ((length self.old.devices < COUNT_LIMIT) × (SOURCE_LIMIT < (D.reading device).stated.size)) }
        ensures back { IfErr result (λ refused. refused.device ≡ device) }
        ensures err { OnErr result (self.new ≡ self.old) }
    {
        let place = self.devices.len();
        if place >= COUNT_LIMIT as usize {
            return Err(Refused {
                device,
                fault: AddFault::TooManySources,
            });
        }
        if device.size() > SOURCE_LIMIT {
            return Err(Refused {
                device,
                fault: AddFault::SourceTooLong,
            });
        }
        match self.devices.push(device) {
            Ok(()) => Ok(place as u8),
            Err(failed) => Err(Refused {
                device: failed.value,
                fault: AddFault::Memory,
            }),
        }
    }
}

impl<D: Device> Sources for FileSources<D> {
    ghost reading = { λ files. reading_by (map D.reading files.devices) };

    fn count(&self) -> u8 {
        self.devices.len() as u8
    }

    fn len(&self, s: u8) -> u64 {
        source_size(&self.devices, s)
    }

    /// Reads as `Sources::read` says. Every device but that of source `s` is left as it was, and that one is read by at
    /// most 4,096 calls for each block that the bytes lie in, of which at most one fails. A short read keeps the block
    /// of its last byte, and reads no device where the blocks of all its bytes are kept; a long one keeps what was kept.
    fn read(&mut self, s: u8, off: u64, buffer: &mut [u8]) -> Result<(), SourceFault>
        ensures reads { Reads (reading_by (map D.reading self.old.devices))
            (reading_by (map D.reading self.new.devices)) (InSpan s off (max 1 (length buffer.old))) (fault_in result) }
        ensures bytes { OnOk result (IfSome (text_at (reading_by (map D.reading self.old.devices)).stated s)
            (λ t. buffer.new ≡ take (length buffer.old) (drop off t))) }
        ensures bad_source { IsErrOf result SourceFault.BadSource
            ↔ (holds_span (reading_by (map D.reading self.old.devices)).stated s off (length buffer.old)
            ≡ false) }
        ensures keeps { OnOk result (1 ≤ length buffer.old → length buffer.old < BLOCK_SIZE
            → Contains self.new.kept (last_block s off (length buffer.old))) }
        ensures unread { length buffer.old < BLOCK_SIZE
            → AreKeptFor self.old.kept s off (length buffer.old)
            → self.new.devices ≡ self.old.devices }
        ensures uses { length buffer.old < BLOCK_SIZE
            → UsesBlocks self.old.most self.old.kept self.new.kept s off (length buffer.old) result }
        ensures straight { BLOCK_SIZE ≤ length buffer.old → self.new.kept ≡ self.old.kept }
        ensures most { self.new.most ≡ self.old.most }
        ensures others { KeepsOthers self.old.devices self.new.devices s }
        ensures calls { calls_of (map D.reading self.new.devices) s
            ≤ calls_of (map D.reading self.old.devices) s + BLOCK_SIZE * blocks_in off (length buffer.old) }
        ensures once { failures_of (map D.reading self.new.devices) s
            ≤ failures_of (map D.reading self.old.devices) s + 1 }
    {
        read_source(
            self.alloc,
            &mut self.devices,
            &mut self.book,
            &mut self.kept,
            s,
            off,
            buffer,
        )
    }
}
