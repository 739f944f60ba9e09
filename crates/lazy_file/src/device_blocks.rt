//! Reads of sources that are devices: a long one straight into the caller's buffer, a short one by kept blocks.
ghost use Rattle.std.specs.Prelude.{◌≡◌, ◌↔◌, ◌+◌, ◌*◌, ◌<◌, ◌≤◌, false, IfOk, IfSome, IsErrOf, OnOk, drop, get_or, length, map, max, take};
ghost use Rattle.lazy_file.specs.SourceTexts.{AreSizes, holds_span, text_at};
ghost use Rattle.lazy_file.specs.Readings.{fault_in, InSpan, Reads};
ghost use Rattle.lazy_file.specs.DeviceTexts.{AreSourceBytes, calls_of, failures_of, HasSpan, KeepsOthers, ReadsSource, blocks_in, no_device, reading_by, stated_texts};
ghost use Rattle.lazy_file.specs.KeptBlocks.{AreKept, AreKeptFor, AreWithin, KeepsBlock, last_block, ReadsBlock, UsesBlock, UsesBlocks};
ghost use Rattle.std.specs.Map.{keys_of};

use crate::device::Device;
use crate::faults::SourceFault;
use crate::filling::fill;
use crate::kept_blocks::{BLOCK_SIZE, copy_kept, keep};
use lru::LruCache;
use std::alloc::Global;

/// The size of source `s` in bytes.
pub(crate) fn source_size<D: Device>(devices: &[D], s: u8) -> u64
    requires { s < length devices.now }
    ensures { result ≡ (get_or (stated_texts (map D.reading devices.now)) s no_device).size }
{
    devices[s as usize].size()
}

/// Reads source `s` from place `off` on into the whole of `buffer`, straight from its device.
fn fill_source<D: Device>(
    devices: &mut [D],
    book: &mut D::Book,
    s: u8,
    off: u64,
    buffer: &mut [u8],
) -> Result<(), SourceFault>
    requires { HasSpan (stated_texts (map D.reading devices.old)) s off (length buffer.old) }
    ensures reads { ReadsSource D.reading devices.old devices.new s (length buffer.old) result }
    ensures bytes { OnOk result (AreSourceBytes (stated_texts (map D.reading devices.old)) s off buffer.new) }
{
    fill(&mut devices[s as usize], book, off, buffer)
}

/// The `len` bytes of source `s` from place `start` on.
fn load_block<D: Device>(
    alloc: Global,
    devices: &mut [D],
    book: &mut D::Book,
    s: u8,
    start: u64,
    len: usize,
) -> Result<Vec<u8>, SourceFault>
    requires { HasSpan (stated_texts (map D.reading devices.old)) s start len }
    ensures reads { ReadsSource D.reading devices.old devices.new s len result }
    ensures bytes { IfOk result
        (λ block. AreSourceBytes (stated_texts (map D.reading devices.old)) s start block.items) }
    ensures len { IfOk result (λ block. length block.items ≡ len) }
{
    let mut block = Vec::new(alloc);
    if block.resize(len, 0).is_err() {
        return Err(SourceFault::Memory);
    }
    fill_source(devices, book, s, start, &mut block)?;
    Ok(block)
}

/// Reads the block under `key` anew, copies its bytes from its place `from` on into the whole of `part`, and keeps it.
fn read_anew<D: Device>(
    alloc: Global,
    devices: &mut [D],
    book: &mut D::Book,
    kept: &mut LruCache<(u8, u64), Vec<u8>>,
    key: (u8, u64),
    from: usize,
    part: &mut [u8],
) -> Result<(), SourceFault>
    requires span { HasSpan (stated_texts (map D.reading devices.old)) key.0
        (key.1 * BLOCK_SIZE + from) (length part.old) }
    requires block { from + length part.old ≤ BLOCK_SIZE }
    requires kept { AreKept (stated_texts (map D.reading devices.old)) kept.old.entries }
    requires within { AreWithin kept.old.cap (keys_of kept.old.entries) }
    ensures reads { ReadsSource D.reading devices.old devices.new key.0 BLOCK_SIZE result }
    ensures bytes { OnOk result
        (AreSourceBytes (stated_texts (map D.reading devices.old)) key.0 (key.1 * BLOCK_SIZE + from) part.new) }
    ensures kept { AreKept (stated_texts (map D.reading devices.new)) kept.new.entries }
    ensures keeps { OnOk result (KeepsBlock kept.new.entries key) }
    ensures uses { UsesBlock kept.old.cap (keys_of kept.old.entries) (keys_of kept.new.entries) key result }
    ensures most { kept.new.cap ≡ kept.old.cap }
{
    let start = key.1 * BLOCK_SIZE as u64;
    let len = (source_size(devices, key.0) - start).min(BLOCK_SIZE as u64) as usize;
    let block = load_block(alloc, devices, book, key.0, start, len)?;
    part.copy_from_slice(&block[from..from + part.len()]);
    match keep(kept, key, block) {
        Ok(()) => Ok(()),
        Err(_) => Err(SourceFault::Memory),
    }
}

/// Copies bytes of the block under `key`, from its place `from` on, into the whole of `part`; the block is read where
/// it is not kept.
fn read_in_block<D: Device>(
    alloc: Global,
    devices: &mut [D],
    book: &mut D::Book,
    kept: &mut LruCache<(u8, u64), Vec<u8>>,
    key: (u8, u64),
    from: usize,
    part: &mut [u8],
) -> Result<(), SourceFault>
    requires span { HasSpan (stated_texts (map D.reading devices.old)) key.0
        (key.1 * BLOCK_SIZE + from) (length part.old) }
    requires block { from + length part.old ≤ BLOCK_SIZE }
    requires kept { AreKept (stated_texts (map D.reading devices.old)) kept.old.entries }
    requires within { AreWithin kept.old.cap (keys_of kept.old.entries) }
    ensures reads { ReadsSource D.reading devices.old devices.new key.0 BLOCK_SIZE result }
    ensures bytes { OnOk result
        (AreSourceBytes (stated_texts (map D.reading devices.old)) key.0 (key.1 * BLOCK_SIZE + from) part.new) }
    ensures kept { AreKept (stated_texts (map D.reading devices.new)) kept.new.entries }
    ensures keeps { OnOk result (KeepsBlock kept.new.entries key) }
    ensures block { ReadsBlock devices.old devices.new kept.old.entries kept.new.entries key }
    ensures uses { UsesBlock kept.old.cap (keys_of kept.old.entries) (keys_of kept.new.entries) key result }
    ensures most { kept.new.cap ≡ kept.old.cap }
{
    if copy_kept(kept, key, from, part) {
        return Ok(());
    }
    read_anew(alloc, devices, book, kept, key, from, part)
}

/// Reads at most a block's bytes of source `s` from place `off` on into the whole of `buffer`: of one block or of two.
fn read_short<D: Device>(
    alloc: Global,
    devices: &mut [D],
    book: &mut D::Book,
    kept: &mut LruCache<(u8, u64), Vec<u8>>,
    s: u8,
    off: u64,
    buffer: &mut [u8],
) -> Result<(), SourceFault>
    requires span { HasSpan (stated_texts (map D.reading devices.old)) s off (length buffer.old) }
    requires some { 1 ≤ length buffer.old }
    requires short { length buffer.old ≤ BLOCK_SIZE }
    requires kept { AreKept (stated_texts (map D.reading devices.old)) kept.old.entries }
    requires within { AreWithin kept.old.cap (keys_of kept.old.entries) }
    ensures reads { ReadsSource D.reading devices.old devices.new s
        (BLOCK_SIZE * blocks_in off (length buffer.old)) result }
    ensures bytes { OnOk result (AreSourceBytes (stated_texts (map D.reading devices.old)) s off buffer.new) }
    ensures kept { AreKept (stated_texts (map D.reading devices.new)) kept.new.entries }
    ensures keeps { OnOk result
        (KeepsBlock kept.new.entries (last_block s off (length buffer.old))) }
    ensures unread { AreKeptFor (keys_of kept.old.entries) s off (length buffer.old)
        → devices.new ≡ devices.old }
    ensures uses { UsesBlocks kept.old.cap (keys_of kept.old.entries) (keys_of kept.new.entries)
        s off (length buffer.old) result }
    ensures most { kept.new.cap ≡ kept.old.cap }
{
    let block = off / BLOCK_SIZE as u64;
    let from = (off % BLOCK_SIZE as u64) as usize;
    let here = buffer.len().min(BLOCK_SIZE - from);
    let (front, back) = buffer.split_at_mut(here);
    read_in_block(alloc, devices, book, kept, (s, block), from, front)?;
    if back.is_empty() {
        return Ok(());
    }
    read_in_block(alloc, devices, book, kept, (s, block + 1), 0, back)
}

/// Reads bytes that are there: a block's length and more straight from the device, fewer by blocks.
fn read_inside<D: Device>(
    alloc: Global,
    devices: &mut [D],
    book: &mut D::Book,
    kept: &mut LruCache<(u8, u64), Vec<u8>>,
    s: u8,
    off: u64,
    buffer: &mut [u8],
) -> Result<(), SourceFault>
    requires span { HasSpan (stated_texts (map D.reading devices.old)) s off (length buffer.old) }
    requires kept { AreKept (stated_texts (map D.reading devices.old)) kept.old.entries }
    requires within { AreWithin kept.old.cap (keys_of kept.old.entries) }
    ensures reads { ReadsSource D.reading devices.old devices.new s
        (BLOCK_SIZE * blocks_in off (length buffer.old)) result }
    ensures bytes { OnOk result (AreSourceBytes (stated_texts (map D.reading devices.old)) s off buffer.new) }
    ensures kept { AreKept (stated_texts (map D.reading devices.new)) kept.new.entries }
    ensures keeps { OnOk result (1 ≤ length buffer.old → length buffer.old < BLOCK_SIZE
        → KeepsBlock kept.new.entries (last_block s off (length buffer.old))) }
    ensures unread { length buffer.old < BLOCK_SIZE
        → AreKeptFor (keys_of kept.old.entries) s off (length buffer.old)
        → devices.new ≡ devices.old }
    ensures uses { length buffer.old < BLOCK_SIZE
        → UsesBlocks kept.old.cap (keys_of kept.old.entries) (keys_of kept.new.entries)
        s off (length buffer.old) result }
    ensures straight { BLOCK_SIZE ≤ length buffer.old
        → keys_of kept.new.entries ≡ keys_of kept.old.entries }
    ensures most { kept.new.cap ≡ kept.old.cap }
{
    if buffer.is_empty() {
        return Ok(());
    }
    if buffer.len() >= BLOCK_SIZE {
        fill_source(devices, book, s, off, buffer)
    } else {
        read_short(alloc, devices, book, kept, s, off, buffer)
    }
}

/// Whether source `s` is there, and `n` bytes from place `off` on lie inside its size.
fn has_span<D: Device>(devices: &[D], s: u8, off: u64, n: usize) -> bool
    ensures { result ≡ holds_span (reading_by (map D.reading devices.now)).stated s off n }
{
    if s as usize >= devices.len() {
        return false;
    }
    let size = source_size(devices, s);
    off <= size && n as u64 <= size - off
}

/// Reads the bytes of source `s` from place `off` on into the whole of `buffer`.
///
/// # Errors
///
/// `BadSource` first, where there is no such source or the span passes its size; then `Device`, `Short` and `Memory`.
pub(crate) fn read_source<D: Device>(
    alloc: Global,
    devices: &mut [D],
    book: &mut D::Book,
    kept: &mut LruCache<(u8, u64), Vec<u8>>,
    s: u8,
    off: u64,
    buffer: &mut [u8],
) -> Result<(), SourceFault>
    requires sizes { AreSizes (reading_by (map D.reading devices.old)).stated.sizes }
    requires kept { AreKept (stated_texts (map D.reading devices.old)) kept.old.entries }
    requires within { AreWithin kept.old.cap (keys_of kept.old.entries) }
    ensures same { stated_texts (map D.reading devices.new) ≡ stated_texts (map D.reading devices.old) }
    ensures others { KeepsOthers devices.old devices.new s }
    ensures calls { calls_of (map D.reading devices.new) s
        ≤ calls_of (map D.reading devices.old) s + BLOCK_SIZE * blocks_in off (length buffer.old) }
    ensures once { failures_of (map D.reading devices.new) s
        ≤ failures_of (map D.reading devices.old) s + 1 }
    ensures reads { Reads (reading_by (map D.reading devices.old))
        (reading_by (map D.reading devices.new))
        (InSpan s off (max 1 (length buffer.old))) (fault_in result) }
    ensures bytes { OnOk result (IfSome (text_at (reading_by (map D.reading devices.old)).stated s)
        (λ t. buffer.new ≡ take (length buffer.old) (drop off t))) }
    ensures bad_source { IsErrOf result SourceFault.BadSource
        ↔ (holds_span (reading_by (map D.reading devices.old)).stated s off (length buffer.old)
        ≡ false) }
    ensures kept { AreKept (stated_texts (map D.reading devices.new)) kept.new.entries }
    ensures keeps { OnOk result (1 ≤ length buffer.old → length buffer.old < BLOCK_SIZE
        → KeepsBlock kept.new.entries (last_block s off (length buffer.old))) }
    ensures unread { length buffer.old < BLOCK_SIZE
        → AreKeptFor (keys_of kept.old.entries) s off (length buffer.old)
        → devices.new ≡ devices.old }
    ensures uses { length buffer.old < BLOCK_SIZE
        → UsesBlocks kept.old.cap (keys_of kept.old.entries) (keys_of kept.new.entries)
        s off (length buffer.old) result }
    ensures straight { BLOCK_SIZE ≤ length buffer.old
        → keys_of kept.new.entries ≡ keys_of kept.old.entries }
    ensures most { kept.new.cap ≡ kept.old.cap }
{
    if !has_span(devices, s, off, buffer.len()) {
        return Err(SourceFault::BadSource);
    }
    read_inside(alloc, devices, book, kept, s, off, buffer)
}
