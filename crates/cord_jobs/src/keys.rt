//! Keys with their frames, over a text of many lines and over one of a single line.

ghost use Rattle.std.specs.Prelude.{◌≡◌, IfOk, length};

use crate::chance::Chance;
use crate::digest::Digest;
use anyhow::{Result, bail};
use cord_tools::run_edit;
use lazy_file::{Device, DeviceError, FileSources, Sources};
use std::alloc::Global;
use std::num::NonZeroUsize;

/// So many blocks of a file are kept, as the program keeps them.
const BLOCKS: usize = 256;

/// So many letters are picked from.
const LETTERS: u64 = 65_536;

pub const MARK: u8 = 0x00;

pub const LINE_START: u8 = 0x01;

pub const LEFT: u8 = 0x02;

pub const ERASE_AT: u8 = 0x04;

pub const LINE_END: u8 = 0x05;

const RIGHT: u8 = 0x06;

const ERASE_BEFORE: u8 = 0x08;

pub const DOWN: u8 = 0x0E;

pub const UP: u8 = 0x10;

const UNDO: u8 = 0x15;

pub const CUT: u8 = 0x17;

pub const SAVE: u8 = 0x18;

pub const PASTE: u8 = 0x19;

/// A file in memory, which states none of its bytes.
#[derive(Drop)]
pub struct File {
    pub bytes: Vec<u8>,
}

impl Device for File {
    type Book = ();

    ghost use Rattle.std.specs.Prelude.{length};
    ghost use Rattle.lazy_file.specs.DeviceTexts.{unstated};

    ghost reading = { λ d. record { stated = unstated (length d.bytes.items); failures = 0; calls = 0 } };

    fn size(&self) -> u64 {
        self.bytes.len() as u64
    }

    fn read_at(
        &mut self,
        _book: &mut (),
        off: u64,
        buffer: &mut [u8],
    ) -> Result<usize, DeviceError> {
        let rest = self.bytes.get(off as usize..).unwrap_or(&[]);
        let count = rest.len().min(buffer.len());
        buffer[..count].copy_from_slice(&rest[..count]);
        Ok(count)
    }
}

/// One file as the sources of a tool.
pub fn opened(alloc: Global, bytes: Vec<u8>) -> Result<FileSources<File>>
    ensures { IfOk result (λ sources. length sources.devices ≡ 1) }
{
    let blocks = NonZeroUsize::new(BLOCKS).unwrap_or(NonZeroUsize::MIN);
    let mut sources = FileSources::new(alloc, blocks, ())?;
    if sources.add(File { bytes }).is_err() {
        bail!("a file is no source");
    }
    Ok(sources)
}

/// So many bytes of words, in lines of up to 100 bytes or in one:
/// pieces of letters that chance picks out of 64 KB of them.
pub fn prose(alloc: Global, chance: &mut Chance, len: u64, in_lines: bool) -> Result<Vec<u8>> {
    let mut letters = Vec::new(alloc);
    for _ in 0..LETTERS {
        letters.push(chance.letter())?;
    }
    let mut text = Vec::with_capacity(alloc, len as usize)?;
    while (text.len() as u64) < len {
        let left = (len - text.len() as u64).saturating_sub(1);
        let from = chance.below(LETTERS - 100) as usize;
        let n = chance.below(100).min(left) as usize;
        text.extend_from_slice(letters.get(from..from + n).unwrap_or(&[]))?;
        text.push(if in_lines { b'\n' } else { b',' })?;
    }
    Ok(text)
}

/// A key, mostly one that types.
fn key(chance: &mut Chance) -> u8 {
    match chance.below(100) {
        0..60 => chance.letter(),
        60..64 => b'\n',
        64..70 => DOWN,
        70..74 => UP,
        74..79 => LEFT,
        79..84 => RIGHT,
        84..88 => ERASE_BEFORE,
        88..91 => ERASE_AT,
        91..94 => LINE_END,
        94..96 => LINE_START,
        _ => UNDO,
    }
}

/// So many keys, behind so many that go a line down, and at the end the key that saves.
fn keys(alloc: Global, chance: &mut Chance, down: u64, count: u64) -> Result<Vec<u8>> {
    let mut keys = Vec::new(alloc);
    for _ in 0..down {
        keys.push(DOWN)?;
    }
    for _ in 0..count {
        keys.push(key(chance))?;
    }
    keys.push(SAVE)?;
    Ok(keys)
}

/// Edits a text by these keys: the frames and the image that is saved are digested.
pub fn edit<S: Sources + Drop>(
    alloc: Global,
    sources: S,
    keys: &[u8],
    digest: &mut Digest,
) -> Result<()> {
    let mut keys = keys;
    let mut image = Digest::new();
    if run_edit(alloc, sources, &mut keys, digest, &mut image).is_err() {
        bail!("the editor ended by a fault");
    }
    digest.number(image.value());
    Ok(())
}

/// Keys in a text of lines, and fewer in one of a single line.
fn press_some(alloc: Global, chance: &mut Chance, scale: u64, digest: &mut Digest) -> Result<()> {
    let text = prose(alloc, chance, scale.saturating_mul(160_000), true)?;
    let down = scale.saturating_mul(10);
    let pressed = keys(alloc, chance, down, scale.saturating_mul(100))?;
    edit(alloc, opened(alloc, text)?, &pressed, digest)?;
    let text = prose(alloc, chance, scale.saturating_mul(20_000), false)?;
    let pressed = keys(alloc, chance, 0, scale.saturating_mul(2))?;
    edit(alloc, opened(alloc, text)?, &pressed, digest)
}

/// Keys in two pairs of such texts, and in one pair where they are small.
pub fn press_keys(
    alloc: Global,
    chance: &mut Chance,
    scale: u64,
    digest: &mut Digest,
) -> Result<()> {
    for _ in 0..scale / 100 + 1 {
        press_some(alloc, chance, scale, digest)?;
    }
    Ok(())
}
