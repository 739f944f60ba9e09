//! All places of a pattern, in memory and in a file.

ghost use Rattle.std.specs.Prelude.{◌≡◌, ◌≤◌, IfOk, length};

use crate::chance::Chance;
use crate::device::{File, NO_TROUBLE, Trouble, Watch};
use crate::digest::Digest;
use crate::report::Report;
use anyhow::{Result, bail};
use cord_tools::{Status, ToolFault, run_find_all};
use lazy_file::{FileSources, MemSources};
use std::alloc::Global;
use std::num::NonZeroUsize;

const BLOCKS: usize = 256;

/// So many bytes are looked at at once.
const WINDOW: u64 = 65_536;

/// How many bytes a pattern has.
const LENGTHS: [u64; 12] = [1, 1, 2, 2, 3, 3, 16, 16, 0, 100, 4096, 4097];

/// A text of so many bytes: one letter, a few letters again and again, two letters by chance, or many.
fn text_of(alloc: Global, chance: &mut Chance, len: u64) -> Result<Vec<u8>> {
    let kind = chance.below(5);
    let period = chance.between(1, 20);
    let mut text = Vec::new(alloc);
    for k in 0..len {
        let letter = match kind {
            0 => 0,
            1 => k % period.max(1),
            2 => chance.below(2),
            3 => chance.below(26),
            _ => chance.below(100) / 99,
        };
        text.push(b'a' + (letter % 26) as u8)?;
    }
    Ok(text)
}

/// A pattern: bytes of the text, often about a window's border, or bytes that it may not have.
fn pattern_of(alloc: Global, chance: &mut Chance, text: &[u8]) -> Result<Vec<u8>> {
    let len = chance.pick(&LENGTHS);
    let size = text.len() as u64;
    let place = match chance.below(4) {
        0 => WINDOW.saturating_sub(chance.below(len.saturating_add(2))),
        1 => chance
            .below(50)
            .saturating_mul(4096)
            .saturating_sub(chance.below(len.saturating_add(2))),
        2 => size.saturating_sub(len),
        _ => chance.below(size),
    };
    let mut pattern = Vec::new(alloc);
    for k in 0..len {
        let at = place.saturating_add(k) as usize;
        pattern.push(text.get(at).copied().unwrap_or(b'a'))?;
    }
    if chance.below(6) == 0 {
        pattern.push(b'#')?;
    }
    Ok(pattern)
}

fn tell_places(
    made: Result<Status, ToolFault>,
    printed: &Digest,
    name: &str,
    report: &mut Report,
) -> Result<()> {
    report.words(name)?;
    report.words(match made {
        Ok(Status::Success) => " found ",
        Ok(_) => " none ",
        Err(ToolFault::PatternTooLong) => " too long ",
        Err(ToolFault::Read) => " read ",
        Err(ToolFault::Memory) => " memory ",
        Err(_) => " fault ",
    })?;
    report.entry("", printed.count())?;
    report.words(" bytes ")?;
    report.hex(printed.value(), 16)?;
    report.end()
}

/// One file as sources.
fn opened<'a>(alloc: Global, file: File<'a>) -> Result<FileSources<File<'a>>>
    ensures { IfOk result (λ sources. length sources.devices ≡ 1) }
{
    let blocks = NonZeroUsize::new(BLOCKS).unwrap_or(NonZeroUsize::MIN);
    let mut sources = FileSources::new(alloc, blocks, ())?;
    if sources.add(file).is_err() {
        bail!("a file is no source");
    }
    Ok(sources)
}

/// One text in memory as sources.
fn held<'a>(alloc: Global, text: &'a [u8]) -> Result<MemSources<'a>>
    ensures { IfOk result (λ sources. length sources ≡ 1) }
{
    let mut sources = MemSources::new(alloc);
    sources.add(text)?;
    Ok(sources)
}

/// How a file misbehaves.
fn trouble(chance: &mut Chance, size: u64) -> Trouble {
    let place = Some(chance.below(size));
    match chance.below(4) {
        0 => Trouble {
            fails_at: place,
            ..NO_TROUBLE
        },
        1 => Trouble {
            ends_at: place,
            ..NO_TROUBLE
        },
        _ => NO_TROUBLE,
    }
}

/// A pattern's places in a text.
pub fn places(alloc: Global, chance: &mut Chance, report: &mut Report) -> Result<()> {
    let size = chance.pick(&[
        0,
        1,
        100,
        4096,
        5000,
        WINDOW,
        WINDOW + 1,
        2 * WINDOW,
        150_000,
    ]);
    let size = size.saturating_add(chance.below(3));
    let text = text_of(alloc, chance, size)?;
    let pattern = pattern_of(alloc, chance, &text)?;
    let start = chance.pick(&[0, 0, 0, 1, 100, 4096, size, u64::MAX]);
    report.entry(": ", pattern.len() as u64)?;
    report.entry(" bytes in ", size)?;
    report.entry(" from ", start)?;
    report.end()?;
    let mut sources = held(alloc, &text)?;
    let mut printed = Digest::new();
    let made = run_find_all(alloc, &mut sources, start, &pattern, &mut printed);
    tell_places(made, &printed, "in memory", report)?;
    let watch = Watch::new(alloc);
    let file = File {
        bytes: text.as_slice(),
        watch: &watch,
        trouble: trouble(chance, size),
        since: 0,
        most: chance.pick(&[u64::MAX, u64::MAX, 1000]) as usize,
        failed: 0,
    };
    let mut sources = opened(alloc, file)?;
    let mut printed = Digest::new();
    let made = run_find_all(alloc, &mut sources, start, &pattern, &mut printed);
    tell_places(made, &printed, "in a file", report)
}
