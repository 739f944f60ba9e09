//! Images checked, shown and logged.

use crate::chance::Chance;
use crate::digest::Digest;
use crate::images::{changed, deepest, two_shapes};
use anyhow::{Result, bail};
use cord_tools::{Status, run_check, run_show};
use lazy_file::MemSources;
use script_tools::{LogTexts, run_log};
use std::alloc::Global;

/// Checks an image, which is accepted.
pub fn check(
    alloc: Global,
    image: &[u8],
    sources: &mut MemSources<'_>,
    digest: &mut Digest,
) -> Result<()> {
    let expected = image.len() as u64;
    match run_check(alloc, image, expected, sources, None, digest) {
        Ok(Status::Success) => Ok(()),
        _ => bail!("an image was not accepted"),
    }
}

/// Writes the text of a revision.
pub fn show(
    alloc: Global,
    image: &[u8],
    sources: &mut MemSources<'_>,
    revision: u64,
    digest: &mut Digest,
) -> Result<()> {
    let expected = image.len() as u64;
    if run_show(alloc, image, expected, sources, None, revision, digest).is_err() {
        bail!("a revision was not shown");
    }
    Ok(())
}

/// Writes the script of an image.
pub fn log(
    alloc: Global,
    image: &[u8],
    sources: &mut MemSources<'_>,
    digest: &mut Digest,
) -> Result<()> {
    if run_log(alloc, image, sources, None, LogTexts::Whole, digest).is_err() {
        bail!("an image was not logged");
    }
    Ok(())
}

/// Texts of many literals that are changed all over, checked, shown and logged.
pub fn check_texts(
    alloc: Global,
    chance: &mut Chance,
    scale: u64,
    digest: &mut Digest,
) -> Result<()> {
    let levels = if scale < 10 { 6 } else { 14 };
    let times = scale.saturating_mul(150);
    for _ in 0..scale / 7 + 1 {
        let image = changed(alloc, chance, levels, times)?;
        let none = &mut MemSources::new(alloc);
        check(alloc, &image, none, digest)?;
        show(alloc, &image, none, times.saturating_add(1), digest)?;
        log(alloc, &image, none, digest)?;
    }
    Ok(())
}

/// Images of rows that compare each byte of deep ropes.
pub fn check_bytes(
    alloc: Global,
    chance: &mut Chance,
    scale: u64,
    digest: &mut Digest,
) -> Result<()> {
    let doublings = if scale < 10 { 8 } else { 16 };
    let times = scale.saturating_mul(2) / 5 + 1;
    let none = &mut MemSources::new(alloc);
    let image = deepest(alloc, chance, doublings, times)?;
    check(alloc, &image, none, digest)?;
    let image = two_shapes(alloc, chance, doublings, times)?;
    check(alloc, &image, none, digest)
}
