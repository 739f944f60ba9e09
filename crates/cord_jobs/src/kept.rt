//! Sessions as people make them: each is written by a script, and its image checked, shown, logged and migrated.

use crate::chance::Chance;
use crate::checks::{check, log, show};
use crate::digest::Digest;
use crate::keys::prose;
use crate::script::Script;
use crate::sessions::{MEGABYTE, anywhere, many, typed};
use anyhow::{Result, bail};
use cord_tools::run_migrate;
use lazy_file::MemSources;
use script_tools::run_apply;
use std::alloc::Global;

/// How long a short text is.
const SHORT: u64 = 2000;

/// Writes an image anew.
fn migrate(
    alloc: Global,
    image: &[u8],
    sources: &mut MemSources<'_>,
    digest: &mut Digest,
) -> Result<()> {
    let expected = image.len() as u64;
    if run_migrate(alloc, image, expected, sources, None, digest).is_err() {
        bail!("an image was not migrated");
    }
    Ok(())
}

/// The image that a script over this text makes, and all that comes of it.
fn keep(alloc: Global, script: &Script, text: &[u8], digest: &mut Digest) -> Result<()> {
    let mut image = Vec::new(alloc);
    if run_apply(alloc, script.lines(), &[text.len() as u64], &mut image).is_err() {
        bail!("a script was not taken");
    }
    let sources = &mut MemSources::new(alloc);
    sources.add(text)?;
    check(alloc, &image, sources, digest)?;
    show(alloc, &image, sources, script.last(), digest)?;
    log(alloc, &image, sources, digest)?;
    migrate(alloc, &image, sources, digest)
}

/// Keys at one place, keys in the middle of a short text, ten bytes anywhere, and many places at once.
pub fn keep_sessions(
    alloc: Global,
    chance: &mut Chance,
    scale: u64,
    digest: &mut Digest,
) -> Result<()> {
    let text = prose(alloc, chance, MEGABYTE, true)?;
    let place = chance.below(MEGABYTE);
    let script = typed(alloc, chance, MEGABYTE, place, scale.saturating_mul(600))?;
    keep(alloc, &script, &text, digest)?;
    let short = prose(alloc, chance, SHORT, true)?;
    let script = typed(alloc, chance, SHORT, SHORT / 2, scale.saturating_mul(600))?;
    keep(alloc, &script, &short, digest)?;
    let script = anywhere(alloc, chance, scale.saturating_mul(100))?;
    keep(alloc, &script, &text, digest)?;
    let script = many(alloc, chance, scale / 20 + 1)?;
    keep(alloc, &script, &text, digest)
}
