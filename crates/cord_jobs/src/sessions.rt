//! Scripts that become sessions, every revision kept with its rows:
//! keys typed at one place, a day of editing, changes all over a text.

use crate::chance::Chance;
use crate::digest::Digest;
use crate::script::Script;
use anyhow::{Result, bail};
use script_tools::run_apply;
use std::alloc::Global;

/// How long the source is that a session opens.
pub const MEGABYTE: u64 = 1 << 20;

/// The image of a script over a source of a megabyte, digested.
fn apply(alloc: Global, script: &Script, digest: &mut Digest) -> Result<()> {
    if run_apply(alloc, script.lines(), &[MEGABYTE], digest).is_err() {
        bail!("a script was not taken");
    }
    Ok(())
}

/// So many keys, from one place of a text on.
pub fn typed(
    alloc: Global,
    chance: &mut Chance,
    len: u64,
    place: u64,
    keys: u64,
) -> Result<Script> {
    let mut script = Script::over(alloc, len)?;
    for k in 0..keys {
        script.insert(chance, place.saturating_add(k), 1)?;
    }
    Ok(script)
}

/// Some keys at a place, and where they end.
fn type_some(script: &mut Script, chance: &mut Chance, place: u64) -> Result<u64> {
    let keys = 1 + chance.below(30);
    for k in 0..keys {
        script.insert(chance, place.saturating_add(k), 1)?;
    }
    Ok(place.saturating_add(keys))
}

/// A part of an earlier text put in at a place.
fn paste_some(script: &mut Script, chance: &mut Chance, place: u64) -> Result<u64> {
    let last = script.last();
    let q = last.saturating_sub(chance.below(50));
    let len = script.len(q);
    let n = 1 + chance.below(400);
    if n > len {
        return Ok(place);
    }
    script.paste(place, q, chance.up_to(len - n), n)?;
    Ok(place.saturating_add(n))
}

/// One thing that is done in a day of editing, at a place, and where the next one is done.
fn do_some(script: &mut Script, chance: &mut Chance, place: u64) -> Result<u64> {
    let last = script.last();
    let len = script.len(last);
    let place = place.min(len);
    match chance.below(100) {
        0..45 => type_some(script, chance, place),
        45..60 => {
            let n = (1 + chance.below(12)).min(len - place);
            script.delete(place, n)?;
            Ok(place)
        }
        60..68 => {
            let m = (1 + chance.below(9)).min(len - place);
            let n = 1 + chance.below(9);
            script.replace(chance, place, m, n)?;
            Ok(place.saturating_add(n))
        }
        68..72 => paste_some(script, chance, place),
        72..80 => {
            let q = last.saturating_sub(1 + chance.below(12));
            script.back(q)?;
            Ok(place)
        }
        80..92 => {
            let near = place.saturating_add(chance.below(3000));
            Ok(near.saturating_sub(1500).min(len))
        }
        _ => Ok(chance.up_to(len)),
    }
}

/// A day of editing, of about so many commands.
fn day(alloc: Global, chance: &mut Chance, commands: u64) -> Result<Script> {
    let mut script = Script::over(alloc, MEGABYTE)?;
    let mut place = chance.below(MEGABYTE);
    for _ in 0..commands {
        if script.last() >= commands {
            break;
        }
        place = do_some(&mut script, chance, place)?;
    }
    Ok(script)
}

/// So many times ten bytes anywhere, and at the end the text balanced.
pub fn anywhere(alloc: Global, chance: &mut Chance, times: u64) -> Result<Script> {
    let mut script = Script::over(alloc, MEGABYTE)?;
    for _ in 0..times {
        let len = script.len(script.last());
        let place = chance.up_to(len);
        script.insert(chance, place, 10)?;
    }
    script.balance()?;
    Ok(script)
}

/// Many places of a text changed at once: 200 places, so many times, and for each four of these once 4,096.
pub fn many(alloc: Global, chance: &mut Chance, times: u64) -> Result<Script> {
    let mut script = Script::over(alloc, MEGABYTE)?;
    for k in 0..times {
        script.many(chance, 200, MEGABYTE / 200, 7)?;
        if k % 4 == 0 {
            script.many(chance, 4096, MEGABYTE / 4096, 3)?;
        }
    }
    Ok(script)
}

/// Keys at one place, and a day of editing.
pub fn type_keys(
    alloc: Global,
    chance: &mut Chance,
    scale: u64,
    digest: &mut Digest,
) -> Result<()> {
    let place = chance.below(MEGABYTE);
    let script = typed(alloc, chance, MEGABYTE, place, scale.saturating_mul(6000))?;
    apply(alloc, &script, digest)?;
    let script = day(alloc, chance, scale.saturating_mul(3000))?;
    apply(alloc, &script, digest)
}

/// Changes all over a text, one by one and many at once.
pub fn change_anywhere(
    alloc: Global,
    chance: &mut Chance,
    scale: u64,
    digest: &mut Digest,
) -> Result<()> {
    let script = anywhere(alloc, chance, scale.saturating_mul(700))?;
    apply(alloc, &script, digest)?;
    let script = many(alloc, chance, scale / 6 + 1)?;
    apply(alloc, &script, digest)
}
