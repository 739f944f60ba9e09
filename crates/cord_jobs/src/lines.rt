//! Keys with their frames in one long line, and in the short lines beside it.

use crate::chance::Chance;
use crate::digest::Digest;
use crate::keys::{
    CUT, DOWN, ERASE_AT, LEFT, LINE_END, LINE_START, MARK, PASTE, SAVE, UP, edit, opened, prose,
};
use anyhow::Result;
use lazy_file::MemSources;
use std::alloc::Global;

/// So many letters are typed at each place, one behind the other.
const TYPED: u64 = 4;

/// So many letters are typed before they are cut and put in twice, again and again.
const SOWN: u64 = 500;

/// How long the short lines are together, above the long one and below it.
const BESIDE: u64 = 1000;

/// A few letters, one taken away, and a step back.
fn type_here(keys: &mut Vec<u8>, chance: &mut Chance) -> Result<()> {
    for _ in 0..TYPED {
        keys.push(chance.letter())?;
    }
    keys.extend_from_slice(&[LEFT, ERASE_AT, LEFT])?;
    Ok(())
}

/// Letters at the place, which is in the long line, at its end, in
/// a line below, near its start, at its start, and in a line above.
fn type_about(keys: &mut Vec<u8>, chance: &mut Chance) -> Result<()> {
    type_here(keys, chance)?;
    for leads in [LINE_END, DOWN, UP, LINE_START, UP] {
        keys.push(leads)?;
        type_here(keys, chance)?;
    }
    keys.push(SAVE)?;
    Ok(())
}

/// A key as often as some bytes have line breaks.
fn for_each_line(keys: &mut Vec<u8>, lines: &[u8], key: u8) -> Result<()> {
    for byte in lines {
        if *byte == b'\n' {
            keys.push(key)?;
        }
    }
    Ok(())
}

/// Keys in a line of a file, which is put together of two where the break between them is taken away.
fn press_in_file(alloc: Global, chance: &mut Chance, half: u64, digest: &mut Digest) -> Result<()> {
    let above = prose(alloc, chance, BESIDE, true)?;
    let mut pressed = Vec::new(alloc);
    for_each_line(&mut pressed, &above, DOWN)?;
    pressed.extend_from_slice(&[LINE_END, ERASE_AT])?;
    type_about(&mut pressed, chance)?;
    let mut text = above;
    for _ in 0..2 {
        let line = prose(alloc, chance, half, false)?;
        text.extend_from_slice(&line)?;
        text.push(b'\n')?;
    }
    let below = prose(alloc, chance, BESIDE, true)?;
    text.extend_from_slice(&below)?;
    edit(alloc, opened(alloc, text)?, &pressed, digest)
}

/// Keys in a line of literals: letters that are typed between short lines, and cut and put in twice, so often.
fn press_in_literals(
    alloc: Global,
    chance: &mut Chance,
    doublings: u64,
    digest: &mut Digest,
) -> Result<()> {
    let mut pressed = prose(alloc, chance, BESIDE, true)?;
    pressed.push(b'\n')?;
    let below = prose(alloc, chance, BESIDE, true)?;
    pressed.extend_from_slice(&below)?;
    pressed.push(UP)?;
    for_each_line(&mut pressed, &below, UP)?;
    for _ in 0..SOWN {
        pressed.push(chance.letter())?;
    }
    for _ in 0..doublings {
        pressed.extend_from_slice(&[LINE_START, MARK, LINE_END, CUT, PASTE, LINE_START, PASTE])?;
    }
    type_about(&mut pressed, chance)?;
    edit(alloc, MemSources::new(alloc), &pressed, digest)
}

/// Keys in one long line of a file, and in one of literals.
pub fn press_in_lines(
    alloc: Global,
    chance: &mut Chance,
    scale: u64,
    digest: &mut Digest,
) -> Result<()> {
    press_in_file(alloc, chance, scale.saturating_mul(80_000), digest)?;
    let doublings = if scale < 10 { 8 } else { 15 };
    press_in_literals(alloc, chance, doublings, digest)
}
