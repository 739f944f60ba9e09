//! Texts with keys, over files that may misbehave.

use crate::chance::Chance;
use crate::device::{NO_TROUBLE, Trouble};
use crate::texts::{even, mixed};
use crate::turns::{BREAK, DOWN, DROP_CUT, LINE_END, LINE_START, RIGHT, Turns, UP};
use anyhow::Result;
use std::alloc::Global;

const BLOCK: u64 = 4096;

/// A file, the keys that are pressed, and how the file misbehaves from which turn on.
#[derive(Drop)]
pub struct Plan {
    pub text: Vec<u8>,
    pub turns: Turns,
    pub trouble: Trouble,
    pub since: u64,
    pub most: usize,
    /// Whether a frame is made before any key.
    pub is_shown: bool,
}

/// Lines of `line` bytes, gone down so often, the file cut, and once more down.
fn cut_behind(alloc: Global, line: u64, down: u64) -> Result<Plan> {
    let mut turns = Turns::new(alloc);
    turns.show_each(DOWN, down.saturating_add(1))?;
    Ok(Plan {
        text: even(alloc, 39_960, line.saturating_sub(1))?,
        turns,
        trouble: Trouble {
            ends_at: Some(7879),
            ..NO_TROUBLE
        },
        since: down.saturating_add(1),
        most: usize::MAX,
        is_shown: true,
    })
}

/// A file that is unreadable at a byte and cut behind it, before
/// the place that is shown: of two faults the start told the first.
fn cut_and_unreadable(alloc: Global) -> Result<Plan> {
    let mut turns = Turns::new(alloc);
    turns.press(DOWN, 200)?;
    turns.show(DROP_CUT, 1)?;
    Ok(Plan {
        text: even(alloc, 39_960, 59)?,
        turns,
        trouble: Trouble {
            fails_at: Some(8000),
            ends_at: Some(11_999),
        },
        since: 2,
        most: usize::MAX,
        is_shown: false,
    })
}

/// Where line `k` begins, or the text's end.
fn line_place(text: &[u8], k: u64) -> u64 {
    let mut left = k;
    let mut place: u64 = 0;
    for byte in text {
        if left == 0 {
            break;
        }
        place = place.saturating_add(1);
        if *byte == BREAK {
            left = left.saturating_sub(1);
        }
    }
    place
}

fn count_lines(text: &[u8]) -> u64 {
    let mut count: u64 = 0;
    for byte in text {
        if *byte == BREAK {
            count = count.saturating_add(1);
        }
    }
    count
}

/// A byte of a text, often near a block's border behind a place.
fn byte_near(chance: &mut Chance, place: u64, len: u64) -> u64 {
    let near = place.saturating_add(chance.below(3 * BLOCK));
    let border = near / BLOCK * BLOCK;
    match chance.below(10) {
        0..3 => border.saturating_add(chance.below(5)).saturating_sub(2),
        3..6 => border
            .saturating_add(chance.below(1200))
            .saturating_sub(600),
        6..8 => near,
        8 => place.saturating_sub(chance.below(2 * BLOCK)),
        _ => chance.below(len),
    }
}

/// How a file misbehaves about a place.
fn trouble_near(chance: &mut Chance, place: u64, len: u64) -> Trouble {
    let (fails_at, ends_at) = (byte_near(chance, place, len), byte_near(chance, place, len));
    match chance.below(20) {
        0..5 => NO_TROUBLE,
        5..11 => Trouble {
            fails_at: Some(fails_at),
            ends_at: None,
        },
        11..17 => Trouble {
            fails_at: None,
            ends_at: Some(ends_at),
        },
        _ => Trouble {
            fails_at: Some(fails_at),
            ends_at: Some(ends_at),
        },
    }
}

/// How the keys begin, before which the place is at the start; it answers about how many lines down that is.
fn open(chance: &mut Chance, turns: &mut Turns, lines: u64) -> Result<u64> {
    let down = match chance.below(4) {
        0 => chance.below(60),
        1 => lines.saturating_add(2),
        _ => chance.below(lines.saturating_add(1)),
    };
    match chance.below(10) {
        0 => return Ok(0),
        1 => turns.press(LINE_END, 1)?,
        2..6 => {
            turns.press(DOWN, down)?;
            return Ok(down);
        }
        6 | 7 => {
            turns.press(DOWN, down)?;
            turns.type_lines(chance)?;
            return Ok(down);
        }
        8 => turns.paste_lines(chance)?,
        _ => {
            turns.press(RIGHT, chance.below(200))?;
            turns.type_lines(chance)?;
            turns.press(UP, chance.below(20))?;
            turns.paste_lines(chance)?;
            turns.press(LINE_START, 1)?;
        }
    }
    Ok(0)
}

fn size_of_a_text(chance: &mut Chance) -> u64 {
    match chance.below(10) {
        0 => chance.below(200),
        1 => chance.below(4 * BLOCK),
        2 => 4 * BLOCK,
        3..9 => chance.between(8000, 60_000),
        _ => chance.between(60_000, 200_000),
    }
}

/// A plan by chance.
fn by_chance(alloc: Global, chance: &mut Chance) -> Result<Plan> {
    let size = size_of_a_text(chance);
    let text = mixed(alloc, chance, size)?;
    let mut turns = Turns::new(alloc);
    let down = open(chance, &mut turns, count_lines(&text))?;
    let opened = (turns.all.len() as u64).saturating_add(1);
    let count = chance.between(1, 6);
    for _ in 0..count {
        turns.any(chance)?;
    }
    let since = if chance.below(4) == 0 {
        0
    } else {
        opened.saturating_add(chance.below(count))
    };
    let place = line_place(&text, down);
    Ok(Plan {
        trouble: trouble_near(chance, place, text.len() as u64),
        text,
        turns,
        since,
        most: if chance.below(12) == 0 {
            1000
        } else {
            usize::MAX
        },
        is_shown: chance.below(3) == 0,
    })
}

/// The plan of a number: the first three were worked by hand.
pub fn plan_of(alloc: Global, chance: &mut Chance, seed: u64) -> Result<Plan> {
    match seed {
        0 => cut_behind(alloc, 60, 51),
        1 => cut_behind(alloc, 48, 64),
        2 => cut_and_unreadable(alloc),
        _ => by_chance(alloc, chance),
    }
}
