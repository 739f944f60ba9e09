//! Keys in the making, as they are pressed one after the other.

use crate::chance::Chance;
use anyhow::Result;
use std::alloc::Global;

pub const MARK: u8 = 0x00;

pub const LINE_START: u8 = 0x01;

pub const LEFT: u8 = 0x02;

pub const ERASE_AT: u8 = 0x04;

pub const LINE_END: u8 = 0x05;

pub const RIGHT: u8 = 0x06;

pub const ERASE_BEFORE: u8 = 0x08;

pub const BREAK: u8 = b'\n';

pub const BALANCE: u8 = 0x0C;

pub const DOWN: u8 = 0x0E;

pub const UP: u8 = 0x10;

pub const DROP_CUT: u8 = 0x14;

pub const UNDO: u8 = 0x15;

pub const CUT: u8 = 0x17;

pub const PASTE: u8 = 0x19;

/// How long lines are that are typed.
const TYPED: [u64; 14] = [
    0, 1, 20, 60, 79, 80, 81, 100, 511, 512, 513, 1023, 1024, 1025,
];

/// A key that is pressed so often, and whether a frame is made then.
#[derive(Clone, Copy)]
pub struct Turn {
    pub key: u8,
    pub times: u64,
    pub is_shown: bool,
}

/// Turns, one after the other.
#[derive(Drop)]
pub struct Turns {
    pub all: Vec<Turn>,
}

impl Turns {
    pub fn new(alloc: Global) -> Turns {
        Turns {
            all: Vec::new(alloc),
        }
    }

    /// A key so often, and no frame.
    pub fn press(&mut self, key: u8, times: u64) -> Result<()> {
        self.all.push(Turn {
            key,
            times,
            is_shown: false,
        })?;
        Ok(())
    }

    /// A key so often, and a frame.
    pub fn show(&mut self, key: u8, times: u64) -> Result<()> {
        self.all.push(Turn {
            key,
            times,
            is_shown: true,
        })?;
        Ok(())
    }

    /// A key so often, with a frame behind each.
    pub fn show_each(&mut self, key: u8, times: u64) -> Result<()> {
        for _ in 0..times {
            self.show(key, 1)?;
        }
        Ok(())
    }

    /// Lines that are typed.
    pub fn type_lines(&mut self, chance: &mut Chance) -> Result<()> {
        let len = chance.pick(&TYPED);
        for _ in 0..chance.between(1, 30) {
            let letter = b'a' + (chance.below(26) % 26) as u8;
            let len = if chance.below(3) == 0 {
                chance.pick(&TYPED)
            } else {
                len
            };
            self.press(letter, len)?;
            if chance.below(6) > 0 {
                self.press(BREAK, 1)?;
            }
        }
        Ok(())
    }

    /// Lines that are cut and pasted, here and further down.
    pub fn paste_lines(&mut self, chance: &mut Chance) -> Result<()> {
        self.press(MARK, 1)?;
        self.press(DOWN, chance.between(1, 60))?;
        self.press(RIGHT, chance.below(20))?;
        self.press(CUT, 1)?;
        for _ in 0..chance.between(1, 4) {
            self.press(PASTE, chance.between(1, 4))?;
            self.press(DOWN, chance.below(40))?;
        }
        Ok(())
    }

    /// A key by chance, and a frame.
    pub fn any(&mut self, chance: &mut Chance) -> Result<()> {
        let key = any_key(chance);
        let times = if chance.below(3) > 0 {
            1
        } else {
            chance.between(2, 60)
        };
        self.show(key, times)
    }
}

fn any_key(chance: &mut Chance) -> u8 {
    match chance.below(100) {
        0..30 => DOWN,
        30..42 => UP,
        42..49 => LINE_END,
        49..55 => LINE_START,
        55..60 => LEFT,
        60..65 => RIGHT,
        65..72 => b'x',
        72..76 => BREAK,
        76..80 => ERASE_BEFORE,
        80..84 => ERASE_AT,
        84..86 => MARK,
        86..89 => CUT,
        89..94 => PASTE,
        94..97 => UNDO,
        97..99 => BALANCE,
        _ => DROP_CUT,
    }
}
