//! Texts of lines.

use crate::chance::Chance;
use anyhow::Result;
use std::alloc::Global;

/// How long the lines of a text are.
const LENGTHS: [&[u64]; 12] = [
    &[60],
    &[48],
    &[0],
    &[20, 21, 22, 30],
    &[0, 1, 2, 79, 80, 81, 160],
    &[511, 512, 513],
    &[1023, 1024, 1025],
    &[4095, 4096, 4097],
    &[0, 5, 80, 512, 1024, 4096, 60_000],
    &[
        0, 79, 80, 81, 511, 512, 513, 1023, 1024, 1025, 4095, 4096, 4097,
    ],
    &[60_000, 20, 20, 20, 20, 20, 20, 20, 20, 20, 20, 20],
    &[30, 40, 50, 60, 70, 80, 300, 700],
];

/// Bytes of lines in the making.
#[derive(Drop)]
pub struct Lines {
    pub bytes: Vec<u8>,
    salt: u64,
}

impl Lines {
    pub fn new(alloc: Global, salt: u64) -> Lines {
        Lines {
            bytes: Vec::new(alloc),
            salt,
        }
    }

    /// A line of so many letters, and a break.
    pub fn line(&mut self, len: u64) -> Result<()> {
        for k in 0..len {
            self.salt = self.salt.wrapping_add(k).wrapping_add(1);
            self.bytes.push(b'a' + (self.salt % 26) as u8)?;
        }
        self.bytes.push(b'\n')?;
        Ok(())
    }
}

/// Lines of one length up to so many bytes, where the last may be cut.
pub fn even(alloc: Global, size: u64, len: u64) -> Result<Vec<u8>> {
    let mut lines = Lines::new(alloc, len);
    for _ in 0..size {
        if lines.bytes.len() as u64 >= size {
            break;
        }
        lines.line(len)?;
    }
    lines.bytes.truncate(size as usize);
    Ok(lines.bytes)
}

/// Lines of lengths that chance picks, up to so many bytes and a line more, where the last break may be missing.
pub fn mixed(alloc: Global, chance: &mut Chance, size: u64) -> Result<Vec<u8>> {
    let kind = chance.below(LENGTHS.len() as u64) as usize;
    let lengths = LENGTHS.get(kind).copied().unwrap_or(&[]);
    let mut lines = Lines::new(alloc, chance.below(26));
    for _ in 0..size.saturating_add(1) {
        if lines.bytes.len() as u64 >= size {
            break;
        }
        lines.line(chance.pick(lengths))?;
    }
    if chance.below(2) == 0 {
        lines.bytes.pop();
    }
    Ok(lines.bytes)
}
