//! The lines that a case prints.

use anyhow::Result;
use itoa::Buffer;
use std::alloc::Global;

const DIGITS: &[u8; 16] = b"0123456789abcdef";

/// Lines in the making.
#[derive(Drop)]
pub struct Report {
    bytes: Vec<u8>,
}

impl Report {
    pub fn new(alloc: Global) -> Report {
        Report {
            bytes: Vec::new(alloc),
        }
    }

    pub fn bytes(&self) -> &[u8] {
        self.bytes.as_slice()
    }

    /// These words.
    pub fn words(&mut self, words: &str) -> Result<()> {
        self.bytes.extend_from_slice(words.as_bytes())?;
        Ok(())
    }

    /// These bytes.
    pub fn append(&mut self, bytes: &[u8]) -> Result<()> {
        self.bytes.extend_from_slice(bytes)?;
        Ok(())
    }

    /// One byte.
    pub fn byte(&mut self, byte: u8) -> Result<()> {
        self.bytes.push(byte)?;
        Ok(())
    }

    /// A number.
    pub fn number(&mut self, n: u64) -> Result<()> {
        let mut digits = Buffer::new();
        self.bytes.extend_from_slice(digits.format(n).as_bytes())?;
        Ok(())
    }

    /// Words and then a number.
    pub fn entry(&mut self, words: &str, n: u64) -> Result<()> {
        self.words(words)?;
        self.number(n)
    }

    /// The lowest so many hexadecimal digits of a number.
    pub fn hex(&mut self, n: u64, digits: u32) -> Result<()> {
        for k in 0..digits {
            let shift = digits.saturating_sub(k).saturating_sub(1).saturating_mul(4);
            let digit = n.checked_shr(shift).unwrap_or(0) % 16;
            self.bytes
                .push(DIGITS.get(digit as usize).copied().unwrap_or(b'?'))?;
        }
        Ok(())
    }

    /// The end of a line.
    pub fn end(&mut self) -> Result<()> {
        self.bytes.push(b'\n')?;
        Ok(())
    }
}
