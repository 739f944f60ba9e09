//! A script in the making, with the length of each revision's text.

use crate::chance::Chance;
use anyhow::Result;
use itoa::Buffer;
use std::alloc::Global;

/// Lines of commands, each in range.
#[derive(Drop)]
pub struct Script {
    lines: Vec<u8>,
    /// How long each revision's text is.
    lens: Vec<u64>,
}

impl Script {
    /// A script that opens a source of so many bytes.
    pub fn over(alloc: Global, len: u64) -> Result<Script> {
        let mut script = Script {
            lines: Vec::new(alloc),
            lens: Vec::new(alloc),
        };
        script.name("open")?;
        script.numbers(&[0])?;
        script.end(len)?;
        Ok(script)
    }

    pub fn lines(&self) -> &[u8] {
        self.lines.as_slice()
    }

    /// The number of the last revision.
    pub fn last(&self) -> u64 {
        (self.lens.len() as u64).saturating_sub(1)
    }

    /// How long the text of a revision is.
    pub fn len(&self, r: u64) -> u64 {
        self.lens.get(r as usize).copied().unwrap_or(0)
    }

    fn name(&mut self, name: &str) -> Result<()> {
        self.lines.extend_from_slice(name.as_bytes())?;
        Ok(())
    }

    fn numbers(&mut self, numbers: &[u64]) -> Result<()> {
        for n in numbers {
            let mut digits = Buffer::new();
            self.lines.push(b' ')?;
            self.lines.extend_from_slice(digits.format(*n).as_bytes())?;
        }
        Ok(())
    }

    /// So many letters and blanks in quotes.
    fn letters(&mut self, chance: &mut Chance, n: u64) -> Result<()> {
        self.lines.extend_from_slice(b" \"")?;
        for _ in 0..n {
            self.lines.push(chance.letter())?;
        }
        self.lines.push(b'"')?;
        Ok(())
    }

    /// Ends a line, whose revision's text has so many bytes.
    fn end(&mut self, len: u64) -> Result<()> {
        self.lines.push(b'\n')?;
        self.lens.push(len)?;
        Ok(())
    }

    /// Puts `n` bytes in at place `p` of the last text.
    pub fn insert(&mut self, chance: &mut Chance, p: u64, n: u64) -> Result<()> {
        let r = self.last();
        self.name("insert")?;
        self.numbers(&[r, p])?;
        self.letters(chance, n)?;
        self.end(self.len(r).saturating_add(n))
    }

    /// Takes `n` bytes away at place `p` of the last text.
    pub fn delete(&mut self, p: u64, n: u64) -> Result<()> {
        let r = self.last();
        self.name("delete")?;
        self.numbers(&[r, p, n])?;
        self.end(self.len(r).saturating_sub(n))
    }

    /// Puts `n` bytes in place of `m` at place `p` of the last text.
    pub fn replace(&mut self, chance: &mut Chance, p: u64, m: u64, n: u64) -> Result<()> {
        let r = self.last();
        self.name("replace")?;
        self.numbers(&[r, p, m])?;
        self.letters(chance, n)?;
        self.end(self.len(r).saturating_sub(m).saturating_add(n))
    }

    /// Puts the `n` bytes of revision `q` from `i` on in at place `p` of the last text.
    pub fn paste(&mut self, p: u64, q: u64, i: u64, n: u64) -> Result<()> {
        let r = self.last();
        self.name("paste")?;
        self.numbers(&[r, p, q, i, n])?;
        self.end(self.len(r).saturating_add(n))
    }

    /// Goes back to the text of revision `q`.
    pub fn back(&mut self, q: u64) -> Result<()> {
        self.name("back")?;
        self.numbers(&[q])?;
        self.end(self.len(q))
    }

    /// Balances the last text.
    pub fn balance(&mut self) -> Result<()> {
        let r = self.last();
        self.name("balance")?;
        self.numbers(&[r])?;
        self.end(self.len(r))
    }

    /// Puts `n` bytes in place of as many at each of `count` places of
    /// the last text, which lie `step` bytes apart or a little less.
    pub fn many(&mut self, chance: &mut Chance, count: u64, step: u64, n: u64) -> Result<()> {
        let r = self.last();
        self.name("many")?;
        self.numbers(&[r])?;
        let slack = step.saturating_sub(n).saturating_sub(1);
        for k in 0..count {
            let p = k.saturating_mul(step).saturating_add(chance.up_to(slack));
            self.numbers(&[p, n])?;
            self.letters(chance, n)?;
        }
        self.end(self.len(r))
    }
}
