//! A digest of all that is written, in place of the bytes.

ghost use Rattle.std.specs.Prelude.{◌+◌, ◌≤◌, length};

use std::io;

/// How many bytes were written, and what they come to, however many came at a time.
#[derive(Drop)]
pub struct Digest {
    count: u64,
    sum: u64,
    /// The last bytes, fewer than eight, as a number.
    rest: u64,
}

/// An odd number by which each eight bytes are spread.
const SPREAD: u64 = 0x9E37_79B9_7F4A_7C15;

/// Eight bytes as a number.
fn word_at(bytes: &[u8], at: usize) -> u64
    requires { at + 8 ≤ length bytes.now }
{
    let word = &bytes[at..at + 8];
    u64::from_be_bytes([
        word[0], word[1], word[2], word[3], word[4], word[5], word[6], word[7],
    ])
}

impl Digest {
    pub fn new() -> Digest {
        Digest {
            count: 0,
            sum: 0,
            rest: 0,
        }
    }

    /// Eight bytes more, as one number.
    fn mix(&mut self, word: u64) {
        self.sum = (self.sum ^ word).wrapping_mul(SPREAD).rotate_left(29);
    }

    /// One byte more.
    fn take(&mut self, byte: u8) {
        self.rest = self.rest.wrapping_mul(256) ^ u64::from(byte);
        self.count = self.count.wrapping_add(1);
        if self.count % 8 == 0 {
            let word = self.rest;
            self.mix(word);
            self.rest = 0;
        }
    }

    /// All of these, eight at a time where a number is full.
    fn take_all(&mut self, bytes: &[u8]) {
        let lead = ((8 - self.count % 8) % 8).min(bytes.len() as u64) as usize;
        let (front, behind) = bytes.split_at(lead);
        for byte in front {
            self.take(*byte);
        }
        let words = behind.len() / 8;
        for k in 0..words {
            self.mix(word_at(behind, k * 8));
        }
        self.count = self.count.wrapping_add(words as u64 * 8);
        for byte in &behind[words * 8..] {
            self.take(*byte);
        }
    }

    /// A number more.
    pub fn number(&mut self, n: u64) {
        self.take_all(&n.to_be_bytes());
    }

    /// What all of it comes to.
    pub fn value(&self) -> u64 {
        let last = self.rest ^ self.count.rotate_left(32);
        (self.sum ^ last).wrapping_mul(SPREAD).rotate_left(29)
    }

    /// How many bytes were written.
    pub fn count(&self) -> u64 {
        self.count
    }
}

impl io::Write for Digest {
    ghost use Rattle.std.specs.Prelude.{None};

    ghost contents = { λ _. None };

    fn write(&mut self, bytes: &[u8]) -> io::Result<usize> {
        self.take_all(bytes);
        Ok(bytes.len())
    }

    fn flush(&mut self) -> io::Result<()> {
        Ok(())
    }
}
