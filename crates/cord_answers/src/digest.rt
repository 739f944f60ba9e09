//! A digest of all that is written, in place of the bytes.

use std::io;

/// How many bytes were written, and what they come to: FNV-1a of 64 bits.
#[derive(Clone, Copy)]
pub struct Digest {
    count: u64,
    sum: u64,
}

impl Digest {
    pub fn new() -> Digest {
        Digest {
            count: 0,
            sum: 0xCBF2_9CE4_8422_2325,
        }
    }

    /// These bytes more.
    pub fn take(&mut self, bytes: &[u8]) {
        for byte in bytes {
            self.sum = (self.sum ^ u64::from(*byte)).wrapping_mul(0x0000_0100_0000_01B3);
        }
        self.count = self.count.wrapping_add(bytes.len() as u64);
    }

    /// A number more, in one step.
    pub fn word(&mut self, n: u64) {
        self.sum = (self.sum ^ n)
            .wrapping_mul(0x9E37_79B9_7F4A_7C15)
            .rotate_left(31);
    }

    /// Three numbers more.
    pub fn words(&mut self, a: u64, b: u64, c: u64) {
        self.word(a);
        self.word(b);
        self.word(c);
    }

    /// What all of it comes to.
    pub fn value(&self) -> u64 {
        self.sum
    }

    /// How many bytes were written.
    pub fn count(&self) -> u64 {
        self.count
    }
}

impl io::Write for Digest {
    ghost use Rattle.std.specs.Prelude.{None};

    ghost contents = { λ _. None };

    fn write(&mut self, bytes: &[u8]) -> io::Result<usize> {
        self.take(bytes);
        Ok(bytes.len())
    }

    fn flush(&mut self) -> io::Result<()> {
        Ok(())
    }
}
