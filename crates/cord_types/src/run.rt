//! Where a run of bytes stands, as numbers.

ghost use Rattle.std.specs.Prelude.{◌≡◌, ◌≤◌, length};
ghost use Rattle.function_leaf.specs.Pattern.{padded};
ghost use Rattle.function_leaf.specs.declared.pattern.TheConstants.{PATTERN_LIMIT};
ghost use Rattle.cord_types.specs.ToldRuns.{computed_run, run_told};

use function_leaf::{Coded, PATTERN_LIMIT};
use image_reader::codes::{CYCLE, FILL, RAMP};
use span_descent::Description;

/// A run in the pool.
pub const POOLED: u32 = 1;

/// A run in a source.
pub const SOURCED: u32 = 2;

/// A run that a function answers.
pub const COMPUTED: u32 = 3;

/// Where a run of bytes stands.
#[repr(C)]
#[derive(Clone, Copy, Debug, PartialEq, Eq, Drop)]
pub struct CordRun {
    /// 1: bytes of the pool; 2: bytes of a source; 3: what a function answers.
    pub kind: u32,
    /// The source, of kind 2; else 0.
    pub source: u32,
    /// The function, of kind 3: 1 a fill, 2 a ramp, 3 a cycle; else 0.
    pub function: u32,
    /// How many bytes the function's pattern has; else 0.
    pub pattern_len: u32,
    /// The place of the first byte in the pool, in the source, or in the cycle's pattern; else 0.
    pub start: u64,
    /// How many bytes it has.
    pub len: u64,
    /// The fill's byte, the ramp's first, or the cycle's pattern, and zeros.
    pub pattern: [u8; PATTERN_LIMIT],
}

/// Bytes with zeros behind them.
fn padded(bytes: &[u8]) -> [u8; PATTERN_LIMIT]
    requires { length bytes.now ≤ PATTERN_LIMIT }
    ensures { result ≡ padded bytes.now }
{
    let mut all = [0; PATTERN_LIMIT];
    all[..bytes.len()].copy_from_slice(bytes);
    all
}

/// The numbers of a run that a function answers from its place `start` on.
fn computed(function: u8, pattern: &[u8], start: u64, len: u64) -> CordRun
    requires { length pattern.now ≤ PATTERN_LIMIT }
    ensures { result ≡ computed_run function pattern.now start len }
{
    CordRun {
        kind: COMPUTED,
        source: 0,
        function: function as u32,
        pattern_len: pattern.len() as u32,
        start,
        len,
        pattern: padded(pattern),
    }
}

impl CordRun {
    /// The numbers of a run of `len` bytes.
    pub fn of(what: Description, len: u64) -> CordRun
        ensures { result ≡ run_told what len }
    {
        match what {
            Description::Pooled { a } => CordRun {
                kind: POOLED,
                source: 0,
                function: 0,
                pattern_len: 0,
                start: a,
                len,
                pattern: [0; PATTERN_LIMIT],
            },
            Description::Sourced { s, a } => CordRun {
                kind: SOURCED,
                source: s,
                function: 0,
                pattern_len: 0,
                start: a,
                len,
                pattern: [0; PATTERN_LIMIT],
            },
            Description::Computed { f, i } => match f {
                Coded::Fill(c) => computed(FILL, &[c], i, len),
                Coded::Ramp(c) => computed(RAMP, &[c], i, len),
                Coded::Cycle(pattern) => computed(CYCLE, pattern.as_slice(), i, len),
            },
        }
    }
}
