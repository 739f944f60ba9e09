//! Where bytes come from, as numbers.

ghost use Rattle.std.specs.Prelude.{◌≡◌};
ghost use Rattle.cord_types.specs.ToldOrigins.{origin_numbers};

use crate::run::{POOLED, SOURCED};
use byte_origins::{Brought, OriginRun};

/// A byte of a fill.
pub const FILLED: u32 = 3;

/// Where a byte comes from, and for how many bytes that goes on at least.
#[repr(C)]
#[derive(Clone, Copy, Debug, PartialEq, Eq, Drop)]
pub struct CordOrigin {
    /// The revision whose command put it in.
    pub revision: u32,
    /// 1: it was handed in, and is of the pool; 2: of a source; 3: of a fill.
    pub kind: u32,
    /// The source, of kind 2; else 0.
    pub source: u32,
    /// The fill's byte, of kind 3; else 0.
    pub byte: u32,
    /// Its place in that revision's text.
    pub place: u64,
    /// Its place in the pool or in the source; else 0.
    pub start: u64,
    /// How many bytes come from there side by side.
    pub len: u64,
}

impl CordOrigin {
    /// The numbers of a run.
    pub fn of(run: OriginRun) -> CordOrigin
        ensures { result ≡ origin_numbers run.first.brought run.first.revision run.first.place run.len }
    {
        let (kind, source, byte, start) = match run.first.brought {
            Brought::Pool { a } => (POOLED, 0, 0, a),
            Brought::Source { s, p } => (SOURCED, s, 0, p),
            Brought::Fill { c } => (FILLED, 0, c as u32, 0),
        };
        CordOrigin {
            revision: run.first.revision,
            kind,
            source,
            byte,
            place: run.first.place,
            start,
            len: run.len,
        }
    }
}
