//! Bytes put into the pool one at a time.

use anyhow::Result;
use leaf_buffer::{LeafError, Piece, Pool};
use std::time::Instant;

/// How many bytes are appended.
const COUNT: u32 = 16_000_000;

/// Appends one byte, behind the last piece where its block takes it.
fn append_byte(pool: &mut Pool, last: Piece) -> Result<Piece, LeafError> {
    match pool.extend_last(last, b"x") {
        Some(longer) => Ok(longer),
        None => pool.append(b"x"),
    }
}

/// Appends bytes one at a time.
fn append_bytes(pool: &mut Pool) -> Result<(), LeafError> {
    let mut last = pool.append(b"x")?;
    for _ in 1..COUNT {
        last = append_byte(pool, last)?;
    }
    Ok(())
}

/// Times them.
pub fn time(rt: &HostRuntime) -> Result<()> {
    let mut pool = Pool::new(rt.alloc());
    let start = Instant::now(rt)?;
    append_bytes(&mut pool)?;
    let taken = start.elapsed(rt)?;
    let bytes = pool.len();
    eprintln!(rt;
        "a byte at a time into the pool: {bytes} bytes in {} ms",
        taken.as_millis()
    )?;
    Ok(())
}
