//! The pool: bytes that are put in behind the others, and within its room.

use crate::kept::Digest;
use crate::refusals::{Refusals, TRIES, assert_same};
use leaf_buffer::{LeafError, POOL_LIMIT, Piece, Pool};
use std::alloc::{AllocError, AllocGlobal};
use std::process::Abort;

// What a call ensures is not needed to prove a test, so each stands in a function of its own that ensures nothing.

fn append(pool: &mut Pool, bytes: &[u8]) -> Result<Piece, LeafError> {
    pool.append(bytes)
}

fn extend(pool: &mut Pool, last: Piece, bytes: &[u8]) -> Option<Piece> {
    pool.extend_last(last, bytes)
}

fn get(pool: &Pool, span: Piece) -> Option<&[u8]> {
    pool.get(span)
}

fn piece(start: u32, len: u32) -> Piece {
    Piece { start, len }
}

/// Its length, its room, and the bytes of these pieces.
fn kept(pool: &Pool, pieces: &[Piece]) -> (u64, usize, Digest) {
    let mut digest = Digest::new();
    for piece in pieces {
        digest.put_bytes(get(pool, *piece).unwrap_or(&[]));
    }
    (pool.len(), pool.room(), digest)
}

/// Puts bytes behind the others, once more where that was refused memory.
fn appended<A: Abort>(
    rt: &A,
    pool: &mut Pool,
    bytes: &[u8],
    pieces: &[Piece],
    refusals: &mut Refusals,
) -> Result<Piece, LeafError> {
    let before = kept(pool, pieces);
    for _ in 0..TRIES {
        match append(pool, bytes) {
            Err(LeafError::Memory) => refusals.met(rt, &kept(pool, pieces), &before),
            answer => return answer,
        }
    }
    panic!(rt; "refused each time")
}

pub(crate) fn worked_pool<A: AllocGlobal + Abort>(rt: &A, refusals: &mut Refusals) {
    let full = [b'a'; 65_537];
    let mut pool = Pool::new(rt.alloc());
    let first = appended(rt, &mut pool, b"abc", &[], refusals);
    assert_same(
        rt,
        &(first, pool.room()),
        &(Ok(piece(0, 3)), 65_533),
        &"abc",
    );
    let longer = extend(&mut pool, piece(0, 3), b"de");
    assert_same(
        rt,
        &(longer, pool.room()),
        &(Some(piece(0, 5)), 65_531),
        &"de",
    );
    let pieces = [piece(0, 5)];
    let second = appended(rt, &mut pool, &full[1..], &pieces, refusals);
    assert_same(
        rt,
        &(second, pool.room()),
        &(Ok(piece(5, 65_536)), 0),
        &"a block",
    );
    let pieces = [piece(0, 5), piece(5, 65_536)];
    let third = appended(rt, &mut pool, b"b", &pieces, refusals);
    assert_same(
        rt,
        &(third, pool.room()),
        &(Ok(piece(65_541, 1)), 65_535),
        &"b",
    );
    for (bytes, fault) in [
        (b"".as_slice(), LeafError::Empty),
        (full.as_slice(), LeafError::TooLong),
    ] {
        let refused = appended(rt, &mut pool, bytes, &pieces, refusals);
        assert_same(rt, &refused, &Err(fault), &bytes.len());
    }
    assert_same(
        rt,
        &get(&pool, piece(0, 5)),
        &Some(b"abcde".as_slice()),
        &"the first",
    );
    assert_same(rt, &get(&pool, piece(4, 2)), &None, &"over two blocks");
}

fn holding<A: AllocGlobal + Abort>(rt: &A, bytes: &[u8]) -> Result<Pool, AllocError> {
    let mut handed = Vec::new(rt.alloc());
    handed.extend_from_slice(bytes)?;
    assert!(rt; (handed.len() as u64) < POOL_LIMIT);
    Pool::holding(rt.alloc(), handed)
}

/// Hands bytes over, once more where that was refused memory.
fn handed<A: AllocGlobal + Abort>(rt: &A, bytes: &[u8], refusals: &mut Refusals) -> Pool {
    for _ in 0..TRIES {
        match holding(rt, bytes) {
            Ok(pool) => return pool,
            Err(_) => refusals.met(rt, &bytes.len(), &bytes.len()),
        }
    }
    panic!(rt; "refused each time")
}

pub(crate) fn handed_pool<A: AllocGlobal + Abort>(rt: &A, refusals: &mut Refusals) {
    let mut pool = handed(rt, b"abc", refusals);
    let pieces = [piece(0, 3)];
    let second = appended(rt, &mut pool, b"de", &pieces, refusals);
    assert_same(
        rt,
        &(second, pool.room()),
        &(Ok(piece(3, 2)), 65_534),
        &"a block of its own",
    );
    for (span, bytes) in [
        (piece(1, 2), Some(b"bc".as_slice())),
        (piece(3, 2), Some(b"de")),
        (piece(2, 2), None),
    ] {
        assert_same(rt, &get(&pool, span), &bytes, &span);
    }
}
