use super::assert_same;
use leaf_buffer::{LeafError, POOL_LIMIT, Piece, Pool, Run};
use std::alloc::AllocGlobal;
use std::process::Abort;

// What a call ensures is not needed to prove a test, so each stands in a function of its own that ensures nothing.

fn append(pool: &mut Pool, bytes: &[u8]) -> Result<Piece, LeafError> {
    pool.append(bytes)
}

fn extend(pool: &mut Pool, last: Piece, bytes: &[u8]) -> Option<Piece> {
    pool.extend_last(last, bytes)
}

fn get(pool: &Pool, span: Piece) -> Option<&[u8]> {
    pool.get(span)
}

fn piece(start: u32, len: u32) -> Piece {
    Piece { start, len }
}

#[test]
fn last_piece_is_extended_within_its_room(rt: HostRuntime) {
    let mut pool = Pool::new(rt.alloc());
    assert_same(&rt, &(pool.len(), pool.room()), &(0, 0));
    assert_same(&rt, &append(&mut pool, b"abc"), &Ok(piece(0, 3)));
    assert_same(&rt, &pool.room(), &65_533);
    assert!(&rt; pool.can_extend(piece(0, 3), 65_533));
    assert!(&rt; !pool.can_extend(piece(0, 3), 65_534));
    let longer = extend(&mut pool, piece(0, 3), b"de");
    assert_same(&rt, &longer, &Some(piece(0, 5)));
    assert_same(&rt, &pool.room(), &65_531);
    assert_same(&rt, &get(&pool, piece(0, 3)), &Some(b"abc".as_slice()));
    assert_same(&rt, &extend(&mut pool, piece(0, 3), b"x"), &None);
}

#[test]
fn piece_past_the_room_opens_a_block(rt: HostRuntime) {
    let full = [b'a'; 65_537];
    let mut pool = Pool::new(rt.alloc());
    for (bytes, outcome, room) in [
        (b"abcde".as_slice(), Ok(piece(0, 5)), 65_531),
        (b"", Err(LeafError::Empty), 65_531),
        (&full, Err(LeafError::TooLong), 65_531),
        (&full[1..], Ok(piece(5, 65_536)), 0),
        (b"b", Ok(piece(65_541, 1)), 65_535),
    ] {
        let found = append(&mut pool, bytes);
        assert_same(&rt, &(found, pool.room()), &(outcome, room));
    }
    assert_same(&rt, &extend(&mut pool, piece(5, 65_536), b"x"), &None);
    let longer = extend(&mut pool, piece(65_541, 1), b"c");
    assert_same(&rt, &longer, &Some(piece(65_541, 2)));
    for (span, bytes) in [
        (piece(3, 2), Some(b"de".as_slice())),
        (piece(4, 2), None),
        (piece(65_540, 2), None),
        (piece(65_541, 2), Some(b"bc")),
    ] {
        assert_same(&rt, &get(&pool, span), &bytes);
    }
    assert!(rt; pool.len() == 65_543);
    assert_same(&rt, &pool.rest_of_block(65_542), &b"c".as_slice());
}

#[test]
fn piece_as_long_as_a_block_leaves_no_room(rt: HostRuntime) {
    let full = [b'a'; 65_536];
    let mut pool = Pool::new(rt.alloc());
    for (bytes, place, room) in [
        (full.as_slice(), piece(0, 65_536), 0),
        (b"b", piece(65_536, 1), 65_535),
    ] {
        let found = append(&mut pool, bytes);
        assert_same(&rt, &(found, pool.room()), &(Ok(place), room));
    }
    let longer = extend(&mut pool, piece(65_536, 1), b"c");
    assert_same(&rt, &longer, &Some(piece(65_536, 2)));
    assert_same(&rt, &get(&pool, piece(65_535, 2)), &None);
    assert_same(&rt, &extend(&mut pool, piece(0, 65_536), b"x"), &None);
}

fn holding(rt: &(impl AllocGlobal + Abort), bytes: &[u8]) -> Pool {
    let mut handed = Vec::new(rt.alloc());
    handed.extend_from_slice(bytes).expect(rt, "memory");
    assert!(rt; (handed.len() as u64) < POOL_LIMIT);
    Pool::holding(rt.alloc(), handed).expect(rt, "memory")
}

/// The pool has these bytes there.
fn assert_gets(rt: &impl Abort, pool: &Pool, span: Piece, wanted: &[u8]) {
    let held = get(pool, span).expect(rt, "a piece");
    assert_same(rt, &held, &wanted);
}

// Bytes that are handed over are one block, however many they are.
#[test]
fn bytes_that_are_handed_over_take_no_more(rt: HostRuntime) {
    let handed = [b'a'; 70_000];
    let mut pool = holding(&rt, &handed);
    assert_same(&rt, &(pool.len(), pool.room()), &(70_000, 0));
    assert_gets(&rt, &pool, piece(65_530, 20), &[b'a'; 20]);
    assert_same(&rt, &extend(&mut pool, piece(69_999, 1), b"b"), &None);
    assert_same(&rt, &append(&mut pool, b"bc"), &Ok(piece(70_000, 2)));
    assert_same(&rt, &(pool.len(), pool.room()), &(70_002, 65_534));
    assert_same(&rt, &get(&pool, piece(69_999, 2)), &None);
    let longer = extend(&mut pool, piece(70_000, 2), b"d");
    assert_same(&rt, &longer, &Some(piece(70_000, 3)));
    assert_gets(&rt, &pool, piece(70_001, 2), b"cd");
    let mut none = holding(&rt, b"");
    assert_same(&rt, &(none.len(), none.room()), &(0, 0));
    assert_same(&rt, &append(&mut none, b"bc"), &Ok(piece(0, 2)));
}

#[test]
fn run_moves_over_text_and_back(rt: HostRuntime) {
    let mut run = Run::over(b"abc");
    assert_same(&rt, &run.skip(5), &3);
    assert_same(&rt, &run.next(), &None);
    assert_same(&rt, &run.back(), &Some(0x63));
    assert_same(&rt, &run.passed(), &2);
    assert_same(&rt, &run.rest(), &b"c".as_slice());
    let mut none = Run::over(b"");
    assert_same(&rt, &none.peek(), &None);
    assert_same(&rt, &none.next(), &None);
    assert_same(&rt, &none.back(), &None);
    assert_same(&rt, &none.skip(1), &0);
}

#[test]
fn refusals_print_their_codes(rt: HostRuntime) {
    for (fault, code) in [
        (LeafError::Empty, "L1"),
        (LeafError::TooLong, "L2"),
        (LeafError::PoolFull, "L3"),
        (LeafError::Memory, "Memory"),
    ] {
        let printed = fault.to_string(rt.alloc()).expect(&rt, "memory");
        assert_same(&rt, &printed.as_str(), &code);
    }
}
