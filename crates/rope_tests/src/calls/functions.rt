use super::assert_same;
use function_leaf::{Coded, LeafFn, fill};
use std::process::Abort;

/// Four bytes from `i` on.
fn four_bytes<F: LeafFn>(rt: &impl Abort, f: &F, i: u64) -> [u8; 4] {
    assert!(rt; i <= 1 << 40);
    let mut out = [0; 4];
    fill(f, i, &mut out);
    out
}

#[test]
fn cycles_have_1_to_16_bytes(rt: HostRuntime) {
    assert!(rt; Coded::cycle(b"").is_none());
    let longest = Coded::cycle(b"abcdefghijklmnop").expect(&rt, "sixteen bytes");
    assert_same(&rt, &[longest.byte(15), longest.byte(16)], b"pa");
    assert!(rt; Coded::cycle(b"abcdefghijklmnopq").is_none());
    match &Coded::cycle(b"abc") {
        Some(Coded::Cycle(pattern)) => {
            assert_same(&rt, &pattern.as_slice(), &b"abc".as_slice());
            assert!(rt; pattern.is_same(pattern));
        }
        _ => panic!(rt; "a cycle"),
    }
}

#[test]
fn functions_give_their_bytes(rt: HostRuntime) {
    let cycle = Coded::cycle(b"ab").expect(&rt, "two bytes");
    for (f, i, bytes) in [
        (cycle, 3, *b"baba"),
        (Coded::ramp(0xFE), 0, [0xFE, 0xFF, 0x00, 0x01]),
        (Coded::fill(b'x'), 1 << 40, *b"xxxx"),
    ] {
        assert_same(&rt, &four_bytes(&rt, &f, i), &bytes);
    }
    assert_same(&rt, &four_bytes(&rt, &Pairs, 509), &[254, 255, 255, 0]);
}

#[test]
fn coded_functions_are_told_apart(rt: HostRuntime) {
    let cycle = Coded::cycle(b"ab").expect(&rt, "two bytes");
    let again = Coded::cycle(b"ab").expect(&rt, "two bytes");
    let with_zero = Coded::cycle(b"ab\0").expect(&rt, "three bytes");
    for (f, other, same) in [
        (&cycle, &again, true),
        (&cycle, &with_zero, false),
        (&Coded::fill(1), &Coded::ramp(1), false),
        (&Coded::ramp(1), &Coded::ramp(1), true),
    ] {
        assert_same(&rt, &(f.is_same(other), f == other), &(same, same));
    }
}

/// Each byte twice, in order.
#[derive(Clone, Copy)]
struct Pairs;

impl LeafFn for Pairs {
    ghost use Rattle.std.specs.Prelude.{◌/◌, ◌%◌};

    ghost meaning = { λ _ i. (i / 2) % 256 };

    fn byte(&self, i: u64) -> u8 {
        (i / 2 % 256) as u8
    }

    fn period(&self) -> Option<u64> {
        None
    }
}
