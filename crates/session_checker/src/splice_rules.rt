//! The range of a command's splices, tested one behind the other.

ghost use Rattle.std.specs.Prelude.{◌≡◌, ◌+◌, ◌^◌, ◌-◌, ◌<◌, ◌≤◌, min, nat_le, length, take, drop};
ghost use Rattle.std.specs.List.{list_all, sum_by};
ghost use Rattle.command_parts.specs.Commands.{are_apart, can_splice, is_splice};

use crate::node_rules::is_inside;
use command_parts::{MOST_SPLICES, Splice, Splices};

/// Whether one of the two numbers is not 0.
fn changes_something(m: u64, n: u64) -> bool
    ensures { result ≡ nat_le 1 (m + n) }
{
    m >= 1 || n >= 1
}

/// Whether a splice names bytes of a text and of a pool of these lengths, and changes something.
fn is_splice(pool_len: u64, len: u64, s: Splice) -> bool
    ensures { result ≡ is_splice pool_len len s }
{
    is_inside(s.p, s.m, len)
        && is_inside(s.a, s.n, pool_len)
        && changes_something(s.m, s.n)
        && (s.n >= 1 || s.a == 0)
}

/// Whether each of `count` splices from place `first` on does so.
#[tactic(auto, using(crate::proofs::SpliceSteps::next_is, crate::proofs::SpliceSteps::next_is_not))]
fn are_splices<P: Splices>(splices: &P, first: u32, count: u32, pool_len: u64, len: u64) -> bool
    requires there { first + count ≤ length (P.splices splices.now) }
    requires fit { first + count < 2 ^ 32 }
    ensures { result ≡ list_all (is_splice pool_len len) (take count (drop first (P.splices splices.now))) }
{
    for i in 0..count {
        if !is_splice(pool_len, len, splices.splice(first + i)) {
            return false;
        }
    }
    true
}

/// Whether each of `count` splices from place `first` on, but for the
/// last one, stands before the next one, and ends there or before.
fn are_apart<P: Splices>(splices: &P, first: u32, count: u32) -> bool
    requires there { first + count ≤ length (P.splices splices.now) }
    requires fit { first + count < 2 ^ 32 }
    ensures { result ≡ are_apart (take count (drop first (P.splices splices.now))) }
{
    if count == 0 {
        return true;
    }
    let mut before = splices.splice(first);
    for i in 1..count {
        let here = splices.splice(first + i);
        if before.p >= here.p || !is_inside(before.p, before.m, here.p) {
            return false;
        }
        before = here;
    }
    true
}

/// How many bytes of a text `count` splices from place `first` on take
/// away, and how many they put in, each counted up to what a number holds.
#[tactic(auto, using(crate::proofs::SpliceSteps::sum_done))]
pub fn bytes_spliced<P: Splices>(splices: &P, first: u32, count: u32) -> (u64, u64)
    requires there { first + count ≤ length (P.splices splices.now) }
    requires fit { first + count < 2 ^ 32 }
    ensures taken { result.0
        ≡ min (sum_by (λ s. s.m) (take count (drop first (P.splices splices.now)))) (2 ^ 64 - 1) }
    ensures put { result.1
        ≡ min (sum_by (λ s. s.n) (take count (drop first (P.splices splices.now)))) (2 ^ 64 - 1) }
{
    let mut taken: u64 = 0;
    let mut put: u64 = 0;
    for i in 0..count {
        let s = splices.splice(first + i);
        taken = taken.saturating_add(s.m);
        put = put.saturating_add(s.n);
    }
    (taken, put)
}

/// Whether a command may have these `count` splices from place `first` on, over a text and a pool of these lengths.
pub fn can_splice<P: Splices>(splices: &P, first: u32, count: u32, pool_len: u64, len: u64) -> bool
    requires there { first + count ≤ length (P.splices splices.now) }
    requires fit { first + count < 2 ^ 32 }
    ensures { result ≡ can_splice pool_len len (take count (drop first (P.splices splices.now))) }
{
    if count == 0 || count > MOST_SPLICES {
        return false;
    }
    are_splices(splices, first, count, pool_len, len) && are_apart(splices, first, count)
}
