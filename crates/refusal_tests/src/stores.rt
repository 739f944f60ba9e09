//! The calls of a store, each made again where it is refused memory.

use crate::kept::{Digest, Reach, store_digest};
use crate::refusals::{Refusals, TRIES, assert_same};
use function_leaf::Coded;
use node_table::NodeFault;
use rebalance::{BalanceFault, append_any, balance, cat_any, substr_any};
use rope_node::{MOST_NODES, MOST_SOURCES, NodeId, NodeSpace, Rope};
use rope_store::Store;
use std::alloc::{AllocError, AllocGlobal};
use std::process::Abort;

/// A call of a store.
#[derive(Clone, Copy)]
pub enum Call<'a> {
    AddSource(u64),
    Bytes(&'a [u8]),
    Source(u32, u64, u64),
    Function(Coded, u64),
    Chars(u8, u64),
    Cat(Rope, Rope),
    CatPlain(NodeId, NodeId),
    Substr(Rope, u64, u64),
    Append(Rope, &'a [u8]),
    Balance(Rope),
    CatAny(Rope, Rope),
    SubstrAny(Rope, u64, u64),
    AppendAny(Rope, &'a [u8]),
}

/// What a call answers: a rope, and a number beside it, where there is one.
#[derive(Clone, Copy, Debug, PartialEq, Eq)]
pub struct Made {
    pub rope: Rope,
    pub number: u64,
}

type Answer = Result<Made, BalanceFault>;

fn plain(answer: Result<Rope, NodeFault>) -> Answer {
    match answer {
        Ok(rope) => Ok(Made { rope, number: 0 }),
        Err(fault) => Err(BalanceFault::Node(fault)),
    }
}

fn any_made(answer: Result<Rope, BalanceFault>) -> Answer {
    match answer {
        Ok(rope) => Ok(Made { rope, number: 0 }),
        Err(fault) => Err(fault),
    }
}

fn add_source(store: &mut Store<Coded>, len: u64) -> Answer {
    match store.add_source(len) {
        Ok(s) => Ok(Made {
            rope: None,
            number: u64::from(s),
        }),
        Err(fault) => Err(BalanceFault::Node(fault)),
    }
}

fn from_bytes(store: &mut Store<Coded>, bytes: &[u8]) -> Answer {
    plain(store.from_bytes(bytes))
}

fn from_source(store: &mut Store<Coded>, s: u32, a: u64, n: u64) -> Answer {
    plain(store.from_source(s, a, n))
}

fn from_fn(store: &mut Store<Coded>, f: Coded, n: u64) -> Answer {
    plain(store.from_fn(f, n))
}

fn chars(store: &mut Store<Coded>, c: u8, n: u64) -> Answer {
    plain(store.chars(c, n))
}

fn cat<A: Abort>(rt: &A, store: &mut Store<Coded>, l: Rope, r: Rope) -> Answer {
    assert!(rt; store.has(l) && store.has(r));
    plain(store.cat(l, r))
}

fn cat_plain<A: Abort>(rt: &A, store: &mut Store<Coded>, l: NodeId, r: NodeId) -> Answer {
    assert!(rt; store.has(Some(l)) && store.has(Some(r)));
    plain(store.cat_plain(l, r))
}

fn substr<A: Abort>(rt: &A, store: &mut Store<Coded>, x: Rope, i: u64, n: u64) -> Answer {
    assert!(rt; store.has(x));
    plain(store.substr(x, i, n))
}

fn append<A: Abort>(rt: &A, store: &mut Store<Coded>, x: Rope, bytes: &[u8]) -> Answer {
    assert!(rt; store.has(x));
    plain(store.append(x, bytes))
}

fn balanced<A: Abort>(rt: &A, store: &mut Store<Coded>, x: Rope) -> Answer {
    assert!(rt; store.has(x));
    any_made(balance(store, x))
}

fn any_joined<A: Abort>(rt: &A, store: &mut Store<Coded>, l: Rope, r: Rope) -> Answer {
    assert!(rt; store.has(l) && store.has(r));
    any_made(cat_any(store, l, r))
}

fn any_part<A: Abort>(rt: &A, store: &mut Store<Coded>, x: Rope, i: u64, n: u64) -> Answer {
    assert!(rt; store.has(x));
    any_made(substr_any(store, x, i, n))
}

fn any_appended<A: Abort>(rt: &A, store: &mut Store<Coded>, x: Rope, bytes: &[u8]) -> Answer {
    assert!(rt; store.has(x));
    match append_any(store, x, bytes) {
        Ok((rope, number)) => Ok(Made { rope, number }),
        Err(fault) => Err(fault),
    }
}

fn ask<A: Abort>(rt: &A, store: &mut Store<Coded>, call: &Call<'_>) -> Answer {
    match call {
        Call::AddSource(len) => add_source(store, *len),
        Call::Bytes(bytes) => from_bytes(store, bytes),
        Call::Source(s, a, n) => from_source(store, *s, *a, *n),
        Call::Function(f, n) => from_fn(store, *f, *n),
        Call::Chars(c, n) => chars(store, *c, *n),
        Call::Cat(l, r) => cat(rt, store, *l, *r),
        Call::CatPlain(l, r) => cat_plain(rt, store, *l, *r),
        Call::Substr(x, i, n) => substr(rt, store, *x, *i, *n),
        Call::Append(x, bytes) => append(rt, store, *x, bytes),
        Call::Balance(x) => balanced(rt, store, *x),
        Call::CatAny(l, r) => any_joined(rt, store, *l, *r),
        Call::SubstrAny(x, i, n) => any_part(rt, store, *x, *i, *n),
        Call::AppendAny(x, bytes) => any_appended(rt, store, *x, bytes),
    }
}

/// Whether a refused call may leave nodes and pool bytes to which nothing refers.
fn may_leave_more(call: &Call<'_>) -> bool {
    matches!(
        call,
        Call::Balance(_) | Call::CatAny(..) | Call::SubstrAny(..) | Call::AppendAny(..)
    )
}

/// What a refused call leaves as it was: all of the store, or all that was there.
fn kept<A: Abort>(
    rt: &A,
    store: &Store<Coded>,
    call: &Call<'_>,
    reach: Reach,
) -> (Digest, Option<Reach>) {
    let now = if may_leave_more(call) {
        None
    } else {
        Some(Reach::of(store))
    };
    (store_digest(rt, store, reach), now)
}

/// Makes a call, and makes it again where it was refused memory.
pub(crate) fn answered<A: Abort>(
    rt: &A,
    store: &mut Store<Coded>,
    call: &Call<'_>,
    refusals: &mut Refusals,
) -> Answer {
    let reach = Reach::of(store);
    let before = kept(rt, store, call, reach);
    for _ in 0..TRIES {
        match ask(rt, store, call) {
            Err(BalanceFault::Node(NodeFault::Memory)) => {
                refusals.met(rt, &kept(rt, store, call, reach), &before);
            }
            answer => return answer,
        }
    }
    panic!(rt; "refused each time")
}

/// The rope that a call makes.
pub(crate) fn rope_of<A: Abort>(
    rt: &A,
    store: &mut Store<Coded>,
    call: &Call<'_>,
    refusals: &mut Refusals,
) -> Rope {
    answered(rt, store, call, refusals)
        .expect(rt, "a rope")
        .rope
}

/// How many nodes a store has.
pub(crate) fn node_count(store: &Store<Coded>) -> u32 {
    store.count()
}

fn copy_of<A: AllocGlobal + Abort>(
    rt: &A,
    store: &Store<Coded>,
) -> Result<Store<Coded>, AllocError> {
    assert!(rt; store.count() <= MOST_NODES && store.source_count() <= MOST_SOURCES);
    Store::copied(rt.alloc(), store)
}

/// Copies a store, once more where that was refused memory.
pub(crate) fn copied<A: AllocGlobal + Abort>(
    rt: &A,
    store: &Store<Coded>,
    refusals: &mut Refusals,
) -> Store<Coded> {
    let reach = Reach::of(store);
    let before = store_digest(rt, store, reach);
    for _ in 0..TRIES {
        match copy_of(rt, store) {
            Err(_) => refusals.met(rt, &store_digest(rt, store, reach), &before),
            Ok(copy) => {
                let found = (store_digest(rt, &copy, reach), Reach::of(&copy));
                assert_same(rt, &found, &(before, reach), &"a copy");
                return copy;
            }
        }
    }
    panic!(rt; "refused each time")
}
