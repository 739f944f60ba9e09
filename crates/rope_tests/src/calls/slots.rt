//! Which nodes balancing makes: contracts say how shallow and how many, and these
//! which, beside slots that are gone through from the first on, one by one.

use super::agreement::below;
use super::stores::{add_source, joined, size_of, source_leaf};
use super::{assert_same, assert_same_at};
use function_leaf::Coded;
use rebalance::balance;
use rope_node::{NodeId, NodeSpace, NodeView, Rope};
use rope_store::Store;
use std::alloc::AllocGlobal;
use std::process::Abort;

/// A rope is shorter than the Fibonacci number at this slot.
const END: usize = 60;

/// A rope, by the number of its node.
#[derive(Clone, Copy)]
struct Piece {
    node: u32,
    len: u64,
}

/// Slots, the Fibonacci number at each, and the nodes that were made: each over two others.
#[derive(Drop)]
struct Slots {
    ropes: Vec<Option<Piece>>,
    fibonacci: Vec<u64>,
    made: Vec<(u32, u32)>,
    /// The number of the first node that was made.
    first: u32,
}

/// Empty slots over a store that has so many nodes.
fn no_slots<A: AllocGlobal + Abort>(rt: &A, first: u32) -> Slots {
    let mut slots = Slots {
        ropes: Vec::new(rt.alloc()),
        fibonacci: Vec::new(rt.alloc()),
        made: Vec::new(rt.alloc()),
        first,
    };
    let (mut here, mut there): (u64, u64) = (0, 1);
    for _ in 0..=END {
        slots.ropes.push(None).expect(rt, "memory");
        slots.fibonacci.push(here).expect(rt, "memory");
        let sum = here.checked_add(there).expect(rt, "a number");
        here = there;
        there = sum;
    }
    slots
}

impl Slots {
    /// Both ropes as one, or one of them where the other is none.
    fn join<A: Abort>(&mut self, rt: &A, l: Option<Piece>, r: Option<Piece>) -> Option<Piece> {
        let (Some(left), Some(right)) = (l, r) else {
            return l.or(r);
        };
        let count = u32::try_from(self.made.len()).expect(rt, "a count");
        let made = (left.node, right.node);
        self.made.push(made).expect(rt, "memory");
        Some(Piece {
            node: self.first.checked_add(count).expect(rt, "a number"),
            len: left.len.checked_add(right.len).expect(rt, "a length"),
        })
    }

    /// Takes the rope out of a slot.
    fn take<A: Abort>(&mut self, rt: &A, slot: usize) -> Option<Piece> {
        let place = self.ropes.get_mut(slot).expect(rt, "a slot");
        let rope = *place;
        *place = None;
        rope
    }

    /// The Fibonacci number at a slot.
    fn number<A: Abort>(&self, rt: &A, slot: usize) -> u64 {
        *self.fibonacci.get(slot).expect(rt, "a number")
    }

    /// The slot of a rope of this length.
    fn slot_for<A: Abort>(&self, rt: &A, len: u64) -> usize {
        for slot in 2..END {
            if len < self.number(rt, slot + 1) {
                return slot;
            }
        }
        panic!(rt; "a rope that is too long")
    }

    /// The ropes of the slots below `end`, joined from the smallest up.
    fn join_below<A: Abort>(&mut self, rt: &A, end: usize) -> Option<Piece> {
        let mut rope = None;
        for slot in 0..end {
            let left = self.take(rt, slot);
            rope = self.join(rt, left, rope);
        }
        rope
    }

    /// The full slots, each with the length of its rope.
    fn full<A: AllocGlobal + Abort>(&self, rt: &A) -> Vec<(usize, u64)> {
        let mut full = Vec::new(rt.alloc());
        for (slot, rope) in self.ropes.iter().enumerate() {
            if let Some(piece) = rope {
                full.push((slot, piece.len)).expect(rt, "memory");
            }
        }
        full
    }

    /// Puts a piece behind the text of the slots.
    fn insert<A: Abort>(&mut self, rt: &A, piece: Piece) {
        let first = self.slot_for(rt, piece.len);
        let lower = self.join_below(rt, first);
        let mut rope = self.join(rt, lower, Some(piece));
        for slot in first..END {
            let left = self.take(rt, slot);
            let len = rope.expect(rt, "a rope").len;
            if left.is_none() && len < self.number(rt, slot + 1) {
                *self.ropes.get_mut(slot).expect(rt, "a slot") = rope;
                return;
            }
            rope = self.join(rt, left, rope);
        }
        panic!(rt; "no slot");
    }
}

/// The node of a rope.
fn node_of<A: Abort>(rt: &A, rope: Rope) -> NodeId {
    rope.expect(rt, "a node")
}

/// So many leaves at random of a source, of at most so many bytes each, and the rope over them.
fn random_rope<A: AllocGlobal + Abort>(
    rt: &A,
    seed: &mut u64,
    store: &mut Store<Coded>,
    leaves: u64,
    longest: u64,
) -> (Rope, Vec<Piece>) {
    let s = add_source(rt, store, 1 << 20);
    let mut pieces = Vec::new(rt.alloc());
    let (mut rope, mut behind) = (None, None);
    for k in 0..leaves {
        let len = below(seed, longest.min(1 << 19)).saturating_add(1);
        let leaf = source_leaf(rt, store, s, below(seed, 1 << 19), len);
        let node = node_of(rt, leaf).0;
        pieces.push(Piece { node, len }).expect(rt, "memory");
        behind = joined(rt, store, behind, leaf);
        if k % 50 == 49 {
            rope = joined(rt, store, rope, behind);
            behind = None;
        }
    }
    (joined(rt, store, rope, behind), pieces)
}

/// Balances a rope whose leaves are these, and looks at each node that it makes.
fn assert_balanced_so<A: AllocGlobal + Abort>(
    rt: &A,
    store: &mut Store<Coded>,
    rope: Rope,
    pieces: &[Piece],
    seed: u64,
) -> Rope {
    let mut slots = no_slots(rt, store.count());
    for piece in pieces {
        slots.insert(rt, *piece);
    }
    let whole = slots.join_below(rt, END);
    assert!(rt; store.has(rope));
    let root = balance(store, rope).expect(rt, "a rope");
    let wanted = whole.expect(rt, "a rope");
    assert_same_at(rt, &node_of(rt, root).0, &wanted.node, &seed);
    let count = u64::from(slots.first).checked_add(slots.made.len() as u64);
    assert_same_at(rt, &Some(u64::from(store.count())), &count, &seed);
    let mut id = slots.first;
    for (l, r) in &slots.made {
        assert!(rt; store.has(Some(NodeId(id))));
        let (l, r) = (NodeId(*l), NodeId(*r));
        assert_same_at(rt, &store.node(NodeId(id)), &NodeView::Cat { l, r }, &seed);
        id = id.checked_add(1).expect(rt, "a number");
    }
    root
}

// Worked by hand: the full slots after each leaf of one byte, and how deep the rope is that is made of them.
#[test]
fn eight_leaves_go_from_slot_to_slot(rt: HostRuntime) {
    let mut store: Store<Coded> = Store::new(rt.alloc());
    let s = add_source(&rt, &mut store, 1);
    let mut slots = no_slots(&rt, 0);
    let mut pieces = Vec::new(rt.alloc());
    let mut rope = None;
    for (full, depth) in [
        ([(2, 1)].as_slice(), 0),
        (&[(3, 2)], 1),
        (&[(2, 1), (3, 2)], 2),
        (&[(4, 4)], 2),
        (&[(2, 1), (4, 4)], 3),
        (&[(3, 2), (4, 4)], 3),
        (&[(2, 1), (3, 2), (4, 4)], 3),
        (&[(6, 8)], 3),
    ] {
        let leaf = source_leaf(&rt, &mut store, s, 0, 1);
        let node = node_of(&rt, leaf).0;
        pieces.push(Piece { node, len: 1 }).expect(&rt, "memory");
        rope = joined(&rt, &mut store, rope, leaf);
        slots.insert(&rt, Piece { node, len: 1 });
        let count = pieces.len() as u64;
        assert_same_at(&rt, &slots.full(&rt).as_slice(), &full, &count);
        let shallow = assert_balanced_so(&rt, &mut store, rope, &pieces, count);
        let size = size_of(&rt, &store, shallow);
        assert_same_at(&rt, &size, &(count, depth), &count);
    }
}

#[test]
fn the_nodes_are_those_of_slots_gone_through_one_by_one(rt: HostRuntime) {
    let mut seed = 1;
    for longest in [1, 2, 3, 5, 8, 13, 100, 1000, 6765, 1 << 19] {
        for leaves in [1, 2, 3, 7, 30, 50, 51, 350] {
            let at = seed;
            let mut store: Store<Coded> = Store::new(rt.alloc());
            let (rope, pieces) = random_rope(&rt, &mut seed, &mut store, leaves, longest);
            let (_, depth) = size_of(&rt, &store, rope);
            assert_same(&rt, &(depth <= 64), &true);
            assert_balanced_so(&rt, &mut store, rope, &pieces, at);
        }
    }
}
