//! Slots for ropes: a longer rope in a slot of a higher number, and more to the left in the text.

// The lines `let _count = store.count();` are for the proof: the store keeps its rules, as its count says.

ghost use Rattle.std.specs.Prelude.{◌≡◌, ◌+◌, ◌<◌, ◌≤◌, None, length, replicate, IfOk};
ghost use Rattle.rope_node.specs.declared.limits.TheConstants.{MOST_DEPTH, TEXT_LIMIT};
ghost use Rattle.rope_node.specs.Balance.{fibonacci};
ghost use Rattle.rope_node.specs.Denotes.{rope_depth, IsRope};
ghost use Rattle.node_table.specs.Held.{table_of};
ghost use Rattle.rebalance.specs.Slots.{full_slots, ropes_in, slots_cells, AreSlots, AreEmptyBelow, IsCarried, IsGathered, IsJoin, IsShallowPiece, Gathers, Inserts, Settles, cells_with, joined_len};
ghost use Rattle.rebalance.specs.Steps.{AddsNodes};
ghost use Rattle.rebalance.specs.declared.slots.TheConstants.{SLOTS};

use crate::balanced::fibonacci;
use function_leaf::LeafFn;
use node_table::NodeFault;
use rope_node::{NodeSpace, Rope};
use rope_store::Store;

/// How many slots there are: a rope shorter than 2^40 bytes has its own among them.
pub const SLOTS: u8 = 60;

/// A slot that is not above that of a rope of this length, and mostly
/// just below it: Fibonacci numbers double after some 23 / 16 steps.
fn slot_near(len: u64) -> u8
    requires { 1 ≤ len }
    ensures some { 2 ≤ result }
    ensures last { result < SLOTS }
    ensures long { fibonacci result ≤ len }
{
    let near = ((64 - len.leading_zeros()) * 23 / 16) as u8;
    if 2 <= near && near < SLOTS && fibonacci(near) <= len {
        near
    } else {
        2
    }
}

/// The slot of a rope of this length, in bytes: the Fibonacci number at the slot is the last that is not above it.
fn slot_for(len: u64) -> u8
    requires some { 1 ≤ len }
    requires short { len < TEXT_LIMIT }
    ensures some { 2 ≤ result }
    ensures last { result < SLOTS }
    ensures long { fibonacci result ≤ len }
    ensures short { len < fibonacci (result + 1) }
{
    let mut slot = slot_near(len);
    while fibonacci(slot + 1) <= len {
        slot += 1;
    }
    slot
}

/// The text of `l` followed by that of `r`, as one node over both, or one of them where the other is nil.
fn join<F: LeafFn>(store: &mut Store<F>, l: Rope, r: Rope) -> Result<Rope, NodeFault>
    requires left { IsRope (table_of F.meaning store.old) l }
    requires right { IsRope (table_of F.meaning store.old) r }
    requires left_shallow { rope_depth (table_of F.meaning store.old) l < MOST_DEPTH }
    requires right_shallow { rope_depth (table_of F.meaning store.old) r < MOST_DEPTH }
    requires short { joined_len (table_of F.meaning store.old) l r < TEXT_LIMIT }
    ensures steps { AddsNodes F.meaning store.old (ropes_in l + ropes_in r) result store.new }
    ensures join { IfOk result (λ rope. IsJoin F.meaning store.old l r rope store.new) }
{
    let _count = store.count();
    match (l, r) {
        (None, _) => Ok(r),
        (Some(_), None) => Ok(l),
        (Some(left), Some(right)) => store.cat_plain(left, right),
    }
}

/// Slots for ropes.
#[derive(Drop)]
pub(crate) struct Slots {
    ropes: [Rope; SLOTS as usize],
    /// The slots below this one are empty.
    low: u8,
}

impl Slots {
    /// All of them empty.
    pub(crate) fn empty() -> Slots
        ensures ropes { result.ropes ≡ replicate SLOTS None }
        ensures low { result.low ≡ SLOTS }
    {
        Slots {
            ropes: [None; SLOTS as usize],
            low: SLOTS,
        }
    }
}

/// Empties the slots below `end`, and joins their ropes from the smallest up.
pub(crate) fn join_below<F: LeafFn>(
    store: &mut Store<F>,
    slots: &mut Slots,
    end: u8,
) -> Result<Rope, NodeFault>
    requires end { end ≤ SLOTS }
    requires empty { AreEmptyBelow slots.old.low slots.old.ropes }
    requires slots { AreSlots (table_of F.meaning store.old) slots.old.ropes }
    requires short { length (slots_cells (table_of F.meaning store.old) slots.old.ropes) < TEXT_LIMIT }
    ensures steps { AddsNodes F.meaning store.old (full_slots slots.old.ropes) result store.new }
    ensures gathered { IfOk result (λ rope. IsGathered (table_of F.meaning store.new) end rope) }
    ensures spread { IfOk result (Gathers F.meaning store.old slots.old.ropes end slots.new.ropes store.new) }
{
    let mut rope = None;
    for m in slots.low.min(end)..end {
        let _count = store.count();
        rope = join(store, slots.ropes[usize::from(m)], rope)?;
        slots.ropes[usize::from(m)] = None;
    }
    Ok(rope)
}

/// Puts a rope into the first slot from `first` on that is empty
/// and fits it, behind the ropes of the full ones before that.
fn settle<F: LeafFn>(
    store: &mut Store<F>,
    slots: &mut Slots,
    first: u8,
    carried: Rope,
) -> Result<(), NodeFault>
    requires slots { AreSlots (table_of F.meaning store.old) slots.old.ropes }
    requires empty { AreEmptyBelow first slots.old.ropes }
    requires there { IsRope (table_of F.meaning store.old) carried }
    requires carried { IsCarried (table_of F.meaning store.old) first carried }
    requires short { length (cells_with (table_of F.meaning store.old) slots.old.ropes carried) < TEXT_LIMIT }
    ensures steps { AddsNodes F.meaning store.old (full_slots slots.old.ropes + ropes_in carried) result store.new }
    ensures spread { IfOk result (λ _. Settles F.meaning store.old slots.old.ropes carried slots.new.ropes store.new) }
    ensures empty { IfOk result (λ _. AreEmptyBelow slots.new.low slots.new.ropes) }
{
    let mut slot = first;
    let mut rope = carried;
    loop {
        let _count = store.count();
        let left = slots.ropes[usize::from(slot)];
        if left.is_none() && store.len(rope) < fibonacci(slot + 1) {
            slots.ropes[usize::from(slot)] = rope;
            slots.low = slot;
            return Ok(());
        }
        rope = join(store, left, rope)?;
        slots.ropes[usize::from(slot)] = None;
        slot += 1;
    }
}

/// Puts a piece behind the text of the slots.
pub(crate) fn insert<F: LeafFn>(
    store: &mut Store<F>,
    slots: &mut Slots,
    piece: Rope,
) -> Result<(), NodeFault>
    requires slots { AreSlots (table_of F.meaning store.old) slots.old.ropes }
    requires empty { AreEmptyBelow slots.old.low slots.old.ropes }
    requires piece { IsShallowPiece (table_of F.meaning store.old) piece }
    requires short { length (cells_with (table_of F.meaning store.old) slots.old.ropes piece) < TEXT_LIMIT }
    ensures steps { AddsNodes F.meaning store.old (full_slots slots.old.ropes + 1) result store.new }
    ensures spread { IfOk result (λ _. Inserts F.meaning store.old slots.old.ropes piece slots.new.ropes store.new) }
    ensures empty { IfOk result (λ _. AreEmptyBelow slots.new.low slots.new.ropes) }
{
    let _count = store.count();
    let first = slot_for(store.len(piece));
    let lower = join_below(store, slots, first)?;
    let _count = store.count();
    let rope = join(store, lower, piece)?;
    let _count = store.count();
    settle(store, slots, first, rope)
}
