//! The nodes that one call makes.

ghost use Rattle.std.specs.Prelude.{◌≡◌, ◌+◌, ◌^◌, ◌<◌, ◌≤◌, ◌++◌, ◌∷◌, [], All, length, map};
ghost use Rattle.node_table.specs.Entries.{record_of, IsStorable};
ghost use Rattle.node_table.specs.Lefts.{HaveLeftsBefore, KeepLefts};
ghost use Rattle.node_table.specs.NodeLists.{listed};

use crate::blocks::Blocks;
use crate::entry::Entry;
use crate::record::Record;
use function_leaf::LeafFn;

/// One to three nodes, in the order of their numbers.
#[derive(Clone, Copy)]
pub enum NewNodes<F: LeafFn> {
    One(Record<F>),
    Two(Record<F>, Record<F>),
    Three(Record<F>, Record<F>, Record<F>),
}

impl<F: LeafFn> NewNodes<F> {
    /// How many they are.
    pub fn count(&self) -> u32
        ensures exact { result ≡ length (listed self.now) }
        ensures some { 1 ≤ result }
        ensures few { result ≤ 3 }
    {
        match self {
            NewNodes::One(..) => 1,
            NewNodes::Two(..) => 2,
            NewNodes::Three(..) => 3,
        }
    }
}

/// Stores this node behind the others, where there is room for it.
#[inline(always)]
pub(crate) fn put_one<F: LeafFn>(entries: &mut Blocks<Entry<F>>, node: Record<F>)
    requires storable { IsStorable node }
    requires before { HaveLeftsBefore (length entries.old.items) (node ∷ []) }
    requires lefts { KeepLefts entries.old.items }
    requires room { 1 ≤ entries.old.room }
    requires limit { length entries.old.items + 1 < 2 ^ 32 }
    ensures items { map record_of entries.new.items ≡ map record_of entries.old.items ++ node ∷ [] }
    ensures room { entries.old.room ≡ entries.new.room + 1 }
    ensures len { length entries.new.items ≡ length entries.old.items + 1 }
    ensures lefts { KeepLefts entries.new.items }
{
    let entry = Entry::of(entries, node);
    entries.push(entry);
}

/// Stores these nodes behind the others, where there is room for them.
#[inline(always)]
pub(crate) fn put_behind<F: LeafFn>(entries: &mut Blocks<Entry<F>>, nodes: NewNodes<F>)
    requires storable { All IsStorable (listed nodes) }
    requires room { length (listed nodes) ≤ entries.old.room }
    requires limit { length entries.old.items + length (listed nodes) < 2 ^ 32 }
    requires before { HaveLeftsBefore (length entries.old.items) (listed nodes) }
    requires lefts { KeepLefts entries.old.items }
    ensures items { map record_of entries.new.items ≡ map record_of entries.old.items ++ listed nodes }
    ensures lefts { KeepLefts entries.new.items }
{
    match nodes {
        NewNodes::One(a) => put_one(entries, a),
        NewNodes::Two(a, b) => {
            put_one(entries, a);
            put_one(entries, b);
        }
        NewNodes::Three(a, b, c) => {
            put_one(entries, a);
            put_one(entries, b);
            put_one(entries, c);
        }
    }
}
