//! Files as sources of a store.

ghost use Rattle.std.specs.Prelude.{◌≡◌, ◌+◌, ◌<◌, ◌≤◌, [], length, OnOk, IfOk};
ghost use Rattle.rope_node.specs.declared.limits.TheConstants.{MOST_NODES};
ghost use Rattle.function_leaf.specs.Coded.{coded_byte};
ghost use Rattle.rope_node.specs.Extends.{Extends};
ghost use Rattle.node_table.specs.Held.{table_of};
ghost use Rattle.lazy_file.specs.SourceTexts.{AreSizes};
ghost use Rattle.edit_commands.specs.Session.{store_with};
ghost use Rattle.cord_tools.specs.Spans.{IsSourcePart};

use function_leaf::Coded;
use lazy_file::Sources;
use node_table::NodeFault;
use rope_node::{NodeSpace, Rope};
use rope_store::Store;
use std::alloc::{AllocError, Global};

/// What the fault of a call comes to that can want nothing but memory.
fn only_memory(_fault: NodeFault) -> AllocError
    requires { _fault ≡ NodeFault.Memory }
{
    AllocError
}

/// A store whose sources are these, in their order.
pub fn store_of<T: Sources>(alloc: Global, sources: &T) -> Result<Store<Coded>, AllocError>
    ensures ok { IfOk result (λ store. store ≡ store_with (T.reading sources.now).stated.sizes) }
    ensures limits { OnOk result (AreSizes (T.reading sources.now).stated.sizes) }
{
    let mut store = Store::new(alloc);
    for s in 0..sources.count() {
        match store.add_source(sources.len(s)) {
            Ok(_) => {}
            Err(fault) => return Err(only_memory(fault)),
        }
    }
    Ok(store)
}

/// The rope of at most `count` bytes of source `s` from `start` on.
pub fn part(store: &mut Store<Coded>, s: u8, start: u64, count: u64) -> Result<Rope, AllocError>
    requires there { s < length store.old.sources }
    requires few { length store.old.nodes < MOST_NODES }
    requires empty { store.old.pool.bytes ≡ [] }
    ensures ok { IfOk result (IsSourcePart (table_of coded_byte store.new) s start count) }
    ensures kept { Extends (table_of coded_byte store.old) (table_of coded_byte store.new) }
    ensures sources { store.new.sources ≡ store.old.sources }
    ensures nodes { length store.new.nodes ≤ length store.old.nodes + 1 }
    ensures pool { store.new.pool ≡ store.old.pool }
{
    let s = u32::from(s);
    let len = store.source_len(s);
    let start = start.min(len);
    match store.from_source(s, start, count.min(len - start)) {
        Ok(rope) => Ok(rope),
        Err(fault) => Err(only_memory(fault)),
    }
}
