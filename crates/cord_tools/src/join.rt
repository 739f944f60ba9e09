//! Files, one behind the other.

ghost use Rattle.std.specs.Prelude.{◌≡◌, ℕ, ◌+◌, ◌*◌, ◌<◌, ◌≤◌, ◌^◌, [], length, IfOk, IfErr, OnOk, IsErrOf};
ghost use Rattle.rope_store.specs.declared.endings.TheConstants.{MOST_MERGED};
ghost use Rattle.rope_node.specs.declared.limits.TheConstants.{MOST_SOURCES, TEXT_LIMIT};
ghost use Rattle.std.specs.List.{sum};
ghost use Rattle.function_leaf.specs.Coded.{coded_byte};
ghost use Rattle.rope_node.specs.Denotes.{IsRope, rope_cells, rope_depth};
ghost use Rattle.rope_node.specs.Extends.{Extends};
ghost use Rattle.node_table.specs.Held.{table_of};
ghost use Rattle.rebalance.specs.declared.fault.BalanceFault.TheVariants.{Node};
ghost use Rattle.cord_tools.specs.Faults.{IsJoinFault, tool_rope_fault};
ghost use Rattle.cord_tools.specs.Files.{JoinsFiles, all_cells, cells_of_sources};

use crate::fault::ToolFault;
use crate::files::store_of;
use cord_search::put;
use function_leaf::Coded;
use lazy_file::Sources;
use node_table::NodeFault;
use rebalance::{BalanceFault, cat_any};
use rope_node::{NodeSpace, Rope};
use rope_store::Store;
use std::alloc::Global;
use std::io;

/// The rope of `count` sources from source `first` on, in their
/// order. It is made of the ropes of both halves, so it is not deep.
fn join_range(store: &mut Store<Coded>, first: u32, count: u32) -> Result<Rope, BalanceFault>
    requires some { 1 ≤ count }
    requires there { first + count ≤ length store.old.sources }
    requires few { length store.old.sources ≤ MOST_SOURCES }
    requires nodes { length store.old.nodes ≤ 4 * first }
    requires bytes { length store.old.pool.bytes ≤ MOST_MERGED * first }
    ensures is_rope { IfOk result (IsRope (table_of coded_byte store.new)) }
    ensures text { IfOk result (λ rope.
        rope_cells (table_of coded_byte store.new) rope ≡ cells_of_sources store.old.sources first count) }
    ensures depth { (levels : ℕ) → count ≤ 2 ^ levels
        → IfOk result (λ rope. rope_depth (table_of coded_byte store.new) rope ≤ levels) }
    ensures nodes { OnOk result (length store.new.nodes + 3 ≤ length store.old.nodes + 4 * count) }
    ensures bytes { OnOk result
        (length store.new.pool.bytes + MOST_MERGED
        ≤ length store.old.pool.bytes + MOST_MERGED * count) }
    ensures short { OnOk result (length (cells_of_sources store.old.sources first count) < TEXT_LIMIT) }
    ensures too_long { IsErrOf result (Node NodeFault.TooLong)
        → TEXT_LIMIT ≤ length (cells_of_sources store.old.sources first count) }
    ensures fault { IfErr result (λ e. IsJoinFault (tool_rope_fault e)) }
    ensures kept { Extends (table_of coded_byte store.old) (table_of coded_byte store.new) }
    ensures sources { store.new.sources ≡ store.old.sources }
{
    // The store keeps its rules, as its count says, before and behind each half.
    let _count = store.count();
    if count == 1 {
        let len = store.source_len(first);
        return Ok(store.from_source(first, 0, len)?);
    }
    let half = count / 2;
    let left = join_range(store, first, half)?;
    let _count = store.count();
    let right = join_range(store, first + half, count - half)?;
    let _count = store.count();
    cat_any(store, left, right)
}

/// The rope of all the store's sources in their order. Where they have 2^40
/// bytes or more together, it is refused, and else only memory is in the way.
fn join_sources(store: &mut Store<Coded>) -> Result<Rope, BalanceFault>
    requires few { length store.old.sources ≤ MOST_SOURCES }
    requires no_nodes { store.old.nodes ≡ [] }
    requires no_bytes { store.old.pool.bytes ≡ [] }
    ensures is_rope { IfOk result (IsRope (table_of coded_byte store.new)) }
    ensures text { IfOk result
        (λ rope. rope_cells (table_of coded_byte store.new) rope ≡ all_cells store.old.sources) }
    ensures short { OnOk result (sum store.old.sources < TEXT_LIMIT) }
    ensures too_long { IsErrOf result (Node NodeFault.TooLong) → TEXT_LIMIT ≤ sum store.old.sources }
    ensures fault { IfErr result (λ e. IsJoinFault (tool_rope_fault e)) }
    ensures sources { store.new.sources ≡ store.old.sources }
{
    let count = store.source_count();
    if count == 0 {
        return Ok(None);
    }
    join_range(store, 0, count)
}

/// Writes the bytes of all the sources in their order, and nothing else. They are one
/// rope before the first of them is written, so where they have 2^40 bytes or more
/// together nothing is. Where a write or a read fails, a prefix of them was written.
///
/// # Errors
///
/// `Rope` with `TooLong`, and with no other refusal, where they have 2^40 bytes or more together. `Write`, where the
/// writer failed or took no byte. `Read`, where a source could not be read. `Memory`.
pub fn run_join<T: Sources, W: io::Write>(
    alloc: Global,
    sources: &mut T,
    writer: &mut W,
) -> Result<(), ToolFault>
    ensures { JoinsFiles (T.reading sources.old) (T.reading sources.new)
        (W.contents writer.old) (W.contents writer.new) result }
{
    let mut store = store_of(alloc, sources)?;
    let rope = join_sources(&mut store)?;
    put(alloc, &store, sources, rope, writer)?;
    Ok(())
}
