//! The rows of a revision that is known already.

ghost use Rattle.std.specs.Prelude.{◌≡◌, ◌<◌, ◌^◌, ℕ, List, length, IfOk, IsErrOf, Ok};
ghost use Rattle.function_leaf.specs.Coded.{coded_byte};
ghost use Rattle.node_table.specs.Held.{held_coded, table_of};
ghost use Rattle.command_parts.specs.declared.edit.Splice.{Splice};
ghost use Rattle.command_parts.specs.Commands.{full_edit, with_splices, NamesSplices};
ghost use Rattle.span_certificate.specs.Longest.{AreLongest, IsCutShort};
ghost use Rattle.command_parts.specs.Parts.{parts_of};
ghost use Rattle.edit_commands.specs.Session.{roots_of, AreRevisions, IsCertified, NamesThese};

use crate::revision::{EarlierRoots, Revision};
use command_parts::{Edit, Splice, parts};
use function_leaf::Coded;
use rope_node::{NodeSpace, Rope};
use rope_store::Store;
use span_certificate::{MakeFault, Row, Trails, are_longest, make_by};
use std::alloc::Global;

/// The recorded command over its own splices alone.
fn over_its_own(edit: Edit) -> Edit
    ensures says { (earlier : ℕ) → (splices : List Splice) → NamesThese earlier splices edit
        → full_edit splices result ≡ with_splices splices edit }
    ensures names { (earlier : ℕ) → (splices : List Splice) → NamesThese earlier splices edit
        → length splices < 2 ^ 32 → NamesSplices splices result }
{
    match edit {
        Edit::Many { r, first: _, count } => Edit::Many { r, first: 0, count },
        _ => edit,
    }
}

/// These rows, where each is the longest, and else those that are.
pub fn longest_rows(
    alloc: Global,
    store: &Store<Coded>,
    revisions: &[Revision],
    edit: Edit,
    splices: &[Splice],
    root: Rope,
    rows: Vec<Row>,
    trails: &mut Trails,
) -> Result<Vec<Row>, MakeFault>
    requires revisions { AreRevisions store.now revisions.now }
    requires certified { IsCertified store.now revisions.now edit splices.now root rows.items }
    requires few { length splices.now < 2 ^ 32 }
    ensures certified { IfOk result (λ made. IsCertified store.now revisions.now edit splices.now root made.items) }
    ensures longest { IfOk result (λ made. AreLongest (table_of coded_byte store.now)
        (parts_of (table_of coded_byte store.now) (roots_of revisions.now) (with_splices splices.now edit))
        root made.items) }
    ensures kept { AreLongest (table_of coded_byte store.now)
        (parts_of (table_of coded_byte store.now) (roots_of revisions.now) (with_splices splices.now edit))
        root rows.items → result ≡ Ok rows }
    ensures too_many { IsErrOf result MakeFault.TooManyRows
        → IsCutShort (table_of coded_byte store.now) (held_coded store.now)
        (parts_of (table_of coded_byte store.now) (roots_of revisions.now) (with_splices splices.now edit)) root }
{
    // The store keeps its rules, as its count says.
    let _nodes = store.count();
    let own = over_its_own(edit);
    let earlier = EarlierRoots { revisions };
    let known = parts(store, &earlier, &splices, &own);
    if are_longest(store, known, root, &rows, trails) {
        return Ok(rows);
    }
    let again = parts(store, &earlier, &splices, &own);
    make_by(alloc, store, again, root, trails)
}
