//! The rules that each revision has to keep, tested by its record, its root's and its rows.

// The lines `let _count = revisions.count();` are for the proof: the value is an image, as its count says.

ghost use Rattle.std.specs.Prelude.{◌≡◌, ◌+◌, ◌*◌, ◌<◌, ◌≤◌, ◌↔◌, None, length, IsTrue, IsOk, IfOk, IfErr};
ghost use Rattle.rope_node.specs.Denotes.{IsRope};
ghost use Rattle.lazy_file.specs.Readings.{Reads};
ghost use Rattle.command_parts.specs.Parts.{AreParts, AreRopes, IsInRange, parts_len};
ghost use Rattle.span_certificate.specs.Looks.{most_looks};
ghost use Rattle.image_reader.specs.Value.{image_table};
ghost use Rattle.image_reader.specs.Accepted.{revision_at, command_at, roots_before, parts_at, rows_at, rows_before, HasGoodRoot, HasGoodMark, HasGoodRows, KeepsRules};
ghost use Rattle.span_certificate.specs.Verdicts.{SameStated};
ghost use Rattle.session_checker.specs.RevisionRules.{IsGoodOver, AreGoodOver, BreaksRule, BreaksRows, BreaksAt, ImageAsks, IsFirstRevisionFault, RevisionAsks, RowsAsk, source_fault, source_fault_in};

use crate::command_rules::{is_in_range, result_len};
use crate::fault::CheckFault;
use crate::tables::Tables;
use command_parts::{PartIter, Splices};
use image_reader::{Revision, Revisions};
use lazy_file::Sources;
use rebalance::is_balanced;
use rope_node::Rope;
use span_certificate::{Looks, Trails, Verdict, verify_told};
use std::sync::ledger::Ledger;
use work_progress::{Progress, Untold, Within};

/// Whether a root is nil or one of the nodes, with a text of this length.
fn has_good_root<L: Ledger>(looks: &Looks<'_, '_, Tables<'_>, L>, root: Rope, len: u64) -> bool
    ensures { IsTrue result ↔ HasGoodRoot (image_table looks.now.space.now) root len }
{
    match root {
        None => len == 0,
        Some(node) => node.0 < looks.node_count() && looks.len(node) == len,
    }
}

/// Whether a root that is marked is balanced.
fn has_good_mark<L: Ledger>(looks: &Looks<'_, '_, Tables<'_>, L>, revision: Revision) -> bool
    requires { IsRope (image_table looks.now.space.now) revision.root }
    ensures { IsTrue result ↔ HasGoodMark (image_table looks.now.space.now) revision }
{
    if !revision.mark {
        return true;
    }
    match revision.root {
        None => false,
        Some(node) => is_balanced(looks.len(node), looks.depth(node)),
    }
}

/// The parts of the command of revision `k`, which is this one.
#[tactic(auto, using(crate::proofs::EarlierRevisions::names_there))]
fn command_parts<'p, 'i, 'a, L: Ledger>(
    looks: &Looks<'_, '_, Tables<'_>, L>,
    revisions: &'p Revisions<'i, 'a>,
    k: u32,
    revision: Revision,
) -> PartIter<'p, Revisions<'i, 'a>>
    requires same { looks.now.space.now ≡ revisions.now }
    requires there { k < length revisions.now.revisions }
    requires revision { revision ≡ revision_at revisions.now k }
    requires earlier { AreRopes (image_table revisions.now)
        (roots_before revisions.now k) }
    requires in_range { IsInRange (image_table revisions.now)
        (roots_before revisions.now k) (command_at revisions.now k) }
    ensures exact { result ≡ parts_at revisions.now k }
    ensures are_parts { AreParts (image_table revisions.now) result }
{
    let _count = revisions.count();
    let roots = revisions.earlier(k);
    looks.parts(&roots, revisions, &revision.edit)
}

/// Tests the rules of revision `k`, which is this one, in their order, but for its rows.
#[tactic(auto, using(crate::proofs::EarlierRevisions::names_there))]
fn check_rules<L: Ledger>(
    looks: &Looks<'_, '_, Tables<'_>, L>,
    revisions: &Revisions,
    k: u32,
    revision: Revision,
) -> Result<(), CheckFault>
    requires same { looks.now.space.now ≡ revisions.now }
    requires there { k < length revisions.now.revisions }
    requires revision { revision ≡ revision_at revisions.now k }
    requires earlier { AreRopes (image_table revisions.now)
        (roots_before revisions.now k) }
    ensures ok { IsOk result → KeepsRules revisions.now k }
    ensures err { IfErr result (BreaksRule revisions.now k) }
{
    let _count = revisions.count();
    let roots = revisions.earlier(k);
    if !is_in_range(looks, &roots, revisions, revision.edit) {
        return Err(CheckFault::Command(k));
    }
    let len = result_len(looks, &roots, revisions, revision.edit);
    if !has_good_root(looks, revision.root, len) {
        return Err(CheckFault::Root(k));
    }
    if !has_good_mark(looks, revision) {
        return Err(CheckFault::Mark(k));
    }
    Ok(())
}

/// Tests whether the rows of revision `k`, which is this one and whose
/// rows begin at row `from`, cover its command's parts and its root.
#[tactic(auto, using(crate::proofs::EarlierRevisions::rows_inside, crate::proofs::RevisionFaults::handed_tells, crate::proofs::RevisionFaults::handed_reads))]
fn check_rows<S: Sources, P: Splices, L: Ledger, G: Progress>(
    looks: &mut Looks<'_, '_, Tables<'_>, L>,
    trails: &mut Trails,
    revisions: &Revisions,
    sources: &mut S,
    parts: PartIter<'_, P>,
    k: u32,
    revision: Revision,
    from: u32,
    progress: &mut G,
) -> Result<(), CheckFault>
    requires same { looks.old.space.now ≡ revisions.now }
    requires there { k < length revisions.now.revisions }
    requires revision { revision ≡ revision_at revisions.now k }
    requires root { IsRope (image_table revisions.now) (revision_at revisions.now k).root }
    requires parts { parts ≡ parts_at revisions.now k }
    requires are_parts { AreParts (image_table revisions.now) parts }
    requires from { from ≡ rows_before revisions.now k }
    ensures ok { IsOk result → HasGoodRows revisions.now (SameStated (S.reading sources.old).stated) k }
    ensures err { IfErr result (λ f. source_fault f ≡ None
        → BreaksRows (S.reading sources.old).stated revisions.now k f) }
    ensures reads { Reads (S.reading sources.old) (S.reading sources.new)
        (RowsAsk (S.reading sources.old).stated revisions.now k) (source_fault_in result) }
    ensures looks { looks.new.count.now
        ≤ looks.old.count.now + most_looks (rows_at revisions.now k) }
    ensures space { looks.new.space.now ≡ looks.old.space.now }
    ensures same_reference { looks.new.count.ghost_name ≡ looks.old.count.ghost_name }
{
    let _count = revisions.count();
    let rows = revisions.rows(from, revision.rows);
    match verify_told(
        looks,
        trails,
        sources,
        parts,
        revision.root,
        &rows,
        progress,
    ) {
        Ok(Verdict::Good) => Ok(()),
        Ok(Verdict::Bad(row)) => Err(CheckFault::Rows(k, row)),
        Err(fault) => Err(CheckFault::Source(fault)),
    }
}

/// Tests the rules of revision `k`, which is this one and whose rows begin at row `from`, in their order.
fn check_revision<S: Sources, L: Ledger, G: Progress>(
    looks: &mut Looks<'_, '_, Tables<'_>, L>,
    trails: &mut Trails,
    revisions: &Revisions,
    sources: &mut S,
    k: u32,
    revision: Revision,
    from: u32,
    progress: &mut G,
) -> Result<(), CheckFault>
    requires same { looks.old.space.now ≡ revisions.now }
    requires there { k < length revisions.now.revisions }
    requires revision { revision ≡ revision_at revisions.now k }
    requires earlier { AreRopes (image_table revisions.now)
        (roots_before revisions.now k) }
    requires from { from ≡ rows_before revisions.now k }
    ensures ok { IsOk result → IsGoodOver revisions.now (S.reading sources.old).stated k }
    ensures err { IfErr result (λ f. source_fault f ≡ None
        → BreaksAt (S.reading sources.old).stated revisions.now k f) }
    ensures reads { Reads (S.reading sources.old) (S.reading sources.new)
        (RevisionAsks (S.reading sources.old).stated revisions.now k) (source_fault_in result) }
    ensures looks { looks.new.count.now
        ≤ looks.old.count.now + most_looks (rows_at revisions.now k) }
    ensures space { looks.new.space.now ≡ looks.old.space.now }
    ensures same_reference { looks.new.count.ghost_name ≡ looks.old.count.ghost_name }
{
    check_rules(looks, revisions, k, revision)?;
    let parts = command_parts(looks, revisions, k, revision);
    check_rows(
        looks, trails, revisions, sources, parts, k, revision, from, progress,
    )
}

/// Does what `revisions_counted` does, and tells before each revision and each
/// row how many records are done: the nodes, and the revisions with their rows.
pub(crate) fn revisions_told<S: Sources, L: Ledger, P: Progress>(
    looks: &mut Looks<'_, '_, Tables<'_>, L>,
    revisions: &Revisions,
    sources: &mut S,
    progress: &mut P,
) -> Result<(), CheckFault>
    requires same { looks.old.space.now ≡ revisions.now }
    ensures ok { IsOk result → AreGoodOver revisions.now (S.reading sources.old).stated }
    ensures err { IfErr result (λ f. source_fault f ≡ None
        → IsFirstRevisionFault (S.reading sources.old).stated revisions.now f) }
    ensures reads { Reads (S.reading sources.old) (S.reading sources.new)
        (ImageAsks (S.reading sources.old).stated revisions.now) (source_fault_in result) }
    ensures looks { looks.new.count.now ≤ looks.old.count.now
        + 2 * length revisions.now.revisions + most_looks revisions.now.rows }
    ensures space { looks.new.space.now ≡ looks.old.space.now }
    ensures same_reference { looks.new.count.ghost_name ≡ looks.old.count.ghost_name }
{
    let nodes = looks.node_count();
    let count = revisions.count();
    let mut trails = Trails::new();
    let mut from = 0;
    let mut first = 0;
    for k in 0..count {
        let before = nodes as u64 + k as u64 + from as u64;
        progress.tell(before);
        let revision = revisions.revision(k, first);
        let mut rows_told = Within {
            whole: &mut *progress,
            before,
        };
        check_revision(
            looks,
            &mut trails,
            revisions,
            sources,
            k,
            revision,
            from,
            &mut rows_told,
        )?;
        from += revision.rows;
        first += revision.edit.splice_count();
    }
    Ok(())
}

/// Tests revision by revision, by looks at the nodes of the image that the revisions are of. They are at most two
/// for each revision, 132 for each row, and 132 for each byte of the rows that compare bytes, counted up to 4,096.
///
/// # Errors
///
/// The first fault of the revisions: `C8` to `C11`, or `C12`.
pub fn revisions_counted<S: Sources, L: Ledger>(
    looks: &mut Looks<'_, '_, Tables<'_>, L>,
    revisions: &Revisions,
    sources: &mut S,
) -> Result<(), CheckFault>
    requires same { looks.old.space.now ≡ revisions.now }
    ensures ok { IsOk result → AreGoodOver revisions.now (S.reading sources.old).stated }
    ensures err { IfErr result (λ f. source_fault f ≡ None
        → IsFirstRevisionFault (S.reading sources.old).stated revisions.now f) }
    ensures reads { Reads (S.reading sources.old) (S.reading sources.new)
        (ImageAsks (S.reading sources.old).stated revisions.now) (source_fault_in result) }
    ensures looks { looks.new.count.now ≤ looks.old.count.now
        + 2 * length revisions.now.revisions + most_looks revisions.now.rows }
    ensures space { looks.new.space.now ≡ looks.old.space.now }
    ensures same_reference { looks.new.count.ghost_name ≡ looks.old.count.ghost_name }
{
    revisions_told(looks, revisions, sources, &mut Untold)
}
