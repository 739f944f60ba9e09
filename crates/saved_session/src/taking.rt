//! A session that is taken up from an accepted image.

// The lines `let _count = ..` and their like are for the proof:
// image, session and store keep their rules, as these calls say.

ghost use Rattle.std.specs.Prelude.{◌≡◌, ◌+◌, ◌<◌, ◌≤◌, length, take, drop, IsErr, IfOk, IfErr, OnOk, OnErr};
ghost use Rattle.command_parts.specs.Commands.{named_splices, NamesSplices};
ghost use Rattle.image_reader.specs.Accepted.{rows_before, splices_before};
ghost use Rattle.edit_commands.specs.Session.{IsSession};
ghost use Rattle.session_checker.specs.Faithful.{EachRevision, HasTrueRecordsOf};
ghost use Rattle.session_checker.specs.RevisionRules.{HasRowsOverNoSource};
ghost use Rattle.image_reader.specs.Value.{IsImage, image_table};
ghost use Rattle.node_table.specs.Copies.{TakesMemory};
ghost use Rattle.saved_session.specs.TakenUp.{HoldsImage, TakesFirst, TakesUp, WasChecked};
ghost use Rattle.saved_session.specs.TakeFaults.{IsTakeFault};

use crate::fault::TakeFault;
use command_parts::{Edit, Splice, Splices, parts};
use edit_commands::{EditFault, Session};
use image_reader::Revisions;
use rope_node::NodeSpace;
use rope_store::Store;
use session_checker::Checked;
use span_certificate::{Row, Rows, Trails, meets_no_source};
use std::alloc::{AllocError, Global};

/// All of these rows.
fn listed_rows<R: Rows>(alloc: Global, rows: &R) -> Result<Vec<Row>, AllocError>
    ensures { IfOk result (λ listed. listed.items ≡ R.listed rows.now) }
{
    let mut listed = Vec::with_capacity(alloc, rows.count())?;
    for j in 0..rows.count() {
        listed.push(rows.row(j))?;
    }
    Ok(listed)
}

/// `count` splices from splice `first` on.
fn splices_from<P: Splices>(
    alloc: Global,
    splices: &P,
    first: u32,
    count: u32,
) -> Result<Vec<Splice>, AllocError>
    requires inside { first + count ≤ length (P.splices splices.now) }
    requires few { first + count < 4294967296 }
    ensures { IfOk result (λ named. named.items ≡ take count (drop first (P.splices splices.now))) }
{
    let mut named = Vec::with_capacity(alloc, count as usize)?;
    for j in 0..count {
        named.push(splices.splice(first + j))?;
    }
    Ok(named)
}

/// The splices that a recorded command names.
fn splices_named<P: Splices>(
    alloc: Global,
    splices: &P,
    edit: Edit,
) -> Result<Vec<Splice>, AllocError>
    requires { NamesSplices (P.splices splices.now) edit }
    ensures { IfOk result (λ named. named.items ≡ named_splices (P.splices splices.now) edit) }
{
    match edit {
        Edit::Many { r: _, first, count } => splices_from(alloc, splices, first, count),
        _ => Ok(Vec::new(alloc)),
    }
}

/// Takes up revision `k` behind those before it, which have `first` splices and `from` rows.
fn take_revision(
    alloc: Global,
    session: &mut Session,
    checked: &Checked<'_>,
    revisions: &Revisions,
    trails: &mut Trails,
    k: u32,
    first: u32,
    from: u32,
) -> Result<(), TakeFault>
    requires same { revisions.now ≡ checked.now }
    requires checked { WasChecked checked.now }
    requires there { k < length checked.now.revisions }
    requires first { first ≡ splices_before checked.now k }
    requires from { from ≡ rows_before checked.now k }
    requires takes { TakesFirst checked.now k session.old }
    ensures taken { OnOk result (TakesFirst checked.now (k + 1) session.new) }
    ensures fault { IfErr result (IsTakeFault checked.now) }
{
    let _count = checked.revisions();
    let _held = session.count();
    let _revisions = revisions.count();
    let revision = revisions.revision(k, first);
    let rows = match listed_rows(alloc, &revisions.rows(from, revision.rows)) {
        Ok(rows) => rows,
        Err(_) => return Err(TakeFault::Memory),
    };
    let roots = revisions.earlier(k);
    let known = parts(checked, &roots, revisions, &revision.edit);
    if !meets_no_source(checked, known, revision.root, &rows, trails) {
        return Err(TakeFault::OverSource(k));
    }
    let splices = match splices_named(alloc, revisions, revision.edit) {
        Ok(splices) => splices,
        Err(_) => return Err(TakeFault::Memory),
    };
    match session.put_known(revision.edit, splices, revision.root, rows) {
        Ok(_) => {
            let _held_now = session.count();
            Ok(())
        }
        Err(EditFault::TooManyRows) => Err(TakeFault::TooManyRows),
        Err(_) => Err(TakeFault::Memory),
    }
}

/// A session without revisions over the nodes of an image.
fn take_nodes(alloc: Global, checked: &Checked<'_>) -> Result<Session, TakeFault>
    ensures taken { IfOk result (TakesFirst checked.now 0) }
    ensures fault { IfErr result (λ fault. fault ≡ TakeFault.Memory) }
    ensures memory { IsErr result → TakesMemory (image_table checked.now) }
{
    let _nodes = checked.image().node_count();
    let store = match Store::copied(alloc, checked) {
        Ok(store) => store,
        Err(_) => return Err(TakeFault::Memory),
    };
    let _held = store.count();
    Ok(Session::over(alloc, store))
}

/// A session that says what an accepted image says, by the same nodes. Its revisions are the image's: each mark is set
/// to what the rule says, and rows of which some could be longer are made anew.
///
/// # Errors
///
/// Revision by revision, `OverSource`, where a row of bytes is over a source,
/// and `TooManyRows`, where rows that are made anew are too many; `Memory`, which the image of an empty session with
/// few sources does not want.
pub fn take_up(alloc: Global, checked: &Checked<'_>) -> Result<Session, TakeFault>
    requires { WasChecked checked.now }
    ensures taken { IfOk result (TakesUp checked.now) }
    ensures session { IfOk result IsSession }
    ensures no_source { IfOk result (λ s. EachRevision checked.now (HasRowsOverNoSource checked.now)) }
    ensures fault { IfErr result (IsTakeFault checked.now) }
{
    let _count = checked.revisions();
    let _nodes = checked.image().node_count();
    let revisions = Revisions::over(checked.image());
    let mut session = take_nodes(alloc, checked)?;
    let mut trails = Trails::new();
    let mut first = 0;
    let mut from = 0;
    let count = revisions.count();
    for k in 0..count {
        take_revision(
            alloc,
            &mut session,
            checked,
            &revisions,
            &mut trails,
            k,
            first,
            from,
        )?;
        let revision = revisions.revision(k, first);
        first += revision.edit.splice_count();
        from += revision.rows;
    }
    let _made = session.count();
    Ok(session)
}
