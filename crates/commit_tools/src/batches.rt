//! Changes handed to a session, as many at once as a command takes.

ghost use Rattle.std.specs.Prelude.{◌≡◌, ◌+◌, ◌<◌, ◌≤◌, length, slice_range, IfOk};
ghost use Rattle.command_parts.specs.declared.edit.TheConstants.{MOST_SPLICES};
ghost use Rattle.edit_commands.specs.Refusals.{TakesAll};
ghost use Rattle.commit_tools.specs.Found.{IsBeside};
ghost use Rattle.commit_tools.specs.Handed.{IsHandedBatch};
ghost use Rattle.commit_tools.specs.Put.{TakesCommand, PutsAll, PutsBatch};
ghost use Rattle.commit_tools.specs.Stops.{EndApart, IsLongestBatch};

use crate::fault::CommitFault;
use crate::found::Found;
use command_parts::MOST_SPLICES;
use edit_commands::{Change, Command, EditFault, Session};
use line_changes::Change as LineChange;
use std::alloc::{AllocError, Global};

/// Changes as a session takes them, and their bytes.
#[derive(Drop)]
pub struct Batch {
    pub changes: Vec<Change>,
    pub bytes: Vec<u8>,
}

/// The first of the changes before number `left` that one command takes: each stands behind
/// the one before it, with something between, and they are as many as there may be.
fn batch_start(found: &Found, left: usize) -> usize
    requires some { 1 ≤ left }
    requires inside { left ≤ length found.now.changes.items }
    ensures some { result < left }
    ensures few { left ≤ result + MOST_SPLICES }
    ensures apart { EndApart (slice_range found.now.changes.items result left) }
    ensures longest { IsLongestBatch found.now.changes.items result left }
{
    let changes: &[LineChange] = &found.changes;
    let mut first = left - 1;
    while first > 0 && left - first < MOST_SPLICES as usize {
        if changes[first - 1].to >= changes[first].from {
            return first;
        }
        first -= 1;
    }
    first
}

/// The bytes that a change puts in.
fn bytes_of(new: &[u8], change: LineChange) -> &[u8]
    requires order { change.put_from ≤ change.put_to }
    requires inside { change.put_to ≤ length new.now }
    ensures { result.now ≡ slice_range new.now change.put_from change.put_to }
{
    &new[change.put_from..change.put_to]
}

/// The changes from number `first` up to `left`, as a session takes them.
fn batch_of(
    alloc: Global,
    found: &Found,
    file: &[u8],
    first: usize,
    left: usize,
) -> Result<Batch, AllocError>
    requires found { IsBeside found.now file.now }
    requires inside { (first ≤ left) × (left ≤ length found.now.changes.items) }
    ensures { IfOk result (IsHandedBatch found.now file.now (slice_range found.now.changes.items first left)) }
{
    let mut changes = Vec::with_capacity(alloc, left - first)?;
    let mut bytes = Vec::new(alloc);
    let new = &file[found.front..found.end];
    for change in &found.changes[first..left] {
        changes.push(Change {
            p: found.front as u64 + change.from as u64,
            m: (change.to - change.from) as u64,
            n: (change.put_to - change.put_from) as u64,
        })?;
        bytes.extend_from_slice(bytes_of(new, *change))?;
    }
    Ok(Batch { changes, bytes })
}

/// Makes a command's revision.
pub fn make(session: &mut Session, command: Command<'_>) -> Result<(), CommitFault>
    requires { TakesAll command }
    ensures { TakesCommand session.old command.entry result session.new }
{
    match session.apply(command) {
        Ok(_) => Ok(()),
        Err(EditFault::Memory) => Err(CommitFault::Memory),
        Err(fault) => Err(CommitFault::Edit(fault)),
    }
}

/// Makes a revision of the last one with the changes from number `first` up to `left`.
fn put_batch(
    alloc: Global,
    session: &mut Session,
    found: &Found,
    file: &[u8],
    first: usize,
    left: usize,
) -> Result<(), CommitFault>
    requires found { IsBeside found.now file.now }
    requires inside { (first ≤ left) × (left ≤ length found.now.changes.items) }
    requires few { (first < left) × (left ≤ first + MOST_SPLICES) }
    requires apart { EndApart (slice_range found.now.changes.items first left) }
    requires longest { IsLongestBatch found.now.changes.items first left }
    requires some { 1 ≤ length session.old.revisions }
    ensures { PutsBatch found.now file.now first left session.old result session.new }
{
    let batch = match batch_of(alloc, found, file, first, left) {
        Ok(batch) => batch,
        Err(_) => return Err(CommitFault::Memory),
    };
    let r = session.count() - 1;
    make(
        session,
        Command::Many {
            r,
            changes: &batch.changes,
            bytes: &batch.bytes,
        },
    )
}

/// Makes revisions of the last one until all changes are made, the last ones first.
pub fn put_changes(
    alloc: Global,
    session: &mut Session,
    found: &Found,
    file: &[u8],
) -> Result<(), CommitFault>
    requires found { IsBeside found.now file.now }
    requires some { 1 ≤ length session.old.revisions }
    ensures { PutsAll found.now file.now session.old result session.new }
{
    let mut left = found.changes.len();
    while left > 0 {
        let first = batch_start(found, left);
        put_batch(alloc, session, found, file, first, left)?;
        left = first;
    }
    Ok(())
}
