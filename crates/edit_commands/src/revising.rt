//! The revision that a command gives.

ghost use Rattle.std.specs.Prelude.{◌≡◌, ◌↔◌, ◌+◌, ◌^◌, ◌<◌, ◌≤◌, length, get_or, map, IsTrue, IfErr, IfOk, None, if◌then◌else◌};
ghost use Rattle.function_leaf.specs.Coded.{coded_byte};
ghost use Rattle.rope_node.specs.Balance.{IsBalancedRope};
ghost use Rattle.rope_node.specs.Denotes.{rope_cells, IsRope};
ghost use Rattle.node_table.specs.Held.{table_of, held_coded};
ghost use Rattle.command_parts.specs.Parts.{parts_cells, parts_of, AreRopes, IsInRange};
ghost use Rattle.span_certificate.specs.declared.making.TheConstants.{ROWS_LIMIT};
ghost use Rattle.edit_commands.specs.Applying.{Revises};
ghost use Rattle.span_certificate.specs.Longest.{MakesRows};
ghost use Rattle.edit_commands.specs.Building.{command_with, edit_with, placed_changes, splices_with};
ghost use Rattle.edit_commands.specs.declared.fault.EditFault.TheVariants as EditFault;
ghost use Rattle.edit_commands.specs.Refusals.{changes_of, refusal_of, TakesAll};
ghost use Rattle.edit_commands.specs.Session.{AreRevisions, roots_of, rows_held, splices_held};
ghost use Rattle.edit_commands.specs.Terms.{times_handed};

use crate::building::{build, times_handed};
use crate::command::{Change, Command, Hands};
use crate::fault::EditFault;
use crate::revision::{EarlierRoots, Revision};
use command_parts::{Edit, SPLICES_LIMIT, Splice, parts};
use function_leaf::Coded;
use rebalance::is_balanced;
use rope_node::{NodeSpace, Rope};
use rope_store::Store;
use span_certificate::{MakeFault, Row, Trails, make_by};
use std::alloc::{AllocError, Global};

/// The first of the places, 0 where there is none.
fn first_of(places: &[u64]) -> u64
    ensures { result ≡ get_or places.now 0 0 }
{
    if places.len() > 0 { places[0] } else { 0 }
}

impl Command<'_> {
    /// The command as it is recorded, where its bytes stand at these places of the pool, and its splices in the list of
    /// all from `first` on.
    fn recorded(&self, places: &[u64], first: u32) -> Edit
        requires { length (changes_of self.now) < 2 ^ 32 }
        ensures { result ≡ edit_with places.now first self.now }
    {
        #[rattlefmt::skip]
        match *self {
            Command::New => Edit::New,
            Command::Open { s } => Edit::Open { s },
            Command::Insert { r, p, bytes } => Edit::Insert { r, p, a: first_of(places), n: bytes.len() as u64 },
            Command::Delete { r, p, n } => Edit::Delete { r, p, n },
            Command::Replace { r, p, m, bytes } => Edit::Replace { r, p, m, a: first_of(places), n: bytes.len() as u64 },
            Command::Paste { r, p, q, i, n } => Edit::Paste { r, p, q, i, n },
            Command::Join { r, q } => Edit::Join { r, q },
            Command::Cut { r, i, n } => Edit::Cut { r, i, n },
            Command::Fill { r, p, c, n } => Edit::Fill { r, p, c: c as u64, n },
            Command::Back { r } => Edit::Back { r },
            Command::Balance { r } => Edit::Balance { r },
            Command::Many { r, changes, .. } => Edit::Many { r, first, count: changes.len() as u32 },
        }
    }
}

/// The changes, each with its place.
fn placed_changes(
    alloc: Global,
    changes: &[Change],
    places: &[u64],
) -> Result<Vec<Splice>, AllocError>
    requires { length places.now ≡ length changes.now }
    ensures { IfOk result (λ splices. splices.items ≡ placed_changes changes.now places.now) }
{
    let mut splices = Vec::new(alloc);
    for j in 0..changes.len() {
        let change = changes[j];
        splices.push(Splice {
            p: change.p,
            m: change.m,
            a: places[j],
            n: change.n,
        })?;
    }
    Ok(splices)
}

/// The splices of a command, where these are the places of its bytes.
fn splices_of(
    alloc: Global,
    command: &Command<'_>,
    places: &[u64],
) -> Result<Vec<Splice>, EditFault>
    requires { length places.now ≡ times_handed command.now }
    ensures exact { IfOk result (λ splices. splices.items ≡ splices_with places.now command.now) }
    ensures fault { IfErr result (λ fault. fault ≡ EditFault.Memory) }
{
    match command.hands() {
        Hands::Changes(changes) => match placed_changes(alloc, changes, places) {
            Ok(splices) => Ok(splices),
            Err(_) => Err(EditFault::Memory),
        },
        Hands::Nothing | Hands::Text(_) => Ok(Vec::new(alloc)),
    }
}

/// Room for the places of the bytes that a command hands in.
fn room_for(alloc: Global, command: &Command<'_>) -> Result<Vec<u64>, EditFault>
    ensures room { IfOk result (λ places. length places.items ≡ times_handed command.now) }
    ensures fault { IfErr result (λ fault. fault ≡ EditFault.Memory) }
{
    match vec![in alloc; 0; times_handed(command)] {
        Ok(places) => Ok(places),
        Err(_) => Err(EditFault::Memory),
    }
}

/// The rows of the root that was built for a command.
#[tactic(auto, using(crate::proofs::MadeRevisions::own_edit))]
fn rows_for(
    alloc: Global,
    store: &Store<Coded>,
    revisions: &[Revision],
    command: &Command<'_>,
    places: &[u64],
    splices: &[Splice],
    root: Rope,
    trails: &mut Trails,
) -> Result<Vec<Row>, MakeFault>
    requires ropes { AreRopes (table_of coded_byte store.now) (roots_of revisions.now) }
    requires splices { splices.now ≡ splices_with places.now command.now }
    requires many { length (changes_of command.now) ≡ length splices.now }
    requires few { length splices.now < 2 ^ 32 }
    requires in_range { IsInRange (table_of coded_byte store.now) (roots_of revisions.now)
        (command_with places.now command.now) }
    requires root { IsRope (table_of coded_byte store.now) root }
    requires same { parts_cells (table_of coded_byte store.now) (parts_of (table_of coded_byte store.now)
        (roots_of revisions.now) (command_with places.now command.now))
        ≡ rope_cells (table_of coded_byte store.now) root }
    ensures { MakesRows (held_coded store.now) (table_of coded_byte store.now) (parts_of (table_of coded_byte store.now)
        (roots_of revisions.now) (command_with places.now command.now)) root result }
{
    let edit = command.recorded(places, 0);
    let earlier = EarlierRoots { revisions };
    let parts = parts(store, &earlier, &splices, &edit);
    make_by(alloc, store, parts, root, trails)
}

/// Whether a root is not nil and balanced.
pub fn is_marked(store: &Store<Coded>, root: Rope) -> bool
    requires { IsRope (table_of coded_byte store.now) root }
    ensures { IsTrue result ↔ IsBalancedRope (table_of coded_byte store.now) root }
{
    root.is_some() && is_balanced(store.len(root), store.depth(root))
}

/// The revision that a command in range gives behind these, which have `splice_count` splices, with at most `room`
/// rows. The places of the bytes that it hands in are written down.
fn revise_at(
    alloc: Global,
    store: &mut Store<Coded>,
    revisions: &[Revision],
    splice_count: usize,
    room: usize,
    command: &Command<'_>,
    places: &mut [u64],
    trails: &mut Trails,
) -> Result<Revision, EditFault>
    requires revisions { AreRevisions store.old revisions.now }
    requires accepted { refusal_of (record { held = store.old; revisions = revisions.now }) command.now ≡ None }
    requires takes { TakesAll command.now }
    requires splices { splice_count ≡ splices_held revisions.now }
    requires few { splice_count ≤ SPLICES_LIMIT }
    requires room { room + rows_held revisions.now ≡ ROWS_LIMIT }
    requires places { length places.old ≡ times_handed command.now }
    ensures { Revises store.old revisions.now command.now result store.new }
{
    // The store keeps its rules, as its count says, before and behind.
    let _nodes = store.count();
    let root = build(store, revisions, command, places)?;
    let _more_nodes = store.count();
    let splices = splices_of(alloc, command, places)?;
    let rows = rows_for(
        alloc,
        store,
        revisions,
        command,
        places,
        splices.as_slice(),
        root,
        trails,
    )?;
    if rows.len() > room {
        return Err(EditFault::TooManyRows);
    }
    let mark = is_marked(store, root);
    Ok(Revision {
        edit: command.recorded(places, splice_count as u32),
        splices,
        root,
        mark,
        rows,
    })
}

/// The first of these places where `is_first` says so, else the second.
fn either<'a>(is_first: bool, first: &'a mut [u64], second: &'a mut [u64]) -> &'a mut [u64]
    ensures { result.now ≡ (if is_first then first.old else second.old) }
{
    if is_first { first } else { second }
}

/// The revision that a command in range gives behind these, which have `splice_count` splices, with at most `room`
/// rows.
pub fn revise(
    alloc: Global,
    store: &mut Store<Coded>,
    revisions: &[Revision],
    splice_count: usize,
    room: usize,
    command: &Command<'_>,
    trails: &mut Trails,
) -> Result<Revision, EditFault>
    requires revisions { AreRevisions store.old revisions.now }
    requires accepted { refusal_of (record { held = store.old; revisions = revisions.now }) command.now ≡ None }
    requires takes { TakesAll command.now }
    requires splices { splice_count ≡ splices_held revisions.now }
    requires few { splice_count ≤ SPLICES_LIMIT }
    requires room { room + rows_held revisions.now ≡ ROWS_LIMIT }
    ensures { Revises store.old revisions.now command.now result store.new }
{
    // The store keeps its rules, as its count says.
    let _nodes = store.count();
    let times = times_handed(command);
    // Most commands hand in bytes once, and take no memory for their place.
    let mut place = [0];
    let mut many = if times <= 1 {
        Vec::new(alloc)
    } else {
        room_for(alloc, command)?
    };
    let places = either(times <= 1, &mut place[..times.min(1)], &mut many);
    revise_at(
        alloc,
        store,
        revisions,
        splice_count,
        room,
        command,
        places,
        trails,
    )
}
