//! The session.

ghost use Rattle.std.specs.Prelude.{◌≡◌, ◌+◌, ◌<◌, ◌≤◌, ◌++◌, ◌∷◌, [], length, IfOk, IfErr, OnOk, OnErr, IsErrOf, ◌⊎◌};
ghost use Rattle.std.specs.Option.{option_map};
ghost use Rattle.node_table.specs.Held.{held_of};
ghost use Rattle.edit_commands.specs.Session.{SessionValue, IsCertified, IsRevision, IsSession, HoldsHistory, rows_held, splices_held};
ghost use Rattle.command_parts.specs.declared.edit.TheConstants.{MOST_REVISIONS, SPLICES_LIMIT};
ghost use Rattle.span_certificate.specs.declared.making.TheConstants.{ROWS_LIMIT};
ghost use Rattle.edit_commands.specs.Session.{root_of, mark_of, edit_of, rows_of, splices_of_revision};
ghost use Rattle.edit_commands.specs.Refusals.{TakesAll};
ghost use Rattle.edit_commands.specs.Applying.{AppliesOrNot, AddsSourceOrNot, KnownRowsPass, PutsKnown, PassRows};

use crate::command::Command;
use crate::fault::EditFault;
use crate::known::longest_rows;
use crate::refusing::refusal;
use crate::revising::{is_marked, revise};
use crate::revision::Revision;
use command_parts::{Edit, Roots, Splice};
use function_leaf::Coded;
use rope_node::{NodeSpace, Rope};
use rope_store::Store;
use span_certificate::{ROWS_LIMIT, Row, Trails};
use std::alloc::Global;
use std::marker::Model;

/// Revisions made by commands, over a store of their ropes. It only grows, so every revision keeps its text for
/// good.
#[derive(Drop)]
pub struct Session {
    alloc: Global,
    store: Store<Coded>,
    revisions: Vec<Revision>,
    /// How many rows they have together, and how many splices.
    row_count: usize,
    splice_count: usize,
    /// The ways down of the command that is taken, in a place that is set up once.
    trails: Trails,
}

impl Model for Session {
    ghost use Rattle.std.specs.Prelude.{◌≡◌};
    ghost use Rattle.edit_commands.specs.Session.{SessionValue, IsSession, rows_held, splices_held};

    ghost Value = { SessionValue };

    ghost view = { λ a. record { held = a.store; revisions = a.revisions.items } };

    ghost invariant = { λ a. IsSession (record { held = a.store; revisions = a.revisions.items })
        × (a.row_count ≡ rows_held a.revisions.items)
        × (a.splice_count ≡ splices_held a.revisions.items) };
}

impl Session {
    /// A session without sources and revisions. It takes no memory.
    pub fn new(alloc: Global) -> Session
        ensures store { result.held ≡ held_of [] (record { bytes = []; borders = []; room = 0 }) [] }
        ensures revisions { result.revisions ≡ [] }
        ensures sources { result.held.sources ≡ [] }
    {
        Session::over(alloc, Store::new(alloc))
    }

    /// A session over this store, without revisions.
    pub fn over(alloc: Global, store: Store<Coded>) -> Session
        ensures { result ≡ record { held = store; revisions = [] } }
    {
        Session {
            alloc,
            store,
            revisions: Vec::new(alloc),
            row_count: 0,
            splice_count: 0,
            trails: Trails::new(),
        }
    }

    /// Adds a source of `len` bytes, and answers its number. No byte of it is read.
    ///
    /// # Errors
    ///
    /// `Node` with `TooManySources` where there are 255, or with `TooLong` for 2^40 bytes or more, and `Memory`.
    /// The session is then as before.
    pub fn add_source(&mut self, len: u64) -> Result<u8, EditFault>
        ensures { AddsSourceOrNot self.old len result self.new }
    {
        // The store keeps its rules, as its count says.
        let _nodes = self.store.count();
        Ok(self.store.add_source(len)?)
    }

    /// Makes the revision that a command gives, with its rows, and answers its number.
    ///
    /// # Errors
    ///
    /// Before anything changes, the first that there is of `NoRevision`, `SpliceCount`, `NoSource`,
    /// `Range`, `EmptyText`, `TooManyRevisions`, `TooManySplices`, and `Node` with `TooLong` where
    /// the text would have 2^40 bytes or more or more than 65,536 were handed in at once, for
    /// `Many` by one change. Else what is met on the way: `Node` with `TableFull` or `PoolFull`,
    /// `TooManyPieces`, `TooManyRows`, `Memory`. Every earlier revision is then as before.
    pub fn apply(&mut self, command: Command<'_>) -> Result<u32, EditFault>
        requires { TakesAll command }
        ensures { AppliesOrNot self.old command.entry result self.new }
    {
        if let Some(fault) = refusal(&self.store, &self.revisions, self.splice_count, &command) {
            return Err(fault);
        }
        let room = ROWS_LIMIT - self.row_count;
        let revision = revise(
            self.alloc,
            &mut self.store,
            &self.revisions,
            self.splice_count,
            room,
            &command,
            &mut self.trails,
        )?;
        self.put_behind(revision)
    }

    /// Puts a revision of this store behind the others.
    fn put_behind(&mut self, revision: Revision) -> Result<u32, EditFault>
        requires is { IsRevision self.old.held self.old.revisions revision }
        requires room { length self.old.revisions < MOST_REVISIONS }
        requires rows { rows_held self.old.revisions + length revision.rows.items ≤ ROWS_LIMIT }
        requires splices { splices_held self.old.revisions + length revision.splices.items ≤ SPLICES_LIMIT }
        ensures number { IfOk result (λ k. k ≡ length self.old.revisions) }
        ensures ok { OnOk result (self.new
            ≡ record { held = self.old.held; revisions = self.old.revisions ++ revision ∷ [] }) }
        ensures fault { IfErr result (λ fault. fault ≡ EditFault.Memory) }
        ensures err { OnErr result (self.new ≡ self.old) }
    {
        let count = self.revisions.len() as u32;
        let (row_count, splice_count) = (revision.rows.len(), revision.splices.len());
        self.revisions
            .push(revision)
            .map_err(|_| EditFault::Memory)?;
        self.row_count += row_count;
        self.splice_count += splice_count;
        Ok(count)
    }

    /// Puts a revision behind the others whose command, root and rows are certified, with the exact mark, and answers
    /// its number. The rows are these where each is the longest, and else made anew.
    ///
    /// # Errors
    ///
    /// `TooManyRows`, and `Memory`. Everything is then as before.
    pub fn put_known(
        &mut self,
        edit: Edit,
        splices: Vec<Splice>,
        root: Rope,
        rows: Vec<Row>,
    ) -> Result<u32, EditFault>
        requires certified { IsCertified self.old.held self.old.revisions edit splices.items root rows.items }
        requires room { length self.old.revisions < MOST_REVISIONS }
        requires splices { splices_held self.old.revisions + length splices.items ≤ SPLICES_LIMIT }
        ensures put { IfOk result (PutsKnown self.old edit splices.items root rows.items self.new) }
        ensures too_many { IsErrOf result EditFault.TooManyRows → PassRows self.old edit splices.items root rows.items }
        ensures pass { IsErrOf result EditFault.TooManyRows → KnownRowsPass self.old edit splices.items root }
        ensures faults { IfErr result (λ fault. (fault ≡ EditFault.TooManyRows) ⊎ (fault ≡ EditFault.Memory)) }
        ensures err { OnErr result (self.new ≡ self.old) }
    {
        // The store keeps its rules, as its count says.
        let _nodes = self.store.count();
        let rows = longest_rows(
            self.alloc,
            &self.store,
            &self.revisions,
            edit,
            &splices,
            root,
            rows,
            &mut self.trails,
        )?;
        if rows.len() > ROWS_LIMIT - self.row_count {
            return Err(EditFault::TooManyRows);
        }
        let mark = is_marked(&self.store, root);
        self.put_behind(Revision {
            edit,
            splices,
            root,
            mark,
            rows,
        })
    }

    /// How many revisions there are.
    pub fn count(&self) -> u32
        ensures value { result ≡ length self.now.revisions }
        ensures session { IsSession self.now }
        ensures history { HoldsHistory self.now }
    {
        // The store keeps its rules, as its count says.
        let _nodes = self.store.count();
        self.revisions.len() as u32
    }

    /// The root of revision `k`, where there is one.
    pub fn root(&self, k: u32) -> Option<Rope>
        ensures { result ≡ root_of self.now k }
    {
        Some(self.revisions.get(k as usize)?.root)
    }

    /// Whether the root of revision `k`, where there is one, is not nil and balanced.
    pub fn mark(&self, k: u32) -> Option<bool>
        ensures { result ≡ mark_of self.now k }
    {
        Some(self.revisions.get(k as usize)?.mark)
    }

    /// The command of revision `k`, where there is one, with the place in the pool of the bytes that were handed in.
    pub fn edit(&self, k: u32) -> Option<Edit>
        ensures { result ≡ edit_of self.now k }
    {
        Some(self.revisions.get(k as usize)?.edit)
    }

    /// The rows of revision `k`, where there is one.
    pub fn rows(&self, k: u32) -> Option<&[Row]>
        ensures { option_map (λ rows. rows.now) result ≡ rows_of self.now k }
    {
        Some(&self.revisions.get(k as usize)?.rows)
    }

    /// The splices that the command of revision `k` names, where there is such a revision: none for another command
    /// than `Many`.
    pub fn splices(&self, k: u32) -> Option<&[Splice]>
        ensures { option_map (λ splices. splices.now) result ≡ splices_of_revision self.now k }
    {
        Some(&self.revisions.get(k as usize)?.splices)
    }

    /// The store that the roots stand in.
    pub fn space(&self) -> &Store<Coded>
        ensures store { result.now ≡ self.now.held }
        ensures history { HoldsHistory self.now }
    {
        // The store keeps its rules, as its count says.
        let _nodes = self.store.count();
        &self.store
    }
}

impl Roots for Session {
    ghost use Rattle.edit_commands.specs.Session.{roots_of};

    ghost roots = { λ session. roots_of session.revisions };

    fn count(&self) -> usize {
        self.revisions.len()
    }

    fn root(&self, r: u32) -> Rope {
        self.revisions[r as usize].root
    }
}
