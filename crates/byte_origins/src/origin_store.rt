//! A store of texts of origins, as ropes over all that commands brought.

// The lines `let _count = self.ropes.count();` are for the proof: the ropes keep their rules, as their count says.

ghost use Rattle.std.specs.Prelude.{◌≡◌, ◌+◌, ◌<◌, ◌≤◌, ◌++◌, [], List, length, map, take, drop, IfSome};
ghost use Rattle.rope_node.specs.Denotes.{IsRope};
ghost use Rattle.rope_node.specs.Table.{len_at, IsSound};
ghost use Rattle.function_leaf.specs.Coded.{coded_byte};
ghost use Rattle.node_table.specs.Held.{table_of};
ghost use Rattle.byte_origins.specs.declared.run.Origin.{Origin};
ghost use Rattle.byte_origins.specs.Behind.{FitsNumbers};
ghost use Rattle.byte_origins.specs.Origins.{run_origins, IsOriginRun};
ghost use Rattle.byte_origins.specs.OriginTexts.{ropes_table, ArePlaces, KeepsTexts, Names};

use crate::arrivals::Arrivals;
use crate::descent::leaf_span;
use crate::run::OriginRun;
use function_leaf::Coded;
use rebalance::{cat_any, substr_any};
use rope_node::{LeafSpan, NodeSpace, NodeView, Rope, TEXT_LIMIT};
use rope_store::Store;
use std::alloc::Global;
use std::marker::Model;

/// Where among all that was brought a part of a leaf begins.
fn place_of(ropes: &Store<Coded>, span: LeafSpan) -> Option<u64>
    requires there { span.leaf.0 < length ropes.now.nodes }
    requires some { 1 ≤ span.len }
    requires inside { span.start + span.len ≤ len_at (table_of coded_byte ropes.now) span.leaf.0 }
    ensures { IfSome result (ArePlaces (table_of coded_byte ropes.now) span) }
{
    match ropes.node(span.leaf) {
        NodeView::Src { a, .. } => Some(a + span.start),
        NodeView::Lit { .. } | NodeView::Fun | NodeView::Cat { .. } | NodeView::Sub { .. } => None,
    }
}

/// Texts of origins. Each byte that a command brought has a place in one source, of which no byte exists, and a text is
/// a rope of such places. Where a call answers nothing, memory or the store's room was refused.
#[derive(Drop)]
pub(crate) struct OriginStore {
    ropes: Store<Coded>,
    brought: Arrivals,
}

impl Model for OriginStore {
    ghost use Rattle.byte_origins.specs.OriginTexts.{OriginTexts};

    ghost Value = { OriginTexts };

    ghost view = { λ s. record { held = s.ropes; brought = s.brought } };
}

impl OriginStore {
    /// No text. It takes no memory.
    pub(crate) fn new(alloc: Global) -> OriginStore {
        OriginStore {
            ropes: Store::new(alloc),
            brought: Arrivals::new(alloc),
        }
    }

    /// How many bytes were brought.
    pub(crate) fn count(&self) -> u64
        ensures count { result ≡ length self.now.brought }
        ensures sound { IsSound (ropes_table self.now) }
    {
        let _count = self.ropes.count();
        self.brought.count()
    }

    /// Adds the source that has a place for each byte; texts are taken only once it is there.
    pub(crate) fn begin(&mut self)
        ensures { KeepsTexts self.old self.new }
    {
        let _count = self.ropes.count();
        let _added = self.ropes.add_source(TEXT_LIMIT - 1);
    }

    /// The text of a run that a command brought now.
    pub(crate) fn brought_now(&mut self, run: OriginRun) -> Option<Rope>
        requires { FitsNumbers run }
        ensures further { KeepsTexts self.old self.new }
        ensures text { IfSome result (λ rope. Names self.new rope (run_origins run)) }
    {
        let _count = self.ropes.count();
        let before = self.brought.count();
        let Ok(rope) = self.ropes.from_source(0, before, run.len) else {
            return None;
        };
        let Ok(()) = self.brought.push(run) else {
            return None;
        };
        Some(rope)
    }

    /// The `n` bytes of a text from place `i` on.
    pub(crate) fn part(&mut self, text: Rope, i: u64, n: u64) -> Option<Rope>
        requires { IsRope (ropes_table self.old) text }
        ensures further { KeepsTexts self.old self.new }
        ensures text { (origins : List Origin) → Names self.old text origins
            → IfSome result (λ rope. Names self.new rope (take n (drop i origins))) }
    {
        let _count = self.ropes.count();
        let Ok(rope) = substr_any(&mut self.ropes, text, i, n) else {
            return None;
        };
        Some(rope)
    }

    /// A text followed by another.
    pub(crate) fn joined(&mut self, left: Rope, right: Rope) -> Option<Rope>
        requires left { IsRope (ropes_table self.old) left }
        requires right { IsRope (ropes_table self.old) right }
        ensures further { KeepsTexts self.old self.new }
        ensures text { (first second : List Origin) → Names self.old left first → Names self.old right second
            → IfSome result (λ rope. Names self.new rope (first ++ second)) }
    {
        let _count = self.ropes.count();
        let Ok(rope) = cat_any(&mut self.ropes, left, right) else {
            return None;
        };
        Some(rope)
    }

    /// The run that the bytes of a text from a place on begin with, where there are such.
    pub(crate) fn run_at(&self, text: Rope, place: u64) -> Option<OriginRun>
        requires { IsRope (ropes_table self.now) text }
        ensures { (origins : List Origin) → Names self.now text origins
            → IfSome result (IsOriginRun origins place) }
    {
        let _count = self.ropes.count();
        let node = text?;
        if place >= self.ropes.len(text) {
            return None;
        }
        let span = leaf_span(&self.ropes, node, place);
        let brought = place_of(&self.ropes, span)?;
        let run = self.brought.run_at(brought)?;
        let first = run.first;
        let len = run.len.min(span.len);
        Some(OriginRun { first, len })
    }
}
