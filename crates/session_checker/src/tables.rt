//! The node table of an image, once its nodes have passed.

ghost use Rattle.std.specs.Prelude.{◌≡◌, ◌+◌, ◌<◌, ◌≤◌, ◌↔◌, length, IfOk, IfErr, IsOk};
ghost use Rattle.rope_node.specs.Table.{IsSound, HasTrueRecords};
ghost use Rattle.span_descent.specs.Counts.{BeginsCount};
ghost use Rattle.image_reader.specs.Value.{IsImage, image_table};
ghost use Rattle.image_reader.specs.Looks.{looks_bound};
ghost use Rattle.image_reader.specs.Accepted.{AreGoodNodes};
ghost use Rattle.session_checker.specs.NodeRules.{IsFirstNodeFault, fault_at};
ghost use Rattle.session_checker.specs.Accepted.{HasGoodTables, IsFirstTableFault};
ghost use Rattle.session_checker.specs.Limits.{AreLooksWithin, IsBeyond, IsFirstTableFaultWithin};
ghost use Rattle.session_checker.specs.declared.fault.CheckFault.TheVariants.{Looks};

use crate::fault::CheckFault;
use crate::node_rules::{NodeRule, check_node};
use crate::source_rules::check_sources;
use function_leaf::{Coded, LeafFn};
use image_reader::{Image, Records, looks_bound};
use lazy_file::Sources;
use rope_node::{CodedSpace, NodeId, NodeSpace, NodeView};
use span_descent::Count;
use std::marker::{Brand, Model};
use std::sync::ledger::{Blank, Ledger};
use work_progress::{Progress, Untold};

/// An image's nodes: a sound table with true records.
#[derive(Drop)]
pub struct Tables<'a> {
    image: Image<'a>,
}

impl<'a> Model for Tables<'a> {
    ghost use Rattle.image_reader.specs.Value.{ImageValue, IsImage, image_table};
    ghost use Rattle.rope_node.specs.Table.{IsSound, HasTrueRecords};

    ghost Value = { ImageValue };

    ghost view = { λ a. a.image };

    ghost invariant = { λ a. IsImage a.image × IsSound (image_table a.image) × HasTrueRecords (image_table a.image) };
}

impl<'a> Tables<'a> {
    /// The table of an image whose nodes were tested before.
    pub(crate) fn again(image: Image<'a>) -> Tables<'a>
        requires sound { IsSound (image_table image) }
        requires true_records { HasTrueRecords (image_table image) }
        ensures { result ≡ image.entry }
    {
        // The value is an image, as its count says.
        let _nodes = image.node_count();
        Tables { image }
    }

    /// The image that the nodes are of.
    pub fn image(&self) -> &Image<'a>
        ensures image { result.now ≡ self.now }
        ensures is_image { IsImage self.now }
        ensures sound { IsSound (image_table self.now) }
        ensures true_records { HasTrueRecords (image_table self.now) }
    {
        &self.image
    }
}

impl NodeSpace for Tables<'_> {
    ghost table = { image_table };

    fn count(&self) -> u32 {
        self.image.node_count()
    }

    fn node(&self, id: NodeId) -> NodeView {
        self.image.node(id)
    }

    fn len(&self, id: NodeId) -> u64 {
        self.image.len(id)
    }

    fn depth(&self, id: NodeId) -> u8 {
        self.image.depth(id)
    }

    fn literal(&self, id: NodeId, off: u64) -> &[u8] {
        match self.image.node(id) {
            NodeView::Lit { a } => {
                let len = self.image.len(id);
                &self.image.pool()[(a + off) as usize..(a + len) as usize]
            }
            NodeView::Src { .. } | NodeView::Fun | NodeView::Cat { .. } | NodeView::Sub { .. } =>
                unreachable!(),
        }
    }

    fn fun_byte(&self, id: NodeId, i: u64) -> u8 {
        self.image.coded(id).byte(i)
    }

    fn period(&self, id: NodeId) -> Option<u64> {
        self.image.coded(id).period()
    }

    fn source_count(&self) -> u32 {
        self.image.source_count()
    }

    fn source_len(&self, s: u32) -> u64 {
        self.image.source_len(s)
    }

    fn pool_len(&self) -> u64 {
        self.image.pool().len() as u64
    }

    fn pool(&self, a: u64) -> &[u8] {
        &self.image.pool()[a as usize..]
    }
}

impl CodedSpace for Tables<'_> {
    ghost use Rattle.image_reader.specs.Value.{coded_at, function_at};
    ghost use Rattle.rope_node.specs.Coded.{answers_as_filled};

    ghost coded = { coded_at };

    ghost answered = { λ v id. answers_as_filled (function_at v id) };

    fn coded(&self, id: NodeId) -> Coded {
        self.image.coded(id)
    }
}

/// The fault that breaking a rule is.
fn fault_of(rule: NodeRule, id: u32) -> CheckFault
    ensures { result ≡ fault_at rule id }
{
    match rule {
        NodeRule::Reference => CheckFault::Reference(id),
        NodeRule::Length => CheckFault::Length(id),
        NodeRule::Depth => CheckFault::Depth(id),
        NodeRule::Span => CheckFault::Span(id),
    }
}

/// Tests node by node: one look each. Before each it tells how many are done.
fn check_nodes<L: Ledger, P: Progress>(
    records: &mut Records<'_, '_, '_, L>,
    progress: &mut P,
) -> Result<(), CheckFault>
    ensures ok { IsOk result ↔ AreGoodNodes (image_table records.old.image.now) }
    ensures err { IfErr result (IsFirstNodeFault (image_table records.old.image.now)) }
    ensures looks { records.new.count.now
        ≤ records.old.count.now + length (image_table records.old.image.now).nodes }
    ensures image { records.new.image.now ≡ records.old.image.now }
    ensures same_reference { records.new.count.ghost_name ≡ records.old.count.ghost_name }
{
    for id in 0..records.node_count() {
        progress.tell(id as u64);
        if let Err(rule) = check_node(records, NodeId(id)) {
            return Err(fault_of(rule, id));
        }
    }
    Ok(())
}

/// Does what `tables_counted` does, and tells how many nodes are done.
fn tables_told<S: Sources, L: Ledger, P: Progress>(
    records: &mut Records<'_, '_, '_, L>,
    sources: &S,
    progress: &mut P,
) -> Result<(), CheckFault>
    ensures ok { IsOk result
        ↔ HasGoodTables records.old.image.now (S.reading sources.now).stated.sizes }
    ensures err { IfErr result
        (IsFirstTableFault records.old.image.now (S.reading sources.now).stated.sizes) }
    ensures looks { records.new.count.now
        ≤ records.old.count.now + length (image_table records.old.image.now).nodes }
    ensures image { records.new.image.now ≡ records.old.image.now }
    ensures same_reference { records.new.count.ghost_name ≡ records.old.count.ghost_name }
{
    check_sources(records, sources)?;
    check_nodes(records, progress)
}

/// Whether the sources are the image's and each node keeps the rules, by its record. It takes no memory,
/// and at most one look for each node.
///
/// # Errors
///
/// The first fault of the sources, then of the nodes: `C2` to `C7`.
pub fn tables_counted<S: Sources, L: Ledger>(
    records: &mut Records<'_, '_, '_, L>,
    sources: &S,
) -> Result<(), CheckFault>
    ensures ok { IsOk result
        ↔ HasGoodTables records.old.image.now (S.reading sources.now).stated.sizes }
    ensures err { IfErr result
        (IsFirstTableFault records.old.image.now (S.reading sources.now).stated.sizes) }
    ensures looks { records.new.count.now
        ≤ records.old.count.now + length (image_table records.old.image.now).nodes }
    ensures image { records.new.image.now ≡ records.old.image.now }
    ensures same_reference { records.new.count.ghost_name ≡ records.old.count.ghost_name }
{
    tables_told(records, sources, &mut Untold)
}

/// Refuses an image whose check may take more looks than the limit, where there is one.
fn check_bound(image: &Image, at_most: Option<u64>) -> Result<(), CheckFault>
    ensures ok { IsOk result → AreLooksWithin at_most image.now }
    ensures err { IfErr result (λ f. IsBeyond at_most image.now × (f ≡ Looks (looks_bound image.now))) }
{
    let Some(most) = at_most else {
        return Ok(());
    };
    let bound = looks_bound(image);
    if most < bound {
        return Err(CheckFault::Looks(bound));
    }
    Ok(())
}

/// Does what `tables_told` does, but first refuses an image whose
/// check with these sources may take more looks than the limit.
pub fn tables_within<S: Sources, L: Ledger, P: Progress>(
    image: &Image,
    sources: &S,
    at_most: Option<u64>,
    count: &mut Count<L>,
    progress: &mut P,
) -> Result<(), CheckFault>
    ensures ok { IsOk result
        → HasGoodTables image.now (S.reading sources.now).stated.sizes × AreLooksWithin at_most image.now }
    ensures err { IfErr result
        (IsFirstTableFaultWithin at_most image.now (S.reading sources.now).stated.sizes) }
    ensures looks { count.new ≤ count.old + length (image_table image.now).nodes }
    ensures none { IsBeyond at_most image.now → count.new ≡ count.old }
{
    let mut records = Records::over(image, count);
    check_sources(&records, sources)?;
    check_bound(image, at_most)?;
    tables_told(&mut records, sources, progress)
}

/// The table of an image whose nodes have passed.
pub fn passed<'a>(image: &Image<'a>) -> Tables<'a>
    requires { AreGoodNodes (image_table image.now) }
    ensures value { result ≡ image.now }
    ensures image { IsImage image.now }
{
    // The value is an image, as its count says.
    let _nodes = image.node_count();
    Tables {
        image: image.same(),
    }
}

/// Does what `check_tables` does, with a count that begins here.
fn check_tables_with<'a, S: Sources, L: Ledger>(
    image: &Image<'a>,
    sources: &S,
    blank: Blank,
) -> Result<Tables<'a>, CheckFault>
    requires { BeginsCount L.name L.parts blank.name blank.parts }
    ensures ok { IsOk result ↔ HasGoodTables image.now (S.reading sources.now).stated.sizes }
    ensures value { IfOk result (λ v. v ≡ image.now) }
    ensures image { IfOk result IsImage }
    ensures err { IfErr result (IsFirstTableFault image.now (S.reading sources.now).stated.sizes) }
{
    let mut count = Count::<L>::new(blank);
    let mut records = Records::over(image, &mut count);
    tables_counted(&mut records, sources)?;
    Ok(passed(image))
}

/// The table of an image's nodes, where the sources are the image's and each node keeps the rules. It takes no memory.
///
/// # Errors
///
/// The first fault of the sources, then of the nodes: `C2` to `C7`.
pub fn check_tables<'a, S: Sources>(
    image: &Image<'a>,
    sources: &S,
) -> Result<Tables<'a>, CheckFault>
    ensures ok { IsOk result ↔ HasGoodTables image.now (S.reading sources.now).stated.sizes }
    ensures value { IfOk result (λ v. v ≡ image.now) }
    ensures image { IfOk result IsImage }
    ensures err { IfErr result (IsFirstTableFault image.now (S.reading sources.now).stated.sizes) }
{
    check_tables_with::<S, Brand>(image, sources, Blank::new(1))
}
