//! Accepted images.

ghost use Rattle.std.specs.Prelude.{◌≡◌, ◌↔◌, ◌<◌, ◌≤◌, ◌+◌, length, None, IfOk, IfErr, IfSome, IsOk, IsSome};
ghost use Rattle.rope_node.specs.Denotes.{rope_len, rope_depth};
ghost use Rattle.cord_position.specs.Fetched.{ReadsSpan};
ghost use Rattle.image_reader.specs.Accepted.{HasSources, revision_at};
ghost use Rattle.image_reader.specs.Value.{IsImage, image_table};
ghost use Rattle.image_reader.specs.Spelling.{spelling};
ghost use Rattle.image_reader.specs.Reading.{fault_of, image_in};
ghost use Rattle.span_descent.specs.Counts.{BeginsCount};
ghost use Rattle.lazy_file.specs.Readings.{Reads};
ghost use Rattle.session_checker.specs.Accepted.{IsAccepted, IsFirstFault, IsExact, NeedsNoRead, Accepts, BytesAsk};
ghost use Rattle.session_checker.specs.Limits.{ChecksWithin, TakesLooks};
ghost use Rattle.session_checker.specs.RevisionRules.{source_fault, source_fault_in};
ghost use Rattle.session_checker.specs.Faithful.{IsFaithful, HasTrueRecordsOf, IsRootOf, IsMarkOf, IsFetchedOf, fetch_visits, fetched_cell};

use crate::fault::CheckFault;
use crate::revision_rules::revisions_told;
use crate::tables::{Tables, passed, tables_within};
use cord_position::fetch;
use function_leaf::Coded;
use image_reader::{Image, Revisions};
use lazy_file::{SourceFault, Sources};
use rope_node::{CodedSpace, NodeId, NodeSpace, NodeView, Rope};
use span_certificate::Looks;
use span_descent::Count;
use std::marker::{Brand, Model};
use std::sync::ledger::{Blank, Ledger};
use work_progress::{Progress, Untold};

/// An image that was accepted: each revision's root denotes the text that its commands give.
#[derive(Drop)]
pub struct Checked<'a> {
    tables: Tables<'a>,
}

impl<'a> Model for Checked<'a> {
    ghost use Rattle.image_reader.specs.Value.{ImageValue, IsImage};
    ghost use Rattle.session_checker.specs.Faithful.{HasTrueRecordsOf};

    ghost Value = { ImageValue };

    ghost view = { λ a. a.tables };

    ghost invariant = { λ a. IsImage a.tables × HasTrueRecordsOf a.tables };
}

impl<'a> Checked<'a> {
    /// The image of bytes that were accepted before, by their header alone. It takes no memory.
    pub fn again(bytes: &'a [u8]) -> Checked<'a>
        requires read { fault_of bytes.now ≡ None }
        requires true_records { HasTrueRecordsOf (image_in bytes.now) }
        ensures { result ≡ image_in bytes.now }
    {
        Checked {
            tables: Tables::again(Image::again(bytes)),
        }
    }

    /// The image.
    pub fn image(&self) -> &Image<'a>
        ensures { result.now ≡ self.now }
    {
        self.tables.image()
    }

    /// How many revisions the image has.
    pub fn revisions(&self) -> u32
        ensures count { result ≡ length self.now.revisions }
        ensures true_records { HasTrueRecordsOf self.now }
    {
        self.tables.image().revision_count()
    }

    /// How many certificate rows it has.
    pub fn rows(&self) -> u32
        ensures { result ≡ length self.now.rows }
    {
        self.tables.image().row_count()
    }

    /// The root of revision `k`, where there is one.
    pub fn root(&self, k: u32) -> Option<Rope>
        ensures there { IfSome result (IsRootOf self.now k) }
        ensures not_there { result ≡ None ↔ length self.now.revisions ≤ k }
    {
        if k < self.tables.image().revision_count() {
            Some(self.tables.image().root(k))
        } else {
            None
        }
    }

    /// Whether revision `k` is marked as balanced, where there is one.
    pub fn mark(&self, k: u32) -> Option<bool>
        ensures there { IfSome result (IsMarkOf self.now k) }
        ensures not_there { result ≡ None ↔ length self.now.revisions ≤ k }
    {
        if k < self.tables.image().revision_count() {
            Some(self.tables.image().mark(k))
        } else {
            None
        }
    }

    /// The byte at `i` of the text of revision `k`, and how many nodes were visited
    /// for it, from the root to the leaf. Past the end of the text, and where there
    /// is no such revision, no byte and no node. It takes no memory of its own.
    ///
    /// # Errors
    ///
    /// A source's fault, where the byte is one of that source and the read of it
    /// failed. Sources that never fail, and hold the byte's place, give none.
    pub fn fetch<S: Sources>(
        &self,
        sources: &mut S,
        k: u32,
        i: u64,
    ) -> Result<(Option<u8>, u32), SourceFault>
        ensures byte { IfOk result
            (λ x. IsFetchedOf self.now (S.reading sources.old).stated k i x.0) }
        ensures inside { IfOk result
            (λ x. IsSome x.0 ↔ i < rope_len (image_table self.now) (revision_at self.now k).root) }
        ensures visits { IfOk result (λ x. x.1 ≡ fetch_visits self.now k i) }
        ensures few { IfOk result
            (λ x. x.1 ≤ rope_depth (image_table self.now) (revision_at self.now k).root + 1) }
        ensures reads { ReadsSpan (S.reading sources.old) (S.reading sources.new)
            (fetched_cell self.now k) i (i + 1) result }
    {
        match self.root(k) {
            Some(root) => fetch(&self.tables, sources, root, i),
            None => Ok((None, 0)),
        }
    }
}

impl NodeSpace for Checked<'_> {
    ghost use Rattle.image_reader.specs.Value.{image_table};

    ghost table = { image_table };

    fn count(&self) -> u32 {
        self.tables.count()
    }

    fn node(&self, id: NodeId) -> NodeView {
        self.tables.node(id)
    }

    fn len(&self, id: NodeId) -> u64 {
        self.tables.len(id)
    }

    fn depth(&self, id: NodeId) -> u8 {
        self.tables.depth(id)
    }

    fn literal(&self, id: NodeId, off: u64) -> &[u8] {
        self.tables.literal(id, off)
    }

    fn fun_byte(&self, id: NodeId, i: u64) -> u8 {
        self.tables.fun_byte(id, i)
    }

    fn period(&self, id: NodeId) -> Option<u64> {
        self.tables.period(id)
    }

    fn source_count(&self) -> u32 {
        self.tables.source_count()
    }

    fn source_len(&self, s: u32) -> u64 {
        self.tables.source_len(s)
    }

    fn pool_len(&self) -> u64 {
        self.tables.pool_len()
    }

    fn pool(&self, a: u64) -> &[u8] {
        self.tables.pool(a)
    }
}

impl CodedSpace for Checked<'_> {
    ghost use Rattle.image_reader.specs.Value.{coded_at, function_at};
    ghost use Rattle.rope_node.specs.Coded.{answers_as_filled};

    ghost coded = { coded_at };

    ghost answered = { λ v id. answers_as_filled (function_at v id) };

    fn coded(&self, id: NodeId) -> Coded {
        self.tables.coded(id)
    }
}

/// How many nodes, revisions and rows an image has.
fn record_count(image: &Image) -> u64 {
    image.node_count() as u64 + image.revision_count() as u64 + image.row_count() as u64
}

/// Does what `check_counted` does, and tells how many records are done.
fn told_counted<'a, S: Sources, L: Ledger, P: Progress>(
    bytes: &'a [u8],
    sources: &mut S,
    at_most: Option<u64>,
    count: &mut Count<L>,
    progress: &mut P,
) -> Result<Checked<'a>, CheckFault>
    ensures answer { ChecksWithin at_most (S.reading sources.old) (S.reading sources.new) bytes.now result }
    ensures looks { TakesLooks at_most (S.reading sources.old).stated.sizes bytes.now count.old count.new }
{
    let image = match Image::read(bytes) {
        Ok(image) => image,
        Err(fault) => return Err(CheckFault::Read(fault)),
    };
    progress.begin(record_count(&image));
    tables_within(&image, sources, at_most, &mut *count, &mut *progress)?;
    let tables = passed(&image);
    let mut looks = Looks::over(&tables, &mut *count);
    revisions_told(&mut looks, &Revisions::over(&image), sources, progress)?;
    Ok(Checked { tables })
}

/// Does what `check_at_most` does, and counts each look at a node. They are at most as many as `looks_bound` gives for
/// the image, and as the limit, where there is one, and none where that is why the image is refused.
///
/// # Errors
///
/// As those of `check_at_most`.
pub fn check_counted<'a, S: Sources, L: Ledger>(
    bytes: &'a [u8],
    sources: &mut S,
    at_most: Option<u64>,
    count: &mut Count<L>,
) -> Result<Checked<'a>, CheckFault>
    ensures answer { ChecksWithin at_most (S.reading sources.old) (S.reading sources.new) bytes.now result }
    ensures looks { TakesLooks at_most (S.reading sources.old).stated.sizes bytes.now count.old count.new }
{
    told_counted(bytes, sources, at_most, count, &mut Untold)
}

/// Does what `check_told` does, with a count that begins here.
fn check_with<'a, S: Sources, L: Ledger, P: Progress>(
    bytes: &'a [u8],
    sources: &mut S,
    at_most: Option<u64>,
    progress: &mut P,
    blank: Blank,
) -> Result<Checked<'a>, CheckFault>
    requires { BeginsCount L.name L.parts blank.name blank.parts }
    ensures { ChecksWithin at_most (S.reading sources.old) (S.reading sources.new) bytes.now result }
{
    told_counted(
        bytes,
        sources,
        at_most,
        &mut Count::<L>::new(blank),
        progress,
    )
}

/// Does what `check_at_most` does, and tells on the way how many
/// of the image's records are done: nodes, revisions and rows.
///
/// # Errors
///
/// As those of `check_at_most`.
pub fn check_told<'a, S: Sources, P: Progress>(
    bytes: &'a [u8],
    sources: &mut S,
    at_most: Option<u64>,
    progress: &mut P,
) -> Result<Checked<'a>, CheckFault>
    ensures { ChecksWithin at_most (S.reading sources.old) (S.reading sources.new) bytes.now result }
{
    let checked = check_with::<S, Brand, P>(bytes, sources, at_most, &mut *progress, Blank::new(1));
    progress.end();
    checked
}

/// Accepts or refuses a session image with its sources, as `check` does, where its check may take no more looks at
/// nodes than the limit, if there is one: `looks_bound` gives that number for each image, by its counts and its rows.
///
/// # Errors
///
/// `Looks`, with that number, where it is over the limit. It comes behind
/// `C1` to `C3`, and before any node is looked at. Else as those of `check`.
pub fn check_at_most<'a, S: Sources>(
    bytes: &'a [u8],
    sources: &mut S,
    at_most: Option<u64>,
) -> Result<Checked<'a>, CheckFault>
    ensures { ChecksWithin at_most (S.reading sources.old) (S.reading sources.new) bytes.now result }
{
    check_told(bytes, sources, at_most, &mut Untold)
}

/// Accepts or refuses a session image with its sources. It goes over the bytes section by section, reads of the sources
/// what rows of bytes compare, and takes no memory of its own.
///
/// # Errors
///
/// The first fault of the bytes, the sources, the nodes, and then of each revision: `C1` to `C11`. `C12` where a read
/// for a row of bytes over a source failed, and all before that row is as accepted.
pub fn check<'a, S: Sources>(bytes: &'a [u8], sources: &mut S) -> Result<Checked<'a>, CheckFault>
    // What is accepted is faithful, it is what the bytes spell, and the sources are its own.
    ensures faithful { IfOk result (λ v. IsFaithful v (S.reading sources.old).stated) }
    ensures image { IfOk result (λ v. IsImage v × (bytes.now ≡ spelling v)) }
    ensures sources { IfOk result (λ v. HasSources v (S.reading sources.old).stated.sizes) }
    // What is accepted keeps the rules over what the sources state.
    ensures accepted { IsOk result → IsAccepted bytes.now (S.reading sources.old).stated }
    // A refusal that is no fault of a source is the first fault.
    ensures refused { IfErr result (λ f. source_fault f ≡ None
        → IsFirstFault (S.reading sources.old).stated bytes.now f) }
    // A fault of a source is that of the one read that failed, for a row of bytes before which all is accepted.
    ensures reads { Reads (S.reading sources.old) (S.reading sources.new)
        (BytesAsk (S.reading sources.old).stated bytes.now) (source_fault_in result) }
    // Over texts in memory all that keeps the rules is accepted, and all else refused by its first fault.
    ensures exact { IsExact (S.reading sources.old).stated bytes.now result }
    // What keeps the rules and needs no read of the sources is accepted, even where every read would fail.
    ensures always { (n : NeedsNoRead bytes.now (S.reading sources.old).stated.sizes)
        → Accepts result n.v }
{
    check_at_most(bytes, sources, None)
}
