//! One step back from a place of a text.

// The lines `let _count = ..` are for the proof: the history's records
// are true, and its texts a sound table, as these calls say.

ghost use Rattle.std.specs.Prelude.{◌≡◌, ◌+◌, ◌^◌, ◌<◌, ◌≤◌, length, MatchOption, Some};
ghost use Rattle.rope_node.specs.declared.limits.TheConstants.{TEXT_LIMIT};
ghost use Rattle.image_reader.specs.Accepted.{command_at, splices_before};
ghost use Rattle.command_parts.specs.Commands.{full_edit, NamesSplices};
ghost use Rattle.command_parts.specs.Parts.{part_at, part_len, IsPart};
ghost use Rattle.byte_origins.specs.EarlierTexts.{len_of_text, texts_parts, texts_table};
ghost use Rattle.byte_origins.specs.SplicedTexts.{IsPlaceBeside, one_splice, spliced_of};
ghost use Rattle.byte_origins.specs.StepsBack.{came_len, IsStepBack, run_of, step_back, taken_of};

use crate::history::History;
use crate::run::{Brought, Origin, OriginRun};
use crate::texts::{TextsBefore, len_of_text};
use command_parts::{Edit, Part, PartIter, Splice, Splices, parts};
use rope_node::NodeSpace;

/// Where the bytes from a place on come from, as far as one part of the text goes.
#[derive(Clone, Copy, Debug, PartialEq, Eq)]
pub enum CameFrom {
    /// They are those of an earlier text: which one, the place from which on, and how many.
    FromText(u32, u64, u64),
    /// The text's command brought them.
    Run(OriginRun),
}

impl CameFrom {
    /// How many bytes there are.
    pub fn len(self) -> u64
        ensures { result ≡ came_len self }
    {
        match self {
            CameFrom::FromText(_, _, n) => n,
            CameFrom::Run(run) => run.len,
        }
    }
}

/// The part that holds a place, and the place inside that part. How many parts it went through is added to `passed`.
fn held<P: Splices>(parts: PartIter<'_, P>, place: u64, passed: &mut u64) -> Option<(Part, u64)>
    ensures { result ≡ part_at parts.entry place }
{
    let mut rest = parts;
    let mut off = place;
    while let Some(part) = rest.next() {
        *passed = passed.saturating_add(1);
        let len = part.len();
        if off < len {
            return Some((part, off));
        }
        off -= len;
    }
    None
}

/// Bytes that the command of text `k` brought, the first of them at `place`.
fn run_of(k: u32, place: u64, brought: Brought, len: u64) -> CameFrom
    ensures { result ≡ run_of k place brought len }
{
    let first = Origin {
        revision: k,
        place,
        brought,
    };
    CameFrom::Run(OriginRun { first, len })
}

/// What the bytes at `place` of text `k` are, where that stands `off` bytes inside this part.
pub(crate) fn taken_of<H: History>(
    texts: &TextsBefore<H>,
    place: u64,
    part: Part,
    off: u64,
) -> CameFrom
    requires part { IsPart (texts_table (H.image texts.now.history) texts.now.k) part }
    requires inside { off < part_len part }
    ensures { result ≡ taken_of texts.now.k place part off }
{
    let _count = NodeSpace::count(texts);
    let k = texts.k;
    match part {
        Part::Old { rope: None, i, n } => CameFrom::FromText(0, i + off, n - off),
        Part::Old {
            rope: Some(j),
            i,
            n,
        } => CameFrom::FromText(j.0, i + off, n - off),
        Part::Pool { a, n } => run_of(k, place, Brought::Pool { a: a + off }, n - off),
        Part::Source { s, n } => run_of(k, place, Brought::Source { s, p: off }, n - off),
        Part::Fill { c, n } => run_of(k, place, Brought::Fill { c }, n - off),
    }
}

/// The parts of `edit`, the command of text `k`, over the texts before it. It names its splices among these.
fn edit_parts<'p, H: History>(
    history: H,
    splices: &'p H::Listed,
    k: u32,
    edit: &Edit,
) -> PartIter<'p, H::Listed>
    requires same { H.Listed.splices splices.now ≡ H.listed history k }
    requires there { k < length (H.image history).revisions }
    requires says { full_edit (H.listed history k) edit.now ≡ command_at (H.image history) k }
    requires names { NamesSplices (H.listed history k) edit.now }
    ensures { result ≡ texts_parts (H.image history) k }
{
    let _count = history.revision_count();
    let texts = TextsBefore::of(history, k);
    parts(&texts, &texts, splices, edit)
}

/// The parts of the command of text `k` over the texts before it, where the revisions before it have `first` splices.
pub(crate) fn command_parts<'p, H: History>(
    history: H,
    splices: &'p H::Listed,
    k: u32,
    first: u32,
) -> PartIter<'p, H::Listed>
    requires same { H.Listed.splices splices.now ≡ H.listed history k }
    requires there { k < length (H.image history).revisions }
    requires first { first ≡ splices_before (H.image history) k }
    ensures { result ≡ texts_parts (H.image history) k }
{
    let edit = history.command(k, first);
    edit_parts(history, splices, k, &edit)
}

/// What the bytes at `place` of text `k` are, by the parts of `edit`, its command. How many of them it went through is
/// added to `passed`.
fn taken_by_parts<H: History>(
    history: H,
    k: u32,
    edit: Edit,
    place: u64,
    passed: &mut u64,
) -> CameFrom
    requires there { k < length (H.image history).revisions }
    requires says { full_edit (H.listed history k) edit ≡ command_at (H.image history) k }
    requires names { NamesSplices (H.listed history k) edit }
    requires inside { place < len_of_text (H.image history) k }
    ensures { step_back (H.image history) k place ≡ Some result }
{
    let _count = history.revision_count();
    let splices = history.splices(k);
    let texts = TextsBefore::of(history, k);
    match held(edit_parts(history, &splices, k, &edit), place, passed) {
        Some((part, off)) => taken_of(&texts, place, part, off),
        None => unreachable!(),
    }
}

/// The text into which a command puts one splice, and the splice.
#[inline(always)]
pub(crate) fn one_splice(edit: Edit) -> Option<(u32, Splice)>
    ensures { result ≡ one_splice edit }
{
    #[rattlefmt::skip]
    match edit {
        Edit::Insert { r, p, a, n } => Some((r, Splice { p, m: 0, a, n })),
        Edit::Delete { r, p, n } => Some((r, Splice { p, m: n, a: 0, n: 0 })),
        Edit::Replace { r, p, m, a, n } => Some((r, Splice { p, m, a, n })),
        Edit::New | Edit::Open { .. } | Edit::Paste { .. } | Edit::Join { .. } | Edit::Cut { .. } => None,
        Edit::Fill { .. } | Edit::Back { .. } | Edit::Balance { .. } | Edit::Many { .. } => None,
    }
}

/// Where `len` bytes stand in the text that a splice was put into, where they all stand in front of it or all behind it.
#[inline(always)]
pub(crate) fn place_beside(splice: Splice, place: u64, len: u64) -> Option<u64>
    requires some { 1 ≤ len }
    requires fits { splice.p + splice.m < 2 ^ 64 }
    requires inside { place + splice.m < 2 ^ 64 + splice.n }
    ensures { MatchOption result ((splice.p < place + len) × (place < splice.p + splice.n))
        (IsPlaceBeside splice place len) }
{
    let Splice { p, m, n, .. } = splice;
    if place < p {
        if p - place < len { None } else { Some(place) }
    } else {
        let off = place - p;
        if off < n {
            None
        } else {
            Some(p + m + (off - n))
        }
    }
}

/// What the bytes at `place` of text `k` are, whose command puts a splice into text `r`. Only behind the splice does it
/// matter how long that text is.
#[inline(always)]
fn spliced<H: History>(history: H, k: u32, place: u64, r: u32, splice: Splice) -> CameFrom
    requires there { r < length (H.image history).revisions }
    requires fits { splice.p + splice.m ≤ len_of_text (H.image history) r }
    requires pool { splice.a + splice.n < 2 ^ 64 }
    requires inside { place + splice.m < len_of_text (H.image history) r + splice.n }
    ensures { result ≡ spliced_of (len_of_text (H.image history) r) k place r splice }
{
    let Splice { p, m, a, n } = splice;
    if place < p {
        return CameFrom::FromText(r, place, p - place);
    }
    let off = place - p;
    if off < n {
        return run_of(k, place, Brought::Pool { a: a + off }, n - off);
    }
    let len = len_of_text(history, r);
    let i = p + m + (off - n);
    CameFrom::FromText(r, i, len - i)
}

/// What the bytes at `place` of text `k` are, where the revisions before it have `first` splices: one step back.
pub fn taken<H: History>(history: H, k: u32, first: u32, place: u64) -> CameFrom
    requires there { k < length (H.image history).revisions }
    requires first { first ≡ splices_before (H.image history) k }
    requires inside { place < len_of_text (H.image history) k }
    ensures step { IsStepBack (H.image history) k place result }
    ensures exact { step_back (H.image history) k place ≡ Some result }
{
    let mut passed = 0;
    taken_counted(history, k, first, place, &mut passed)
}

/// The same. How many parts of the command it went through is added to `passed`.
pub(crate) fn taken_counted<H: History>(
    history: H,
    k: u32,
    first: u32,
    place: u64,
    passed: &mut u64,
) -> CameFrom
    requires there { k < length (H.image history).revisions }
    requires first { first ≡ splices_before (H.image history) k }
    requires inside { place < len_of_text (H.image history) k }
    ensures step { IsStepBack (H.image history) k place result }
    ensures exact { step_back (H.image history) k place ≡ Some result }
{
    let _count = history.revision_count();
    let edit = history.command(k, first);
    match one_splice(edit) {
        Some((r, splice)) => {
            *passed = passed.saturating_add(1);
            spliced(history, k, place, r, splice)
        }
        None => taken_by_parts(history, k, edit, place, passed),
    }
}
