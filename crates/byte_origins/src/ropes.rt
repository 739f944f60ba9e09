//! The origins of the texts of an image's first revisions, as ropes.

// The lines `let _count = ..` and `let _brought = ..` are for the proof: the
// image's records are true, and the ropes are sound, as these calls say.

ghost use Rattle.std.specs.Prelude.{◌≡◌, ◌+◌, ◌<◌, ◌≤◌, ℕ, [], length, take, drop, get_or, None, IfSome};
ghost use Rattle.image_reader.specs.Value.{ImageValue};
ghost use Rattle.image_reader.specs.Accepted.{splices_before};
ghost use Rattle.command_parts.specs.Parts.{AreRopes};
ghost use Rattle.byte_origins.specs.Origins.{origins_at, IsOriginRun};
ghost use Rattle.byte_origins.specs.OriginTexts.{ropes_table, CanBePut, KeepsTexts, Names, NameTexts};
ghost use Rattle.byte_origins.specs.StepsBack.{came_len, IsStepBack};

use crate::history::History;
use crate::origin_store::OriginStore;
use crate::run::OriginRun;
use crate::starts::{next_start, splices_before};
use crate::taking::{CameFrom, command_parts, taken_of};
use crate::texts::TextsBefore;
use rope_node::Rope;
use session_checker::Checked;
use std::alloc::Global;

/// How much is walked for each text and each splice before ropes are made: a step
/// back is one, and one more for each part of a command that it goes through.
const WORK: u64 = 8;

/// The rope of the origins of what stands somewhere in a text, over the ropes of the texts before it.
fn piece(texts: &mut OriginStore, roots: &[Rope], came: CameFrom) -> Option<Rope>
    requires roots { AreRopes (ropes_table texts.old) roots.now }
    requires came { CanBePut (length roots.now) came }
    ensures further { KeepsTexts texts.old texts.new }
    ensures text { (v : ImageValue) (k place : ℕ) → NameTexts v texts.old roots.now → IsStepBack v k place came
        → IfSome result (λ rope. Names texts.new rope (take (came_len came) (drop place (origins_at v k)))) }
{
    match came {
        CameFrom::FromText(j, i, n) => texts.part(roots[j as usize], i, n),
        CameFrom::Run(run) => texts.brought_now(run),
    }
}

/// The rope of the origins of text `k`, where all revisions before it have ropes, and `first` splices.
fn text(
    texts: &mut OriginStore,
    roots: &[Rope],
    image: &Checked,
    k: u32,
    first: u32,
) -> Option<Rope>
    requires there { k < length image.now.revisions }
    requires first { first ≡ splices_before image.now k }
    requires before { length roots.now ≡ k }
    requires ropes { NameTexts image.now texts.old roots.now }
    ensures further { KeepsTexts texts.old texts.new }
    ensures text { IfSome result (λ rope. Names texts.new rope (origins_at image.now k)) }
{
    let _count = image.revisions();
    let _brought = texts.count();
    let before = TextsBefore::of(image, k);
    let splices = image.splices(k);
    let mut rest = command_parts(image, &splices, k, first);
    let mut place = 0;
    let mut built = None;
    while let Some(part) = rest.next() {
        let next = piece(texts, roots, taken_of(&before, place, part, 0))?;
        built = texts.joined(built, next)?;
        place += part.len();
    }
    Some(built)
}

/// Ropes of the origins of the first texts.
#[derive(Drop)]
pub(crate) struct Ropes {
    pub(crate) texts: OriginStore,
    pub(crate) roots: Vec<Rope>,
    made: bool,
}

impl Ropes {
    /// None. It takes no memory.
    pub(crate) fn new(alloc: Global) -> Ropes
        ensures { result.roots.items ≡ [] }
    {
        Ropes {
            texts: OriginStore::new(alloc),
            roots: Vec::new(alloc),
            made: false,
        }
    }

    /// Makes ropes of the first `count` texts, as far as there is memory, and room in the store: once, and where so
    /// much was walked back that this takes less. Their commands have so many splices.
    pub(crate) fn make(&mut self, image: &Checked, count: u32, splices: u32, work: u64)
        requires there { count ≤ length image.now.revisions }
        requires ropes { NameTexts image.now self.old.texts self.old.roots.items }
        ensures { NameTexts image.now self.new.texts self.new.roots.items }
    {
        if self.made || work / WORK < u64::from(count) + u64::from(splices) {
            return;
        }
        self.made = true;
        self.texts.begin();
        extend(&mut self.texts, &mut self.roots, image, count);
    }

    /// The run that the bytes of text `k` from a place on begin with, where that text has a rope.
    pub(crate) fn run_at(&self, k: u32, place: u64) -> Option<OriginRun>
        requires { AreRopes (ropes_table self.now.texts) self.now.roots.items }
        ensures { (v : ImageValue) → NameTexts v self.now.texts self.now.roots.items
            → IfSome result (IsOriginRun (origins_at v k) place) }
    {
        if k as usize >= self.roots.len() {
            return None;
        }
        self.texts.run_at(self.roots[k as usize], place)
    }
}

/// Puts ropes of the texts behind these up to the first `count`, as far as there is memory, and room in the store.
fn extend(texts: &mut OriginStore, roots: &mut Vec<Rope>, image: &Checked, count: u32)
    requires there { count ≤ length image.now.revisions }
    requires ropes { NameTexts image.now texts.old roots.old.items }
    ensures { NameTexts image.now texts.new roots.new.items }
{
    let _count = image.revisions();
    let begun = roots.len() as u32;
    let mut first = splices_before(image, begun);
    for k in begun..count {
        let Some(rope) = text(texts, roots, image, k, first) else {
            return;
        };
        let Ok(()) = roots.push(rope) else {
            return;
        };
        first = next_start(image, k, first);
    }
}
