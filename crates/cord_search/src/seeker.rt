//! A search that takes a text run by run.

ghost use Rattle.std.specs.Prelude.{◌≡◌, ◌+◌, ◌-◌, ◌^◌, ◌<◌, ◌≤◌, ℕ, [], List, Option, length, take, IfOk, IfSome, IsTrue};
ghost use Rattle.rope_node.specs.declared.node.NodeId.{NodeId};
ghost use Rattle.rope_node.specs.Table.{Table};
ghost use Rattle.rope_node.specs.Denotes.{rope_cells};
ghost use Rattle.lazy_file.specs.SourceTexts.{Stated};
ghost use Rattle.memchr.specs.Find.{FindsNeedle};
ghost use Rattle.cord_search.specs.declared.pattern.TheConstants.{PATTERN_LIMIT};
ghost use Rattle.cord_search.specs.Pieces.{IsPiece};
ghost use Rattle.cord_search.specs.Seeking.{CannotBegin, IsClearTo, IsSeeker, IsSeeking, IsSought, MayBegin, RepeatsFrom};

use crate::pattern::PATTERN_LIMIT;
use circular_buffer::HeapCircularBuffer;
use memchr::memchr;
use memchr::memmem::Finder;
use std::alloc::{AllocError, Global};

/// Whether a pattern whose first byte stands at a place of these bytes may begin there, by its second byte.
fn may_begin(pattern: &[u8], bytes: &[u8], place: usize) -> bool
    requires { place < length bytes.now }
    ensures { MayBegin pattern.now bytes.now place → IsTrue result }
{
    pattern.len() < 2 || place + 1 >= bytes.len() || bytes[place + 1] == pattern[1]
}

/// How many of these bytes lie before the first at which the pattern may
/// begin, by its first two bytes. All of them, where it can begin nowhere.
fn before_first(finder: &Finder<'_>, bytes: &[u8]) -> usize
    requires some { 1 ≤ length finder.now }
    ensures most { result ≤ length bytes.now }
    ensures none { CannotBegin finder.now bytes.now result }
{
    let pattern = finder.needle();
    let mut from = 0;
    'places: while let Some(k) = memchr(pattern[0], &bytes[from..]) {
        let place = from + k;
        if may_begin(pattern, bytes, place) {
            return place;
        }
        from = place + 1;
    }
    bytes.len()
}

/// The first place of the pattern in the ring's bytes.
fn find_in_ring(finder: &Finder<'_>, ring: &mut HeapCircularBuffer<u8>) -> Option<usize>
    ensures found { FindsNeedle ring.old.items finder.now 0 result }
    ensures same { ring.new ≡ ring.old }
{
    let bytes = ring.make_contiguous();
    finder.find(bytes)
}

/// How many of the ring's bytes lie before the first at which the pattern may begin.
fn before_first_in_ring(finder: &Finder<'_>, ring: &mut HeapCircularBuffer<u8>) -> usize
    requires some { 1 ≤ length finder.now }
    ensures most { result ≤ length ring.old.items }
    ensures none { CannotBegin finder.now ring.old.items result }
    ensures same { ring.new ≡ ring.old }
{
    let bytes = ring.make_contiguous();
    before_first(finder, bytes)
}

/// A search for a pattern in a text that it is handed run by run. A run that is as long as the pattern is searched
/// where it lies; what stands at a joint of runs is found in a ring, which holds at most twice the pattern's length.
#[derive(Drop)]
pub struct Seeker<'p> {
    finder: Finder<'p>,
    /// The last bytes before the place, those at which the pattern may still begin among them.
    ring: HeapCircularBuffer<u8>,
    /// The place behind the last byte that was taken.
    place: u64,
}

impl<'p> Seeker<'p> {
    /// A search that begins at a place.
    pub fn new(alloc: Global, pattern: &'p [u8], start: u64) -> Result<Seeker<'p>, AllocError>
        requires some { 1 ≤ length pattern.now }
        requires few { length pattern.now ≤ PATTERN_LIMIT }
        ensures kept { IfOk result IsSeeker }
        ensures pattern { IfOk result (λ s. s.finder ≡ pattern.now) }
        ensures ring { IfOk result (λ s. s.ring.items ≡ []) }
        ensures place { IfOk result (λ s. s.place ≡ start) }
    {
        let ring = HeapCircularBuffer::with_capacity(alloc, 2 * pattern.len())?;
        Ok(Seeker {
            finder: Finder::new(pattern),
            ring,
            place: start,
        })
    }

    /// The place behind the last byte that was taken.
    pub fn place(&self) -> u64
        ensures { result ≡ self.now.place }
    {
        self.place
    }

    /// How many bytes the pattern has.
    pub fn need(&self) -> usize
        ensures { result ≡ length self.now.finder }
    {
        self.finder.needle().len()
    }

    /// Searches the ring. Where the pattern does not stand there, the ring keeps the bytes from the first place on at
    /// which it may still begin, fewer than the pattern has.
    pub fn search_ring(&mut self) -> Option<u64>
        requires kept { IsSeeker self.old }
        ensures kept { IsSeeker self.new }
        ensures pattern { self.new.finder ≡ self.old.finder }
        ensures place { self.new.place ≡ self.old.place }
        ensures few { length self.new.ring.items < length self.old.finder }
        ensures sought { (t : Table) (st : Stated) (rope : Option NodeId) (start : ℕ)
            → IsSeeking t st rope start self.old → IsSought t st rope start self.new result }
    {
        let first = self.place - self.ring.len() as u64;
        let found = find_in_ring(&self.finder, &mut self.ring);
        let most = self.need() - 1;
        self.ring.truncate_front(most);
        let count = before_first_in_ring(&self.finder, &mut self.ring);
        let keep = self.ring.len() - count;
        self.ring.truncate_front(keep);
        match found {
            Some(k) => Some(first + k as u64),
            None => None,
        }
    }

    /// Takes the next bytes, fewer than the pattern has, where the ring is empty.
    /// It gets the bytes from the first place on at which the pattern may begin.
    fn keep(&mut self, run: &[u8])
        requires kept { IsSeeker self.old }
        requires empty { self.old.ring.items ≡ [] }
        requires short { length run.now < length self.old.finder }
        requires limit { self.old.place + length run.now < 2 ^ 64 }
        ensures kept { IsSeeker self.new }
        ensures pattern { self.new.finder ≡ self.old.finder }
        ensures place { self.new.place ≡ self.old.place + length run.now }
        ensures sought { (t : Table) (st : Stated) (rope : Option NodeId) (start : ℕ)
            → IsSeeking t st rope start self.old
            → IsPiece t st rope self.old.place run.now
            → self.old.place + length run.now ≤ length (rope_cells t rope)
            → IsSeeking t st rope start self.new }
    {
        let count = before_first(&self.finder, run);
        self.ring.fill_from_slice(&run[count..]);
        self.place += run.len() as u64;
    }

    /// Takes the next bytes, fewer than the pattern has. The ring is searched where they fill it.
    fn take_short(&mut self, run: &[u8]) -> Option<u64>
        requires kept { IsSeeker self.old }
        requires short { length run.now < length self.old.finder }
        requires limit { self.old.place + length run.now < 2 ^ 64 }
        ensures kept { IsSeeker self.new }
        ensures pattern { self.new.finder ≡ self.old.finder }
        ensures place { result ≡ None → self.new.place ≡ self.old.place + length run.now }
        ensures sought { (t : Table) (st : Stated) (rope : Option NodeId) (start : ℕ)
            → IsSeeking t st rope start self.old
            → IsPiece t st rope self.old.place run.now
            → self.old.place + length run.now ≤ length (rope_cells t rope)
            → IsSought t st rope start self.new result }
    {
        if self.ring.is_empty() {
            self.keep(run);
            return None;
        }
        let count = self.ring.fill_from_slice(run);
        self.place += count as u64;
        if self.ring.is_full() {
            if let Some(found) = self.search_ring() {
                return Some(found);
            }
            let rest = self.ring.fill_from_slice(&run[count..]);
            self.place += rest as u64;
        }
        None
    }

    /// Sees to it that half of the ring is free. It is searched where it is not.
    fn make_room(&mut self) -> Option<u64>
        requires kept { IsSeeker self.old }
        ensures kept { IsSeeker self.new }
        ensures pattern { self.new.finder ≡ self.old.finder }
        ensures place { self.new.place ≡ self.old.place }
        ensures few { length self.new.ring.items ≤ length self.old.finder }
        ensures sought { (t : Table) (st : Stated) (rope : Option NodeId) (start : ℕ)
            → IsSeeking t st rope start self.old → IsSought t st rope start self.new result }
    {
        if self.ring.len() <= self.need() {
            return None;
        }
        self.search_ring()
    }

    /// Searches the joint of the ring's bytes and the next ones, as many as the pattern has or more, of which none is
    /// taken. Where the pattern does not stand there, the ring is empty.
    fn search_joint(&mut self, run: &[u8]) -> Option<u64>
        requires kept { IsSeeker self.old }
        requires long { length self.old.finder ≤ length run.now }
        requires limit { self.old.place + length run.now < 2 ^ 64 }
        ensures kept { IsSeeker self.new }
        ensures pattern { self.new.finder ≡ self.old.finder }
        ensures place { result ≡ None → self.new.place ≡ self.old.place }
        ensures ring { result ≡ None → self.new.ring.items ≡ [] }
        ensures sought { (t : Table) (st : Stated) (rope : Option NodeId) (start : ℕ)
            → IsSeeking t st rope start self.old
            → IsPiece t st rope self.old.place run.now
            → self.old.place + length run.now ≤ length (rope_cells t rope)
            → IsSought t st rope start self.new result }
    {
        if let Some(found) = self.make_room() {
            return Some(found);
        }
        if self.ring.is_empty() {
            return None;
        }
        let first = self.place - self.ring.len() as u64;
        let need = self.need();
        self.ring.fill_from_slice(&run[..need - 1]);
        let found = find_in_ring(&self.finder, &mut self.ring);
        self.ring.clear();
        match found {
            Some(k) => Some(first + k as u64),
            None => None,
        }
    }

    /// Takes the next bytes, as many as the pattern has or more, and searches the joint before them and then the bytes.
    fn take_long(&mut self, run: &[u8]) -> Option<u64>
        requires kept { IsSeeker self.old }
        requires long { length self.old.finder ≤ length run.now }
        requires limit { self.old.place + length run.now < 2 ^ 64 }
        ensures kept { IsSeeker self.new }
        ensures pattern { self.new.finder ≡ self.old.finder }
        ensures place { result ≡ None → self.new.place ≡ self.old.place + length run.now }
        ensures sought { (t : Table) (st : Stated) (rope : Option NodeId) (start : ℕ)
            → IsSeeking t st rope start self.old
            → IsPiece t st rope self.old.place run.now
            → self.old.place + length run.now ≤ length (rope_cells t rope)
            → IsSought t st rope start self.new result }
    {
        if let Some(found) = self.search_joint(run) {
            return Some(found);
        }
        let first = self.place;
        if let Some(k) = self.finder.find(run) {
            return Some(first + k as u64);
        }
        let tail = run.len() - (self.need() - 1);
        self.place += tail as u64;
        self.keep(&run[tail..]);
        None
    }

    /// Takes the text's next bytes. The answer is the first place at which the pattern stands, where it ends in them.
    pub fn take(&mut self, run: &[u8]) -> Option<u64>
        requires kept { IsSeeker self.old }
        requires limit { self.old.place + length run.now < 2 ^ 64 }
        ensures kept { IsSeeker self.new }
        ensures pattern { self.new.finder ≡ self.old.finder }
        ensures place { result ≡ None → self.new.place ≡ self.old.place + length run.now }
        ensures sought { (t : Table) (st : Stated) (rope : Option NodeId) (start : ℕ)
            → IsSeeking t st rope start self.old
            → IsPiece t st rope self.old.place run.now
            → self.old.place + length run.now ≤ length (rope_cells t rope)
            → IsSought t st rope start self.new result }
    {
        if run.len() < self.need() {
            self.take_short(run)
        } else {
            self.take_long(run)
        }
    }

    /// Goes on from a later place, up to which the pattern is known to stand nowhere.
    pub fn go_on(&mut self, place: u64)
        requires kept { IsSeeker self.old }
        ensures kept { IsSeeker self.new }
        ensures pattern { self.new.finder ≡ self.old.finder }
        ensures place { self.new.place ≡ place }
        ensures ring { self.new.ring.items ≡ [] }
    {
        self.ring.clear();
        self.place = place;
    }

    /// Goes on near the end of a leaf of `len` bytes from place `first` on, where the leaf repeats after `period` bytes
    /// and the pattern stands at none of so many of its places. Answers how many of the leaf's bytes are passed.
    pub fn skip_repeats(&mut self, first: u64, len: u64, period: Option<u64>) -> u64
        requires kept { IsSeeker self.old }
        requires inside { (first ≤ self.old.place) × (self.old.place ≤ first + len) }
        requires limit { first + len < 2 ^ 64 }
        ensures kept { IsSeeker self.new }
        ensures pattern { self.new.finder ≡ self.old.finder }
        ensures place { (self.old.place ≤ self.new.place) × (self.new.place ≤ first + len) }
        ensures done { first + result ≡ self.new.place }
        ensures sought { (t : Table) (st : Stated) (rope : Option NodeId) (start : ℕ) → start ≤ first
            → first + len ≤ length (rope_cells t rope)
            → IfSome period (RepeatsFrom t rope first len)
            → IsSeeking t st rope start self.old
            → IsSeeking t st rope start self.new }
    {
        let need = self.need() as u64;
        let clear = (self.place - self.ring.len() as u64).saturating_sub(first);
        let last = len.saturating_sub(need - 1);
        if let Some(p) = period {
            if p <= clear && self.place - first < last {
                self.go_on(first + last);
            }
        }
        self.place - first
    }
}
