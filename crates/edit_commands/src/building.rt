//! Roots built from earlier ones, from left to right.

// The lines `let _count = store.count();` and `let _more = ..` are
// for the proof: the store keeps its rules, as its count says.

ghost use Rattle.std.specs.Prelude.{◌≡◌, ◌+◌, ◌<◌, ◌≤◌, [], ◌∷◌, ◌++◌, length, take, get_or, None};
ghost use Rattle.function_leaf.specs.Coded.{coded_byte};
ghost use Rattle.rope_node.specs.Denotes.{rope_len, IsRope};
ghost use Rattle.node_table.specs.Held.{table_of};
ghost use Rattle.command_parts.specs.Parts.{AreRopes};
ghost use Rattle.edit_commands.specs.Building.{BuildsCommand};
ghost use Rattle.edit_commands.specs.Refusals.{refusal_of, TakesAll};
ghost use Rattle.edit_commands.specs.Session.{roots_of};
ghost use Rattle.edit_commands.specs.Terms.{front_term, rest_term, term_of, command_terms, so_far, handed, times_handed, with_place, Handed, Taken, IsThere, IsTerm, AreTerms, IsCommandInRange, MakesPiece, PutsPiece, PutsTerm, JoinsTerms, FillsBytes};

use crate::command::{Command, Hands};
use crate::revision::Revision;
use crate::term::{NextTerm, Piece, Terms};
use function_leaf::Coded;
use rebalance::{BalanceFault, append_any, balance, cat_any, substr_any};
use rope_node::{NodeSpace, Rope};
use rope_store::Store;

/// The root of revision `r`.
fn root_at(revisions: &[Revision], r: u32) -> Rope
    requires { r < length revisions.now }
    ensures { result ≡ get_or (roots_of revisions.now) r None }
{
    revisions[r as usize].root
}

/// At most `n` bytes of a rope from place `i` on.
fn span<'a>(rope: Rope, i: u64, n: u64) -> NextTerm<'a>
    ensures { term_of result ≡ Taken (Piece.Span rope i n) }
{
    let piece = Piece::Span { rope, i, n };
    NextTerm::Taken { piece }
}

/// A rope up to place `p`.
fn front<'a>(rope: Rope, p: u64) -> NextTerm<'a>
    ensures { term_of result ≡ front_term rope p }
{
    span(rope, 0, p)
}

/// A rope from the end of its `m` bytes at place `p` on.
fn rest<'a>(store: &Store<Coded>, rope: Rope, p: u64, m: u64) -> NextTerm<'a>
    requires there { IsRope (table_of coded_byte store.now) rope }
    requires inside { p + m ≤ rope_len (table_of coded_byte store.now) rope }
    ensures { term_of result ≡ rest_term (table_of coded_byte store.now) rope (p + m) }
{
    let len = store.len(rope);
    span(rope, p + m, len - (p + m))
}

/// A whole root.
fn whole<'a>(rope: Rope) -> NextTerm<'a>
    ensures { term_of result ≡ Taken (Piece.Whole rope) }
{
    let piece = Piece::Whole { rope };
    NextTerm::Taken { piece }
}

/// Bytes `c`.
fn chars<'a>(c: u8, n: u64) -> NextTerm<'a>
    ensures exact { term_of result ≡ Taken (Piece.Chars c n) }
    ensures byte { c ≤ 255 }
{
    let piece = Piece::Chars { c, n };
    NextTerm::Taken { piece }
}

/// Bytes that are handed in.
fn handed_in(bytes: &[u8]) -> NextTerm<'_>
    ensures { term_of result ≡ Handed bytes.now }
{
    NextTerm::Handed { bytes }
}

/// One term.
fn alone<'a>(piece: Piece) -> Terms<'a>
    ensures { result ≡ Taken piece ∷ [] }
{
    Terms::few(Some(NextTerm::Taken { piece }), None, None)
}

/// Two terms.
fn both<'a>(first: NextTerm<'a>, second: NextTerm<'a>) -> Terms<'a>
    ensures { result ≡ term_of first.entry ∷ term_of second.entry ∷ [] }
{
    Terms::few(Some(first), Some(second), None)
}

/// A rope whose `m` bytes at place `p` give way to `middle`.
fn around<'a>(store: &Store<Coded>, rope: Rope, p: u64, m: u64, middle: NextTerm<'a>) -> Terms<'a>
    requires there { IsRope (table_of coded_byte store.now) rope }
    requires inside { p + m ≤ rope_len (table_of coded_byte store.now) rope }
    ensures { result
        ≡ front_term rope p ∷ term_of middle.entry ∷ rest_term (table_of coded_byte store.now) rope (p + m) ∷ [] }
{
    let behind = rest(store, rope, p, m);
    Terms::few(Some(front(rope, p)), Some(middle), Some(behind))
}

/// The terms of a command in range in their order.
fn terms_of<'a>(store: &Store<Coded>, revisions: &[Revision], command: &Command<'a>) -> Terms<'a>
    requires ropes { AreRopes (table_of coded_byte store.now) (roots_of revisions.now) }
    requires in_range { IsCommandInRange (table_of coded_byte store.now) (roots_of revisions.now) command.now }
    ensures exact { result ≡ command_terms (table_of coded_byte store.now) (roots_of revisions.now) command.now }
    ensures bytes { FillsBytes command.now }
{
    match *command {
        Command::New => Terms::few(None, None, None),
        Command::Open { s } => alone(Piece::Source { s }),
        Command::Insert { r, p, bytes } => {
            around(store, root_at(revisions, r), p, 0, handed_in(bytes))
        }
        Command::Delete { r, p, n } => {
            let rope = root_at(revisions, r);
            both(front(rope, p), rest(store, rope, p, n))
        }
        Command::Replace { r, p, m, bytes } => {
            around(store, root_at(revisions, r), p, m, handed_in(bytes))
        }
        Command::Paste { r, p, q, i, n } => {
            let pasted = span(root_at(revisions, q), i, n);
            around(store, root_at(revisions, r), p, 0, pasted)
        }
        Command::Join { r, q } => both(whole(root_at(revisions, r)), whole(root_at(revisions, q))),
        Command::Cut { r, i, n } => {
            let rope = root_at(revisions, r);
            alone(Piece::Span { rope, i, n })
        }
        Command::Fill { r, p, c, n } => around(store, root_at(revisions, r), p, 0, chars(c, n)),
        Command::Back { r } => {
            let rope = root_at(revisions, r);
            alone(Piece::Whole { rope })
        }
        Command::Balance { r } => {
            let rope = root_at(revisions, r);
            alone(Piece::Balanced { rope })
        }
        Command::Many { r, changes, bytes } => {
            let rope = root_at(revisions, r);
            let len = store.len(rope);
            Terms::changed(rope, len, changes, bytes)
        }
    }
}

/// The rope of a piece, made on the table as it is.
fn taken(store: &mut Store<Coded>, piece: Piece) -> Result<Rope, BalanceFault>
    requires { IsThere (table_of coded_byte store.old) piece }
    ensures { MakesPiece store.old piece result store.new }
{
    match piece {
        Piece::Whole { rope } => Ok(rope),
        Piece::Span { rope, i, n } => substr_any(store, rope, i, n),
        Piece::Balanced { rope } => balance(store, rope),
        Piece::Source { s } => {
            let len = store.source_len(s);
            let rope = store.from_source(s, 0, len)?;
            Ok(rope)
        }
        Piece::Chars { c, n } => {
            let rope = store.chars(c, n)?;
            Ok(rope)
        }
    }
}

/// A piece put behind what is built.
fn put_piece(
    store: &mut Store<Coded>,
    built: Option<Rope>,
    piece: Piece,
) -> Result<Rope, BalanceFault>
    requires built { IsRope (table_of coded_byte store.old) (so_far built) }
    requires piece { IsThere (table_of coded_byte store.old) piece }
    ensures { PutsPiece store.old built piece result store.new }
{
    let made = taken(store, piece);
    let _count = store.count();
    let rope = made?;
    match built {
        None => Ok(rope),
        Some(text) => cat_any(store, text, rope),
    }
}

/// A term put behind what is built, and the place in the pool of the bytes that it hands in, where it does.
fn put(
    store: &mut Store<Coded>,
    built: Option<Rope>,
    term: NextTerm<'_>,
) -> Result<(Rope, Option<u64>), BalanceFault>
    requires built { IsRope (table_of coded_byte store.old) (so_far built) }
    requires term { IsTerm (table_of coded_byte store.old) (term_of term) }
    ensures { PutsTerm store.old built (term_of term.entry) result store.new }
{
    match term {
        NextTerm::Taken { piece } => {
            let rope = put_piece(store, built, piece)?;
            Ok((rope, None))
        }
        NextTerm::Handed { bytes } => {
            let (rope, place) = append_any(store, rope_of(built), bytes)?;
            Ok((rope, Some(place)))
        }
    }
}

/// What is built, as a rope.
fn rope_of(built: Option<Rope>) -> Rope
    ensures { result ≡ so_far built }
{
    match built {
        None => None,
        Some(rope) => rope,
    }
}

/// Writes a place behind the first `count` of them, where there is one, and answers how many there are then.
fn note(places: &mut [u64], count: usize, place: Option<u64>) -> usize
    requires { count + length (with_place place []) ≤ length places.old }
    ensures value { result ≡ count + length (with_place place []) }
    ensures places { take result places.new ≡ take count places.old ++ with_place place [] }
    ensures many { length places.new ≡ length places.old }
{
    match place {
        None => count,
        Some(place) => {
            places[count] = place;
            count + 1
        }
    }
}

/// The rope of the terms, one behind the other. The places of the bytes that they hand in are written down in their
/// order.
fn join(
    store: &mut Store<Coded>,
    terms: Terms<'_>,
    places: &mut [u64],
) -> Result<Rope, BalanceFault>
    requires terms { AreTerms (table_of coded_byte store.old) terms }
    requires room { length places.old ≡ length (handed terms) }
    ensures { JoinsTerms store.old terms.entry result places.new store.new }
{
    let mut left = terms;
    let mut built = None;
    let mut count = 0;
    while let Some(term) = left.next() {
        let (rope, place) = put(store, built, term)?;
        let _count = store.count();
        count = note(places, count, place);
        built = Some(rope);
    }
    Ok(rope_of(built))
}

/// How many times a command hands in bytes.
pub fn times_handed(command: &Command<'_>) -> usize
    ensures { result ≡ times_handed command.now }
{
    match command.hands() {
        Hands::Nothing => 0,
        Hands::Text(_) => 1,
        Hands::Changes(changes) => changes.len(),
    }
}

/// The root that a command in range gives over the roots of these revisions.
/// The places of the bytes that it hands in are written down in their order.
pub fn build(
    store: &mut Store<Coded>,
    revisions: &[Revision],
    command: &Command<'_>,
    places: &mut [u64],
) -> Result<Rope, BalanceFault>
    requires ropes { AreRopes (table_of coded_byte store.old) (roots_of revisions.now) }
    requires accepted { refusal_of (record { held = store.old; revisions = revisions.now }) command.now ≡ None }
    requires takes { TakesAll command.now }
    requires room { length places.old ≡ times_handed command.now }
    ensures { BuildsCommand store.old revisions.now command.now result places.new store.new }
{
    let _count = store.count();
    let terms = terms_of(store, revisions, command);
    let root = join(store, terms, places)?;
    let _more = store.count();
    Ok(root)
}
