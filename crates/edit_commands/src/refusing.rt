//! The tests of a command before anything changes.

ghost use Rattle.std.specs.Prelude.{◌≡◌, ◌+◌, ◌^◌, ◌<◌, ◌≤◌, ◌||◌, false, not, nat_lt, length, map};
ghost use Rattle.std.specs.List.{list_any, sum_by};
ghost use Rattle.std.specs.Option.{option_map};
ghost use Rattle.function_leaf.specs.Coded.{coded_byte};
ghost use Rattle.leaf_buffer.specs.declared.block.TheConstants.{BLOCK_SIZE};
ghost use Rattle.rope_node.specs.declared.limits.TheConstants.{TEXT_LIMIT};
ghost use Rattle.node_table.specs.Held.{table_of};
ghost use Rattle.command_parts.specs.Commands.{are_apart};
ghost use Rattle.command_parts.specs.Parts.{AreRopes};
ghost use Rattle.edit_commands.specs.Refusals.{names_no_revision, is_wrong_count, names_no_source, is_out_of_range, bytes_of, changes_of, changes_nothing, unplaced, is_empty, is_too_long, result_len, refusal_of};
ghost use Rattle.edit_commands.specs.Session.{roots_of, length_at, splices_held};

use crate::command::{Change, Command, Hands};
use crate::fault::EditFault;
use crate::revision::{EarlierRoots, Revision};
use command_parts::{MOST_REVISIONS, MOST_SPLICES, Roots, SPLICES_LIMIT};
use function_leaf::Coded;
use leaf_buffer::BLOCK_SIZE;
use node_table::NodeFault;
use rope_node::{NodeSpace, TEXT_LIMIT};
use rope_store::Store;

/// Whether a command names a revision that is not there.
fn names_no_revision(store: &Store<Coded>, revisions: &[Revision], command: &Command<'_>) -> bool
    ensures { result ≡ names_no_revision
        (record { held = store.now; revisions = revisions.now }) command.now }
{
    let count = revisions.len();
    match *command {
        Command::New | Command::Open { .. } => false,
        Command::Insert { r, .. }
        | Command::Delete { r, .. }
        | Command::Replace { r, .. }
        | Command::Cut { r, .. }
        | Command::Fill { r, .. }
        | Command::Back { r }
        | Command::Balance { r }
        | Command::Many { r, .. } => r as usize >= count,
        Command::Paste { r, q, .. } | Command::Join { r, q } => {
            r as usize >= count || q as usize >= count
        }
    }
}

/// Whether a command names a source that is not there.
fn names_no_source(store: &Store<Coded>, revisions: &[Revision], command: &Command<'_>) -> bool
    ensures { result ≡ names_no_source
        (record { held = store.now; revisions = revisions.now }) command.now }
{
    match *command {
        Command::Open { s } => s >= store.source_count(),
        Command::New
        | Command::Insert { .. }
        | Command::Delete { .. }
        | Command::Replace { .. }
        | Command::Paste { .. }
        | Command::Join { .. }
        | Command::Cut { .. }
        | Command::Fill { .. }
        | Command::Back { .. }
        | Command::Balance { .. }
        | Command::Many { .. } => false,
    }
}

/// Whether a command of changes hands in none, or more than `MOST_SPLICES`.
fn is_wrong_count(command: &Command<'_>) -> bool
    ensures { result ≡ is_wrong_count command.now }
{
    match command.hands() {
        Hands::Changes(changes) => changes.len() == 0 || changes.len() > MOST_SPLICES as usize,
        Hands::Nothing | Hands::Text(_) => false,
    }
}

/// The length of revision `r`.
fn len_at(store: &Store<Coded>, revisions: &[Revision], r: u32) -> u64
    requires ropes { AreRopes (table_of coded_byte store.now) (roots_of revisions.now) }
    requires there { r < length revisions.now }
    ensures value { result ≡ length_at (record { held = store.now; revisions = revisions.now }) r }
    ensures short { result < TEXT_LIMIT }
{
    store.len(EarlierRoots { revisions }.root(r))
}

/// Whether the end of `n` bytes from place `p` on is past a length.
fn is_past(len: u64, p: u64, n: u64) -> bool
    ensures { result ≡ nat_lt len (p + n) }
{
    p > len || n > len - p
}

/// Whether each change stands at or behind the end of the one before it, and above its place.
fn are_apart(changes: &[Change]) -> bool
    ensures { result ≡ are_apart (map unplaced changes.now) }
{
    for j in 1..changes.len() {
        let (before, here) = (changes[j - 1], changes[j]);
        if before.p >= here.p || is_past(here.p, before.p, before.m) {
            return false;
        }
    }
    true
}

/// Whether a change ends past a text of this length.
fn ends_past(len: u64, changes: &[Change]) -> bool
    ensures { result ≡ list_any (λ c. nat_lt len (c.p + c.m)) changes.now }
{
    changes.iter().any(|c| is_past(len, c.p, c.m))
}

/// Whether a change ends past a text of this length, or the changes are not in order and apart.
fn are_misplaced(len: u64, changes: &[Change]) -> bool
    ensures { result ≡ (list_any (λ c. nat_lt len (c.p + c.m)) changes.now
        || not (are_apart (map unplaced changes.now))) }
{
    ends_past(len, changes) || !are_apart(changes)
}

/// Whether a command names a place or a span that is not inside its text.
fn is_out_of_range(store: &Store<Coded>, revisions: &[Revision], command: &Command<'_>) -> bool
    requires ropes { AreRopes (table_of coded_byte store.now) (roots_of revisions.now) }
    requires there { names_no_revision
        (record { held = store.now; revisions = revisions.now }) command.now ≡ false }
    ensures { result ≡ is_out_of_range
        (record { held = store.now; revisions = revisions.now }) command.now }
{
    match *command {
        Command::New | Command::Open { .. } => false,
        Command::Insert { r, p, .. } | Command::Fill { r, p, .. } => {
            p > len_at(store, revisions, r)
        }
        Command::Delete { r, p, n } | Command::Cut { r, i: p, n } => {
            is_past(len_at(store, revisions, r), p, n)
        }
        Command::Replace { r, p, m, .. } => is_past(len_at(store, revisions, r), p, m),
        Command::Paste { r, p, q, i, n } => {
            p > len_at(store, revisions, r) || is_past(len_at(store, revisions, q), i, n)
        }
        Command::Join { .. } | Command::Back { .. } | Command::Balance { .. } => false,
        Command::Many { r, changes, .. } => are_misplaced(len_at(store, revisions, r), changes),
    }
}

/// How many bytes a command hands in, where it does.
fn handed(command: &Command<'_>) -> Option<usize>
    ensures { result ≡ option_map length (bytes_of command.now) }
{
    match command.hands() {
        Hands::Text(bytes) => Some(bytes.len()),
        Hands::Nothing | Hands::Changes(_) => None,
    }
}

/// The changes that a command hands in.
fn changes_of<'a>(command: &Command<'a>) -> &'a [Change]
    ensures { result.now ≡ changes_of command.now }
{
    match command.hands() {
        Hands::Changes(changes) => changes,
        Hands::Nothing | Hands::Text(_) => &[],
    }
}

/// Whether one of the changes is of nothing.
fn has_empty_change(changes: &[Change]) -> bool
    ensures { result ≡ list_any changes_nothing changes.now }
{
    changes.iter().any(|c| c.m == 0 && c.n == 0)
}

/// Whether one of the changes takes more bytes than a literal holds.
fn has_long_change(changes: &[Change]) -> bool
    ensures { result ≡ list_any (λ c. nat_lt BLOCK_SIZE c.n) changes.now }
{
    changes.iter().any(|c| c.n > BLOCK_SIZE as u64)
}

/// Whether a command hands in no bytes where it has some, or a change of nothing.
fn is_empty(command: &Command<'_>) -> bool
    ensures { result ≡ is_empty command.now }
{
    if handed(command) == Some(0) {
        return true;
    }
    has_empty_change(changes_of(command))
}

/// How many bytes of a text the changes take away.
fn taken_away(changes: &[Change]) -> u64
    requires { sum_by (λ c. c.m) changes.now < 2 ^ 64 }
    ensures { result ≡ sum_by (λ c. c.m) changes.now }
{
    changes.iter().map(|c| c.m).sum()
}

/// How long the text of a command is: what is kept of its first revision, and what is added to that.
fn kept_and_added(store: &Store<Coded>, revisions: &[Revision], command: &Command<'_>) -> (u64, u64)
    requires ropes { AreRopes (table_of coded_byte store.now) (roots_of revisions.now) }
    requires there { names_no_revision
        (record { held = store.now; revisions = revisions.now }) command.now ≡ false }
    requires source { names_no_source
        (record { held = store.now; revisions = revisions.now }) command.now ≡ false }
    requires inside { is_out_of_range
        (record { held = store.now; revisions = revisions.now }) command.now ≡ false }
    ensures sum { result.0 + result.1 ≡ result_len
        (record { held = store.now; revisions = revisions.now }) command.now }
    ensures short { result.0 < TEXT_LIMIT }
{
    #[rattlefmt::skip]
    match *command {
        Command::New => (0, 0),
        Command::Open { s } => (store.source_len(s), 0),
        Command::Insert { r, bytes, .. } => (len_at(store, revisions, r), bytes.len() as u64),
        Command::Delete { r, n, .. } => (len_at(store, revisions, r) - n, 0),
        Command::Replace { r, m, bytes, .. } => (len_at(store, revisions, r) - m, bytes.len() as u64),
        Command::Paste { r, n, .. } | Command::Fill { r, n, .. } => (len_at(store, revisions, r), n),
        Command::Join { r, q } => (len_at(store, revisions, r), len_at(store, revisions, q)),
        Command::Cut { r, n, .. } => {
            // What is cut lies in a text that is short enough, as its length says.
            let _whole = len_at(store, revisions, r);
            (n, 0)
        }
        Command::Back { r } | Command::Balance { r } => (len_at(store, revisions, r), 0),
        Command::Many { r, changes, bytes } => (len_at(store, revisions, r) - taken_away(changes), bytes.len() as u64),
    }
}

/// Whether a command's text, or the bytes that it hands in, are too long.
fn is_too_long(store: &Store<Coded>, revisions: &[Revision], command: &Command<'_>) -> bool
    requires ropes { AreRopes (table_of coded_byte store.now) (roots_of revisions.now) }
    requires there { names_no_revision
        (record { held = store.now; revisions = revisions.now }) command.now ≡ false }
    requires source { names_no_source
        (record { held = store.now; revisions = revisions.now }) command.now ≡ false }
    requires inside { is_out_of_range
        (record { held = store.now; revisions = revisions.now }) command.now ≡ false }
    ensures { result ≡ is_too_long
        (record { held = store.now; revisions = revisions.now }) command.now }
{
    let (kept, added) = kept_and_added(store, revisions, command);
    if added >= TEXT_LIMIT - kept || handed(command).is_some_and(|n| n > BLOCK_SIZE) {
        return true;
    }
    has_long_change(changes_of(command))
}

/// Why a command is refused, where it is: the first reason that there is. The revisions have `splice_count` splices.
pub fn refusal(
    store: &Store<Coded>,
    revisions: &[Revision],
    splice_count: usize,
    command: &Command<'_>,
) -> Option<EditFault>
    requires ropes { AreRopes (table_of coded_byte store.now) (roots_of revisions.now) }
    requires splices { splice_count ≡ splices_held revisions.now }
    requires few { splice_count ≤ SPLICES_LIMIT }
    ensures { result ≡ refusal_of
        (record { held = store.now; revisions = revisions.now }) command.now }
{
    if names_no_revision(store, revisions, command) {
        return Some(EditFault::NoRevision);
    }
    if is_wrong_count(command) {
        return Some(EditFault::SpliceCount);
    }
    if names_no_source(store, revisions, command) {
        return Some(EditFault::NoSource);
    }
    if is_out_of_range(store, revisions, command) {
        return Some(EditFault::Range);
    }
    if is_empty(command) {
        return Some(EditFault::EmptyText);
    }
    if revisions.len() >= MOST_REVISIONS as usize {
        return Some(EditFault::TooManyRevisions);
    }
    if changes_of(command).len() > SPLICES_LIMIT - splice_count {
        return Some(EditFault::TooManySplices);
    }
    if is_too_long(store, revisions, command) {
        return Some(EditFault::Node(NodeFault::TooLong));
    }
    None
}
