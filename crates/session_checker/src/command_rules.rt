//! The range of commands, tested by the recorded lengths of the roots before them.

ghost use Rattle.std.specs.Prelude.{◌≡◌, ◌+◌, ◌-◌, ◌^◌, ◌<◌, ◌≤◌, ◌↔◌, length, take, drop, IsTrue};
ghost use Rattle.rope_node.specs.declared.limits.TheConstants.{TEXT_LIMIT};
ghost use Rattle.command_parts.specs.Commands.{full_edit, Many, NamesSplices};
ghost use Rattle.command_parts.specs.Parts.{AreRopes, IsInRange, len_of, parts_len, parts_of};

use crate::node_rules::is_inside;
use crate::splice_rules::{bytes_spliced, can_splice};
use command_parts::{Edit, Roots, Splices};
use rope_node::{CodedSpace, TEXT_LIMIT};
use span_certificate::Looks;
use std::sync::ledger::Ledger;

/// Whether text `r` is there.
fn is_there<R: Roots>(roots: &R, r: u32) -> bool
    ensures { IsTrue result ↔ (r < length (R.roots roots.now)) }
{
    (r as usize) < roots.count()
}

/// Whether text `r` is there, with `n` bytes from `i` on.
fn has_span<S: CodedSpace, R: Roots, L: Ledger>(
    looks: &Looks<'_, '_, S, L>,
    roots: &R,
    r: u32,
    i: u64,
    n: u64,
) -> bool
    requires { AreRopes (S.NodeSpace.table looks.now.space.now) (R.roots roots.now) }
    ensures { IsTrue result ↔ ((r < length (R.roots roots.now))
        × (i + n ≤ len_of (S.NodeSpace.table looks.now.space.now) (R.roots roots.now) r)) }
{
    is_there(roots, r) && is_inside(i, n, looks.rope_len(roots.root(r)))
}

/// Whether text `r` is there with `m` bytes from `p` on, and is not too long with `n` bytes in their place.
fn takes<S: CodedSpace, R: Roots, L: Ledger>(
    looks: &Looks<'_, '_, S, L>,
    roots: &R,
    r: u32,
    p: u64,
    m: u64,
    n: u64,
) -> bool
    requires { AreRopes (S.NodeSpace.table looks.now.space.now) (R.roots roots.now) }
    ensures { IsTrue result ↔ ((r < length (R.roots roots.now))
        × (p + m ≤ len_of (S.NodeSpace.table looks.now.space.now) (R.roots roots.now) r)
        × (len_of (S.NodeSpace.table looks.now.space.now) (R.roots roots.now) r + n < TEXT_LIMIT + m)) }
{
    if !is_there(roots, r) {
        return false;
    }
    let len = looks.rope_len(roots.root(r));
    is_inside(p, m, len) && n < TEXT_LIMIT && len - m + n < TEXT_LIMIT
}

/// Whether texts `r` and `q` are there, and are not too long together.
fn joins<S: CodedSpace, R: Roots, L: Ledger>(
    looks: &Looks<'_, '_, S, L>,
    roots: &R,
    r: u32,
    q: u32,
) -> bool
    requires { AreRopes (S.NodeSpace.table looks.now.space.now) (R.roots roots.now) }
    ensures { IsTrue result ↔ ((r < length (R.roots roots.now)) × (q < length (R.roots roots.now))
        × (len_of (S.NodeSpace.table looks.now.space.now) (R.roots roots.now) r
        + len_of (S.NodeSpace.table looks.now.space.now) (R.roots roots.now) q < TEXT_LIMIT)) }
{
    if !is_there(roots, r) || !is_there(roots, q) {
        return false;
    }
    looks.rope_len(roots.root(r)) + looks.rope_len(roots.root(q)) < TEXT_LIMIT
}

/// Whether there is at least one byte, and the pool has `n` bytes from `a` on.
fn has_bytes<S: CodedSpace, L: Ledger>(looks: &Looks<'_, '_, S, L>, a: u64, n: u64) -> bool
    ensures { IsTrue result ↔ ((1 ≤ n) × (a + n ≤ length (S.NodeSpace.table looks.now.space.now).pool)) }
{
    n >= 1 && is_inside(a, n, looks.pool_len())
}

/// Whether a text of this length may lose so many bytes, and is not too long with so many others.
fn stays_short(len: u64, taken: u64, put: u64) -> bool
    requires { len < TEXT_LIMIT }
    ensures { IsTrue result ↔ ((taken ≤ len) × (put < TEXT_LIMIT) × ((len - taken) + put < TEXT_LIMIT)) }
{
    taken <= len && put < TEXT_LIMIT && len - taken + put < TEXT_LIMIT
}

/// Whether text `r` is there, may have these `count` splices from place `first` on, and is not too long with them.
#[tactic(auto, using(command_parts::proofs::SplicedTexts::are_splices, command_parts::proofs::SplicedTexts::follow_sum, crate::proofs::SpliceSteps::short_so))]
fn takes_splices<S: CodedSpace, R: Roots, P: Splices, L: Ledger>(
    looks: &Looks<'_, '_, S, L>,
    roots: &R,
    splices: &P,
    r: u32,
    first: u32,
    count: u32,
) -> bool
    requires ropes { AreRopes (S.NodeSpace.table looks.now.space.now) (R.roots roots.now) }
    requires there { first + count ≤ length (P.splices splices.now) }
    requires fit { first + count < 2 ^ 32 }
    ensures { IsTrue result ↔ IsInRange (S.NodeSpace.table looks.now.space.now) (R.roots roots.now)
        (Many r (take count (drop first (P.splices splices.now)))) }
{
    if !is_there(roots, r) {
        return false;
    }
    let len = looks.rope_len(roots.root(r));
    if !can_splice(splices, first, count, looks.pool_len(), len) {
        return false;
    }
    let (taken, put) = bytes_spliced(splices, first, count);
    stays_short(len, taken, put)
}

/// Whether a command, which names these splices, is in range over these roots.
pub fn is_in_range<S: CodedSpace, R: Roots, P: Splices, L: Ledger>(
    looks: &Looks<'_, '_, S, L>,
    roots: &R,
    splices: &P,
    edit: Edit,
) -> bool
    requires ropes { AreRopes (S.NodeSpace.table looks.now.space.now) (R.roots roots.now) }
    requires named { NamesSplices (P.splices splices.now) edit }
    ensures { IsTrue result ↔ IsInRange (S.NodeSpace.table looks.now.space.now) (R.roots roots.now)
        (full_edit (P.splices splices.now) edit) }
{
    #[rattlefmt::skip]
    match edit {
        Edit::New => true,
        Edit::Open { s } => s < looks.source_count(),
        Edit::Insert { r, p, a, n } => has_bytes(looks, a, n) && takes(looks, roots, r, p, 0, n),
        Edit::Delete { r, p, n } => has_span(looks, roots, r, p, n),
        Edit::Replace { r, p, m, a, n } => has_bytes(looks, a, n) && takes(looks, roots, r, p, m, n),
        Edit::Paste { r, p, q, i, n } => has_span(looks, roots, q, i, n) && takes(looks, roots, r, p, 0, n),
        Edit::Join { r, q } => joins(looks, roots, r, q),
        Edit::Cut { r, i, n } => has_span(looks, roots, r, i, n),
        Edit::Fill { r, p, c, n } => c <= 255 && takes(looks, roots, r, p, 0, n),
        Edit::Back { r } | Edit::Balance { r } => is_there(roots, r),
        Edit::Many { r, first, count } => takes_splices(looks, roots, splices, r, first, count),
    }
}

/// The length of the text that a command in range gives.
pub fn result_len<S: CodedSpace, R: Roots, P: Splices, L: Ledger>(
    looks: &Looks<'_, '_, S, L>,
    roots: &R,
    splices: &P,
    edit: Edit,
) -> u64
    requires ropes { AreRopes (S.NodeSpace.table looks.now.space.now) (R.roots roots.now) }
    requires named { NamesSplices (P.splices splices.now) edit }
    requires in_range { IsInRange (S.NodeSpace.table looks.now.space.now) (R.roots roots.now)
        (full_edit (P.splices splices.now) edit) }
    ensures { result ≡ parts_len (parts_of (S.NodeSpace.table looks.now.space.now) (R.roots roots.now)
        (full_edit (P.splices splices.now) edit)) }
{
    match edit {
        Edit::New => 0,
        Edit::Open { s } => looks.source_len(s),
        Edit::Insert { r, n, .. } => looks.rope_len(roots.root(r)) + n,
        Edit::Delete { r, n, .. } => looks.rope_len(roots.root(r)) - n,
        Edit::Replace { r, m, n, .. } => looks.rope_len(roots.root(r)) - m + n,
        Edit::Paste { r, n, .. } => looks.rope_len(roots.root(r)) + n,
        Edit::Join { r, q } => looks.rope_len(roots.root(r)) + looks.rope_len(roots.root(q)),
        Edit::Cut { n, .. } => n,
        Edit::Fill { r, n, .. } => looks.rope_len(roots.root(r)) + n,
        Edit::Back { r } | Edit::Balance { r } => looks.rope_len(roots.root(r)),
        Edit::Many { r, first, count } => {
            let (taken, put) = bytes_spliced(splices, first, count);
            looks.rope_len(roots.root(r)) - taken + put
        }
    }
}
