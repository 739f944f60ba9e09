//! What a crash leaves of a journal, and what is found in it.

ghost use Rattle.std.specs.Prelude.{◌≡◌, ◌≢◌, ℕ, List, ◌++◌, take, MatchOption, IsTrue};
ghost use Rattle.line_server.specs.Batches.{Serves};
ghost use Rattle.line_server.specs.Journals.{IsTornFront, KeepsLines, LeavesJournal};

use crate::cutting::split_whole;
use crate::taking::TakesLines;

/// What stands in a text behind its front, where it begins with that.
fn behind<'a>(front: &[u8], text: &'a [u8]) -> Option<&'a [u8]>
    ensures { MatchOption result ((rest : List ℕ) → text.entry.now ≢ front.now ++ rest)
        (λ rest. text.entry.now ≡ front.now ++ rest.now) }
{
    text.strip_prefix(front)
}

/// The lines that a journal of this front keeps, where it is one. What a write that was cut short left behind them is
/// no line.
pub fn kept_lines<'a>(front: &[u8], text: &'a [u8]) -> Option<&'a [u8]>
    ensures { MatchOption result ((rest : List ℕ) → text.entry.now ≢ front.now ++ rest)
        (λ lines. KeepsLines front.now text.entry.now lines.now) }
{
    match behind(front, text) {
        Some(left) => Some(split_whole(left).0),
        None => None,
    }
}

/// Whether a text is a part of a front, and not all of it: there was a crash before the first line.
#[tactic(auto, using(crate::proofs::Journals::torn_only, crate::proofs::Journals::torn_begins))]
pub fn is_torn(front: &[u8], text: &[u8]) -> bool
    ensures torn { IsTrue result → IsTornFront front.now text.now }
    ensures only { IsTornFront front.now text.now → IsTrue result }
{
    match behind(text, front) {
        Some([_, ..]) => true,
        Some([]) | None => false,
    }
}

/// Each beginning of a journal is a part of its front; or the front, and what a run kept of its first lines, and a part
/// of a line.
pub fn leaves_a_journal<T: TakesLines>()
    ensures { (old new : T) (lines : List (List ℕ)) (kept told front : List ℕ) (n : ℕ)
        → Serves T.step old lines kept told new → LeavesJournal T.step old lines front (take n (front ++ kept)) }
{}
