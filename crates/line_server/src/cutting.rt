//! Lines that a write which was cut short has left.

ghost use Rattle.std.specs.Prelude.{◌≡◌, ℕ, List, take};
ghost use Rattle.line_server.specs.Batches.{Serves};
ghost use Rattle.line_server.specs.Cuts.{SplitsWhole, LeavesFirst};

use crate::taking::TakesLines;

/// The lines of a text that have ends, and what stands behind the last end.
pub fn split_whole(text: &[u8]) -> (&[u8], &[u8])
    ensures { SplitsWhole text.now result.0.now result.1.now }
{
    let mut count = text.len();
    while count > 0 && text[count - 1] != b'\n' {
        count -= 1;
    }
    text.split_at(count)
}

/// Each beginning of what a run kept is what it kept of its first lines, and a part of a line.
pub fn leaves_the_first<T: TakesLines>()
    ensures { (old new : T) (lines : List (List ℕ)) (kept told : List ℕ) (n : ℕ)
        → Serves T.step old lines kept told new → LeavesFirst T.step old lines (take n kept) }
{}

/// There is one way to cut a text behind its last end of a line.
#[tactic(auto, using(crate::proofs::Cuts::one_cut))]
pub fn one_cut()
    ensures { (text a b x y : List ℕ) → SplitsWhole text a x → SplitsWhole text b y → a ≡ b }
{}
