//! The lines of a text whose borders are known, so that none of them is searched through again.

ghost use Rattle.std.specs.Prelude.{◌≡◌, ◌↔◌, ◌<◌, ◌≤◌, ◌+◌, ◌-◌, ◌^◌, ◌++◌, ◌∷◌, [], ℕ, List, All, length, IfSome, IsSome, IsTrue};
ghost use Rattle.std.specs.List.{AllZip};
ghost use Rattle.cord_search.specs.declared.runs.TheConstants.{PIECE};
ghost use Rattle.command_parts.specs.Commands.{replaced};
ghost use Rattle.text_lines.specs.declared.known.KnownLine.{KnownLine};
ghost use Rattle.text_lines.specs.declared.known_lines.TheConstants.{MOST_LINES};
ghost use Rattle.text_lines.specs.KnownLines.{ChangesLines, HoldsLine, HoldsPart, IsCut, IsKnownIn, IsPasted, IsTyped, IsWidened, StaysPasted, StaysCut, known_lines, learnt};
ghost use Rattle.text_lines.specs.Lines.{HasBreak};

use crate::known::KnownLine;

/// The most lines that are known: those of a screen, and one beside them.
const MOST_LINES: usize = 24;

/// Lines of a text that are known: first the long one that was shown last, then very long ones that were shown before.
#[derive(Clone, Copy, Debug)]
pub struct KnownLines {
    lines: [KnownLine; MOST_LINES],
    count: usize,
}

/// The first of these lines that is longer than what is searched through at once, and has `count` bytes from a place on,
/// or none and the place lies in it or is its end.
fn line_about(lines: &[KnownLine], place: u64, count: u64) -> Option<KnownLine>
    ensures holds { IfSome result (HoldsLine lines.now place count) }
    ensures all { (line : KnownLine) → HoldsLine lines.now place count line → IsSome result }
{
    for line in lines {
        if line.is_about(place, count) {
            return Some(*line);
        }
    }
    None
}

impl KnownLines {
    /// No line is known.
    pub fn none() -> KnownLines
        ensures { known_lines result ≡ [] }
    {
        KnownLines {
            lines: [KnownLine { start: 0, end: 0 }; MOST_LINES],
            count: 0,
        }
    }

    /// Whether no line is known.
    pub fn is_empty(&self) -> bool
        ensures { IsTrue result ↔ (length (known_lines self.now) ≡ 0) }
    {
        self.lines().is_empty()
    }

    /// The lines that are known.
    fn lines(&self) -> &[KnownLine]
        ensures lines { result.now ≡ known_lines self.now }
        ensures room { length (known_lines self.now) ≤ MOST_LINES }
    {
        &self.lines[..self.count.min(MOST_LINES)]
    }

    /// Whether one line more can be known.
    fn has_room(&self) -> bool
        ensures { IsTrue result ↔ (length (known_lines self.now) < MOST_LINES) }
    {
        self.lines().len() < MOST_LINES
    }

    /// Puts a line behind the others.
    fn push(&mut self, line: KnownLine)
        requires { length (known_lines self.old) < MOST_LINES }
        ensures { known_lines self.new ≡ known_lines self.old ++ line ∷ [] }
    {
        self.lines[self.count] = line;
        self.count += 1;
    }

    /// A line that is known, is longer than what is searched through at once, and has `count` bytes from a place on, or
    /// none and the place in it or as its end.
    pub fn about(&self, place: u64, count: u64) -> Option<KnownLine>
        ensures holds { IfSome result (HoldsPart self.now place count) }
        ensures all { (line : KnownLine) → HoldsPart self.now place count line → IsSome result }
    {
        line_about(self.lines(), place, count)
    }

    /// A line was shown: it is known from now on if it is longer than what is searched through at once. Of the others
    /// those that are very long stay, as far as there is room.
    pub(crate) fn learn(&mut self, line: KnownLine)
        ensures long { PIECE < line.end - line.start
            → known_lines self.new ≡ learnt line (known_lines self.old) }
        ensures short { line.end - line.start ≤ PIECE → self.new ≡ self.old }
    {
        if !line.is_long() {
            return;
        }
        let mut later = KnownLines::none();
        later.push(line);
        for other in self.lines() {
            if other.stays_beside(line) && later.has_room() {
                later.push(*other);
            }
        }
        *self = later;
    }

    /// The lines behind a change of the text: what the change makes of each, where it stays known.
    fn changed<F: Fn(KnownLine) -> Option<KnownLine>>(&self, change: F) -> KnownLines
        requires { F.IsAlwaysCallable change }
        ensures { ChangesLines (F.post change) (known_lines self.now) (known_lines result) }
    {
        let mut later = KnownLines::none();
        for line in self.lines() {
            if let Some(line) = change(*line) {
                later.push(line);
            }
        }
        later
    }

    /// The lines after a byte is put in at a place. A line break parts the line that it is put into: the longer part
    /// stays known.
    pub fn typed(&self, place: u64, byte: u8) -> KnownLines
        ensures lines { (t : List ℕ) → place ≤ length t → IsKnownIn self.now t
            → IsKnownIn result (replaced t place 0 (byte ∷ [])) }
        ensures kept { All (λ line. (line.start ≤ line.end) × (line.end + 1 < 2 ^ 64)) (known_lines self.now)
            → AllZip (IsTyped place byte) (known_lines self.now) (known_lines result) }
    {
        self.changed(|line| line.typed(place, byte))
    }

    /// The lines after `count` bytes are taken out at a place. A line is forgotten where the break before it or behind
    /// it is one of them.
    pub fn cut(&self, place: u64, count: u64) -> KnownLines
        ensures lines { (t : List ℕ) → place + count ≤ length t → IsKnownIn self.now t
            → IsKnownIn result (replaced t place count []) }
        ensures kept { All (StaysCut place count) (known_lines self.now)
            → AllZip (IsCut place count) (known_lines self.now) (known_lines result) }
    {
        self.changed(|line| line.cut(place, count))
    }

    /// The lines after `put` bytes are put in at a place, whatever they are. The line that they are put into is
    /// forgotten.
    pub fn pasted(&self, place: u64, put: u64) -> KnownLines
        ensures lines { (t bytes : List ℕ) → place ≤ length t → length bytes ≡ put → IsKnownIn self.now t
            → IsKnownIn result (replaced t place 0 bytes) }
        ensures kept { All (StaysPasted place put) (known_lines self.now)
            → AllZip (IsPasted place put) (known_lines self.now) (known_lines result) }
    {
        self.changed(|line| line.pasted(place, put))
    }

    /// The lines after `put` bytes are put in at a place, of which none is a line break.
    pub fn widened(&self, place: u64, put: u64) -> KnownLines
        ensures lines { (t bytes : List ℕ) → place ≤ length t → length bytes ≡ put → ¬ HasBreak bytes
            → IsKnownIn self.now t → IsKnownIn result (replaced t place 0 bytes) }
        ensures kept { All (λ line. (line.start ≤ line.end) × (line.end + put < 2 ^ 64)) (known_lines self.now)
            → AllZip (IsWidened place put) (known_lines self.now) (known_lines result) }
    {
        self.changed(|line| line.widened(place, put))
    }
}
