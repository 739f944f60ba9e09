//! The long lines that are known, behind a key.

ghost use Rattle.screen_editor.specs.declared.key.Key.TheVariants as Keys;
ghost use Rattle.std.specs.Prelude.{◌<◌, ◌≤◌, ◌+◌, [], ℕ, List, length, IfSome};
ghost use Rattle.lazy_file.specs.SourceTexts.{Stated};
ghost use Rattle.command_parts.specs.Commands.{replaced};
ghost use Rattle.text_lines.specs.KnownLines.{IsKnownIn, known_lines};
ghost use Rattle.text_lines.specs.StatedCells.{AreToldByOthers};
ghost use Rattle.screen_editor.specs.Editing.{current_cell, current_len};
ghost use Rattle.screen_editor.specs.KnownTexts.{IsKnownText, IsMaker, LinesBehind, LinesStay, PlainBehind, StaysKnown, TakesSpan};

use crate::cut_span::CutSpan;
use crate::key::Key;
use crate::workspace::Workspace;
use command_parts::Edit;
use std::alloc::Global;
use text_lines::{KnownLines, are_told_by_others};

/// What is known of the current text.
#[derive(Clone, Copy, Debug)]
pub struct KnownText {
    /// Long lines of it that were shown.
    pub lines: KnownLines,
    /// No deletion that made a revision from this one on took out a line break.
    pub plain_from: u32,
}

impl KnownText {
    /// Nothing is known of a text, and of how it was made.
    pub fn none(workspace: &Workspace) -> KnownText
        ensures { (st : Stated) → IsKnownText st workspace.now result }
    {
        KnownText {
            lines: KnownLines::none(),
            plain_from: workspace.last().saturating_add(1),
        }
    }
}

/// The lines that stay known after `count` bytes of the current text are taken out at a place.
fn known_without(
    alloc: Global,
    workspace: &Workspace,
    known: &KnownLines,
    place: u64,
    count: u64,
) -> KnownLines
    requires inside { place + count ≤ current_len workspace.now }
    ensures lines { (t : List ℕ) → place + count ≤ length t → IsKnownIn known.now t
        → IsKnownIn result (replaced t place count []) }
    ensures told { 0 < length (known_lines result)
        → AreToldByOthers (current_cell workspace.now) (current_len workspace.now) place count }
{
    if count == 0 || known.is_empty() {
        return KnownLines::none();
    }
    let space = workspace.session().space();
    if are_told_by_others(alloc, space, workspace.root(), place, count) {
        known.cut(place, count)
    } else {
        KnownLines::none()
    }
}

/// The lines that stay known after a cut: all, where there is nothing to cut.
fn known_cut(alloc: Global, workspace: &Workspace, known: &KnownLines) -> KnownLines
    ensures { LinesStay Keys.Cut workspace.now known.now result }
{
    // The workspace keeps its rules, as its last revision says.
    let _last = workspace.last();
    let place = workspace.place();
    let Some(mark) = workspace.mark() else {
        return *known;
    };
    if mark == place {
        return *known;
    }
    let start = mark.min(place);
    let count = mark.max(place) - start;
    known_without(alloc, workspace, known, start, count)
}

/// The lines that stay known after the latest cut span is put in at the place.
fn known_pasted(workspace: &Workspace, known: &KnownLines) -> KnownLines
    ensures { LinesStay Keys.Paste workspace.now known.now result }
{
    // The workspace keeps its rules, as its last revision says.
    let _last = workspace.last();
    let place = workspace.place();
    match workspace.latest_cut() {
        Some(span) => known.pasted(place, span.len),
        None => *known,
    }
}

/// The most revisions one behind the other, each of which only goes back to the next, that are passed over.
const MOST_BACKS: u32 = 64;

/// A revision and its command.
#[derive(Clone, Copy, Debug)]
struct Made {
    revision: u32,
    edit: Edit,
}

/// The command that made the current text, where it is not behind too many that only go back to it.
fn maker(workspace: &Workspace) -> Option<Made>
    ensures { IfSome result (λ m. IsMaker workspace.now m.revision m.edit) }
{
    let session = workspace.session();
    let mut k = workspace.last();
    let mut passed = 0;
    while let Some(Edit::Back { r }) = session.edit(k) {
        if passed >= MOST_BACKS {
            return None;
        }
        passed += 1;
        k = r;
    }
    let edit = session.edit(k)?;
    Some(Made { revision: k, edit })
}

/// The lines that stay known after the command that made the text is taken back: the bytes that it put in go out, or as
/// many as it took out come back, of which none is a line break, where that is known.
fn known_undone(alloc: Global, workspace: &Workspace, known: &KnownText) -> KnownLines
    ensures { LinesBehind Keys.Undo workspace.now known.now result }
{
    // The workspace keeps its rules, as its last revision says.
    let _last = workspace.last();
    let lines = &known.lines;
    if lines.is_empty() {
        return KnownLines::none();
    }
    let Some(made) = maker(workspace) else {
        return KnownLines::none();
    };
    match made.edit {
        Edit::Insert { p, n, .. } | Edit::Paste { p, n, .. } => {
            known_without(alloc, workspace, lines, p, n)
        }
        Edit::Delete { p, n, .. } => {
            if made.revision < known.plain_from {
                return lines.pasted(p, n);
            }
            lines.widened(p, n)
        }
        Edit::Balance { .. } => *lines,
        Edit::New
        | Edit::Open { .. }
        | Edit::Replace { .. }
        | Edit::Join { .. }
        | Edit::Cut { .. }
        | Edit::Fill { .. }
        | Edit::Back { .. }
        | Edit::Many { .. } => KnownLines::none(),
    }
}

/// The lines that stay known after a key is taken, of those that are known before it.
fn lines_after(alloc: Global, workspace: &Workspace, known: &KnownText, key: Key) -> KnownLines
    ensures { LinesBehind key workspace.now known.now result }
{
    // The workspace keeps its rules, as its last revision says.
    let _last = workspace.last();
    let lines = &known.lines;
    let place = workspace.place();
    match key {
        Key::Typed(byte) => lines.typed(place, byte),
        Key::EraseBefore => {
            if place == 0 {
                return *lines;
            }
            known_without(alloc, workspace, lines, place - 1, 1)
        }
        Key::EraseAt => {
            if place >= workspace.len() {
                return *lines;
            }
            known_without(alloc, workspace, lines, place, 1)
        }
        Key::Cut => known_cut(alloc, workspace, lines),
        Key::Paste => known_pasted(workspace, lines),
        Key::Undo => known_undone(alloc, workspace, known),
        _ => *lines,
    }
}

/// What a key takes out of the current text.
fn taken_out(workspace: &Workspace, key: Key) -> Option<CutSpan>
    ensures { TakesSpan key workspace.now result }
{
    let (revision, place) = (workspace.last(), workspace.place());
    let len = 1;
    match key {
        Key::EraseBefore => {
            if place == 0 {
                return None;
            }
            let start = place - 1;
            Some(CutSpan {
                revision,
                start,
                len,
            })
        }
        Key::EraseAt => {
            if place >= workspace.len() {
                return None;
            }
            let start = place;
            Some(CutSpan {
                revision,
                start,
                len,
            })
        }
        Key::Cut => {
            let mark = workspace.mark()?;
            if mark == place {
                return None;
            }
            let start = mark.min(place);
            let len = mark.max(place) - start;
            Some(CutSpan {
                revision,
                start,
                len,
            })
        }
        _ => None,
    }
}

/// From which revision on no deletion took out a line break, after a key is taken: a deletion in a line that is known
/// takes out none.
fn plain_after(workspace: &Workspace, known: &KnownText, key: Key) -> u32
    ensures { PlainBehind key workspace.now known.now result }
{
    // The workspace keeps its rules, as its last revision says.
    let last = workspace.last();
    let Some(out) = taken_out(workspace, key) else {
        return known.plain_from;
    };
    if known.lines.about(out.start, out.len).is_some() {
        return known.plain_from;
    }
    // The revision behind the one that the key makes.
    known.plain_from.max(last.saturating_add(2))
}

/// What is known after a key is taken, of what is known before it.
pub fn known_after(alloc: Global, workspace: &Workspace, known: &KnownText, key: Key) -> KnownText
    ensures { StaysKnown key workspace.now known.now result }
{
    KnownText {
        lines: lines_after(alloc, workspace, known, key),
        plain_from: plain_after(workspace, known, key),
    }
}
