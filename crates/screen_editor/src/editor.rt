//! The editor: a workspace over the sources that its text may lie in.

ghost use Rattle.std.specs.Prelude.{◌≡◌, ◌↔◌, IfOk, IfErr, IsErrOf, IsTrue, OnErr};
ghost use Rattle.std.specs.Option.{option_map};
ghost use Rattle.cord_position.specs.Fetched.{ReadsSpan};
ghost use Rattle.screen_editor.specs.Editing.{IsEditor, current_cell, current_len, key_code, over, seen};
ghost use Rattle.screen_editor.specs.Keys.{key_of, looks_for_lines};
ghost use Rattle.screen_editor.specs.KnownTexts.{IsKnownText, IsKnownLine};
ghost use Rattle.screen_editor.specs.LineKeys.{FindsLinePlace, Takes};
ghost use Rattle.screen_editor.specs.Opening.{IsOpenFault, IsTooLongToOpen, OpensSession};
ghost use Rattle.screen_editor.specs.Revising.{IsMade, TakesKey};
ghost use Rattle.screen_editor.specs.Refusals.{IsNewFault, IsTooLong};
ghost use Rattle.screen_editor.specs.Runs.{MakesFrame};
ghost use Rattle.screen_editor.specs.Watched.{MakesNoted, note_at, watch};

use crate::fault::{EditorFault, KeyFault};
use crate::key::{Effect, Key, LinePlace, Step};
use crate::known::{KnownText, known_after};
use crate::noting::{note_of, untaken_text};
use crate::opening::{first_session, opened_session};
use crate::workspace::Workspace;
use edit_commands::Session;
use lazy_file::{SourceFault, Sources};
use std::alloc::Global;
use std::marker::Model;
use text_lines::{FrameFault, KnownLines, frame_about, line_end, line_start, place_down, place_up};

/// An editor of a text, over the sources that the text may lie in.
#[derive(Drop)]
pub struct Editor<R: Sources + Drop> {
    alloc: Global,
    sources: R,
    workspace: Workspace,
    known: KnownText,
}

impl<R: Sources + Drop> Model for Editor<R> {
    ghost use Rattle.std.specs.Prelude.{◌≡◌};
    ghost use Rattle.screen_editor.specs.Editing.{EditorValue};
    ghost use Rattle.screen_editor.specs.KnownTexts.{IsKnownText};

    ghost Value = { EditorValue R };

    ghost view = { λ a. record { sources = a.sources; editing = a.workspace } };

    ghost invariant = { λ a. (a.workspace.session.held.sources ≡ (R.reading a.sources).stated.sizes)
        × IsKnownText (R.reading a.sources).stated a.workspace a.known };
}

/// Where a key leads that looks for line breaks.
fn line_place<R: Sources>(
    alloc: Global,
    sources: &mut R,
    workspace: &Workspace,
    known: &KnownLines,
    key: Key,
) -> Result<Option<u64>, SourceFault>
    requires known { IsKnownLine (R.reading sources.old).stated workspace.now known.now }
    ensures place { IfOk result (FindsLinePlace (R.reading sources.old).stated key workspace.now) }
    ensures looks { OnErr result (IsTrue (looks_for_lines key)) }
    ensures reads { ReadsSpan (R.reading sources.old) (R.reading sources.new)
        (current_cell workspace.now) 0 (current_len workspace.now) result }
{
    let space = workspace.session().space();
    let (root, place) = (workspace.root(), workspace.place());
    match key.effect() {
        Effect::Looks(LinePlace::Start) => Ok(Some(line_start(
            alloc, space, sources, root, known, place,
        )?)),
        Effect::Looks(LinePlace::End) => Ok(Some(line_end(
            alloc, space, sources, root, known, place,
        )?)),
        Effect::Looks(LinePlace::Above) => Ok(Some(place_up(
            alloc, space, sources, root, known, place,
        )?)),
        Effect::Looks(LinePlace::Below) => Ok(Some(place_down(
            alloc, space, sources, root, known, place,
        )?)),
        Effect::Moves | Effect::Edits | Effect::Ends(_) => Ok(None),
    }
}

/// What a key does but for the message.
fn take<R: Sources>(
    alloc: Global,
    sources: &mut R,
    workspace: &mut Workspace,
    known: &KnownLines,
    key: Key,
) -> Result<(), KeyFault>
    requires known { IsKnownLine (R.reading sources.old).stated workspace.old known.now }
    ensures { Takes key (R.reading sources.old) workspace.old result (R.reading sources.new) workspace.new }
{
    // The workspace keeps its rules, as its last revision says.
    let _last = workspace.last();
    match line_place(alloc, sources, workspace, known, key) {
        Ok(Some(place)) => {
            workspace.move_to(place);
            Ok(())
        }
        Ok(None) => workspace.take(key),
        Err(fault) => Err(KeyFault::Source(fault)),
    }
}

/// Takes a key. A refused one changes the message alone. What is known of lines is brought up to date.
fn take_key<R: Sources>(
    alloc: Global,
    sources: &mut R,
    workspace: &mut Workspace,
    known: &mut KnownText,
    key: Key,
) -> Result<Step, KeyFault>
    requires known { IsKnownText (R.reading sources.old).stated workspace.old known.old }
    ensures takes { TakesKey key (over (R.reading sources.old) workspace.old) result
        (over (R.reading sources.new) workspace.new) }
    ensures sizes { workspace.new.session.held.sources ≡ workspace.old.session.held.sources }
    ensures known { IsKnownText (R.reading sources.old).stated workspace.new known.new }
{
    // The workspace keeps its rules, as its last revision says, before the key and behind it.
    let _before = workspace.last();
    let later = known_after(alloc, workspace, known, key);
    if let Err(fault) = take(alloc, sources, workspace, &known.lines, key) {
        let _refused = workspace.last();
        workspace.tell(Some(fault));
        return Err(fault);
    }
    let _taken = workspace.last();
    *known = later;
    match key.answer() {
        Step::Save => Ok(Step::Save),
        Step::Leave => Ok(Step::Leave),
        Step::Going => {
            workspace.tell(None);
            Ok(Step::Going)
        }
    }
}

/// The code that a message names, if there is one.
fn message_code(message: Option<KeyFault>) -> Option<&'static str>
    ensures { option_map (λ m. m.now) result ≡ option_map key_code message }
{
    match message {
        Some(fault) => Some(fault.code()),
        None => None,
    }
}

/// What the screen shows with this note in the message's row.
fn frame_with<R: Sources>(
    alloc: Global,
    sources: &mut R,
    workspace: &Workspace,
    known: &mut KnownLines,
    note: Option<&str>,
) -> Result<Vec<u8>, FrameFault>
    requires known { IsKnownLine (R.reading sources.old).stated workspace.now known.old }
    ensures known { IsKnownLine (R.reading sources.old).stated workspace.now known.new }
    ensures makes { MakesNoted (option_map (λ m. m.now) note.entry) (over (R.reading sources.old) workspace.now) result
        (over (R.reading sources.new) workspace.now) }
{
    let (root, place) = (workspace.root(), workspace.place());
    let last = workspace.last();
    frame_about(
        alloc,
        workspace.session().space(),
        sources,
        root,
        place,
        last,
        note,
        known,
    )
}

/// What the screen shows.
fn frame_of<R: Sources>(
    alloc: Global,
    sources: &mut R,
    workspace: &Workspace,
    known: &mut KnownLines,
) -> Result<Vec<u8>, FrameFault>
    requires known { IsKnownLine (R.reading sources.old).stated workspace.now known.old }
    ensures known { IsKnownLine (R.reading sources.old).stated workspace.now known.new }
    ensures makes { MakesFrame (over (R.reading sources.old) workspace.now) result
        (over (R.reading sources.new) workspace.now) }
{
    let message = message_code(workspace.message());
    frame_with(alloc, sources, workspace, known, message)
}

/// What a terminal shows: what is told before the first key, or how many bytes were not taken, stands in place of the
/// message.
fn frame_noted<R: Sources>(
    alloc: Global,
    sources: &mut R,
    workspace: &Workspace,
    known: &mut KnownLines,
    hint: Option<&str>,
    untaken: u32,
) -> Result<Vec<u8>, FrameFault>
    requires known { IsKnownLine (R.reading sources.old).stated workspace.now known.old }
    ensures known { IsKnownLine (R.reading sources.old).stated workspace.now known.new }
    ensures makes { MakesNoted (note_at (watch (option_map (λ h. h.now) hint.entry) untaken workspace.now))
        (over (R.reading sources.old) workspace.now) result (over (R.reading sources.new) workspace.now) }
{
    let text = untaken_text(alloc, untaken)?;
    let message = message_code(workspace.message());
    let note = note_of(hint, untaken, text.as_str(), message);
    frame_with(alloc, sources, workspace, known, note)
}

impl<R: Sources + Drop> Editor<R> {
    /// An editor of the text of source 0, or of an empty one where there is no source.
    ///
    /// # Errors
    ///
    /// `TooLong` where source 0 has more than 2,147,483,647 bytes. `Memory`, and `Edit` with `Memory`, where memory was
    /// refused.
    pub fn new(alloc: Global, sources: R) -> Result<Editor<R>, EditorFault>
        ensures sources { IfOk result (λ e. e.sources ≡ sources) }
        ensures made { IfOk result (λ e. IsMade (R.reading sources).stated.sizes e.editing) }
        ensures too_long { IsErrOf result EditorFault.TooLong ↔ IsTooLong (R.reading sources).stated }
        ensures fault { IfErr result (IsNewFault (R.reading sources).stated) }
    {
        let session = first_session(alloc, &sources)?;
        let workspace = Workspace::over(alloc, session)?;
        let known = KnownText::none(&workspace);
        Ok(Editor {
            alloc,
            sources,
            workspace,
            known,
        })
    }

    /// An editor that goes on with a session over its sources, at the first byte of its last text; where it has no
    /// revision, with the text of source 0, or an empty one where there is no source.
    ///
    /// # Errors
    ///
    /// `TooLong` where a text of the session has more than 2,147,483,647 bytes, or, where it has none, source 0. `Edit`
    /// where the session has no revision, and refuses its first. `Memory`, where memory was refused.
    pub fn over(alloc: Global, sources: R, session: Session) -> Result<Editor<R>, EditorFault>
        requires { session.held.sources ≡ (R.reading sources).stated.sizes }
        ensures sources { IfOk result (λ e. e.sources ≡ sources) }
        ensures opens { IfOk result (λ e. OpensSession session e.editing) }
        ensures too_long { IsErrOf result EditorFault.TooLong ↔ IsTooLongToOpen session }
        ensures fault { IfErr result (IsOpenFault session) }
    {
        let session = opened_session(session)?;
        let workspace = Workspace::over(alloc, session)?;
        let known = KnownText::none(&workspace);
        Ok(Editor {
            alloc,
            sources,
            workspace,
            known,
        })
    }

    /// Takes the key that a byte stands for. A refused one changes the message alone.
    ///
    /// # Errors
    ///
    /// `TooLong` where the text would have more than 2,147,483,647 bytes, `Edit` where the session or memory refused,
    /// `Source` where a line break was looked for and a read failed.
    pub fn key(&mut self, byte: u8) -> Result<Step, KeyFault>
        ensures takes { TakesKey (key_of byte) (seen R.reading self.old) result (seen R.reading self.new) }
    {
        take_key(
            self.alloc,
            &mut self.sources,
            &mut self.workspace,
            &mut self.known,
            Key::of(byte),
        )
    }

    /// What the screen shows.
    ///
    /// # Errors
    ///
    /// `Source`, where a byte or a line break could not be read. `Memory`, where memory was refused.
    pub fn frame(&mut self) -> Result<Vec<u8>, FrameFault>
        ensures makes { MakesFrame (seen R.reading self.old) result (seen R.reading self.new) }
    {
        frame_of(
            self.alloc,
            &mut self.sources,
            &self.workspace,
            &mut self.known.lines,
        )
    }

    /// What a terminal shows, with this note.
    ///
    /// # Errors
    ///
    /// As those of `frame`.
    pub(crate) fn frame_noted(
        &mut self,
        hint: Option<&str>,
        untaken: u32,
    ) -> Result<Vec<u8>, FrameFault>
        ensures makes { MakesNoted
            (note_at (watch (option_map (λ h. h.now) hint.entry) untaken self.old.editing))
            (seen R.reading self.old) result (seen R.reading self.new) }
    {
        frame_noted(
            self.alloc,
            &mut self.sources,
            &self.workspace,
            &mut self.known.lines,
            hint,
            untaken,
        )
    }

    /// The session, with every revision.
    pub fn session(&self) -> &Session
        ensures session { result.now ≡ self.now.editing.session }
        ensures kept { IsEditor (seen R.reading self.now) }
    {
        self.workspace.session()
    }
}
