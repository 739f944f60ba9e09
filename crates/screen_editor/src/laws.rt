//! What is kept of a run's keys, and what a saved session is worth. The laws are contracts; their bodies do nothing.

ghost use Rattle.std.specs.Prelude.{◌≡◌, ◌++◌, ◌∷◌, [], ℕ, List};
ghost use Rattle.key_journal.specs.Keys.{kept_of};
ghost use Rattle.edit_commands.specs.Session.{SessionValue, texts_of, edits_of};
ghost use Rattle.screen_editor.specs.Editing.{Editing, IsEditing, state_of};
ghost use Rattle.screen_editor.specs.Opening.{OpensSession};
ghost use Rattle.screen_editor.specs.Playing.{EndsRun};
ghost use Rattle.screen_editor.specs.Runs.{NoKeyEndsRun};
ghost use Rattle.screen_editor.specs.State.{reopened};

/// The keys behind which a run goes on are all kept, and of those of a run that a key ended all but that one.
pub fn kept_keys()
    ensures going { (keys : List ℕ) → NoKeyEndsRun keys → kept_of keys ≡ keys }
    ensures ended { (before : List ℕ) (last : ℕ) → NoKeyEndsRun before → EndsRun last
        → kept_of (before ++ last ∷ []) ≡ before }
{}

/// A session with the commands and the texts of an editor's, where it is gone on with, is in the editor's last state
/// but for the place, the mark, the cut spans and the message. So each Undo leads to the text to which it would have
/// led.
#[tactic(auto, using(crate::proofs::OpenedSessions::opens_saved))]
pub fn opens_what_was_saved()
    ensures same_state { (old e : Editing) (saved : SessionValue) → IsEditing old → OpensSession saved e
        → edits_of saved.revisions ≡ edits_of old.session.revisions
        → ((source : ℕ → ℕ → ℕ) → texts_of source saved ≡ texts_of source old.session)
        → (source : ℕ → ℕ → ℕ) → state_of source e ≡ reopened (state_of source old) }
{}
