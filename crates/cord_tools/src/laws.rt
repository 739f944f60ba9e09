//! What keys that are played are worth.

ghost use Rattle.std.specs.Prelude.{ℕ, List};
ghost use Rattle.lazy_file.specs.Readings.{Reading};
ghost use Rattle.saved_session.specs.GoneFurther.{GoesFurther};
ghost use Rattle.screen_editor.specs.Editing.{EditorValue};
ghost use Rattle.screen_editor.specs.Playing.{Plays};

/// A session that keys are played in goes further than the one that it
/// was: its first revisions are that one's, with the texts that they had.
pub fn goes_further()
    ensures { (old new : EditorValue Reading) (keys : List ℕ) → Plays old keys new
        → GoesFurther old.editing.session new.editing.session }
{}
