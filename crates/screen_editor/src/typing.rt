//! Runs whose keys are typed at a terminal: frames are left out while more keys are there.

ghost use Rattle.std.specs.Prelude.{◌≡◌, [], ◌∷◌, IfErr, OnOk};
ghost use Rattle.std.specs.Option.{option_map};
ghost use Rattle.key_journal.specs.Left.{keys_kept, keys_left};
ghost use Rattle.screen_editor.specs.Editing.{seen};
ghost use Rattle.screen_editor.specs.Playing.{KeepsTaken};
ghost use Rattle.screen_editor.specs.Runs.{IsLater};
ghost use Rattle.screen_editor.specs.Typing.{IsTypedRun, IsTypedTurn, NotWatched, ResumesTyped};
ghost use Rattle.screen_editor.specs.Watched.{ShowsWatched, watch};

use crate::editor::Editor;
use crate::fault::{End, RunFault};
use crate::key::Key;
use crate::noting::{hint_behind, untaken_behind, untaken_by};
use crate::running::MOST_KEYS;
use byte_output::write_bytes;
use key_journal::{KeepFault, Kept, Ready};
use lazy_file::Sources;
use std::io;

impl<R: Sources + Drop> Editor<R> {
    /// Writes what a terminal shows.
    #[tactic(auto, using(crate::proofs::TypedTurns::watched_none))]
    fn show_noted<W: io::Write>(
        &mut self,
        hint: Option<&str>,
        untaken: u32,
        screen: &mut W,
    ) -> Result<(), RunFault>
        ensures shown { OnOk result (ShowsWatched (R.reading self.old.sources).stated
            (W.contents screen.old) (W.contents screen.new)
            (watch (option_map (λ h. h.now) hint.entry) untaken self.old.editing ∷ [])) }
        ensures not_shown { IfErr result (NotWatched (W.contents screen.old) (W.contents screen.new)
            (watch (option_map (λ h. h.now) hint.entry) untaken self.old.editing)
            (seen R.reading self.old) (seen R.reading self.new)) }
        ensures unfailed { OnOk result (R.reading self.new.sources ≡ R.reading self.old.sources) }
        ensures kept { self.new.editing ≡ self.old.editing }
        ensures later { IsLater (R.reading self.old.sources) (R.reading self.new.sources) }
    {
        let frame = self.frame_noted(hint, untaken)?;
        write_bytes(screen, &frame)?;
        Ok(())
    }

    /// Shows the state and takes a key, which is kept before it is taken.
    #[tactic(auto, using(crate::proofs::LaterReadings::later_then))]
    fn turn_shown<K: io::Read + Drop, J: io::Write + Drop, W: io::Write>(
        &mut self,
        hint: Option<&str>,
        untaken: &mut u32,
        keys: &mut Kept<K, J>,
        screen: &mut W,
    ) -> Result<Option<End>, RunFault>
        ensures turn { IsTypedTurn (record { keys = keys_left K.remaining keys.old; screen = W.contents screen.old })
            (record { keys = keys_left K.remaining keys.new; screen = W.contents screen.new })
            (watch (option_map (λ h. h.now) hint.entry) untaken.old self.old.editing)
            (seen R.reading self.old) result (seen R.reading self.new) untaken.new }
        ensures kept { KeepsTaken (keys_left K.remaining keys.old) (keys_left K.remaining keys.new)
            (keys_kept J.contents keys.old) (keys_kept J.contents keys.new) }
        ensures later { IsLater (R.reading self.old.sources) (R.reading self.new.sources) }
    {
        self.show_noted(hint, *untaken, screen)?;
        let byte = match keys.next_key() {
            Ok(Some(byte)) => byte,
            Ok(None) => return Ok(Some(End::Leave)),
            Err(KeepFault::Read) => return Err(RunFault::Read),
            Err(KeepFault::Write) => return Err(RunFault::Write),
        };
        *untaken = untaken_by(Key::of(byte), *untaken);
        Ok(self.press(byte))
    }

    /// Takes a key, which is kept before it is taken, and shows the state only where there is none.
    #[tactic(auto, using(crate::proofs::LaterReadings::later_then))]
    fn turn_unshown<K: io::Read + Drop, J: io::Write + Drop, W: io::Write>(
        &mut self,
        hint: Option<&str>,
        untaken: &mut u32,
        keys: &mut Kept<K, J>,
        screen: &mut W,
    ) -> Result<Option<End>, RunFault>
        ensures turn { IsTypedTurn (record { keys = keys_left K.remaining keys.old; screen = W.contents screen.old })
            (record { keys = keys_left K.remaining keys.new; screen = W.contents screen.new })
            (watch (option_map (λ h. h.now) hint.entry) untaken.old self.old.editing)
            (seen R.reading self.old) result (seen R.reading self.new) untaken.new }
        ensures kept { KeepsTaken (keys_left K.remaining keys.old) (keys_left K.remaining keys.new)
            (keys_kept J.contents keys.old) (keys_kept J.contents keys.new) }
        ensures later { IsLater (R.reading self.old.sources) (R.reading self.new.sources) }
    {
        let byte = match keys.next_key() {
            Ok(Some(byte)) => byte,
            Ok(None) => {
                self.show_noted(hint, *untaken, screen)?;
                return Ok(Some(End::Leave));
            }
            Err(KeepFault::Read) => return Err(RunFault::Read),
            Err(KeepFault::Write) => return Err(RunFault::Write),
        };
        *untaken = untaken_by(Key::of(byte), *untaken);
        Ok(self.press(byte))
    }

    /// Takes a key, and shows the state before it unless the key is there already.
    fn turn_typed<K: Ready + Drop, J: io::Write + Drop, W: io::Write>(
        &mut self,
        hint: Option<&str>,
        untaken: &mut u32,
        keys: &mut Kept<K, J>,
        screen: &mut W,
    ) -> Result<Option<End>, RunFault>
        ensures turn { IsTypedTurn (record { keys = keys_left K.remaining keys.old; screen = W.contents screen.old })
            (record { keys = keys_left K.remaining keys.new; screen = W.contents screen.new })
            (watch (option_map (λ h. h.now) hint.entry) untaken.old self.old.editing)
            (seen R.reading self.old) result (seen R.reading self.new) untaken.new }
        ensures kept { KeepsTaken (keys_left K.remaining keys.old) (keys_left K.remaining keys.new)
            (keys_kept J.contents keys.old) (keys_kept J.contents keys.new) }
        ensures later { IsLater (R.reading self.old.sources) (R.reading self.new.sources) }
    {
        if keys.is_ready() {
            self.turn_unshown(hint, untaken, keys, screen)
        } else {
            self.turn_shown(hint, untaken, keys, screen)
        }
    }

    /// Takes keys, each of which is kept before it is taken, up to the key Save or Leave, which is not kept, or where no
    /// key is left. The state is shown before each key that is not there already, and where no key is left. The hint is
    /// told before the first key, and of the bytes before it so many were no key.
    ///
    /// # Errors
    ///
    /// As those of `run_kept`.
    #[tactic(auto, using(crate::proofs::LaterReadings::later_then))]
    fn run_typed<K: Ready + Drop, J: io::Write + Drop, W: io::Write>(
        &mut self,
        hint: Option<&str>,
        untaken: u32,
        keys: &mut Kept<K, J>,
        screen: &mut W,
    ) -> Result<End, RunFault>
        ensures run { IsTypedRun (option_map (λ h. h.now) hint.entry) untaken
            (keys_left K.remaining keys.old) (keys_left K.remaining keys.new)
            (W.contents screen.old) (W.contents screen.new) (seen R.reading self.old) result (seen R.reading self.new) }
        ensures kept { KeepsTaken (keys_left K.remaining keys.old) (keys_left K.remaining keys.new)
            (keys_kept J.contents keys.old) (keys_kept J.contents keys.new) }
        ensures later { IsLater (R.reading self.old.sources) (R.reading self.new.sources) }
    {
        let (mut told, mut count) = (hint, untaken);
        for _ in 0..MOST_KEYS {
            if let Some(end) = self.turn_typed(told, &mut count, keys, screen)? {
                return Ok(end);
            }
            told = None;
        }
        Err(RunFault::TooManyKeys)
    }

    /// Plays the keys that were kept, and goes on from there with keys that are typed at a terminal. The hint is told
    /// before the first key, where none was played.
    ///
    /// # Errors
    ///
    /// As those of `resume`.
    #[tactic(auto, using(crate::proofs::LaterReadings::later_then))]
    pub fn resume_typed<K: Ready + Drop, J: io::Write + Drop, W: io::Write>(
        &mut self,
        hint: Option<&str>,
        played: &[u8],
        keys: &mut Kept<K, J>,
        screen: &mut W,
    ) -> Result<End, RunFault>
        ensures resumes { ResumesTyped (option_map (λ h. h.now) hint.entry) played.now
            (keys_left K.remaining keys.old) (keys_left K.remaining keys.new)
            (keys_kept J.contents keys.old) (keys_kept J.contents keys.new)
            (W.contents screen.old) (W.contents screen.new) (seen R.reading self.old) result (seen R.reading self.new) }
        ensures later { IsLater (R.reading self.old.sources) (R.reading self.new.sources) }
    {
        let told = hint_behind(played, hint);
        let untaken = untaken_behind(played);
        self.play(played);
        self.run_typed(told, untaken, keys, screen)
    }
}
