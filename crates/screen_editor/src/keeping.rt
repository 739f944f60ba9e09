//! Runs whose keys are kept, and what was kept played again.

ghost use Rattle.key_journal.specs.Left.{keys_kept, keys_left};
ghost use Rattle.screen_editor.specs.Editing.{seen};
ghost use Rattle.screen_editor.specs.Playing.{KeepsTaken, Plays, Resumes};
ghost use Rattle.screen_editor.specs.Runs.{IsLater, IsRun};
ghost use Rattle.screen_editor.specs.Turns.{IsTurn};

use crate::editor::Editor;
use crate::fault::{End, RunFault};
use crate::running::MOST_KEYS;
use key_journal::{KeepFault, Kept};
use lazy_file::Sources;
use std::io;

impl<R: Sources + Drop> Editor<R> {
    /// Shows the state and takes a key, which is kept before it is taken.
    #[tactic(auto, using(crate::proofs::LaterReadings::later_then))]
    fn turn_kept<K: io::Read + Drop, J: io::Write + Drop, W: io::Write>(
        &mut self,
        keys: &mut Kept<K, J>,
        screen: &mut W,
    ) -> Result<Option<End>, RunFault>
        ensures turn { IsTurn (record { keys = keys_left K.remaining keys.old; screen = W.contents screen.old })
            (record { keys = keys_left K.remaining keys.new; screen = W.contents screen.new })
            (seen R.reading self.old) result (seen R.reading self.new) }
        ensures kept { KeepsTaken (keys_left K.remaining keys.old) (keys_left K.remaining keys.new)
            (keys_kept J.contents keys.old) (keys_kept J.contents keys.new) }
        ensures later { IsLater (R.reading self.old.sources) (R.reading self.new.sources) }
    {
        self.show(screen)?;
        let byte = match keys.next_key() {
            Ok(Some(byte)) => byte,
            Ok(None) => return Ok(Some(End::Leave)),
            Err(KeepFault::Read) => return Err(RunFault::Read),
            Err(KeepFault::Write) => return Err(RunFault::Write),
        };
        Ok(self.press(byte))
    }

    /// Shows the state, takes a key, which is kept before it is taken, and so on: up to the key Save or Leave, which is
    /// not kept, or where no key is left.
    ///
    /// # Errors
    ///
    /// As those of `run`. `Write` also, where a key could not be kept: it is not taken then, and is still to be given.
    #[tactic(auto, using(crate::proofs::LaterReadings::later_then))]
    pub fn run_kept<K: io::Read + Drop, J: io::Write + Drop, W: io::Write>(
        &mut self,
        keys: &mut Kept<K, J>,
        screen: &mut W,
    ) -> Result<End, RunFault>
        ensures run { IsRun (keys_left K.remaining keys.old) (keys_left K.remaining keys.new)
            (W.contents screen.old) (W.contents screen.new) (seen R.reading self.old) result (seen R.reading self.new) }
        ensures kept { KeepsTaken (keys_left K.remaining keys.old) (keys_left K.remaining keys.new)
            (keys_kept J.contents keys.old) (keys_kept J.contents keys.new) }
        ensures later { IsLater (R.reading self.old.sources) (R.reading self.new.sources) }
    {
        for _ in 0..MOST_KEYS {
            if let Some(end) = self.turn_kept(keys, screen)? {
                return Ok(end);
            }
        }
        Err(RunFault::TooManyKeys)
    }

    /// Takes these keys, one after the other, and shows nothing. A refused one changes the message alone.
    #[tactic(auto, using(crate::proofs::LaterReadings::later_then))]
    pub fn play(&mut self, keys: &[u8])
        ensures plays { Plays (seen R.reading self.old) keys.now (seen R.reading self.new) }
        ensures later { IsLater (R.reading self.old.sources) (R.reading self.new.sources) }
    {
        for key in keys {
            let _ = self.press(*key);
        }
    }

    /// Plays the keys that were kept, and goes on from there: the state is then the one behind all of them.
    ///
    /// # Errors
    ///
    /// Those of `run_kept`.
    #[tactic(auto, using(crate::proofs::LaterReadings::later_then))]
    pub fn resume<K: io::Read + Drop, J: io::Write + Drop, W: io::Write>(
        &mut self,
        played: &[u8],
        keys: &mut Kept<K, J>,
        screen: &mut W,
    ) -> Result<End, RunFault>
        ensures resumes { Resumes played.now
            (keys_left K.remaining keys.old) (keys_left K.remaining keys.new)
            (keys_kept J.contents keys.old) (keys_kept J.contents keys.new)
            (W.contents screen.old) (W.contents screen.new) (seen R.reading self.old) result (seen R.reading self.new) }
        ensures later { IsLater (R.reading self.old.sources) (R.reading self.new.sources) }
    {
        self.play(played);
        self.run_kept(keys, screen)
    }
}
