//! Runs: the screen shows each state, and keys are taken one after the other.

ghost use Rattle.std.specs.Prelude.{◌≡◌, [], ◌∷◌, IfOk, IfErr, OnOk, OnErr};
ghost use Rattle.std.specs.Io.KnownBytes.{Consumes};
ghost use Rattle.screen_editor.specs.declared.fault.RunFault.TheVariants.{Read};
ghost use Rattle.screen_editor.specs.Editing.{seen};
ghost use Rattle.screen_editor.specs.Runs.{IsLater, IsRun, Shows};
ghost use Rattle.key_journal.specs.Left.{IsNextByte};
ghost use Rattle.screen_editor.specs.Turns.{IsTurn, NotShown, Presses};

use crate::editor::Editor;
use crate::fault::{End, RunFault};
use crate::key::Step;
use byte_output::write_bytes;
use lazy_file::Sources;
use std::io;
use std::io::ErrorKind;

/// The most keys of a run.
pub const MOST_KEYS: u32 = 1 << 24;

/// The next key. A read that was interrupted is made again.
fn next_key<K: io::Read>(keys: &mut K) -> Result<Option<u8>, RunFault>
    ensures key { IfOk result (IsNextByte (K.remaining keys.old) (K.remaining keys.new)) }
    ensures none_taken { OnErr result (Consumes (K.remaining keys.old) (K.remaining keys.new) []) }
    ensures fault { IfErr result (λ f. f ≡ Read) }
{
    let mut buffer = [0];
    for _ in 0..u64::MAX {
        match keys.read(&mut buffer) {
            Ok(0) => return Ok(None),
            Ok(_) => return Ok(Some(buffer[0])),
            Err(error) => {
                if error.kind() != ErrorKind::Interrupted {
                    return Err(RunFault::Read);
                }
            }
        }
    }
    Err(RunFault::Read)
}

impl<R: Sources + Drop> Editor<R> {
    /// Writes what the screen shows.
    #[tactic(auto, using(crate::proofs::ManyTurns::shows_none))]
    pub(crate) fn show<W: io::Write>(&mut self, screen: &mut W) -> Result<(), RunFault>
        ensures shown { OnOk result (Shows (R.reading self.old.sources).stated
            (W.contents screen.old) (W.contents screen.new) (self.old.editing ∷ [])) }
        ensures not_shown { IfErr result (NotShown (W.contents screen.old) (W.contents screen.new)
            (seen R.reading self.old) (seen R.reading self.new)) }
        ensures unfailed { OnOk result (R.reading self.new.sources ≡ R.reading self.old.sources) }
        ensures kept { self.new.editing ≡ self.old.editing }
        ensures later { IsLater (R.reading self.old.sources) (R.reading self.new.sources) }
    {
        let frame = self.frame()?;
        write_bytes(screen, &frame)?;
        Ok(())
    }

    /// Takes a key, and answers how the run ends behind it, if it does.
    #[tactic(auto, using(crate::proofs::LaterReadings::reads_later))]
    pub(crate) fn press(&mut self, byte: u8) -> Option<End>
        ensures presses { Presses (seen R.reading self.old) byte result (seen R.reading self.new) }
        ensures later { IsLater (R.reading self.old.sources) (R.reading self.new.sources) }
    {
        match self.key(byte) {
            Ok(Step::Save) => Some(End::Save),
            Ok(Step::Leave) => Some(End::Leave),
            Ok(Step::Going) => None,
            // A refused key ends nothing: the next frame shows why it was refused.
            Err(_) => None,
        }
    }

    /// Shows the state and takes a key.
    #[tactic(auto, using(crate::proofs::LaterReadings::later_then))]
    fn turn<K: io::Read, W: io::Write>(
        &mut self,
        keys: &mut K,
        screen: &mut W,
    ) -> Result<Option<End>, RunFault>
        ensures turn { IsTurn (record { keys = K.remaining keys.old; screen = W.contents screen.old })
            (record { keys = K.remaining keys.new; screen = W.contents screen.new })
            (seen R.reading self.old) result (seen R.reading self.new) }
        ensures later { IsLater (R.reading self.old.sources) (R.reading self.new.sources) }
    {
        self.show(screen)?;
        let Some(byte) = next_key(keys)? else {
            return Ok(Some(End::Leave));
        };
        Ok(self.press(byte))
    }

    /// Shows the state, takes a key, and so on: up to the key Save or Leave, or where no key is left.
    ///
    /// # Errors
    ///
    /// `Read`, `Write` and `Frame`, where that fails. `TooManyKeys`, once 16,777,216 keys were taken and none of them
    /// ended the run.
    #[tactic(auto, using(crate::proofs::LaterReadings::later_then))]
    pub fn run<K: io::Read, W: io::Write>(
        &mut self,
        keys: &mut K,
        screen: &mut W,
    ) -> Result<End, RunFault>
        ensures run { IsRun (K.remaining keys.old) (K.remaining keys.new)
            (W.contents screen.old) (W.contents screen.new) (seen R.reading self.old) result (seen R.reading self.new) }
        ensures later { IsLater (R.reading self.old.sources) (R.reading self.new.sources) }
    {
        for _ in 0..MOST_KEYS {
            if let Some(end) = self.turn(keys, screen)? {
                return Ok(end);
            }
        }
        Err(RunFault::TooManyKeys)
    }
}
