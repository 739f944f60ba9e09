//! Laws of what a run takes and keeps. Each is a contract, and its body does nothing.

ghost use Rattle.std.specs.Prelude.{◌≡◌, ℕ, List, Ok};
ghost use Rattle.edit_commands.specs.Session.{HoldsHistory, SessionValue, texts_of};
ghost use Rattle.edit_script.specs.Applied.{TakesLines, lines_of};
ghost use Rattle.edit_script.specs.Commands.{IsLine};
ghost use Rattle.edit_script.specs.Scripts.{AreInside};
ghost use Rattle.edit_script.specs.Words.{HasWords, Word};
ghost use Rattle.line_server.specs.Batches.{Serves};
ghost use Rattle.session_server.specs.Kept.{KeepsScript};
ghost use Rattle.session_server.specs.Questions.{AsksNothing};
ghost use Rattle.session_server.specs.Spoken.{Speaks, Spoken};

/// A line of a script asks for nothing, so each means in a run what it means in a script.
pub fn no_command_asks()
    ensures { (line : List ℕ) (words : List Word) → IsLine words → HasWords line words → AsksNothing line }
{}

/// What a run keeps is a script, and it says what its session says behind what that said before.
pub fn keeps_a_script()
    ensures { (old new : Spoken) (lines : List (List ℕ)) (kept told : List ℕ) → AreInside old.session
        → Serves Speaks old lines kept told new → KeepsScript old.session kept new.session }
{}

/// A session that takes what a run kept, as a script, has the texts that the run's session has, whatever the sources hold.
pub fn is_recovered()
    ensures { (old new : Spoken) (again : SessionValue) (lines : List (List ℕ)) (kept told : List ℕ)
        → AreInside old.session → Serves Speaks old lines kept told new → TakesLines old.session 0 (lines_of kept) (Ok tt) again
        → HoldsHistory new.session → HoldsHistory again → again.held.sources ≡ new.session.held.sources
        → (source : ℕ → ℕ → ℕ) → texts_of source again ≡ texts_of source new.session }
{}
