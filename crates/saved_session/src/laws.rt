//! What a session that was taken up is worth.

ghost use Rattle.std.specs.Prelude.{◌≡◌, ℕ};
ghost use Rattle.edit_commands.specs.Session.{IsSession, SessionValue, commands_of, texts_of};
ghost use Rattle.image_reader.specs.Value.{ImageValue};
ghost use Rattle.session_checker.specs.Faithful.{commands, texts};
ghost use Rattle.session_image.specs.Written.{AreAsMade, image_of};
ghost use Rattle.saved_session.specs.TakenUp.{TakesUp};

/// A session that was taken up from an image has the image's texts, whatever bytes the sources hold, and its commands.
pub fn same_texts()
    ensures texts { (v : ImageValue) (s : SessionValue) (source : ℕ → ℕ → ℕ) → TakesUp v s
        → texts_of source s ≡ texts v source }
    ensures commands { (v : ImageValue) (s : SessionValue) → IsSession s → TakesUp v s
        → commands_of s.revisions ≡ commands v }
{}

/// A session that was taken up from the image of another has that image, and so is written as the same bytes.
pub fn written_again()
    ensures { (x s : SessionValue) → AreAsMade (image_of x) → TakesUp (image_of x) s → image_of s ≡ image_of x }
{}
