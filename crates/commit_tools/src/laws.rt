//! What becomes of the origins of bytes behind a commit. Each law is a contract, and its body does nothing.

ghost use Rattle.std.specs.Prelude.{◌≡◌, ℕ, List};
ghost use Rattle.lazy_file.specs.SourceTexts.{Stated};
ghost use Rattle.edit_commands.specs.Session.{SessionValue};
ghost use Rattle.image_reader.specs.Value.{ImageValue, IsImage};
ghost use Rattle.session_checker.specs.Faithful.{EachRevision, HasTrueRecordsOf, revision_text};
ghost use Rattle.session_image.specs.Written.{IsTrusted, image_of};
ghost use Rattle.byte_origins.specs.Origins.{origins_at};
ghost use Rattle.commit_tools.specs.Commits.{IsCommitted};
ghost use Rattle.commit_tools.specs.CommonEnds.{KeepsCommonEnds};
ghost use Rattle.commit_tools.specs.Texts.{OverRevision};

/// The texts of an image have the same origins in the image that a commit writes.
pub fn keeps_earlier_origins()
    ensures { (st : Stated) (v : ImageValue) (file : List ℕ) (revision : ℕ) (made : SessionValue) → HasTrueRecordsOf v
        → IsCommitted st v file revision made → EachRevision v (λ k. origins_at (image_of made) k ≡ origins_at v k) }
{}

/// What a file has in common at both ends with the text that its commit goes on from keeps the origins that it had in
/// the image, over all commands that the commit takes. That text is the last one, or, where the commit goes back, the
/// file's own, which so has all its origins again.
pub fn keeps_common_ends()
    ensures { (st : Stated) (v : ImageValue) (file : List ℕ) (revision : ℕ) (made : SessionValue) → HasTrueRecordsOf v
        → IsImage (image_of made) → IsTrusted made → (c : IsCommitted st v file revision made)
        → OverRevision st c.begun c.reaches.from (λ source. KeepsCommonEnds (revision_text v source c.reaches.from) file
        (origins_at v c.reaches.from) (origins_at (image_of made) revision)) }
{}
