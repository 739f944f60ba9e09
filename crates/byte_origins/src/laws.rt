//! Laws of origins: each call returns, and runs nothing.

ghost use Rattle.std.specs.Prelude.{◌≡◌, ◌≤◌, ℕ, List, length, slice_get, Some};
ghost use Rattle.rope_node.specs.Denotes.{rope_len};
ghost use Rattle.image_reader.specs.Value.{ImageValue, image_table};
ghost use Rattle.image_reader.specs.Accepted.{command_at, revision_at};
ghost use Rattle.session_checker.specs.Faithful.{givens, commands, texts, revision_text, EachRevision, HasTrueRecordsOf};
ghost use Rattle.command_parts.specs.Commands.{Back, IsHistory, Many};
ghost use Rattle.command_parts.specs.Parts.{Follow};
ghost use Rattle.command_parts.specs.declared.edit.Splice.{Splice};
ghost use Rattle.byte_origins.specs.declared.run.Origin.{Origin};
ghost use Rattle.byte_origins.specs.KeptEnds.{KeepsOrigins};
ghost use Rattle.byte_origins.specs.Origins.{Outside, origins_at, traced_at, brought_byte};

/// A text has as many origins as its root is long.
pub fn as_many_as_bytes()
    ensures { (v : ImageValue) → HasTrueRecordsOf v
        → EachRevision v (λ k. length (origins_at v k)
        ≡ rope_len (image_table v) (revision_at v k).root) }
{}

/// The byte at a place of a text is the one that its origin names, in each history of the commands.
pub fn names_each_byte()
    ensures { (v : ImageValue) (source : ℕ → ℕ → ℕ) → IsHistory (givens v source) (commands v) (texts v source)
        → EachRevision v (λ k. (i : ℕ) (o : Origin) → slice_get (origins_at v k) i ≡ Some o
        → slice_get (revision_text v source k) i ≡ brought_byte (givens v source) o.brought) }
{}

/// The byte stood at the place that its origin tells, with this origin.
pub fn stood_there()
    ensures { (v : ImageValue) → EachRevision v (λ k. (i : ℕ) (o : Origin) → slice_get (origins_at v k) i ≡ Some o
        → (o.revision ≤ k) × (slice_get (origins_at v o.revision) o.place ≡ Some o)) }
{}

/// It came in there by that revision's command.
pub fn brought_by_its_command()
    ensures { (v : ImageValue) → EachRevision v (λ k. (i : ℕ) (o : Origin) → slice_get (origins_at v k) i ≡ Some o
        → slice_get (traced_at v o.revision) o.place ≡ Some (Outside o.brought)) }
{}

/// Where a command's splices stand one behind the other between two places of a text, the bytes before the one and behind
/// the other keep their origins. So a commit leaves those that the last text and the file have in common at their ends.
pub fn keeps_both_ends()
    ensures { (v : ImageValue) → HasTrueRecordsOf v → (r front end : ℕ) (splices : List Splice)
        → EachRevision v (λ k. command_at v k ≡ Many r splices → Follow end front splices
        → end ≤ length (origins_at v r) → KeepsOrigins front end (origins_at v r) (origins_at v k)) }
{}

/// A text that is gone back to has the origins that it had.
pub fn goes_back_whole()
    ensures { (v : ImageValue) → HasTrueRecordsOf v → (r : ℕ)
        → EachRevision v (λ k. command_at v k ≡ Back r → origins_at v k ≡ origins_at v r) }
{}
