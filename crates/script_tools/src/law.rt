//! What a log and a script without a command are worth, what a line of blame shows, and that what is written needs no read.

ghost use Rattle.std.specs.Prelude.{◌≡◌, ◌≢◌, ℕ, List, [], All, Ok, Err, Option, length, map, take, drop};
ghost use Rattle.edit_commands.specs.declared.command.Command.{Command};
ghost use Rattle.edit_commands.specs.declared.fault.EditFault.{EditFault};
ghost use Rattle.edit_commands.specs.Applying.{AppliesOrNot};
ghost use Rattle.edit_commands.specs.Session.{SessionValue, texts_of};
ghost use Rattle.edit_script.specs.declared.fault.Stop.TheVariants.{NoCommand};
ghost use Rattle.edit_script.specs.declared.fault.Stopped.{Stopped};
ghost use Rattle.edit_script.specs.Commands.{StandsInside, words_of};
ghost use Rattle.edit_script.specs.Applied.{lines_of};
ghost use Rattle.edit_script.specs.Scripts.{ReadsScript, SaysEach};
ghost use Rattle.script_tools.specs.Applied.{AppliesScript, IsMadeByScript, IsStopped};
ghost use Rattle.script_tools.specs.Blamed.{ShowBytes};
ghost use Rattle.script_tools.specs.Logged.{log_of};
ghost use Rattle.script_tools.specs.Onto.{IsMadeOnto};
ghost use Rattle.script_tools.specs.Refused.{IsLimit, IsNextOf, MeetsLimit, StopsAtLimit};
ghost use Rattle.script_tools.specs.declared.fault.ApplyFault.{ApplyFault};
ghost use Rattle.script_tools.specs.declared.shown.LogTexts.TheVariants.{Whole};
ghost use Rattle.byte_origins.specs.declared.run.OriginRun.{OriginRun};
ghost use Rattle.byte_origins.specs.Origins.{AreRuns, origins_at};
ghost use Rattle.image_reader.specs.Accepted.{command_at};
ghost use Rattle.image_reader.specs.Spelling.{spelling};
ghost use Rattle.image_reader.specs.Value.{ImageValue, IsImage};
ghost use Rattle.lazy_file.specs.Readings.{Reading};
ghost use Rattle.session_checker.specs.Accepted.{NeedsNoRead};
ghost use Rattle.session_checker.specs.Faithful.{EachRevision, givens, commands, revision_text, texts};
ghost use Rattle.session_checker.specs.Limits.{ChecksWithin};
ghost use Rattle.session_checker.specs.RevisionRules.{HasSameBytes};
ghost use Rattle.session_image.specs.Written.{AreAsMade, IsTrusted, image_of};
ghost use Rattle.command_parts.specs.Commands.{IsHistory};
ghost use Rattle.span_certificate.specs.Covers.{SameOver};

use edit_script::says_the_texts;

/// A session that a script made which says what an image's commands say, over sources of the image's lengths, has the
/// image's texts, whatever bytes the sources hold over which those are the history of its commands.
pub fn has_the_texts()
    ensures { (script : List ℕ) (v : SessionValue) (w : ImageValue) (source : ℕ → ℕ → ℕ)
        → IsMadeByScript w.sources script v
        → ReadsScript (lines_of script) (map (words_of w.pool) (commands w))
        → All (StandsInside (length w.pool)) (commands w)
        → IsHistory (givens w source) (commands w) (texts w source)
        → texts_of source v ≡ texts w source }
{
    says_the_texts();
}

/// The log of an accepted image, with its texts whole, is read as the image's commands, bytes for bytes, a line each.
pub fn says_the_commands()
    ensures each { (at_most : Option ℕ) (old new : Reading) (bytes : List ℕ) (w : ImageValue)
        → ChecksWithin at_most old new bytes (Ok w)
        → SaysEach (lines_of (log_of Whole w)) (map (words_of w.pool) (commands w)) }
    ensures all { (at_most : Option ℕ) (old new : Reading) (bytes : List ℕ) (w : ImageValue)
        → ChecksWithin at_most old new bytes (Ok w)
        → ReadsScript (lines_of (log_of Whole w)) (map (words_of w.pool) (commands w)) }
{}

/// Where a session does not take the log of an accepted image, it
/// refuses a command or is out of memory: each line says a command.
pub fn reads_each_line()
    ensures { (at_most : Option ℕ) (old new : Reading) (bytes : List ℕ) (w : ImageValue) (at : Stopped)
        → ChecksWithin at_most old new bytes (Ok w)
        → IsStopped w.sources (log_of Whole w) at
        → at.why ≢ NoCommand }
{
    says_the_commands();
}

/// A session that says what the first commands of an accepted image say, over sources of the image's lengths, refuses
/// the next one at a limit alone.
pub fn refuses_at_a_limit()
    ensures { (at_most : Option ℕ) (old new : Reading) (bytes : List ℕ) (w : ImageValue) (v after : SessionValue)
        (command : Command) (fault : EditFault)
        → ChecksWithin at_most old new bytes (Ok w)
        → IsNextOf w v command
        → AppliesOrNot v command (Err fault) after
        → MeetsLimit (command_at w (length v.revisions)) fault }
{}

/// Where a session does not take a line of the log of an accepted image,
/// the line's command meets a limit, or memory is refused.
pub fn stops_at_a_limit()
    ensures { (at_most : Option ℕ) (old new : Reading) (bytes : List ℕ) (w : ImageValue) (at : Stopped)
        → ChecksWithin at_most old new bytes (Ok w)
        → IsStopped w.sources (log_of Whole w) at
        → StopsAtLimit w at.line at.why }
{
    says_the_commands();
    refuses_at_a_limit();
}

/// Where the log of an accepted image, applied over sources of the image's lengths, gives no
/// image, a limit is met, memory is refused or the writer failed.
pub fn applies_up_to_limits()
    ensures { (at_most : Option ℕ) (old new : Reading) (bytes : List ℕ) (w : ImageValue)
        (before after : Option (List ℕ)) (fault : ApplyFault)
        → ChecksWithin at_most old new bytes (Ok w)
        → AppliesScript w.sources (log_of Whole w) before after (Err fault)
        → IsLimit w fault }
{
    stops_at_a_limit();
}

/// A session that the log of an accepted image made, over sources of the image's lengths, has the image's texts,
/// whatever bytes the sources hold over which the image's rows of bytes have the same bytes on both sides.
pub fn gives_the_texts_again()
    ensures { (at_most : Option ℕ) (old new : Reading) (bytes : List ℕ) (w : ImageValue) (v : SessionValue)
        (source : ℕ → ℕ → ℕ)
        → ChecksWithin at_most old new bytes (Ok w)
        → EachRevision w (HasSameBytes w (SameOver source))
        → IsMadeByScript w.sources (log_of Whole w) v
        → texts_of source v ≡ texts w source }
{
    has_the_texts();
    says_the_commands();
}

/// What the lines of a text's runs have in quotes, before it is cut short, are the text's bytes at the runs' places,
/// whatever bytes the sources hold over which the texts are the history of the image's commands.
pub fn shows_the_bytes()
    ensures { (w : ImageValue) (source : ℕ → ℕ → ℕ) → IsHistory (givens w source) (commands w) (texts w source)
        → EachRevision w (λ k. (start count : ℕ) (runs : List OriginRun)
        → AreRuns (take count (drop start (origins_at w k))) runs
        → ShowBytes w.pool (revision_text w source k) start runs) }
{}

/// A script without a command gives the image of a session back, and
/// so the same bytes: the session that goes on from it has that image.
pub fn gives_the_image_again()
    ensures { (x made : SessionValue) (script : List ℕ) → AreAsMade (image_of x)
        → IsMadeOnto (image_of x) script made → ReadsScript (lines_of script) []
        → image_of made ≡ image_of x }
{}

/// What `write` promises of each image that it writes is what `check` accepts over any sources of the same lengths, though every read
/// failed.
#[tactic(auto, using(crate::proofs::WrittenImages::needs_no_read))]
pub fn writes_what_needs_no_read()
    ensures { (s : SessionValue) → IsImage (image_of s) → IsTrusted s
        → NeedsNoRead (spelling (image_of s)) s.held.sources }
{}
