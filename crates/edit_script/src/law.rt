//! Laws of lines.

ghost use Rattle.std.specs.Prelude.{◌≡◌, ℕ, List, ◌++◌, Ok, map};
ghost use Rattle.std.specs.List.{AllByRecursion};
ghost use Rattle.edit_script.specs.Words.{Word, HasWords, IsTail, line_of};
ghost use Rattle.edit_script.specs.Commands.{IsLine, IsPrintable};
ghost use Rattle.command_parts.specs.Commands.{FullEdit, Givens, IsHistory};
ghost use Rattle.edit_commands.specs.Session.{SessionValue};
ghost use Rattle.edit_script.specs.Texts.{SayTheSame};
ghost use Rattle.edit_script.specs.Applied.{TakesLines, lines_of};
ghost use Rattle.edit_script.specs.Scripts.{AreInside, ReadsScript, SaysEach, words_held, Printed, IsPrinted, script_of};

/// A command stands in the line that it is printed as, whatever comment follows; and no line is two commands. So what
/// was printed is read again, and as no other command.
#[tactic(auto, using(crate::proofs::Laws::one_command, crate::proofs::Printed::line_printed))]
pub fn reads_as_printed()
    ensures printed { (ws : List Word) (tail : List ℕ) → IsPrintable ws → IsTail tail
        → HasWords (line_of ws ++ tail) ws }
    ensures one { (line : List ℕ) (ws vs : List Word) → IsLine ws → IsLine vs
        → HasWords line ws → HasWords line vs → ws ≡ vs }
{}

/// Commands that say the same, over the same sources, have the
/// same history, wherever the bytes that they hand in stand.
#[tactic(auto, using(crate::proofs::Histories::same_texts))]
pub fn says_the_texts()
    ensures { (g h : Givens ℕ) (es fs : List FullEdit) (xs ys : List (List ℕ)) → SayTheSame g h es fs
        → IsHistory g es xs → IsHistory h fs ys → xs ≡ ys }
{}

/// A session that took a script's lines says what it said before, and then what the script says.
pub fn says_the_script()
    ensures { (old : SessionValue) (k : ℕ) (lines : List (List ℕ)) (new : SessionValue) (commands : List (List Word))
        → AreInside old → TakesLines old k lines (Ok tt) new → ReadsScript lines commands
        → (words_held new ≡ words_held old ++ commands) × AreInside new }
{}

/// A script of printed commands, each with nothing or a comment behind it, is read as those commands, a line each.
#[tactic(auto, using(crate::proofs::Logs::log_says_each, crate::proofs::Logs::reads_each))]
pub fn reads_a_log()
    ensures each { (xs : List Printed) → AllByRecursion IsPrinted xs
        → SaysEach (lines_of (script_of xs)) (map (λ (x : Printed). x.0) xs) }
    ensures all { (xs : List Printed) → AllByRecursion IsPrinted xs
        → ReadsScript (lines_of (script_of xs)) (map (λ (x : Printed). x.0) xs) }
{}
