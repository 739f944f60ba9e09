//! The command line.

ghost use Rattle.std.specs.Prelude.{◌≡◌, ◌∷◌, [], IfOk, IfErr, OnOk, false, true};
ghost use Rattle.clap.specs.Words.{App, app_of, fault_of, found_of, kind_of, rows_of, subcommand_of};
ghost use Rattle.clap.specs.Words.{subcommand_rows_of, takes, with_subcommand};
ghost use Rattle.clap.specs.declared.builder.command.Command.TheViews.{out-Command as fields_of};
ghost use Rattle.clap.specs.declared.error.kind.ErrorKind.TheVariants.{ValueValidation};
ghost use Rattle.cord_words.specs.Words.{Asks, DiscardsAlone, Holds, IsKnown, LimitsACheck, NumbersRead, cordkit_app, is_said};
ghost use Rattle.cord_words.specs.Words.{command_line_texts, own_kinds, own_rows, refusal_kinds, titled_app, with_tool};
ghost use Rattle.cord_words.specs.Refusals.{FailsAs};

use crate::action::Action;
use crate::fault::WordsFault;
use crate::request::Request;
use crate::{
    apply, args, blame, check, cmp, commit, cut, edit, find, given, join, log, migrate, restore,
    serve, show,
};
use clap::error::ErrorKind;
use clap::{ArgMatches, Command, Error};
use std::alloc::{AllocError, Global};

/// The version, with the toolchain that it was proved with.
const VERSION: &str = "1.0.0 (rattle-kit-13f logic dac8208d650f15bf)";

/// Reads the words of a command line, of which the first is the program's name, as `env::args`
/// gives them. The request borrows its texts from the words.
///
/// # Errors
///
/// `Usage`, where `clap` does not take the words, a number does not read, `--discard`
/// stands beside a word for a session, or `--at-most` of `apply` without `--onto`,
/// with the text for the user. `Version`, with the text that was asked for. `Memory`.
pub fn words<'a>(alloc: Global, words: &'a [String]) -> Result<Request<'a>, WordsFault>
    ensures asks { IfOk result (Asks (command_line_texts words.entry.now)) }

    // A request is read only of words in which `clap` finds no fault, and where it takes them, each number reads,
    // `--discard` stands alone and `--at-most` beside an image, nothing but memory is in the way.
    ensures faultless { OnOk result (fault_of cordkit_app (command_line_texts words.entry.now) ≡ []) }
    ensures only_memory { IfErr result (λ f. takes cordkit_app (command_line_texts words.entry.now) ≡ true
        → NumbersRead (subcommand_of cordkit_app (command_line_texts words.entry.now))
        → DiscardsAlone (subcommand_of cordkit_app (command_line_texts words.entry.now))
        → LimitsACheck (subcommand_of cordkit_app (command_line_texts words.entry.now))
        → f ≡ WordsFault.Memory) }
    ensures kinds { IfErr result (FailsAs (refusal_kinds (command_line_texts words.entry.now))) }
{
    let mut command = cordkit(alloc)?;
    let matches = matches_of(&mut command, words)?;
    let action = asked(alloc, &matches)?;
    Ok(Request {
        explain: is_said(&matches, "explain"),
        quiet: is_said(&matches, "quiet"),
        action,
    })
}

/// What `clap` makes of the words.
fn matches_of<'a>(
    command: &mut Command<'a>,
    words: &'a [String],
) -> Result<ArgMatches<'a>, WordsFault>
    requires { app_of command.old ≡ cordkit_app }
    ensures own { IfOk result (λ m. rows_of (found_of m) ≡ own_rows (command_line_texts words.entry.now)) }
    ensures rows { IfOk result (λ m.
        subcommand_rows_of m ≡ subcommand_of cordkit_app (command_line_texts words.entry.now)) }
    ensures faultless { OnOk result (fault_of cordkit_app (command_line_texts words.entry.now) ≡ []) }
    ensures only_memory { IfErr result (λ f.
        takes cordkit_app (command_line_texts words.entry.now) ≡ true → f ≡ WordsFault.Memory) }
    ensures kinds { IfErr result (FailsAs (fault_of cordkit_app (command_line_texts words.entry.now))) }
{
    Ok(command.try_get_matches_from_mut(words)?)
}

/// Whether the flag of this name was given, before the subcommand or behind it.
fn is_said(matches: &ArgMatches<'_>, flag: &str) -> bool
    ensures { result ≡ is_said (rows_of (found_of matches.now)) (subcommand_rows_of matches.now) flag.now }
{
    match matches.subcommand() {
        Some((_, given)) => given::flag(matches, flag) || given::flag(given, flag),
        None => given::flag(matches, flag),
    }
}

/// The action that the matches ask for. Where a number does not
/// read, or words do not go together, the fault is one of `command`.
fn action_of<'a>(
    alloc: Global,
    command: &mut Command<'a>,
    matches: &ArgMatches<'a>,
) -> Result<Action<'a>, WordsFault>
    requires { IsKnown (subcommand_rows_of matches.now) }
    ensures holds { IfOk result (Holds (subcommand_rows_of matches.now)) }
    ensures only_memory { IfErr result (λ f.
        NumbersRead (subcommand_rows_of matches.now) → DiscardsAlone (subcommand_rows_of matches.now)
        → LimitsACheck (subcommand_rows_of matches.now) → f ≡ WordsFault.Memory) }
    ensures kind { IfErr result (FailsAs (own_kinds (subcommand_rows_of matches.now))) }
{
    match matches.subcommand() {
        None => Ok(Action::CheckInput),
        Some(("check", given)) => check::action(alloc, command, given),
        Some(("show", given)) => show::action(alloc, command, given),
        Some(("cut", given)) => cut::action(alloc, command, given),
        Some(("join", given)) => Ok(join::action(alloc, given)?),
        Some(("find", given)) => find::action(alloc, command, given),
        Some(("cmp", given)) => Ok(cmp::action(given)),
        Some(("edit", given)) => edit::action(command, given),
        Some(("migrate", given)) => migrate::action(alloc, command, given),
        Some(("log", given)) => log::action(alloc, command, given),
        Some(("blame", given)) => blame::action(alloc, command, given),
        Some(("apply", given)) => apply::action(alloc, command, given),
        Some(("commit", given)) => commit::action(alloc, command, given),
        Some(("restore", given)) => restore::action(alloc, command, given),
        Some(("serve", given)) => serve::action(alloc, command, given),
        Some(_) => unreachable!(),
    }
}

/// The action that the matches ask for, with the usage of its own subcommand where it is refused.
fn asked<'a>(alloc: Global, matches: &ArgMatches<'a>) -> Result<Action<'a>, WordsFault>
    requires { IsKnown (subcommand_rows_of matches.now) }
    ensures holds { IfOk result (Holds (subcommand_rows_of matches.now)) }
    ensures only_memory { IfErr result (λ f.
        NumbersRead (subcommand_rows_of matches.now) → DiscardsAlone (subcommand_rows_of matches.now)
        → LimitsACheck (subcommand_rows_of matches.now) → f ≡ WordsFault.Memory) }
    ensures kind { IfErr result (FailsAs (own_kinds (subcommand_rows_of matches.now))) }
{
    let mut command = alone(alloc, matches.subcommand_name().unwrap_or(""))?;
    action_of(alloc, &mut command, matches)
}

/// The subcommand of this name by itself, as the usage shows it, if it may refuse what `clap` takes.
fn alone<'a>(alloc: Global, name: &str) -> Result<Command<'a>, AllocError> {
    let command = match name {
        "check" => check::command(alloc),
        "show" => show::command(alloc),
        "cut" => cut::command(alloc),
        "find" => find::command(alloc),
        "edit" => edit::command(alloc),
        "migrate" => migrate::command(alloc),
        "log" => log::command(alloc),
        "blame" => blame::command(alloc),
        "apply" => apply::command(alloc),
        "commit" => commit::command(alloc),
        "restore" => restore::command(alloc),
        "serve" => serve::command(alloc),
        _ => Ok(titled(alloc)),
    };
    let path = format!(in alloc; "cordkit {name}")?;
    args::with_flags(alloc, command)?.bin_name(path.as_str())
}

/// The program's name, version and help.
fn titled<'a>(alloc: Global) -> Command<'a>
    ensures app { app_of result ≡ titled_app }
    ensures local { (fields_of result).has_globals ≡ false }
{
    let about = "a text workbench whose saved sessions can be checked";
    args::command(alloc, "cordkit", about)
        .after_help("With no words, check the session on standard input.")
        .version(VERSION)
}

/// The command with one more subcommand, where both could be made.
fn add_subcommand<'a>(
    command: Result<Command<'a>, AllocError>,
    subcommand: Result<Command<'a>, AllocError>,
) -> Result<Command<'a>, AllocError>
    requires { IfOk subcommand (λ c. (fields_of c).has_globals ≡ false) }
    ensures { (a s : App) → IfOk command.entry (λ c. app_of c ≡ a)
        → IfOk subcommand.entry (λ c. app_of c ≡ s)
        → IfOk result (λ c. app_of c ≡ with_subcommand a s.top) }
{
    let command = command?;
    command.subcommand(subcommand?)
}

/// The program with one more subcommand, which has the flags of the program too.
fn add_tool<'a>(
    alloc: Global,
    command: Result<Command<'a>, AllocError>,
    tool: Result<Command<'a>, AllocError>,
) -> Result<Command<'a>, AllocError>
    requires { IfOk tool (λ c. (fields_of c).has_globals ≡ false) }
    ensures { (a s : App) → IfOk command.entry (λ c. app_of c ≡ a)
        → IfOk tool.entry (λ c. app_of c ≡ s)
        → IfOk result (λ c. app_of c ≡ with_tool a s) }
{
    add_subcommand(command, args::with_flags(alloc, tool))
}

/// The program, as `clap` is told of it.
fn cordkit<'a>(alloc: Global) -> Result<Command<'a>, AllocError>
    ensures { IfOk result (λ c. app_of c ≡ cordkit_app) }
{
    let command = args::with_flags(alloc, Ok(titled(alloc)));
    let command = add_tool(alloc, command, check::command(alloc));
    let command = add_tool(alloc, command, show::command(alloc));
    let command = add_tool(alloc, command, cut::command(alloc));
    let command = add_tool(alloc, command, join::command(alloc));
    let command = add_tool(alloc, command, find::command(alloc));
    let command = add_tool(alloc, command, cmp::command(alloc));
    let command = add_tool(alloc, command, edit::command(alloc));
    let command = add_tool(alloc, command, migrate::command(alloc));
    let command = add_tool(alloc, command, log::command(alloc));
    let command = add_tool(alloc, command, blame::command(alloc));
    let command = add_tool(alloc, command, apply::command(alloc));
    let command = add_tool(alloc, command, commit::command(alloc));
    let command = add_tool(alloc, command, restore::command(alloc));
    add_tool(alloc, command, serve::command(alloc))
}

/// The refusal of words that are no text, with the usage of the program. It is `Memory`, where there was none for it.
pub fn no_text(alloc: Global) -> WordsFault
    ensures { FailsAs (ValueValidation ∷ []) result }
{
    match unread(alloc) {
        Ok(error) => WordsFault::Usage(error),
        Err(_) => WordsFault::Memory,
    }
}

/// The error of words that are no text.
fn unread(alloc: Global) -> Result<Error, AllocError>
    ensures { IfOk result (λ e. kind_of e ≡ ValueValidation) }
{
    cordkit(alloc)?.error(ErrorKind::ValueValidation, "a word is no UTF-8")
}
