//! `apply [--onto IMAGE] [--at-most LOOKS] SCRIPT [SOURCE]...`

ghost use Rattle.std.specs.Prelude.{◌≡◌, IfErr, IfOk, Some, codes, false};
ghost use Rattle.clap.specs.Words.{app_of, found_of, rows_of};
ghost use Rattle.clap.specs.declared.builder.command.Command.TheViews.{out-Command as fields_of};
ghost use Rattle.cord_words.specs.Refusals.{FailsAs};
ghost use Rattle.cord_words.specs.Words.{Holds, LimitsACheck, NumbersRead, apply_app, apply_kinds, limits_a_check};

use crate::action::Action;
use crate::fault::WordsFault;
use crate::{args, given};
use clap::error::ErrorKind;
use clap::{ArgMatches, Command};
use std::alloc::{AllocError, Global};

/// The subcommand, as `clap` is told of it.
pub fn command<'a>(alloc: Global) -> Result<Command<'a>, AllocError>
    ensures app { IfOk result (λ c. app_of c ≡ apply_app) }
    ensures local { IfOk result (λ c. (fields_of c).has_globals ≡ false) }
{
    let about = "Write the session that a script of commands makes";
    let command = args::command(alloc, "apply", about);
    let command = args::with(Ok(command), args::onto(alloc));
    let command = args::with(command, args::limit(alloc));
    let script = args::required(alloc, "SCRIPT", "The file of the script");
    args::with(args::with(command, script), args::sources(alloc))
}

/// Whether a limit of looks stands beside the image that is checked.
fn limits_a_check(given: &ArgMatches<'_>) -> bool
    ensures { result ≡ limits_a_check (rows_of (found_of given.now)) }
{
    given::has(given, "IMAGE") || !given::has(given, "LOOKS")
}

/// The action of what was given. Where a limit stands beside no image, or does not read, the fault is one of `command`.
pub fn action<'a>(
    alloc: Global,
    command: &mut Command<'a>,
    given: &ArgMatches<'a>,
) -> Result<Action<'a>, WordsFault>
    ensures holds { IfOk result (Holds (Some (codes "apply", rows_of (found_of given.now)))) }
    ensures only_memory { IfErr result (λ f.
        NumbersRead (Some (codes "apply", rows_of (found_of given.now)))
        → LimitsACheck (Some (codes "apply", rows_of (found_of given.now))) → f ≡ WordsFault.Memory) }
    ensures kind { IfErr result (FailsAs (apply_kinds (rows_of (found_of given.now)))) }
{
    if !limits_a_check(given) {
        let message = "the argument '--at-most <LOOKS>' cannot be used without '--onto <IMAGE>'";
        let error = command.error(ErrorKind::MissingRequiredArgument, message)?;
        return Err(WordsFault::Usage(error));
    }
    Ok(Action::Apply {
        onto: given::optional_text(given, "IMAGE"),
        at_most: given::optional_number(alloc, command, given, "LOOKS")?,
        script: given::text(given, "SCRIPT"),
        sources: given::texts(alloc, given, "SOURCE")?,
    })
}
