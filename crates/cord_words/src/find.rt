//! `find [--all] START PATTERN FILE`

ghost use Rattle.std.specs.Prelude.{◌≡◌, ◌∷◌, [], IfErr, IfOk, Some, codes, false};
ghost use Rattle.clap.specs.Words.{app_of, found_of, rows_of};
ghost use Rattle.clap.specs.declared.builder.command.Command.TheViews.{out-Command as fields_of};
ghost use Rattle.clap.specs.declared.error.kind.ErrorKind.TheVariants.{ValueValidation};
ghost use Rattle.cord_words.specs.Refusals.{FailsAs};
ghost use Rattle.cord_words.specs.Words.{Holds, NumbersRead, find_app};

use crate::action::Action;
use crate::fault::WordsFault;
use crate::{args, given};
use clap::{ArgMatches, Command};
use std::alloc::{AllocError, Global};

/// The subcommand, as `clap` is told of it.
pub fn command<'a>(alloc: Global) -> Result<Command<'a>, AllocError>
    ensures app { IfOk result (λ c. app_of c ≡ find_app) }
    ensures local { IfOk result (λ c. (fields_of c).has_globals ≡ false) }
{
    let about = "Print the place at which a pattern first occurs in a file";
    let command = args::command(alloc, "find", about);
    let help = "Print each place, a line each, behind the end of the one before";
    let command = args::with(Ok(command), args::flag(alloc, "all", help));
    let help = "The bytes to search for, at most 4096 of them";
    let pattern = args::required(alloc, "PATTERN", help);
    let command = args::with(command, args::start(alloc));
    args::with(args::with(command, pattern), args::file(alloc))
}

/// The action of what was given. Where a number does not read, the fault is one of `command`.
pub fn action<'a>(
    alloc: Global,
    command: &mut Command<'a>,
    given: &ArgMatches<'a>,
) -> Result<Action<'a>, WordsFault>
    ensures holds { IfOk result (Holds (Some (codes "find", rows_of (found_of given.now)))) }
    ensures only_memory { IfErr result (λ f.
        NumbersRead (Some (codes "find", rows_of (found_of given.now))) → f ≡ WordsFault.Memory) }
    ensures kind { IfErr result (FailsAs (ValueValidation ∷ [])) }
{
    Ok(Action::Find {
        all: given::flag(given, "all"),
        start: given::number(alloc, command, given, "START")?,
        pattern: given::text(given, "PATTERN"),
        file: given::text(given, "FILE"),
    })
}
