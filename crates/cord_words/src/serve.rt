//! `serve [--at-most LOOKS] IMAGE [SOURCE]`

ghost use Rattle.std.specs.Prelude.{◌≡◌, ◌∷◌, [], IfErr, IfOk, Some, codes, false};
ghost use Rattle.clap.specs.Words.{app_of, found_of, rows_of};
ghost use Rattle.clap.specs.declared.builder.command.Command.TheViews.{out-Command as fields_of};
ghost use Rattle.clap.specs.declared.error.kind.ErrorKind.TheVariants.{ValueValidation};
ghost use Rattle.cord_words.specs.Refusals.{FailsAs};
ghost use Rattle.cord_words.specs.Words.{Holds, NumbersRead, serve_app};

use crate::action::Action;
use crate::fault::WordsFault;
use crate::{args, given};
use clap::{ArgMatches, Command};
use std::alloc::{AllocError, Global};

/// The subcommand, as `clap` is told of it.
pub fn command<'a>(alloc: Global) -> Result<Command<'a>, AllocError>
    ensures app { IfOk result (λ c. app_of c ≡ serve_app) }
    ensures local { IfOk result (λ c. (fields_of c).has_globals ≡ false) }
{
    let about = "Take commands and questions for a saved session, one per line, and answer each";
    let command = args::command(alloc, "serve", about);
    let command = args::with(Ok(command), args::limit(alloc));
    let command = args::with(command, args::image(alloc));
    args::with(command, args::optional_source(alloc))
}

/// The action of what was given. Where a number does not read, the fault is one of `command`.
pub fn action<'a>(
    alloc: Global,
    command: &mut Command<'a>,
    given: &ArgMatches<'a>,
) -> Result<Action<'a>, WordsFault>
    ensures holds { IfOk result (Holds (Some (codes "serve", rows_of (found_of given.now)))) }
    ensures only_memory { IfErr result (λ f.
        NumbersRead (Some (codes "serve", rows_of (found_of given.now))) → f ≡ WordsFault.Memory) }
    ensures kind { IfErr result (FailsAs (ValueValidation ∷ [])) }
{
    Ok(Action::Serve {
        at_most: given::optional_number(alloc, command, given, "LOOKS")?,
        image: given::text(given, "IMAGE"),
        source: given::optional_text(given, "SOURCE"),
    })
}
