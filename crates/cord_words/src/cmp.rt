//! `cmp FIRST SECOND`

ghost use Rattle.std.specs.Prelude.{◌≡◌, IfOk, Some, codes, false};
ghost use Rattle.clap.specs.Words.{app_of, found_of, rows_of};
ghost use Rattle.clap.specs.declared.builder.command.Command.TheViews.{out-Command as fields_of};
ghost use Rattle.cord_words.specs.Words.{Holds, cmp_app};

use crate::action::Action;
use crate::{args, given};
use clap::{ArgMatches, Command};
use std::alloc::{AllocError, Global};

/// The subcommand, as `clap` is told of it.
pub fn command<'a>(alloc: Global) -> Result<Command<'a>, AllocError>
    ensures app { IfOk result (λ c. app_of c ≡ cmp_app) }
    ensures local { IfOk result (λ c. (fields_of c).has_globals ≡ false) }
{
    let about = "Say whether a file is less than another, equal or greater, byte by byte";
    let first = args::required(alloc, "FIRST", "The file to compare");
    let second = args::required(alloc, "SECOND", "The file to compare it with");
    let command = args::with(Ok(args::command(alloc, "cmp", about)), first);
    args::with(command, second)
}

/// The action of what was given.
pub fn action<'a>(given: &ArgMatches<'a>) -> Action<'a>
    ensures { Holds (Some (codes "cmp", rows_of (found_of given.now))) result }
{
    Action::Cmp {
        first: given::text(given, "FIRST"),
        second: given::text(given, "SECOND"),
    }
}
