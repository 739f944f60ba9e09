//! `join FILE...`

ghost use Rattle.std.specs.Prelude.{◌≡◌, IfOk, Some, codes, false};
ghost use Rattle.clap.specs.Words.{app_of, found_of, rows_of};
ghost use Rattle.clap.specs.declared.builder.command.Command.TheViews.{out-Command as fields_of};
ghost use Rattle.cord_words.specs.Words.{Holds, join_app};

use crate::action::Action;
use crate::{args, given};
use clap::{ArgAction, ArgMatches, Command};
use std::alloc::{AllocError, Global};

/// The subcommand, as `clap` is told of it.
pub fn command<'a>(alloc: Global) -> Result<Command<'a>, AllocError>
    ensures app { IfOk result (λ c. app_of c ≡ join_app) }
    ensures local { IfOk result (λ c. (fields_of c).has_globals ≡ false) }
{
    let files = args::required(alloc, "FILE", "The files, in their order").action(
        ArgAction::Append,
    );
    args::command(alloc, "join", "Write files, one behind the other").arg(files)
}

/// The action of what was given.
pub fn action<'a>(alloc: Global, given: &ArgMatches<'a>) -> Result<Action<'a>, AllocError>
    ensures { IfOk result (Holds (Some (codes "join", rows_of (found_of given.now)))) }
{
    Ok(Action::Join {
        files: given::texts(alloc, given, "FILE")?,
    })
}
