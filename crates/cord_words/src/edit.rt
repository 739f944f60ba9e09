//! `edit [--onto OLD] [--keep KEYS] [--session SESSION] [--no-clobber] [--replace] IMAGE [FILE]`, and `edit --discard KEYS`

ghost use Rattle.std.specs.Prelude.{◌≡◌, ◌∷◌, [], IfErr, IfOk, Some, codes, false};
ghost use Rattle.clap.specs.Words.{app_of, found_of, new_app, rows_of};
ghost use Rattle.clap.specs.declared.builder.command.Command.TheViews.{out-Command as fields_of};
ghost use Rattle.clap.specs.declared.error.kind.ErrorKind.TheVariants.{ArgumentConflict};
ghost use Rattle.cord_words.specs.Refusals.{FailsAs};
ghost use Rattle.cord_words.specs.Words.{DiscardsAlone, Holds, edit_app, names_session};

use crate::action::Action;
use crate::fault::WordsFault;
use crate::{args, given};
use clap::error::ErrorKind;
use clap::{ArgMatches, Command};
use std::alloc::{AllocError, Global};

/// The subcommand's name and help.
fn titled<'a>(alloc: Global) -> Command<'a>
    ensures app { app_of result ≡ new_app (codes "edit") }
    ensures local { (fields_of result).has_globals ≡ false }
{
    let about = "Edit a text on the screen, and save the session";
    args::command(alloc, "edit", about).after_help(
        "On a terminal run cordedit, which sets it to raw mode and keeps the keys.",
    )
}

/// The subcommand, as `clap` is told of it.
pub fn command<'a>(alloc: Global) -> Result<Command<'a>, AllocError>
    ensures app { IfOk result (λ c. app_of c ≡ edit_app) }
    ensures local { IfOk result (λ c. (fields_of c).has_globals ≡ false) }
{
    let command = args::with(Ok(titled(alloc)), args::old(alloc));
    let command = args::with(command, args::keep(alloc));
    let command = args::with(command, args::session(alloc));
    let help = "Refuse an image that is there already";
    let command = args::with(command, args::flag(alloc, "no-clobber", help));
    let help = "Let an image that is there go: it is not kept by another name";
    let command = args::with(command, args::flag(alloc, "replace", help));
    let help = "Edit nothing: take away IMAGE, which is a file of keys that no session has";
    let command = args::with(command, args::flag(alloc, "discard", help));
    let command = args::with(command, args::image(alloc));
    args::with(command, args::optional_file(alloc))
}

/// Whether a word was given that is for a session.
fn names_session(given: &ArgMatches<'_>) -> bool
    ensures { result ≡ names_session (rows_of (found_of given.now)) }
{
    given::has(given, "OLD")
        || given::has(given, "KEYS")
        || given::has(given, "SESSION")
        || given::flag(given, "no-clobber")
        || given::flag(given, "replace")
        || given::has(given, "FILE")
}

/// The action of what was given. Where `--discard` stands beside
/// a word that is for a session, the fault is one of `command`.
pub fn action<'a>(
    command: &mut Command<'a>,
    given: &ArgMatches<'a>,
) -> Result<Action<'a>, WordsFault>
    ensures holds { IfOk result (Holds (Some (codes "edit", rows_of (found_of given.now)))) }
    ensures only_memory { IfErr result (λ f.
        DiscardsAlone (Some (codes "edit", rows_of (found_of given.now))) → f ≡ WordsFault.Memory) }
    ensures kind { IfErr result (FailsAs (ArgumentConflict ∷ [])) }
{
    if given::flag(given, "discard") {
        if names_session(given) {
            let message =
                "the argument '--discard' cannot be used with a word for a session: it takes the file of keys alone";
            let error = command.error(ErrorKind::ArgumentConflict, message)?;
            return Err(WordsFault::Usage(error));
        }
        return Ok(Action::Discard {
            keys: given::text(given, "IMAGE"),
        });
    }
    Ok(Action::Edit {
        onto: given::optional_text(given, "OLD"),
        keys: given::optional_text(given, "KEYS"),
        session: given::optional_text(given, "SESSION"),
        no_clobber: given::flag(given, "no-clobber"),
        replace: given::flag(given, "replace"),
        image: given::text(given, "IMAGE"),
        file: given::optional_text(given, "FILE"),
    })
}
