//! The commands and arguments of which the command line is made.

ghost use Rattle.std.specs.Prelude.{◌≡◌, IfOk, false};
ghost use Rattle.clap.specs.Words.{App, Rule, app_of, new_app, rule_of, with_rule};
ghost use Rattle.clap.specs.declared.builder.command.Command.TheViews.{out-Command as fields_of};
ghost use Rattle.cord_words.specs.Words.{count_rule, explain_rule, file_rule, flag_rule, from_rule, image_rule, keep_rule, length_rule, limit_rule};
ghost use Rattle.cord_words.specs.Words.{old_rule, onto_rule, optional_file_rule, optional_revision_rule, optional_source_rule, quiet_rule, required_rule, revision_rule};
ghost use Rattle.cord_words.specs.Words.{session_rule, sources_rule, start_rule, with_flags};

use clap::{Arg, ArgAction, Command};
use std::alloc::{AllocError, Global};

/// A command of this name, which the help describes so.
pub fn command<'a>(alloc: Global, name: &'a str, about: &'a str) -> Command<'a>
    ensures app { app_of result ≡ new_app name.now }
    ensures local { (fields_of result).has_globals ≡ false }
{
    Command::new(alloc, name).about(about)
}

/// The command with one more argument, where it could be made.
pub fn with<'a>(
    command: Result<Command<'a>, AllocError>,
    argument: Arg<'a>,
) -> Result<Command<'a>, AllocError>
    requires command { IfOk command (λ c. (fields_of c).has_globals ≡ false) }
    requires argument { argument.global ≡ false }
    ensures app { (a : App) (r : Rule) → IfOk command.entry (λ c. app_of c ≡ a)
        → rule_of argument.entry ≡ r → IfOk result (λ c. app_of c ≡ with_rule a r) }
    ensures local { IfOk result (λ c. (fields_of c).has_globals ≡ false) }
{
    command?.arg(argument)
}

/// `--explain`
pub fn explain<'a>(alloc: Global) -> Arg<'a>
    ensures rule { rule_of result ≡ explain_rule }
    ensures local { result.global ≡ false }
{
    flag(
        alloc,
        "explain",
        "Say on a second line what a refusal or a fault means",
    )
}

/// `--quiet`
pub fn quiet<'a>(alloc: Global) -> Arg<'a>
    ensures rule { rule_of result ≡ quiet_rule }
    ensures local { result.global ≡ false }
{
    flag(
        alloc,
        "quiet",
        "Tell nothing on the way of how far long work is",
    )
}

/// The command with the flags that each subcommand has, and the program before them, where it could be made.
pub fn with_flags<'a>(
    alloc: Global,
    command: Result<Command<'a>, AllocError>,
) -> Result<Command<'a>, AllocError>
    requires { IfOk command (λ c. (fields_of c).has_globals ≡ false) }
    ensures app { (a : App) → IfOk command.entry (λ c. app_of c ≡ a)
        → IfOk result (λ c. app_of c ≡ with_flags a) }
    ensures local { IfOk result (λ c. (fields_of c).has_globals ≡ false) }
{
    with(with(command, explain(alloc)), quiet(alloc))
}

/// One value, which must be given.
pub fn required<'a>(alloc: Global, id: &'a str, help: &'a str) -> Arg<'a>
    ensures rule { rule_of result ≡ required_rule id.now }
    ensures local { result.global ≡ false }
{
    Arg::new(alloc, id).help(help).required(true)
}

/// `IMAGE`
pub fn image<'a>(alloc: Global) -> Arg<'a>
    ensures rule { rule_of result ≡ image_rule }
    ensures local { result.global ≡ false }
{
    required(alloc, "IMAGE", "The file of the saved session")
}

/// `--at-most LOOKS`
pub fn limit<'a>(alloc: Global) -> Arg<'a>
    ensures rule { rule_of result ≡ limit_rule }
    ensures local { result.global ≡ false }
{
    Arg::new(alloc, "LOOKS")
        .help("The most looks at nodes that the check may take")
        .long("at-most")
}

/// `--length LENGTH`
pub fn length<'a>(alloc: Global) -> Arg<'a>
    ensures rule { rule_of result ≡ length_rule }
    ensures local { result.global ≡ false }
{
    let often = ArgAction::Append;
    Arg::new(alloc, "LENGTH")
        .help("How many bytes a source has whose file is not given: it stands in a SOURCE's place")
        .long("length")
        .action(often)
}

/// `--start START`
pub fn from<'a>(alloc: Global) -> Arg<'a>
    ensures rule { rule_of result ≡ from_rule }
    ensures local { result.global ≡ false }
{
    Arg::new(alloc, "START")
        .help("The place of the first byte that is asked about, counted from 0")
        .long("start")
}

/// `--count COUNT`
pub fn count<'a>(alloc: Global) -> Arg<'a>
    ensures rule { rule_of result ≡ count_rule }
    ensures local { result.global ≡ false }
{
    Arg::new(alloc, "COUNT")
        .help("How many bytes are asked about")
        .long("count")
}

/// `REV`
pub fn revision<'a>(alloc: Global) -> Arg<'a>
    ensures rule { rule_of result ≡ revision_rule }
    ensures local { result.global ≡ false }
{
    required(
        alloc,
        "REV",
        "The number of the revision, counted from 0, or last",
    )
}

/// `[REV]`
pub fn optional_revision<'a>(alloc: Global) -> Arg<'a>
    ensures rule { rule_of result ≡ optional_revision_rule }
    ensures local { result.global ≡ false }
{
    Arg::new(alloc, "REV").help(
        "The number of the revision, counted from 0, or last, as where none is given",
    )
}

/// `--NAME`, which has no value.
pub fn flag<'a>(alloc: Global, name: &'a str, help: &'a str) -> Arg<'a>
    ensures rule { rule_of result ≡ flag_rule name.now }
    ensures local { result.global ≡ false }
{
    Arg::new(alloc, name)
        .help(help)
        .long(name)
        .action(ArgAction::SetTrue)
}

/// `[SOURCE]...`
pub fn sources<'a>(alloc: Global) -> Arg<'a>
    ensures rule { rule_of result ≡ sources_rule }
    ensures local { result.global ≡ false }
{
    Arg::new(alloc, "SOURCE")
        .help("The files that the session was made from, in their order")
        .action(ArgAction::Append)
}

/// `START`
pub fn start<'a>(alloc: Global) -> Arg<'a>
    ensures rule { rule_of result ≡ start_rule }
    ensures local { result.global ≡ false }
{
    required(
        alloc,
        "START",
        "The place of the first byte, counted from 0",
    )
}

/// `FILE`
pub fn file<'a>(alloc: Global) -> Arg<'a>
    ensures rule { rule_of result ≡ file_rule }
    ensures local { result.global ≡ false }
{
    required(alloc, "FILE", "The file")
}

/// `[FILE]`
pub fn optional_file<'a>(alloc: Global) -> Arg<'a>
    ensures rule { rule_of result ≡ optional_file_rule }
    ensures local { result.global ≡ false }
{
    Arg::new(alloc, "FILE").help("The file of the text to begin with")
}

/// `[SOURCE]`
pub fn optional_source<'a>(alloc: Global) -> Arg<'a>
    ensures rule { rule_of result ≡ optional_source_rule }
    ensures local { result.global ≡ false }
{
    Arg::new(alloc, "SOURCE").help("The file that the session was made from, if there is one")
}

/// `--keep KEYS`
pub fn keep<'a>(alloc: Global) -> Arg<'a>
    ensures rule { rule_of result ≡ keep_rule }
    ensures local { result.global ≡ false }
{
    Arg::new(alloc, "KEYS").long("keep").help(
        "The file in which keys are kept until they are saved, and that a session which was not goes on from",
    )
}

/// `--session SESSION`
pub fn session<'a>(alloc: Global) -> Arg<'a>
    ensures rule { rule_of result ≡ session_rule }
    ensures local { result.global ≡ false }
{
    Arg::new(alloc, "SESSION").long("session").help(
        "The file that has what there was when the session began, and goes once it is saved: a session that finds it goes on",
    )
}

/// `--onto OLD`
pub fn old<'a>(alloc: Global) -> Arg<'a>
    ensures rule { rule_of result ≡ old_rule }
    ensures local { result.global ≡ false }
{
    Arg::new(alloc, "OLD")
        .long("onto")
        .help("The file of the saved session that this one goes on from")
}

/// `--onto IMAGE`
pub fn onto<'a>(alloc: Global) -> Arg<'a>
    ensures rule { rule_of result ≡ onto_rule }
    ensures local { result.global ≡ false }
{
    Arg::new(alloc, "IMAGE").long("onto").help(
        "The file of the saved session that the script goes on from",
    )
}
