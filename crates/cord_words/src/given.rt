//! The arguments of a subcommand, as they were given.

ghost use Rattle.std.specs.Prelude.{◌≡◌, ◌∷◌, ◌++◌, [], All, IfOk, IfErr, IfSome, OnOk, codes, is_some, map};
ghost use Rattle.std.specs.List.{AllZip};
ghost use Rattle.std.specs.Option.{option_map};
ghost use Rattle.clap.specs.Words.{first_of, found_of, rows_of};
ghost use Rattle.clap.specs.declared.error.kind.ErrorKind.TheVariants.{ValueValidation};
ghost use Rattle.cord_words.specs.Words.{EachReadsAs, IsNumber, IsRevisionWord, MayReadAs, NamesRevision, ReadsAs, argument_text, argument_texts, is_set};
ghost use Rattle.cord_words.specs.Refusals.{FailsAs};

use crate::action::Lengths;
use crate::fault::WordsFault;
use clap::error::ErrorKind;
use clap::{ArgMatches, Command};
use std::alloc::{AllocError, Global};

/// The word for the last revision.
const LAST: &str = "last";

/// The text of an argument, and the empty text where it has none.
pub fn text<'a>(given: &ArgMatches<'a>, id: &str) -> &'a str
    ensures { result.now ≡ argument_text (rows_of (found_of given.now)) id.now }
{
    given.get_str(id).unwrap_or("")
}

/// The text of an argument, if it has one.
pub fn optional_text<'a>(given: &ArgMatches<'a>, id: &str) -> Option<&'a str>
    ensures { option_map (λ text. text.now) result ≡ first_of id.now (rows_of (found_of given.now)) }
{
    given.get_str(id)
}

/// Whether an argument has a text.
pub fn has(given: &ArgMatches<'_>, id: &str) -> bool
    ensures { result ≡ is_some (first_of id.now (rows_of (found_of given.now))) }
{
    match optional_text(given, id) {
        Some(_) => true,
        None => false,
    }
}

/// Whether a flag was given.
pub fn flag(given: &ArgMatches<'_>, id: &str) -> bool
    ensures { result ≡ is_set (rows_of (found_of given.now)) id.now }
{
    match optional_text(given, id) {
        Some(text) => text == "true",
        None => false,
    }
}

/// The texts of an argument in their order, and none where it was not given.
pub fn texts<'a>(
    alloc: Global,
    given: &ArgMatches<'a>,
    id: &str,
) -> Result<Vec<&'a str>, AllocError>
    ensures { IfOk result (λ texts.
        map (λ text. text.now) texts.items ≡ argument_texts (rows_of (found_of given.now)) id.now) }
{
    Vec::from_slice(alloc, given.get_strs(id).unwrap_or(&[]))
}

/// The number that the text of an argument is. Where it is none of 64 bits, the fault is one of `command`.
fn parsed(alloc: Global, command: &mut Command<'_>, id: &str, text: &str) -> Result<u64, WordsFault>
    ensures reads { IfOk result (ReadsAs text.now) }
    ensures only_memory { IfErr result (λ f. IsNumber text.now → f ≡ WordsFault.Memory) }
    ensures kind { IfErr result (FailsAs (ValueValidation ∷ [])) }
{
    match text.parse::<u64>() {
        Ok(number) => Ok(number),
        Err(error) => {
            let message = format!(in alloc; "invalid value '{text}' for '<{id}>': {error}")?;
            let error = command.error(ErrorKind::ValueValidation, message.as_str())?;
            Err(WordsFault::Usage(error))
        }
    }
}

/// The number of an argument. Where its text is none of 64 bits, the fault is one of `command`.
pub fn number(
    alloc: Global,
    command: &mut Command<'_>,
    given: &ArgMatches<'_>,
    id: &str,
) -> Result<u64, WordsFault>
    ensures reads { IfOk result (ReadsAs (argument_text (rows_of (found_of given.now)) id.now)) }
    ensures only_memory { IfErr result (λ f.
        IsNumber (argument_text (rows_of (found_of given.now)) id.now) → f ≡ WordsFault.Memory) }
    ensures kind { IfErr result (FailsAs (ValueValidation ∷ [])) }
{
    parsed(alloc, command, id, text(given, id))
}

/// The number of an argument, if it has one. Where its text is none of 64 bits, the fault is one of `command`.
pub fn optional_number(
    alloc: Global,
    command: &mut Command<'_>,
    given: &ArgMatches<'_>,
    id: &str,
) -> Result<Option<u64>, WordsFault>
    ensures reads { IfOk result (MayReadAs (first_of id.now (rows_of (found_of given.now)))) }
    ensures only_memory { IfErr result (λ f.
        IfSome (first_of id.now (rows_of (found_of given.now))) IsNumber → f ≡ WordsFault.Memory) }
    ensures kind { IfErr result (FailsAs (ValueValidation ∷ [])) }
{
    match optional_text(given, id) {
        None => Ok(None),
        Some(text) => Ok(Some(parsed(alloc, command, id, text)?)),
    }
}

/// The number of the revision that an argument names; none, where that is the last one, as where it was not given.
/// Where its text is neither `last` nor a number of 64 bits, the fault is one of `command`.
pub fn revision(
    alloc: Global,
    command: &mut Command<'_>,
    given: &ArgMatches<'_>,
    id: &str,
) -> Result<Option<u64>, WordsFault>
    ensures names { IfOk result (NamesRevision (first_of id.now (rows_of (found_of given.now)))) }
    ensures only_memory { IfErr result (λ f.
        IfSome (first_of id.now (rows_of (found_of given.now))) IsRevisionWord → f ≡ WordsFault.Memory) }
    ensures kind { IfErr result (FailsAs (ValueValidation ∷ [])) }
{
    match optional_text(given, id) {
        None => Ok(None),
        Some(text) if text == LAST => Ok(None),
        Some(number) => Ok(Some(parsed(alloc, command, id, number)?)),
    }
}

/// Adds a number behind the others.
fn push(numbers: &mut Vec<u64>, number: u64) -> Result<(), AllocError>
    ensures { OnOk result (numbers.new.items ≡ numbers.old.items ++ number ∷ []) }
{
    numbers.push(number)?;
    Ok(())
}

/// The numbers of texts, one by one. Where one is none of 64 bits, the fault is one of `command`.
fn each_parsed(
    alloc: Global,
    command: &mut Command<'_>,
    id: &str,
    texts: &[&str],
) -> Result<Vec<u64>, WordsFault>
    ensures reads { IfOk result (λ numbers. AllZip (λ t. ReadsAs t.now) texts.now numbers.items) }
    ensures only_memory { IfErr result (λ f. All (λ t. IsNumber t.now) texts.now → f ≡ WordsFault.Memory) }
    ensures kind { IfErr result (FailsAs (ValueValidation ∷ [])) }
{
    let mut numbers = Vec::new(alloc);
    for text in texts {
        match parsed(alloc, command, id, text) {
            Ok(number) => push(&mut numbers, number)?,
            Err(fault) => return Err(fault),
        }
    }
    Ok(numbers)
}

/// The numbers of an argument in their order, and none where it was not given. Where a text is none of 64 bits, the
/// fault is one of `command`.
fn numbers(
    alloc: Global,
    command: &mut Command<'_>,
    given: &ArgMatches<'_>,
    id: &str,
) -> Result<Vec<u64>, WordsFault>
    ensures reads { IfOk result (λ numbers.
        EachReadsAs (argument_texts (rows_of (found_of given.now)) id.now) numbers.items) }
    ensures only_memory { IfErr result (λ f.
        All IsNumber (argument_texts (rows_of (found_of given.now)) id.now) → f ≡ WordsFault.Memory) }
    ensures kind { IfErr result (FailsAs (ValueValidation ∷ [])) }
{
    let texts = texts(alloc, given, id)?;
    each_parsed(alloc, command, id, &texts)
}

/// How many files stand before each length among the words.
fn files_before(alloc: Global, given: &ArgMatches<'_>) -> Result<Vec<usize>, AllocError> {
    let lengths = given.indices_of("LENGTH").unwrap_or(&[]);
    let files = given.indices_of("SOURCE").unwrap_or(&[]);
    let mut before = Vec::new(alloc);
    for place in lengths {
        before.push(files.iter().filter(|file| *file < place).count())?;
    }
    Ok(before)
}

/// The lengths that were given. Where one is no number of 64 bits, the fault is one of `command`.
pub fn lengths(
    alloc: Global,
    command: &mut Command<'_>,
    given: &ArgMatches<'_>,
) -> Result<Lengths, WordsFault>
    ensures reads { IfOk result (λ lengths.
        EachReadsAs (argument_texts (rows_of (found_of given.now)) (codes "LENGTH")) lengths.numbers.items) }
    ensures only_memory { IfErr result (λ f.
        All IsNumber (argument_texts (rows_of (found_of given.now)) (codes "LENGTH")) → f ≡ WordsFault.Memory) }
    ensures kind { IfErr result (FailsAs (ValueValidation ∷ [])) }
{
    Ok(Lengths {
        numbers: numbers(alloc, command, given, "LENGTH")?,
        files_before: files_before(alloc, given)?,
    })
}
