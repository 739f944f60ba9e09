//! Questions answered.

ghost use Rattle.std.specs.Prelude.{◌≡◌, [], IfOk, IsTrue, OnOk, not, string_bytes};
ghost use Rattle.edit_script.specs.Words.{Quoted, printed_word};
ghost use Rattle.session_server.specs.Answers.{IsAnswer, IsBytesAnswer, IsPlaceAnswer, ask_refusal, last_answer, length_answer, place_answer};
ghost use Rattle.session_server.specs.Spoken.{IsLeave};

use crate::answering::{length_at, put_numbers};
use crate::fault::AskFault;
use crate::question::Question;
use crate::reading::{bytes_of, place_of};
use edit_commands::Session;
use edit_script::push_escaped;
use itoa::Buffer;
use lazy_file::Sources;
use std::alloc::{AllocError, Global};

/// Why a question is not answered, as it is told.
fn refusal(alloc: Global, fault: AskFault) -> Result<String, AllocError>
    ensures { IfOk result (λ text. string_bytes text ≡ ask_refusal fault) }
{
    format!(in alloc; "refused {fault}")
}

/// Puts why a question is not answered in place of what stands in the room.
fn refuse(alloc: Global, fault: AskFault, answer: &mut Vec<u8>) -> Result<(), AllocError>
    ensures { OnOk result (answer.new.items ≡ ask_refusal fault) }
{
    let text = refusal(alloc, fault)?;
    answer.clear();
    answer.extend_from_slice(text.as_bytes())
}

/// Puts bytes in quotes into room that is empty.
fn put_quoted(answer: &mut Vec<u8>, bytes: &[u8]) -> Result<(), AllocError>
    requires { answer.now.items ≡ [] }
    ensures { OnOk result (answer.new.items ≡ printed_word (Quoted bytes.now)) }
{
    answer.push(b'"')?;
    push_escaped(answer, bytes)?;
    Ok(answer.push(b'"')?)
}

/// Puts a place, or none, into room that is empty.
fn put_place(answer: &mut Vec<u8>, found: Option<u64>) -> Result<(), AllocError>
    requires { answer.now.items ≡ [] }
    ensures { OnOk result (answer.new.items ≡ place_answer found) }
{
    match found {
        Some(place) => {
            let mut digits = Buffer::new();
            answer.extend_from_slice(digits.format(place).as_bytes())
        }
        None => answer.extend_from_slice(b"none"),
    }
}

/// Answers how long the text of a revision is.
fn answer_length(
    alloc: Global,
    session: &Session,
    r: u32,
    answer: &mut Vec<u8>,
) -> Result<(), AllocError>
    requires { answer.now.items ≡ [] }
    ensures { OnOk result (answer.new.items ≡ length_answer session.now r) }
{
    if r >= session.count() {
        return refuse(alloc, AskFault::NoRevision, answer);
    }
    put_numbers(answer, u64::from(r), length_at(session, r))
}

/// Answers what the last revision is.
fn answer_last(alloc: Global, session: &Session, answer: &mut Vec<u8>) -> Result<(), AllocError>
    requires { answer.now.items ≡ [] }
    ensures { OnOk result (answer.new.items ≡ last_answer session.now) }
{
    let count = session.count();
    if count == 0 {
        return answer.extend_from_slice(b"none");
    }
    answer_length(alloc, session, count - 1, answer)
}

/// Answers `n` bytes of the text of revision `r` from place `i` on.
fn answer_bytes<T: Sources>(
    alloc: Global,
    session: &Session,
    sources: &mut T,
    r: u32,
    i: u64,
    n: u64,
    answer: &mut Vec<u8>,
) -> Result<(), AllocError>
    requires { answer.now.items ≡ [] }
    ensures { OnOk result (IsBytesAnswer session.now (T.reading sources.old) r i n answer.new.items
        (T.reading sources.new)) }
{
    match bytes_of(alloc, session, sources, r, i, n) {
        Ok(part) => match put_quoted(answer, &part) {
            Ok(()) => Ok(()),
            Err(_) => refuse(alloc, AskFault::Memory, answer),
        },
        Err(fault) => refuse(alloc, fault, answer),
    }
}

/// Answers the first place from `i` on at which a pattern stands in the text of revision `r`.
fn answer_place<T: Sources>(
    alloc: Global,
    session: &Session,
    sources: &mut T,
    pattern: &[u8],
    r: u32,
    i: u64,
    answer: &mut Vec<u8>,
) -> Result<(), AllocError>
    requires { answer.now.items ≡ [] }
    ensures { OnOk result (IsPlaceAnswer session.now (T.reading sources.old) pattern.now r i answer.new.items
        (T.reading sources.new)) }
{
    match place_of(alloc, session, sources, r, i, pattern) {
        Ok(found) => put_place(answer, found),
        Err(fault) => refuse(alloc, fault, answer),
    }
}

/// Answers a question. Answers whether it did: others are not of the session.
pub(crate) fn answer_question<T: Sources>(
    alloc: Global,
    session: &Session,
    sources: &mut T,
    pattern: &[u8],
    question: Question,
    answer: &mut Vec<u8>,
) -> Result<bool, AllocError>
    requires { answer.now.items ≡ [] }
    ensures told { IfOk result (λ b. IsTrue b → IsAnswer session.now (T.reading sources.old) pattern.now question
        answer.new.items (T.reading sources.new)) }
    ensures leaves { IfOk result (λ b. IsTrue (not b) → IsLeave question) }
    ensures unread { IfOk result (λ b. IsTrue (not b) → sources.new ≡ sources.old) }
{
    match question {
        Question::Last => {
            answer_last(alloc, session, answer)?;
            Ok(true)
        }
        Question::Length(r) => {
            answer_length(alloc, session, r, answer)?;
            Ok(true)
        }
        Question::Bytes { r, i, n } => {
            answer_bytes(alloc, session, sources, r, i, n, answer)?;
            Ok(true)
        }
        Question::Find { r, i } => {
            answer_place(alloc, session, sources, pattern, r, i, answer)?;
            Ok(true)
        }
        Question::Sync | Question::Save | Question::Quit => Ok(false),
    }
}
