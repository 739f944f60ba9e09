//! What a line is answered.

ghost use Rattle.std.specs.Prelude.{◌≡◌, ◌∷◌, [], ◌++◌, codes, OnOk, IfOk, string_bytes};
ghost use Rattle.rope_node.specs.Denotes.{IsRope};
ghost use Rattle.edit_commands.specs.Session.{length_at, session_table};
ghost use Rattle.edit_script.specs.Words.{Number, line_of};
ghost use Rattle.session_server.specs.Answers.{revision_root};
ghost use Rattle.session_server.specs.Outcomes.{outcome_answer, stop_code};

use crate::outcome::Outcome;
use edit_commands::Session;
use edit_script::{Stop, push_number};
use itoa::Buffer;
use rope_node::{Rope, rope_len};
use std::alloc::{AllocError, Global};

/// The root of a revision, nil where there is none.
pub(crate) fn root_of(session: &Session, k: u32) -> Rope
    ensures root { result ≡ revision_root session.now k }
    ensures rope { IsRope (session_table session.now) result }
{
    let _count = session.count();
    match session.root(k) {
        Some(root) => root,
        None => None,
    }
}

/// How long the text of a revision is, 0 where there is none.
pub(crate) fn length_at(session: &Session, k: u32) -> u64
    ensures { result ≡ length_at session.now k }
{
    rope_len(session.space(), root_of(session, k))
}

/// Puts two numbers into room that is empty.
pub(crate) fn put_numbers(answer: &mut Vec<u8>, k: u64, len: u64) -> Result<(), AllocError>
    requires { answer.now.items ≡ [] }
    ensures { OnOk result (answer.new.items ≡ line_of (Number k ∷ Number len ∷ [])) }
{
    let mut digits = Buffer::new();
    answer.extend_from_slice(digits.format(k).as_bytes())?;
    push_number(answer, len)
}

/// Why a line was not taken, as it is told.
fn refusal(alloc: Global, why: Stop) -> Result<String, AllocError>
    ensures { IfOk result (λ text. string_bytes text ≡ codes "refused " ++ stop_code why) }
{
    match why {
        Stop::NoCommand => String::from_str(alloc, "refused P"),
        Stop::Memory => String::from_str(alloc, "refused memory"),
        Stop::Refused(fault) => format!(in alloc; "refused {fault}"),
    }
}

/// Puts the answer of a line into room that is empty.
pub(crate) fn put_answer(
    alloc: Global,
    session: &Session,
    outcome: Outcome,
    answer: &mut Vec<u8>,
) -> Result<(), AllocError>
    requires { answer.now.items ≡ [] }
    ensures { OnOk result (answer.new.items ≡ outcome_answer session.now outcome) }
{
    match outcome {
        Outcome::Made(k) => put_numbers(answer, u64::from(k), length_at(session, k)),
        Outcome::Nothing => answer.extend_from_slice(b"none"),
        Outcome::Stopped(why) => {
            let text = refusal(alloc, why)?;
            answer.extend_from_slice(text.as_bytes())
        }
    }
}
