//! A session with its sources behind a run of requests: commands and questions.

ghost use Rattle.std.specs.Prelude.{◌≡◌, [], IfOk};
ghost use Rattle.std.specs.Io.Buffered.{reader_remaining};
ghost use Rattle.line_server.specs.Runs.{IsServed};
ghost use Rattle.line_server.specs.Turns.{streams};
ghost use Rattle.session_server.specs.Outcomes.{ServesLine};
ghost use Rattle.session_server.specs.Spoken.{IsLeaving, Speaks};

use crate::answering::put_answer;
use crate::asking::answer_question;
use crate::outcome::Outcome;
use crate::question::asked;
use crate::taking::take_line;
use edit_commands::Session;
use edit_script::{LineFault, Room};
use lazy_file::Sources;
use line_server::{End, Next, Room as LineRoom, ServeFault, TakesLines, serve};
use std::alloc::{AllocError, Global};
use std::io::{self, BufReader, Read};

/// A session with its sources, which takes lines.
#[derive(Drop)]
pub struct Speaking<S: Sources> {
    alloc: Global,
    session: Session,
    sources: S,
    room: Room,
}

/// Takes a line that asks for nothing. Answers whether it is kept.
fn say(
    alloc: Global,
    session: &mut Session,
    room: &mut Room,
    line: &[u8],
    answer: &mut Vec<u8>,
) -> Result<bool, AllocError>
    requires { answer.now.items ≡ [] }
    ensures { IfOk result (λ kept. ServesLine session.old line.now kept answer.new.items session.new) }
{
    let outcome = take_line(session, line, room);
    put_answer(alloc, session, outcome, answer)?;
    match outcome {
        Outcome::Made(_) => Ok(true),
        Outcome::Nothing | Outcome::Stopped(_) => Ok(false),
    }
}

impl<S: Sources> Speaking<S> {
    /// A session over these sources. It takes no memory.
    pub fn new(alloc: Global, session: Session, sources: S) -> Speaking<S>
        ensures session { result.session ≡ session }
        ensures sources { result.sources ≡ sources }
    {
        Speaking {
            alloc,
            session,
            sources,
            room: Room::new(alloc),
        }
    }

    /// The session and its sources, which are handed back.
    pub fn into_parts(self) -> (Session, S)
        ensures session { result.0 ≡ self.session }
        ensures sources { result.1 ≡ self.sources }
    {
        (self.session, self.sources)
    }

    /// The session.
    pub fn session(&self) -> &Session
        ensures { result.now ≡ self.now.session }
    {
        &self.session
    }
}

impl<S: Sources> TakesLines for Speaking<S> {
    ghost use Rattle.session_server.specs.Spoken.{IsLeaving, Speaks};

    ghost step = { λ old line kept answer new. Speaks
        (record { session = old.session; reading = S.reading old.sources }) line kept answer
        (record { session = new.session; reading = S.reading new.sources }) };

    ghost ends = { IsLeaving };

    fn take(&mut self, line: &[u8], answer: &mut Vec<u8>) -> Result<Next, AllocError> {
        let mut pattern = Vec::new(self.alloc);
        match asked(line, &mut pattern) {
            Ok(question) => {
                let session = &self.session;
                let sources = &mut self.sources;
                if answer_question(self.alloc, session, sources, &pattern, question, answer)? {
                    Ok(Next::Answer)
                } else {
                    Ok(Next::End)
                }
            }
            Err(LineFault::NoCommand) => {
                if say(self.alloc, &mut self.session, &mut self.room, line, answer)? {
                    Ok(Next::Keep)
                } else {
                    Ok(Next::Answer)
                }
            }
            Err(LineFault::Memory) => {
                answer.extend_from_slice(b"refused memory")?;
                Ok(Next::Answer)
            }
        }
    }
}

/// Has a session with its sources take requests, a line each, up to one that asks to save, to sync or to quit, or to the
/// end of the input. A line that makes a revision is kept before it is answered.
///
/// # Errors
///
/// As those of `serve`.
pub fn serve_speaking<S: Sources, R: Read, J: io::Write, W: io::Write>(
    speaking: &mut Speaking<S>,
    requests: &mut BufReader<R>,
    journal: &mut J,
    answers: &mut W,
    room: &mut LineRoom,
) -> Result<End, ServeFault>
    ensures { IsServed Speaks IsLeaving
        (record { session = speaking.old.session; reading = S.reading speaking.old.sources })
        (streams (reader_remaining R.remaining requests.old) (J.contents journal.old) (W.contents answers.old))
        result
        (record { session = speaking.new.session; reading = S.reading speaking.new.sources })
        (streams (reader_remaining R.remaining requests.new) (J.contents journal.new) (W.contents answers.new)) }
{
    serve(speaking, requests, journal, answers, room)
}
