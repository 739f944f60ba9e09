//! What is asked of a session.

ghost use Rattle.std.specs.Prelude.{◌≡◌, [], IfOk, List, Some};
ghost use Rattle.edit_script.specs.Reading.{IsReadAs, end_at, named_in, quoted_at};
ghost use Rattle.edit_script.specs.Words.{HasWords, Word};
ghost use Rattle.session_server.specs.Questions.{AsksBy, IsNumbered, IsQuestion, asked_words, question_at, question_shapes};

use edit_script::{
    LineFault, behind_blanks, is_end, number32, number64, quoted_bytes, split_front,
};

/// The numbers of the questions, in the order of their names.
const LAST: u8 = 1;

const LENGTH: u8 = 2;

const BYTES: u8 = 3;

const FIND: u8 = 4;

const SYNC: u8 = 5;

const SAVE: u8 = 6;

const QUIT: u8 = 7;

/// What a line asks for.
#[derive(Clone, Copy, Debug, PartialEq, Eq)]
pub enum Question {
    /// The last revision, and how long its text is.
    Last,
    /// How long the text of a revision is.
    Length(u32),
    /// `n` bytes of the text of revision `r` from place `i` on.
    Bytes { r: u32, i: u64, n: u64 },
    /// The first place from `i` on at which a pattern stands in the text of revision `r`.
    Find { r: u32, i: u64 },
    /// That what was kept is synced.
    Sync,
    /// That the image is written.
    Save,
    /// That the run ends.
    Quit,
}

/// A question behind whose words the line ends.
fn ended(question: Question, line: &[u8]) -> Result<Question, LineFault>
    ensures end { IsReadAs (λ _. []) result (end_at line.now) }
    ensures same { IfOk result (λ q. q ≡ question) }
{
    if is_end(line) {
        Ok(question)
    } else {
        Err(LineFault::NoCommand)
    }
}

/// The number of the question of this name.
#[tactic(auto, using(std::proofs::lemmas::Slice::Eq::text_from_reads))]
fn number_of(name: &[u8]) -> Option<u8>
    ensures { IsNumbered name.now result }
{
    match name {
        b"last" => Some(LAST),
        b"length" => Some(LENGTH),
        b"bytes" => Some(BYTES),
        b"find" => Some(FIND),
        b"sync" => Some(SYNC),
        b"save" => Some(SAVE),
        b"quit" => Some(QUIT),
        _ => None,
    }
}

/// The pattern that a line begins with, put into room that is empty. It leaves what is behind it.
#[tactic(auto, using(std::proofs::lemmas::List::take_all))]
fn pattern(line: &mut &[u8], room: &mut Vec<u8>) -> Result<(), LineFault>
    requires { room.now.items ≡ [] }
    ensures { IsReadAs (λ _. (room.new.items, line.new.now)) result (quoted_at line.old.now) }
{
    quoted_bytes(line, room)?;
    Ok(())
}

/// The question of this name, from the words behind it.
fn named(name: &[u8], line: &mut &[u8], room: &mut Vec<u8>) -> Result<Question, LineFault>
    requires { room.now.items ≡ [] }
    ensures { IsReadAs (asked_words room.new.items) result (named_in question_shapes name.now line.old.now) }
{
    let number = number_of(name).ok_or(LineFault::NoCommand)?;
    #[rattlefmt::skip]
    match number {
        LAST => ended(Question::Last, line),
        LENGTH => ended(Question::Length(number32(line)?), line),
        BYTES => ended(Question::Bytes { r: number32(line)?, i: number64(line)?, n: number64(line)? }, line),
        FIND => {
            let question = Question::Find { r: number32(line)?, i: number64(line)? };
            pattern(line, room)?;
            ended(question, line)
        }
        SYNC => ended(Question::Sync, line),
        SAVE => ended(Question::Save, line),
        QUIT => ended(Question::Quit, line),
        _ => Err(LineFault::NoCommand),
    }
}

/// What a line asks for, with a room that is empty.
fn read_question(line: &[u8], room: &mut Vec<u8>) -> Result<Question, LineFault>
    requires { room.now.items ≡ [] }
    ensures { IsReadAs (asked_words room.new.items) result (question_at line.now) }
{
    let (name, mut rest) = split_front(behind_blanks(line));
    named(name, &mut rest, room)
}

/// What a line asks for. What a search is for is put into the room, in place of what was there.
///
/// # Errors
///
/// `NoCommand`, where the line asks for nothing that there is. `Memory`, where memory was refused.
pub fn asked(line: &[u8], room: &mut Vec<u8>) -> Result<Question, LineFault>
    // What is read stands in the line.
    ensures found { IfOk result (λ q. AsksBy line.now (asked_words room.new.items q)) }
    // What stands in the line is read, unless memory runs out.
    ensures only { (words : List Word) → IsQuestion words → HasWords line.now words
        → IsReadAs (asked_words room.new.items) result (Some words) }
{
    room.clear();
    read_question(line, room)
}
