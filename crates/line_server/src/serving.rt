//! The loop.

ghost use Rattle.std.specs.Prelude.{◌≡◌, [], IfErr, IfOk, OnErr, OnOk};
ghost use Rattle.std.specs.Io.Buffered.{reader_remaining};
ghost use Rattle.std.specs.Io.KnownBytes.{Appends};
ghost use Rattle.byte_output.specs.Prefix.{AppendsPrefix};
ghost use Rattle.line_server.specs.declared.fault.ServeFault.TheVariants.{Keep, Write};
ghost use Rattle.line_server.specs.Turns.{streams};
ghost use Rattle.line_server.specs.Batches.{IsBatch, Tells};
ghost use Rattle.line_server.specs.Runs.{RunsOn, IsServed};

use crate::fault::{End, ServeFault};
use crate::room::Room;
use crate::taking::TakesLines;
use crate::turning::turn;
use byte_output::write_bytes;
use memchr::memchr;
use std::io::{self, BufReader, Read};

/// So many lines are kept and told together at most.
const MOST_LINES: u32 = 4096;

/// Whether a whole line is in hand: it is read without waiting for one.
fn has_line<R: Read>(requests: &BufReader<R>) -> bool {
    memchr(b'\n', requests.buffer()).is_some()
}

/// Takes a line, waiting for it, and then those that are in hand.
#[tactic(auto, using(crate::proofs::Batches::batch_none))]
fn take_batch<T: TakesLines, R: Read>(
    taker: &mut T,
    requests: &mut BufReader<R>,
    room: &mut Room,
) -> Result<Option<End>, ServeFault>
    requires kept { room.now.kept.items ≡ [] }
    requires told { room.now.told.items ≡ [] }
    ensures { IsBatch T.step T.ends taker.old (reader_remaining R.remaining requests.old) result taker.new
        (reader_remaining R.remaining requests.new) room.new.kept.items room.new.told.items }
{
    for _ in 0..MOST_LINES {
        match turn(taker, requests, room) {
            Ok(None) => {}
            Ok(Some(end)) => return Ok(Some(end)),
            Err(fault) => return Err(fault),
        }
        if room.is_full() || !has_line(requests) {
            return Ok(None);
        }
    }
    Ok(None)
}

/// Keeps bytes.
fn keep<J: io::Write>(journal: &mut J, bytes: &[u8]) -> Result<(), ServeFault>
    ensures ok { OnOk result (Appends (J.contents journal.old) (J.contents journal.new) bytes.now) }
    ensures err { OnErr result (AppendsPrefix (J.contents journal.old) (J.contents journal.new) bytes.now) }
    ensures fault { IfErr result (λ e. e ≡ Keep) }
{
    match write_bytes(journal, bytes) {
        Ok(()) => Ok(()),
        Err(_) => Err(ServeFault::Keep),
    }
}

/// Tells bytes.
fn tell<W: io::Write>(answers: &mut W, bytes: &[u8]) -> Result<(), ServeFault>
    ensures ok { OnOk result (Appends (W.contents answers.old) (W.contents answers.new) bytes.now) }
    ensures err { OnErr result (AppendsPrefix (W.contents answers.old) (W.contents answers.new) bytes.now) }
    ensures fault { IfErr result (λ e. e ≡ Write) }
{
    match write_bytes(answers, bytes) {
        Ok(()) => Ok(()),
        Err(_) => Err(ServeFault::Write),
    }
}

/// Keeps what is to be kept of lines, and then tells their answers.
fn keep_and_tell<J: io::Write, W: io::Write>(
    kept: &[u8],
    told: &[u8],
    journal: &mut J,
    answers: &mut W,
) -> Result<(), ServeFault>
    ensures { Tells (J.contents journal.old) (J.contents journal.new) (W.contents answers.old) (W.contents answers.new)
        kept.now told.now result }
{
    keep(journal, kept)?;
    tell(answers, told)
}

/// Takes the lines that are in hand together, keeps what is to be kept of them by one write, and tells
/// their answers by one.
fn serve_batch<T: TakesLines, R: Read, J: io::Write, W: io::Write>(
    taker: &mut T,
    requests: &mut BufReader<R>,
    journal: &mut J,
    answers: &mut W,
    room: &mut Room,
) -> Result<Option<End>, ServeFault>
    ensures { RunsOn T.step T.ends taker.old
        (streams (reader_remaining R.remaining requests.old) (J.contents journal.old) (W.contents answers.old))
        result taker.new
        (streams (reader_remaining R.remaining requests.new) (J.contents journal.new) (W.contents answers.new)) }
{
    room.empty();
    let batch = take_batch(taker, requests, room);
    match keep_and_tell(&room.kept, &room.told, journal, answers) {
        Ok(()) => batch,
        Err(fault) => Err(fault),
    }
}

/// Takes lines, one after the other, up to one that ends the run, or to the end of the input. What is to be kept of
/// those that are in hand together is kept, each line with its end, before the first of them is answered. The line that
/// ended the run stands in the room then.
///
/// # Errors
///
/// `Read`, where no line could be read, and `Memory`: every line that was taken is kept and answered. `Keep`, where
/// lines were taken and not kept to their end, and `Write`, where their answers were not told to their end: every line
/// before them was kept and answered.
#[tactic(auto, using(crate::proofs::Runs::serving_none, crate::proofs::Runs::unended))]
pub fn serve<T: TakesLines, R: Read, J: io::Write, W: io::Write>(
    taker: &mut T,
    requests: &mut BufReader<R>,
    journal: &mut J,
    answers: &mut W,
    room: &mut Room,
) -> Result<End, ServeFault>
    ensures { IsServed T.step T.ends taker.old
        (streams (reader_remaining R.remaining requests.old) (J.contents journal.old) (W.contents answers.old))
        result taker.new
        (streams (reader_remaining R.remaining requests.new) (J.contents journal.new) (W.contents answers.new)) }
{
    for _ in 0..u64::MAX {
        match serve_batch(taker, requests, journal, answers, room) {
            Ok(None) => {}
            Ok(Some(end)) => return Ok(end),
            Err(fault) => return Err(fault),
        }
    }
    Err(ServeFault::Read)
}
