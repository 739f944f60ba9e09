//! The check of an image with its sources.

ghost use Rattle.std.specs.Prelude.{◌≡◌, ◌⊎◌, IfErr, IfOk, string_bytes};
ghost use Rattle.session_checker.specs.Accepted.{BytesAsk};
ghost use Rattle.cord_tools.specs.Answers.{accepted_line, refused_line, refused_source_line};
ghost use Rattle.cord_tools.specs.Answers.{AnswersWith, ChecksImage, ChecksInput, RefusesCheck};
ghost use Rattle.cord_tools.specs.Unread.{ToolReads, StopsAt};

use crate::fault::ToolFault;
use crate::input::read_image;
use crate::status::Status;
use byte_output::write_bytes;
use lazy_file::{AddFault, MemSources, Sources};
use rope_node::NodeSpace;
use session_checker::{CheckFault, Checked, check_told};
use std::alloc::{AllocError, Global};
use std::io;
use work_progress::{Progress, Untold};

/// The line that counts what an accepted image has.
fn accepted_line(alloc: Global, image: &Checked) -> Result<String, AllocError>
    ensures { IfOk result (λ line. string_bytes line ≡ accepted_line image.now) }
{
    let revisions = image.revisions();
    let nodes = image.count();
    let rows = image.rows();
    format!(in alloc; "accepted {revisions} revisions {nodes} nodes {rows} rows\n")
}

/// The line that names a refusal.
fn refused_line(alloc: Global, fault: CheckFault) -> Result<String, AllocError>
    ensures { IfOk result (λ line. string_bytes line ≡ refused_line fault) }
{
    format!(in alloc; "refused {fault}\n")
}

/// The line that names the refusal of a source.
fn refused_source_line(alloc: Global, refusal: AddFault) -> Result<String, AllocError>
    ensures { IfOk result (λ line. string_bytes line ≡ refused_source_line refusal) }
{
    format!(in alloc; "refused {refusal}\n")
}

/// The line and the status that answer for an image with its sources.
fn answer_with<S: Sources, P: Progress>(
    alloc: Global,
    bytes: &[u8],
    sources: &mut S,
    at_most: Option<u64>,
    progress: &mut P,
) -> Result<(String, Status), ToolFault>
    ensures ok { IfOk result
        (λ x. AnswersWith at_most (S.reading sources.old).stated bytes.now (string_bytes x.0) x.1) }
    ensures fault { IfErr result (λ e. (e ≡ ToolFault.Memory)
        ⊎ StopsAt (S.reading sources.old) (S.reading sources.new)
        (BytesAsk (S.reading sources.old).stated bytes.now) e) }
    ensures reads { ToolReads (S.reading sources.old) (S.reading sources.new)
        (BytesAsk (S.reading sources.old).stated bytes.now) result }
{
    match check_told(bytes, sources, at_most, progress) {
        Ok(image) => Ok((accepted_line(alloc, &image)?, Status::Success)),
        Err(CheckFault::Source(fault)) => Err(ToolFault::from(fault)),
        Err(fault) => Ok((refused_line(alloc, fault)?, Status::Failure)),
    }
}

/// Checks the image that the reader gives, with these sources, and writes one line:
/// `accepted R revisions N nodes K rows` or `refused CODE`. It reads sources only where rows
/// compare their bytes. Room for `expected` bytes of the image is taken first. Where the check
/// may take more than `at_most` looks at nodes, the line is `refused looks N`, with that number.
///
/// # Errors
///
/// `Read`, where the reader failed, or a source that a row compares, and `Memory`: nothing was written then. `Write`,
/// where the writer failed or took no byte: a prefix of the line was.
pub fn run_check<R: io::Read + Drop, S: Sources, W: io::Write>(
    alloc: Global,
    reader: R,
    expected: u64,
    sources: &mut S,
    at_most: Option<u64>,
    writer: &mut W,
) -> Result<Status, ToolFault>
    ensures { ChecksImage at_most S.reading sources.old sources.new (R.remaining reader)
        (W.contents writer.old) (W.contents writer.new) result }
{
    run_check_told(
        alloc,
        reader,
        expected,
        sources,
        at_most,
        writer,
        &mut Untold,
    )
}

/// Does what `run_check` does, and tells on the way how many of the
/// image's records are done, and before it writes that it is over.
///
/// # Errors
///
/// As those of `run_check`.
pub fn run_check_told<R: io::Read + Drop, S: Sources, W: io::Write, P: Progress>(
    alloc: Global,
    reader: R,
    expected: u64,
    sources: &mut S,
    at_most: Option<u64>,
    writer: &mut W,
    progress: &mut P,
) -> Result<Status, ToolFault>
    ensures { ChecksImage at_most S.reading sources.old sources.new (R.remaining reader)
        (W.contents writer.old) (W.contents writer.new) result }
{
    let bytes = read_image(alloc, reader, expected)?;
    let (line, status) = answer_with(alloc, &bytes, sources, at_most, progress)?;
    write_bytes(writer, line.as_bytes())?;
    Ok(status)
}

/// The check of standard input, with no sources and no limit, as `run_check` does it.
///
/// # Errors
///
/// `Read`, `Memory` and `Write`, as there.
pub fn run_stdin<R: io::Read + Drop, W: io::Write>(
    alloc: Global,
    reader: R,
    writer: &mut W,
) -> Result<Status, ToolFault>
    ensures { ChecksInput (R.remaining reader) (W.contents writer.old) (W.contents writer.new) result }
{
    run_check(alloc, reader, 0, &mut MemSources::new(alloc), None, writer)
}

/// Answers a check whose sources are refused, before the image's bytes are
/// looked at: it writes the line `refused CODE`, and answers `Failure`.
///
/// # Errors
///
/// `Memory`, also where that is why a source was not added: nothing was written
/// then. `Write`, where the writer failed or took no byte: a prefix of the line was.
pub fn refuse_check<W: io::Write>(
    alloc: Global,
    refusal: AddFault,
    writer: &mut W,
) -> Result<Status, ToolFault>
    ensures { RefusesCheck refusal (W.contents writer.old) (W.contents writer.new) result }
{
    if refusal == AddFault::Memory {
        return Err(ToolFault::Memory);
    }
    let line = refused_source_line(alloc, refusal)?;
    write_bytes(writer, line.as_bytes())?;
    Ok(Status::Failure)
}
