//! Scripts as inputs.

use crate::answer::Answer;
use crate::meter::Meter;
use cord_tools::{Status, ToolFault, read_source};
use edit_script::{Stop, Stopped};
use image_files::{Output, open, told, told_size};
use lazy_file::{AddFault, SOURCE_LIMIT, Sources};
use script_tools::{LogFault, LogTexts, run_log_told};
use std::alloc::{AllocError, Global};
use std::io::{BufWriter, Write};

/// A script is written by so many bytes.
const PIECE: usize = 65_536;

/// The lengths of all sources.
pub fn lens_of<S: Sources>(alloc: Global, sources: &S) -> Result<Vec<u64>, AllocError> {
    let mut lens = Vec::new(alloc);
    for s in 0..sources.count() {
        lens.push(sources.len(s))?;
    }
    Ok(lens)
}

/// The bytes of a script, which has no more of them than a source may have. One that tells more is not read.
pub fn read_script(rt: &HostRuntime, path: &str) -> Result<Vec<u8>, ToolFault> {
    let too_long = Err(ToolFault::Source(AddFault::SourceTooLong));
    let file = open(rt, path)?;
    if told_size(&file) > SOURCE_LIMIT {
        return too_long;
    }
    let script = read_source(rt.alloc(), file)?;
    if script.len() as u64 > SOURCE_LIMIT {
        return too_long;
    }
    Ok(script)
}

/// What is told of a code at a line, as `refused P(7)` or `refused E7(N1,7)`.
fn refusal_at(alloc: Global, code: &str, line: u64) -> Result<String, AllocError> {
    match code.strip_suffix(')') {
        Some(front) => format!(in alloc; "refused {front},{line})"),
        None => format!(in alloc; "refused {code}({line})"),
    }
}

/// Tells on standard error why a script was stopped, and at which line. Want of memory is no refusal.
pub fn refuse_script<W>(
    rt: &HostRuntime,
    stopped: Stopped,
    answer: &mut Answer<'_, W>,
) -> Result<Status, ToolFault> {
    let alloc = rt.alloc();
    let told = match stopped.why {
        Stop::Memory => return Err(ToolFault::Memory),
        Stop::NoCommand => refusal_at(alloc, "P", stopped.line)?,
        Stop::Refused(fault) => {
            let code = format!(in alloc; "{fault}")?;
            refusal_at(alloc, &code, stopped.line)?
        }
    };
    answer.keep(told.as_bytes());
    // There is no other place to tell that standard error is closed.
    let _ = rt.eprintln(told);
    Ok(Status::Failure)
}

/// Writes the script of an image, once it is checked.
pub fn write_log<S: Sources>(
    rt: &HostRuntime,
    image: &[u8],
    sources: &mut S,
    at_most: Option<u64>,
    brief: bool,
    output: Output<'_>,
    meter: &mut Meter<'_>,
) -> Result<(), ToolFault> {
    let texts = if brief {
        LogTexts::Brief
    } else {
        LogTexts::Whole
    };
    let mut writer = BufWriter::with_capacity(rt.alloc(), PIECE, output).map_err(told)?;
    meter.start("records");
    let written = run_log_told(
        rt.alloc(),
        image,
        sources,
        at_most,
        texts,
        &mut writer,
        meter,
    );
    let flushed = writer.flush();
    match written {
        Ok(()) if flushed.is_ok() => Ok(()),
        Ok(()) | Err(LogFault::Write) => Err(ToolFault::Write),
        Err(LogFault::Memory) => Err(ToolFault::Memory),
        Err(LogFault::Check(fault)) => Err(ToolFault::from(fault)),
    }
}
