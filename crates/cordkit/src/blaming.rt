//! Where bytes come from, as an output.

use crate::meter::Meter;
use cord_tools::ToolFault;
use image_files::{Output, told};
use lazy_file::Sources;
use script_tools::{BlameFault, BytesOfText, run_blame_told};
use std::io::{BufWriter, Write};

/// Lines are written by so many bytes.
const PIECE: usize = 65_536;

/// Writes where some bytes of a text of an image come from, once it is checked.
pub fn write_blame<S: Sources>(
    rt: &HostRuntime,
    image: &[u8],
    sources: &mut S,
    at_most: Option<u64>,
    wanted: BytesOfText,
    output: Output<'_>,
    meter: &mut Meter<'_>,
) -> Result<(), ToolFault> {
    let mut writer = BufWriter::with_capacity(rt.alloc(), PIECE, output).map_err(told)?;
    meter.start("records");
    let written = run_blame_told(
        rt.alloc(),
        image,
        sources,
        at_most,
        wanted,
        &mut writer,
        meter,
    );
    let flushed = writer.flush();
    match written {
        Ok(()) if flushed.is_ok() => Ok(()),
        Ok(()) | Err(BlameFault::Write) => Err(ToolFault::Write),
        Err(BlameFault::Memory) => Err(ToolFault::Memory),
        Err(BlameFault::NoRevision) => Err(ToolFault::NoRevision),
        Err(BlameFault::Check(fault)) => Err(ToolFault::from(fault)),
    }
}
