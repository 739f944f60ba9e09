//! A session that was saved, and ended before its keys were taken away.

use cord_tools::{Status, ToolFault, run_kept, run_kept_onto};
use image_files::Twin;
use key_journal::{Kept, SAVE};
use lazy_file::Sources;
use std::{fs, io};

/// The key that saves, as often as it is read.
#[derive(Drop)]
struct Saving;

impl io::Read for Saving {
    fn read(&mut self, buffer: &mut [u8]) -> io::Result<usize> {
        match buffer.first_mut() {
            Some(first) => {
                *first = SAVE;
                Ok(1)
            }
            None => Ok(0),
        }
    }
}

/// What takes bytes, and keeps none.
#[derive(Drop)]
struct Nowhere;

impl io::Write for Nowhere {
    fn write(&mut self, bytes: &[u8]) -> io::Result<usize> {
        Ok(bytes.len())
    }

    fn flush(&mut self) -> io::Result<()> {
        Ok(())
    }
}

/// What follows from a run whose image went to a twin: whether the twin has it, and no byte more.
fn is_twin(run: Result<Status, ToolFault>, twin: &mut Twin) -> Result<bool, ToolFault> {
    match run {
        Ok(_) => Ok(twin.is_whole()),
        Err(ToolFault::Memory) => Err(ToolFault::Memory),
        Err(_) => Ok(false),
    }
}

/// Whether a file is the image that these keys make of these sources, byte for byte.
///
/// # Errors
///
/// `Memory`.
pub fn is_image_of<S: Sources + Drop>(
    rt: &HostRuntime,
    path: &str,
    keys: &[u8],
    sources: S,
) -> Result<bool, ToolFault> {
    let Ok(file) = fs::open(rt, path) else {
        return Ok(false);
    };
    let mut twin = Twin::of(file);
    let mut saving = Kept::new(Saving, Nowhere);
    let run = run_kept(
        rt.alloc(),
        sources,
        keys,
        &mut saving,
        &mut Nowhere,
        &mut twin,
    );
    is_twin(run, &mut twin)
}

/// Whether a file is the image that these keys make of an older one over these sources, byte for byte.
///
/// # Errors
///
/// `Memory`.
pub fn is_image_onto<S: Sources + Drop>(
    rt: &HostRuntime,
    path: &str,
    older: Vec<u8>,
    keys: &[u8],
    sources: S,
) -> Result<bool, ToolFault> {
    let Ok(file) = fs::open(rt, path) else {
        return Ok(false);
    };
    let mut twin = Twin::of(file);
    let mut saving = Kept::new(Saving, Nowhere);
    let run = run_kept_onto(
        rt.alloc(),
        older,
        sources,
        keys,
        &mut saving,
        &mut Nowhere,
        &mut twin,
    );
    is_twin(run, &mut twin)
}
