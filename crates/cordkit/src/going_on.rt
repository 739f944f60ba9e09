//! A script that goes on from an image.

ghost use Rattle.std.specs.Prelude.{◌≡◌, ◌*◌, ◌<◌, length};

use crate::answer::Answer;
use crate::meter::Meter;
use crate::opening::opened_sources;
use crate::scripts::{read_script, refuse_script};
use cord_tools::{Status, ToolFault, read_image};
use image_files::{open, told_size};
use saved_session::TakeFault;
use script_tools::{OntoFault, run_apply_onto};
use std::sync::ledger::{Blank, Ledger};
use work_progress::Progress;

/// The line of an image's check, and then that of the lines of a script.
#[derive(Drop)]
struct Stages<'m, 'a> {
    meter: &'m mut Meter<'a>,
}

impl Progress for Stages<'_, '_> {
    fn begin(&mut self, all: u64) {
        self.meter.begin(all);
    }

    fn tell(&mut self, done: u64) {
        self.meter.tell(done);
    }

    fn end(&mut self) {
        self.meter.end();
        self.meter.start("bytes");
    }
}

/// Tells on standard error why no session goes on from an image. Want of memory is no refusal.
fn refuse_taking<W>(
    rt: &HostRuntime,
    fault: TakeFault,
    answer: &mut Answer<'_, W>,
) -> Result<Status, ToolFault> {
    if fault == TakeFault::Memory {
        return Err(ToolFault::Memory);
    }
    let told = format!(in rt.alloc(); "refused {fault}")?;
    answer.keep(told.as_bytes());
    // There is no other place to tell that standard error is closed.
    let _ = rt.eprintln(told);
    Ok(Status::Failure)
}

/// Writes the image of the session that a script makes behind the last revision of an image, which is checked by so
/// many looks at most, if there is a limit. The files are opened in this order: the image, the script, the sources.
pub fn apply_onto<L: Ledger, W>(
    rt: &HostRuntime,
    image: &str,
    at_most: Option<u64>,
    script: &str,
    paths: &[&str],
    answer: &mut Answer<'_, W>,
    meter: &mut Meter<'_>,
    blank: Blank,
) -> Result<Status, ToolFault>
    requires name { blank.name ≡ L.name }
    requires parts { blank.parts ≡ L.parts }
    requires many { 2 * length paths.now < blank.parts }
{
    let file = open(rt, image)?;
    let expected = told_size(&file);
    let script = read_script(rt, script)?;
    let mut sources = opened_sources::<L>(rt, paths, blank)?;
    let older = read_image(rt.alloc(), file, expected)?;
    meter.start("records");
    let mut stages = Stages { meter: &mut *meter };
    let applied = run_apply_onto(
        rt.alloc(),
        older,
        &mut sources,
        at_most,
        &script,
        &mut answer.faults().output(rt),
        &mut stages,
    );
    meter.end();
    match applied {
        Ok(()) => Ok(Status::Success),
        Err(OntoFault::Check(fault)) => Err(ToolFault::from(fault)),
        Err(OntoFault::TakeUp(fault)) => refuse_taking(rt, fault, answer),
        Err(OntoFault::Stop(stopped)) => refuse_script(rt, stopped, answer),
        Err(OntoFault::Write) => Err(ToolFault::Write),
    }
}
