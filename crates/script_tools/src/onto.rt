//! A script applied to a saved session, whose image is written anew.

ghost use Rattle.std.specs.Prelude.{Ok};
ghost use Rattle.saved_session.specs.TakenUp.{WasChecked};
ghost use Rattle.script_tools.specs.Onto.{AppliesOnto, Begins, BeginsOnto, GoesOnBy};

use crate::fault::OntoFault;
use edit_commands::Session;
use edit_script::{Room, apply_script_told};
use lazy_file::Sources;
use saved_session::take_up;
use session_checker::{Checked, check_told};
use session_image::write;
use std::alloc::Global;
use std::io;
use work_progress::Progress;

/// The session of an image that was checked.
fn begun_over(alloc: Global, image: &Checked) -> Result<Session, OntoFault>
    requires { WasChecked image.now }
    ensures { Begins (Ok image.now) result }
{
    match take_up(alloc, image) {
        Ok(session) => Ok(session),
        Err(fault) => Err(OntoFault::TakeUp(fault)),
    }
}

/// The session of an image, once that is checked with these sources, by so many looks at nodes at most, if there is a
/// limit. The image's bytes are given back then.
///
/// # Errors
///
/// `Check`, with the fault of an image that is not accepted; `TakeUp`, where no session goes on from it.
pub fn begun_onto<S: Sources, P: Progress>(
    alloc: Global,
    image: Vec<u8>,
    sources: &mut S,
    at_most: Option<u64>,
    progress: &mut P,
) -> Result<Session, OntoFault>
    ensures { BeginsOnto at_most (S.reading sources.old) (S.reading sources.new) image.items result }
{
    match check_told(&image, sources, at_most, progress) {
        Ok(checked) => begun_over(alloc, &checked),
        Err(fault) => Err(OntoFault::Check(fault)),
    }
}

/// Applies the commands of a script to a session.
fn go_on<P: Progress>(
    alloc: Global,
    session: &mut Session,
    script: &[u8],
    progress: &mut P,
) -> Result<(), OntoFault>
    ensures { GoesOnBy session.old script.now result session.new }
{
    // The session keeps its rules before and behind, as its count says.
    let _begun = session.count();
    match apply_script_told(session, script, &mut Room::new(alloc), progress) {
        Ok(()) => {
            let _made = session.count();
            Ok(())
        }
        Err(at) => {
            let _left = session.count();
            Err(OntoFault::Stop(at))
        }
    }
}

/// Applies the commands of a script, line by line, behind the last revision of an image, once that is checked with
/// these sources, by so many looks at nodes at most, if there is a limit; and writes the image of all revisions, in
/// version 2. It tells on the way how many of the image's records are checked, then how many of the script's bytes are
/// done, and before it writes that they are. The image's bytes are given back before the first line is read.
///
/// # Errors
///
/// In this order: `Check`, with the fault of an image that is not accepted; `TakeUp`, where
/// no session goes on from it; `Stop`, where a line is not taken: nothing was written then.
/// `Write`, where the writer failed or took no byte: a prefix of the image was written.
pub fn run_apply_onto<S: Sources, W: io::Write, P: Progress>(
    alloc: Global,
    image: Vec<u8>,
    sources: &mut S,
    at_most: Option<u64>,
    script: &[u8],
    writer: &mut W,
    progress: &mut P,
) -> Result<(), OntoFault>
    ensures { AppliesOnto at_most (S.reading sources.old) (S.reading sources.new) image.items script.now
        (W.contents writer.old) (W.contents writer.new) result }
{
    let mut session = begun_onto(alloc, image, sources, at_most, &mut *progress)?;
    go_on(alloc, &mut session, script, &mut *progress)?;
    progress.end();
    match write(&session, writer) {
        Ok(()) => Ok(()),
        Err(_) => Err(OntoFault::Write),
    }
}
