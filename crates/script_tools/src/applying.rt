//! A script applied to a new session, whose image is written.

ghost use Rattle.std.specs.Prelude.{◌≡◌, IfOk, IfErr, OnOk};
ghost use Rattle.edit_commands.specs.Session.{new_session};
ghost use Rattle.script_tools.specs.Applied.{AppliesScript, AreRefused, IsMadeByScript, MakesNone, MayBeAdded};

use crate::fault::ApplyFault;
use edit_commands::{EditFault, Session};
use edit_script::{Room, apply_script_told, says_the_script};
use session_image::write;
use std::alloc::Global;
use std::io;
use work_progress::{Progress, Untold};

/// A session with sources of these lengths, and no revisions.
///
/// # Errors
///
/// That of the first source that is refused.
pub fn begun_alone(alloc: Global, lens: &[u64]) -> Result<Session, EditFault>
    ensures made { IfOk result (λ session. session ≡ new_session lens.now) }
    ensures added { OnOk result (MayBeAdded lens.now) }
    ensures refused { IfErr result (AreRefused lens.now) }
{
    let mut session = Session::new(alloc);
    for len in lens {
        session.add_source(*len)?;
    }
    Ok(session)
}

/// The session that a script makes, over sources of these lengths.
fn made<P: Progress>(
    alloc: Global,
    script: &[u8],
    lens: &[u64],
    progress: &mut P,
) -> Result<Session, ApplyFault>
    ensures ok { IfOk result (IsMadeByScript lens.now script.now) }
    ensures fault { IfErr result (MakesNone lens.now script.now) }
{
    says_the_script();
    let mut session = match begun_alone(alloc, lens) {
        Ok(session) => session,
        Err(fault) => return Err(ApplyFault::Source(fault)),
    };
    match apply_script_told(&mut session, script, &mut Room::new(alloc), progress) {
        Ok(()) => {
            // The session keeps its rules, as its count says.
            let _count = session.count();
            Ok(session)
        }
        Err(at) => {
            let _count = session.count();
            Err(ApplyFault::Stop(at))
        }
    }
}

/// Applies the commands of a script, line by line, to a new
/// session with sources of these lengths, and writes its image.
///
/// # Errors
///
/// `Source`, where a source is refused, and `Stop`, where a line is not taken: nothing was written then. `Write`, where
/// the writer failed or took no byte: a prefix of the image was written.
pub fn run_apply<W: io::Write>(
    alloc: Global,
    script: &[u8],
    lens: &[u64],
    writer: &mut W,
) -> Result<(), ApplyFault>
    ensures { AppliesScript lens.now script.now (W.contents writer.old) (W.contents writer.new) result }
{
    run_apply_told(alloc, script, lens, writer, &mut Untold)
}

/// Does what `run_apply` does, and tells on the way how many of the
/// script's bytes are done, and before it writes that they are.
///
/// # Errors
///
/// As those of `run_apply`.
pub fn run_apply_told<W: io::Write, P: Progress>(
    alloc: Global,
    script: &[u8],
    lens: &[u64],
    writer: &mut W,
    progress: &mut P,
) -> Result<(), ApplyFault>
    ensures { AppliesScript lens.now script.now (W.contents writer.old) (W.contents writer.new) result }
{
    let session = made(alloc, script, lens, &mut *progress)?;
    progress.end();
    match write(&session, writer) {
        Ok(()) => Ok(()),
        Err(_) => Err(ApplyFault::Write),
    }
}
