//! Images of a session, written and taken up.

ghost use Rattle.std.specs.Prelude.{◌≡◌, ◌≢◌, ◌-◌, min, None, Some, length, take, drop};
ghost use Rattle.cord_session.specs.Sessions.{session_of};
ghost use Rattle.cord_types.specs.HeldTexts.{stated_as_held};
ghost use Rattle.cord_store.specs.declared.codes.TheConstants.{DONE, MEMORY};
ghost use Rattle.cord_session.specs.Images.{CopiesImage, ForgetsImage, ResumesImage, SavesHandle, MakesImage, take_number};
ghost use Rattle.cord_session.specs.Asked.{AsksKept};

use crate::codes::{MANY_ROWS, OVER_SOURCE, REFUSED};
use crate::handle::CordSession;
use crate::kept::Kept;
use cord_store::codes::{CLOSED, DONE, MEMORY};
use cord_types::{CordSource, CordVerdict, checked};
use edit_commands::Session;
use saved_session::{TakeFault, take_up};
use session_image::write;
use std::alloc::Global;

/// Makes the session's image, and tells its length.
fn save(alloc: Global, kept: &mut Kept, len: &mut u64) -> u32
    ensures { MakesImage kept.old kept.new result len.old len.new }
{
    let mut image = Vec::new(alloc);
    match write(&kept.session, &mut image) {
        Ok(()) => {
            *len = image.len() as u64;
            kept.image = image;
            DONE
        }
        Err(_) => MEMORY,
    }
}

/// Makes the session's image, which is held until the next is made, and tells its length.
#[unsafe(no_mangle)]
pub extern "C" fn cord_session_save(alloc: Global, session: &mut CordSession, len: &mut u64) -> u32
    ensures { SavesHandle session.old.slot.value session.new.slot.value result len.old len.new }
{
    match session.take(alloc) {
        Some(mut kept) => {
            let outcome = save(alloc, &mut kept, len);
            *session = CordSession::of(kept);
            outcome
        }
        None => CLOSED,
    }
}

/// Copies bytes of an image from a place on, as many as there are or as there is room for.
fn copy_from(image: &[u8], from: u64, out: &mut [u8]) -> usize
    ensures count { result ≡ min (length image.now - from) (length out.old) }
    ensures bytes { take result out.new ≡ take result (drop from image.now) }
    ensures rest { drop result out.new ≡ drop result out.old }
{
    let rest = image.get(from as usize..).unwrap_or(&[]);
    let n = rest.len().min(out.len());
    out[..n].copy_from_slice(&rest[..n]);
    n
}

/// Copies bytes of the image that was saved last.
#[unsafe(no_mangle)]
pub extern "C" fn cord_session_saved(
    alloc: Global,
    session: &mut CordSession,
    from: u64,
    out: &mut [u8],
    count: &mut usize,
) -> u32
    ensures { AsksKept session.old.slot.value session.new.slot.value result ((count.new ≡ 0) × (out.new ≡ out.old))
        (λ k. CopiesImage k.image.items from out.old out.new count.new result) }
{
    match session.take(alloc) {
        Some(kept) => {
            *count = copy_from(kept.image.as_slice(), from, out);
            *session = CordSession::of(kept);
            DONE
        }
        None => {
            *count = 0;
            CLOSED
        }
    }
}

/// Lets go of the image that was saved last.
#[unsafe(no_mangle)]
pub extern "C" fn cord_session_forget(alloc: Global, session: &mut CordSession) -> u32
    ensures { ForgetsImage session.old.slot.value session.new.slot.value result }
{
    match session.take(alloc) {
        Some(mut kept) => {
            kept.image = Vec::new(alloc);
            *session = CordSession::of(kept);
            DONE
        }
        None => CLOSED,
    }
}

/// The number of why an image is not taken up.
fn take_number(fault: TakeFault) -> u32
    ensures { result ≡ take_number fault }
{
    match fault {
        TakeFault::OverSource(_) => OVER_SOURCE,
        TakeFault::TooManyRows => MANY_ROWS,
        TakeFault::Memory => MEMORY,
    }
}

/// Holds a session. One that was there is ended.
pub fn hold(alloc: Global, session: &mut CordSession, taken: Session) -> u32
    ensures done { result ≡ DONE → session_of session.new.slot.value ≡ Some taken }
    ensures refused { result ≢ DONE → (result ≡ MEMORY) × (session.new.slot.value ≡ session.old.slot.value) }
{
    let kept = Kept {
        session: taken,
        image: Vec::new(alloc),
    };
    match Box::new(alloc, kept) {
        Ok(kept) => {
            *session = CordSession::of(kept);
            DONE
        }
        Err(_) => MEMORY,
    }
}

/// Goes on from an image that is accepted with these sources. One that was there is ended.
#[unsafe(no_mangle)]
pub extern "C" fn cord_session_resume(
    alloc: Global,
    session: &mut CordSession,
    image: &[u8],
    sources: &[CordSource],
    verdict: &mut CordVerdict,
) -> u32
    ensures { ResumesImage image.now (stated_as_held sources.now) session.old.slot.value session.new.slot.value
        verdict.new result }
{
    let Some(image) = checked(image, sources, verdict) else {
        return REFUSED;
    };
    match take_up(alloc, &image) {
        Ok(taken) => hold(alloc, session, taken),
        Err(fault) => take_number(fault),
    }
}
