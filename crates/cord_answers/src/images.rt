//! Images as they are written, by writers that take a few bytes at a time or fail.

use crate::chance::Chance;
use crate::commands::{any_command, apply_line};
use crate::digest::Digest;
use crate::report::Report;
use anyhow::Result;
use edit_commands::Session;
use script_tools::{ApplyFault, run_apply};
use session_image::write;
use std::alloc::Global;
use std::io;

/// How long the sources are.
const LENS: [u64; 2] = [50_000, 5000];

/// A writer that takes so many bytes at a time, and all in all so many; then it fails, or takes none.
#[derive(Drop)]
struct Narrow {
    taken: Digest,
    most: usize,
    room: usize,
    fails: bool,
}

impl io::Write for Narrow {
    ghost use Rattle.std.specs.Prelude.{None};

    ghost contents = { λ _. None };

    fn write(&mut self, bytes: &[u8]) -> io::Result<usize> {
        let part = bytes.get(..self.most.min(self.room)).unwrap_or(bytes);
        let part = part.get(..bytes.len().min(part.len())).unwrap_or(part);
        if part.is_empty() && self.fails {
            return Err(io::Error::from(io::ErrorKind::StorageFull));
        }
        self.taken.take(part);
        self.room = self.room.saturating_sub(part.len());
        Ok(part.len())
    }

    fn flush(&mut self) -> io::Result<()> {
        Ok(())
    }
}

fn writer_of(most: usize, room: usize, fails: bool) -> Narrow {
    Narrow {
        taken: Digest::new(),
        most,
        room,
        fails,
    }
}

/// How many bytes were taken, and which.
fn tell_taken(taken: &Digest, report: &mut Report) -> Result<()> {
    report.entry(" ", taken.count())?;
    report.words(" bytes ")?;
    report.hex(taken.value(), 16)
}

/// A session, and the lines that it took.
fn edited(alloc: Global, chance: &mut Chance, script: &mut Report) -> Result<Session> {
    let mut session = Session::new(alloc);
    for len in LENS {
        session.add_source(len)?;
    }
    for _ in 0..chance.between(1, 12) {
        let line = any_command(alloc, &session, chance)?;
        if line.text.bytes().len() < 1500
            && apply_line(alloc, &mut session, line.text.bytes()).is_ok()
        {
            script.append(line.text.bytes())?;
            script.end()?;
        }
    }
    Ok(session)
}

/// What came of a script.
fn tell_end(made: Result<(), ApplyFault>, report: &mut Report) -> Result<()> {
    report.words(match made {
        Ok(()) => " ok",
        Err(ApplyFault::Write) => " write",
        Err(ApplyFault::Stop(_)) => " stopped",
        Err(ApplyFault::Source(_)) => " source",
    })
}

/// The image by writers that take all, and some bytes at a time.
fn tell_whole(session: &Session, report: &mut Report) -> Result<u64> {
    let mut count = 0;
    for most in [usize::MAX, 1, 3, 31, 97, 4095] {
        let mut writer = writer_of(most, usize::MAX, false);
        let is_written = write(session, &mut writer).is_ok();
        report.words(if is_written { "write" } else { "write fails" })?;
        tell_taken(&writer.taken, report)?;
        report.end()?;
        count = writer.taken.count();
    }
    Ok(count)
}

/// The image by writers that take each front of it: what they took and which answer there was, digested.
fn tell_fronts(session: &Session, count: u64, fails: bool, report: &mut Report) -> Result<()> {
    let mut all = Digest::new();
    for room in 0..count.saturating_add(2) {
        let mut writer = writer_of(usize::MAX, room as usize, fails);
        let is_written = write(session, &mut writer).is_ok();
        let answer = if is_written { 1 } else { 0 };
        all.words(writer.taken.count(), writer.taken.value(), answer);
    }
    report.words(if fails {
        "each front, fails "
    } else {
        "each front, takes none "
    })?;
    report.hex(all.value(), 16)?;
    report.end()
}

/// The image of the script that the session took, by writers with room for parts of it.
fn tell_script(
    alloc: Global,
    chance: &mut Chance,
    script: &[u8],
    count: u64,
    report: &mut Report,
) -> Result<()> {
    for k in 0..8 {
        let room = if k == 0 {
            usize::MAX
        } else {
            chance.below(count.saturating_add(2)) as usize
        };
        let most = chance.pick(&[u64::MAX, 1, 100]) as usize;
        let mut writer = writer_of(most, room, chance.below(2) == 0);
        let made = run_apply(alloc, script, &LENS, &mut writer);
        report.words("apply")?;
        tell_end(made, report)?;
        tell_taken(&writer.taken, report)?;
        report.end()?;
    }
    Ok(())
}

/// Images of a session by chance.
pub fn images(alloc: Global, chance: &mut Chance, report: &mut Report) -> Result<()> {
    report.words(":")?;
    report.end()?;
    let mut script = Report::new(alloc);
    let session = edited(alloc, chance, &mut script)?;
    let count = tell_whole(&session, report)?;
    if count < 6000 {
        tell_fronts(&session, count, true, report)?;
        tell_fronts(&session, count, false, report)?;
    }
    tell_script(alloc, chance, script.bytes(), count, report)
}
