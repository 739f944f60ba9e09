//! One-byte replacements in a megabyte: many in one command, and each by a command of its own.

ghost use Rattle.std.specs.Prelude.{◌≡◌, IfOk};
ghost use Rattle.std.specs.List.{sum_by};

use crate::ropes::MEGABYTE;
use crate::sessions::rows;
use anyhow::Result;
use edit_commands::{Change, Command, Session};
use rope_node::NodeSpace;
use span_certificate::MOST_SPLICES;
use std::alloc::{AllocError, Global};
use std::time::Instant;

/// From one replaced byte to the next.
const STEP: u64 = MEGABYTE / MOST_SPLICES as u64;

/// The changes of as many bytes as one command may replace.
fn one_byte_changes(alloc: Global) -> Result<Vec<Change>, AllocError>
    ensures { IfOk result (λ changes. sum_by (λ change. change.n) changes.items ≡ MOST_SPLICES) }
{
    let mut changes = Vec::new(alloc);
    for k in 0..MOST_SPLICES {
        let p = k as u64 * STEP;
        changes.push(Change { p, m: 1, n: 1 })?;
    }
    Ok(changes)
}

/// A session over a source of a megabyte, and its text.
fn opened(rt: &HostRuntime) -> Result<Session> {
    let mut session = Session::new(rt.alloc());
    session.add_source(MEGABYTE)?;
    session.apply(Command::Open { s: 0 })?;
    Ok(session)
}

/// Says how long all of it took since the start, and what the session takes.
fn report(rt: &HostRuntime, name: &str, start: Instant, session: &Session) -> Result<()> {
    let taken = start.elapsed(rt)?.as_micros();
    let (nodes, rows) = (session.space().count(), rows(session));
    eprintln!(rt; "  {name:<38} {taken:>8} us {nodes:>8} nodes {rows:>8} rows")?;
    Ok(())
}

fn time_one_command(rt: &HostRuntime) -> Result<()> {
    let mut session = opened(rt)?;
    let changes = one_byte_changes(rt.alloc())?;
    let bytes = [b'x'; MOST_SPLICES as usize];
    let start = Instant::now(rt)?;
    session.apply(Command::Many {
        r: 0,
        changes: &changes,
        bytes: &bytes,
    })?;
    report(rt, "4,096 bytes by one command", start, &session)
}

fn time_a_command_each(rt: &HostRuntime) -> Result<()> {
    let mut session = opened(rt)?;
    let start = Instant::now(rt)?;
    let mut r = 0;
    for k in 0..MOST_SPLICES {
        let p = k as u64 * STEP;
        r = session.apply(Command::Replace {
            r,
            p,
            m: 1,
            bytes: b"x",
        })?;
    }
    report(rt, "4,096 bytes by a command each", start, &session)
}

/// Times both.
pub fn time(rt: &HostRuntime) -> Result<()> {
    time_one_command(rt)?;
    time_a_command_each(rt)
}
