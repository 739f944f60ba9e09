//! What an editor does, as commands of a session: each revision is kept, with the rows that show it.

ghost use Rattle.std.specs.Prelude.{◌<◌};

use crate::ropes::{MEGABYTE, place};
use anyhow::Result;
use edit_commands::{Command, EditFault, Session};
use rope_node::NodeSpace;
use span_certificate::{MOST_REVISIONS, Row};
use std::time::Instant;

/// So many commands are made, if no limit refuses one before.
const COMMANDS: u32 = MOST_REVISIONS - 1;

/// So many keys are typed at one place before the next.
const BURST: u32 = 20;

/// Where bytes are put in.
#[derive(Clone, Copy)]
enum Work {
    AtTheEnd,
    InTheMiddle,
    InBursts,
    AtRandom,
}

impl Work {
    fn name(self) -> &'static str {
        match self {
            Work::AtTheEnd => "a key at the end",
            Work::InTheMiddle => "a key in the middle",
            Work::InBursts => "a key in bursts of 20",
            Work::AtRandom => "ten bytes at a random place",
        }
    }

    fn bytes(self) -> &'static [u8] {
        match self {
            Work::AtRandom => b"0123456789",
            _ => b"x",
        }
    }

    /// The place of insertion `k` into a text of this length.
    fn place(self, k: u32, len: u64) -> u64 {
        match self {
            Work::AtTheEnd => len,
            Work::InTheMiddle => MEGABYTE / 2 + k as u64,
            Work::InBursts => place(k / BURST, MEGABYTE) + (k % BURST) as u64,
            Work::AtRandom => place(k, len.max(1)),
        }
    }
}

/// Makes the commands, and answers why one was refused.
fn edit(session: &mut Session, work: Work) -> Option<EditFault> {
    let bytes = work.bytes();
    let mut last = 0;
    let mut len = MEGABYTE;
    for k in 0..COMMANDS {
        let p = work.place(k, len);
        match session.apply(Command::Insert { r: last, p, bytes }) {
            Ok(revision) => last = revision,
            Err(fault) => return Some(fault),
        }
        len = len.saturating_add(bytes.len() as u64);
    }
    None
}

/// How many rows a session has.
pub fn rows(session: &Session) -> u64 {
    let mut rows: u64 = 0;
    for k in 0..session.count() {
        rows = rows.saturating_add(session.rows(k).map_or(0, <[Row]>::len) as u64);
    }
    rows
}

fn time_work(rt: &HostRuntime, work: Work) -> Result<()> {
    let mut session = Session::new(rt.alloc());
    session.add_source(MEGABYTE)?;
    session.apply(Command::Open { s: 0 })?;
    let start = Instant::now(rt)?;
    let refused = edit(&mut session, work);
    let taken = start.elapsed(rt)?.as_nanos() / session.count().max(1) as u128;
    let (name, made) = (work.name(), session.count());
    let (nodes, rows) = (session.space().count(), rows(&session));
    let bytes = session.space().pool_len();
    eprintln!(rt;
        "  {name:<34} {taken:>6} ns, {made:>7} revisions {nodes:>8} nodes {rows:>8} rows {bytes:>8} bytes"
    )?;
    if let Some(fault) = refused {
        eprintln!(rt; "    refused then: {fault}")?;
    }
    Ok(())
}

/// Times insertions into a text of a megabyte.
pub fn time(rt: &HostRuntime) -> Result<()> {
    eprintln!(rt; "cordkit's sessions, every revision kept:")?;
    for work in [
        Work::AtTheEnd,
        Work::InTheMiddle,
        Work::InBursts,
        Work::AtRandom,
    ] {
        time_work(rt, work)?;
    }
    Ok(())
}
