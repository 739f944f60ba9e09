//! Lines of commands on a session, by chance.

use crate::chance::Chance;
use crate::report::Report;
use anyhow::Result;
use edit_commands::Session;
use edit_script::{Room, Stop, Stopped, apply_script};
use std::alloc::Global;

/// How many bytes are put in, filled, taken away or cut.
const COUNTS: [u64; 14] = [0, 1, 2, 5, 10, 30, 31, 32, 33, 100, 1000, 4095, 4097, 9000];

/// A command in the making: its first word, and the line.
#[derive(Drop)]
pub struct Line {
    pub name: &'static str,
    pub text: Report,
}

/// How long the text of a revision is.
fn text_len(session: &Session, r: u32) -> u64 {
    let root = session.root(r).unwrap_or(None);
    if session.space().has(root) {
        session.space().len(root)
    } else {
        0
    }
}

/// A revision, mostly the last one; every so often one that is not there.
fn pick_revision(session: &Session, chance: &mut Chance) -> u32 {
    let count = u64::from(session.count());
    let r = match chance.below(12) {
        0..8 => count.saturating_sub(1),
        8..11 => chance.below(count),
        _ => count.saturating_sub(chance.below(6)),
    };
    u32::try_from(r).unwrap_or(u32::MAX)
}

/// A place up to a length, often its ends; every so often one behind.
fn pick_place(chance: &mut Chance, len: u64) -> u64 {
    match chance.below(40) {
        0..8 => 0,
        8..16 => len,
        16 => len.saturating_add(1),
        _ => chance.below(len.saturating_add(1)),
    }
}

/// How many bytes from a place on; every so often too many.
fn pick_count(chance: &mut Chance, left: u64) -> u64 {
    match chance.below(30) {
        0..12 => chance.pick(&COUNTS).min(left),
        12..16 => left,
        16 => left.saturating_add(1),
        _ => chance.below(left.min(20_000).saturating_add(1)),
    }
}

impl Line {
    pub fn new(alloc: Global, name: &'static str) -> Result<Line> {
        let mut text = Report::new(alloc);
        text.words(name)?;
        Ok(Line { name, text })
    }

    pub fn numbers(&mut self, numbers: &[u64]) -> Result<()> {
        for n in numbers {
            self.text.entry(" ", *n)?;
        }
        Ok(())
    }

    /// So many letters in quotes.
    pub fn letters(&mut self, chance: &mut Chance, n: u64) -> Result<()> {
        self.text.words(" \"")?;
        for _ in 0..n {
            self.text.byte(b'a' + (chance.below(26) % 26) as u8)?;
        }
        self.text.words("\"")
    }
}

/// Changes at places of a text that lie one behind the other.
fn push_changes(line: &mut Line, chance: &mut Chance, len: u64, count: u64) -> Result<()> {
    let step = (len / count.max(1)).max(1);
    let mut place: u64 = 0;
    for _ in 0..count {
        place = place.saturating_add(chance.below(step));
        let m = chance.below(step.min(40));
        line.numbers(&[place, m])?;
        let n = chance.below(12);
        line.letters(chance, n)?;
        place = place.saturating_add(m.max(1));
    }
    Ok(())
}

/// A command that has numbers alone.
pub fn numbered(alloc: Global, name: &'static str, numbers: &[u64]) -> Result<Line> {
    let mut line = Line::new(alloc, name)?;
    line.numbers(numbers)?;
    Ok(line)
}

/// A command that has numbers and then so many letters.
pub fn lettered(
    alloc: Global,
    name: &'static str,
    numbers: &[u64],
    chance: &mut Chance,
    n: u64,
) -> Result<Line> {
    let mut line = numbered(alloc, name, numbers)?;
    line.letters(chance, n)?;
    Ok(line)
}

/// A command that takes all or parts of a revision's text, or opens a source.
fn whole_command(
    alloc: Global,
    session: &Session,
    chance: &mut Chance,
    r: u64,
    p: u64,
) -> Result<Line> {
    let q = pick_revision(session, chance);
    let len = text_len(session, q);
    let i = pick_place(chance, len);
    let n = pick_count(chance, len.saturating_sub(i));
    let q = u64::from(q);
    match chance.below(12) {
        0..4 => numbered(alloc, "paste", &[r, p, q, i, n]),
        4 => numbered(alloc, "join", &[r, q]),
        5 | 6 => numbered(alloc, "cut", &[q, i, n]),
        7 | 8 => numbered(alloc, "back", &[q]),
        9 => numbered(alloc, "open", &[chance.below(3)]),
        _ => numbered(alloc, "balance", &[q]),
    }
}

/// A command of many changes.
fn many_command(alloc: Global, chance: &mut Chance, r: u64, len: u64) -> Result<Line> {
    let mut line = numbered(alloc, "many", &[r])?;
    let count = chance.pick(&[1, 2, 3, 20, 200]);
    push_changes(&mut line, chance, len, count)?;
    Ok(line)
}

/// A command by chance.
pub fn any_command(alloc: Global, session: &Session, chance: &mut Chance) -> Result<Line> {
    if session.count() == 0 {
        let first = if chance.below(3) == 0 {
            "new"
        } else {
            "open 0"
        };
        return Line::new(alloc, first);
    }
    let r = pick_revision(session, chance);
    let len = text_len(session, r);
    let p = pick_place(chance, len);
    let m = pick_count(chance, len.saturating_sub(p));
    let n = chance.pick(&COUNTS);
    let r = u64::from(r);
    match chance.below(20) {
        0..6 => lettered(alloc, "insert", &[r, p], chance, n),
        6 | 7 => numbered(alloc, "delete", &[r, p, m]),
        8 | 9 => lettered(alloc, "replace", &[r, p, m], chance, n),
        10 | 11 => numbered(alloc, "fill", &[r, p, chance.below(256), n]),
        12 => many_command(alloc, chance, r, len),
        _ => whole_command(alloc, session, chance, r, p),
    }
}

/// What is printed of a script's line that was not taken.
pub fn tell_stop(alloc: Global, stopped: Stopped, report: &mut Report) -> Result<()> {
    match stopped.why {
        Stop::NoCommand => report.words("P")?,
        Stop::Memory => report.words("memory")?,
        Stop::Refused(fault) => report.words(&format!(in alloc; "{fault}")?)?,
    }
    report.entry(" at line ", stopped.line)
}

/// Applies a line to a session.
pub fn apply_line(alloc: Global, session: &mut Session, line: &[u8]) -> Result<(), Stopped> {
    apply_script(session, line, &mut Room::new(alloc))
}
