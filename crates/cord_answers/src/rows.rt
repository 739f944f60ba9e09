//! Rows of sessions, and what the checks of rows say, for right and for wrong ones.

ghost use Rattle.std.specs.Prelude.{◌≡◌, IfOk};
ghost use Rattle.function_leaf.specs.Coded.{coded_byte};
ghost use Rattle.rope_node.specs.Denotes.{IsRope};
ghost use Rattle.node_table.specs.Held.{table_of};

use crate::chance::Chance;
use crate::commands::{Line, any_command, apply_line, lettered, numbered, tell_stop};
use crate::digest::Digest;
use crate::report::Report;
use crate::texts::even;
use anyhow::Result;
use edit_commands::Session;
use function_leaf::Coded;
use lazy_file::MemSources;
use rope_node::{NodeId, NodeSpace, Rope};
use rope_store::Store;
use span_certificate::{Edit, Row, RowKind, Splice, Verdict, parts, verify};
use std::alloc::Global;

/// How long source 0 is, and source 1.
const LENS: [u64; 2] = [50_000, 5000];

/// So many bytes a row compares at most.
const COMPARED: u64 = 4096;

const NO_SPLICES: &[Splice] = &[];

/// A row, digested.
fn digest_row(row: Row, digest: &mut Digest) {
    digest.word(row.len);
    match row.kind {
        RowKind::Shared(id, off) => digest.words(1, u64::from(id.0), off),
        RowKind::Leaf => digest.words(2, 0, 0),
        RowKind::Bytes => digest.words(3, 0, 0),
    }
}

/// The rows of the last revision.
fn tell_rows(session: &Session, report: &mut Report) -> Result<()> {
    let last = session.count().saturating_sub(1);
    let rows = session.rows(last).unwrap_or(&[]);
    let mut digest = Digest::new();
    for row in rows {
        digest_row(*row, &mut digest);
    }
    report.entry("", rows.len() as u64)?;
    report.words(" rows ")?;
    report.hex(digest.value(), 16)?;
    let root = session.root(last).unwrap_or(None);
    if session.space().has(root) {
        report.entry(" depth ", u64::from(session.space().depth(root)))?;
    }
    report.entry(" nodes ", u64::from(session.space().count()))
}

/// Applies a line and tells what came of it.
fn tell_command(
    alloc: Global,
    session: &mut Session,
    line: &Line,
    report: &mut Report,
) -> Result<()> {
    report.words(line.name)?;
    report.words(" -> ")?;
    match apply_line(alloc, session, line.text.bytes()) {
        Ok(()) => tell_rows(session, report)?,
        Err(stopped) => tell_stop(alloc, stopped, report)?,
    }
    report.end()
}

/// A line that puts some bytes in, where many of them make a rope deep.
fn deepening(alloc: Global, session: &Session, chance: &mut Chance, place: u64) -> Result<Line> {
    let last = u64::from(session.count().saturating_sub(1));
    let n = chance.between(1, 40);
    lettered(alloc, "insert", &[last, place], chance, n)
}

/// The last text joined with itself so often, and balanced: two roots of one text.
fn double_and_balance(
    alloc: Global,
    session: &mut Session,
    chance: &mut Chance,
    report: &mut Report,
) -> Result<()> {
    for _ in 0..chance.below(8) {
        let last = u64::from(session.count().saturating_sub(1));
        let line = numbered(alloc, "join", &[last, last])?;
        tell_command(alloc, session, &line, report)?;
    }
    let last = u64::from(session.count().saturating_sub(1));
    let line = numbered(alloc, "balance", &[last])?;
    tell_command(alloc, session, &line, report)
}

/// A session that commands by chance make.
fn edited(alloc: Global, chance: &mut Chance, report: &mut Report) -> Result<Session> {
    let mut session = Session::new(alloc);
    for len in LENS {
        session.add_source(len)?;
    }
    for _ in 0..chance.between(4, 30) {
        let line = any_command(alloc, &session, chance)?;
        tell_command(alloc, &mut session, &line, report)?;
        if chance.below(12) == 0 {
            let place = chance.pick(&[0, 1, 100]);
            for _ in 0..chance.between(3, 70) {
                let line = deepening(alloc, &session, chance, place)?;
                tell_command(alloc, &mut session, &line, report)?;
            }
        }
    }
    double_and_balance(alloc, &mut session, chance, report)?;
    Ok(session)
}

/// Rows that compare all bytes, but for a few that chance makes otherwise.
fn compared(alloc: Global, chance: &mut Chance, len: u64) -> Result<Vec<Row>> {
    let mut rows = Vec::new(alloc);
    let most = chance.pick(&[COMPARED, COMPARED, 100, COMPARED + 1]);
    let mut left = len;
    for _ in 0..60 {
        if left == 0 {
            break;
        }
        let len = left.min(most);
        let kind = match chance.below(400) {
            0 => RowKind::Leaf,
            1 => RowKind::Shared(NodeId((chance.below(40) % 40) as u32), chance.below(100)),
            _ => RowKind::Bytes,
        };
        rows.push(Row { len, kind })?;
        left = left.saturating_sub(len);
    }
    Ok(rows)
}

/// What the check says of rows from one rope's text to another rope's.
fn verified(
    store: &Store<Coded>,
    sources: &mut MemSources<'_>,
    old: Rope,
    new: Rope,
    rows: &[Row],
    report: &mut Report,
) -> Result<()>
    requires old { IsRope (table_of coded_byte store.now) old }
    requires new { IsRope (table_of coded_byte store.now) new }
{
    let roots = [old];
    let whole = parts(store, &&roots[..], &NO_SPLICES, &Edit::Back { r: 0 });
    match verify(store, sources, whole, new, &rows) {
        Ok(Verdict::Good) => report.words(" good"),
        Ok(Verdict::Bad(j)) => report.entry(" bad ", j as u64),
        Err(_) => report.words(" fault"),
    }
}

/// A rope of a store, or nil.
fn there(store: &Store<Coded>, rope: Rope) -> Rope
    ensures { IsRope (table_of coded_byte store.now) result }
{
    if store.has(rope) { rope } else { None }
}

/// Two revisions, with the rows of the second and with rows that compare bytes.
fn tell_pair(
    alloc: Global,
    session: &Session,
    sources: &mut MemSources<'_>,
    chance: &mut Chance,
    report: &mut Report,
) -> Result<()> {
    let count = u64::from(session.count());
    let last = count.saturating_sub(1);
    let (j, k) = match chance.below(4) {
        0 => (last, last.saturating_sub(1)),
        1 => (last.saturating_sub(1), last),
        _ => (chance.below(count), chance.below(count)),
    };
    let (j, k) = (u32::try_from(j).unwrap_or(0), u32::try_from(k).unwrap_or(0));
    let store = session.space();
    let old = there(store, session.root(j).unwrap_or(None));
    let new = there(store, session.root(k).unwrap_or(None));
    let len = store.len(old);
    report.entry("verify ", u64::from(j))?;
    report.entry(" ", u64::from(k))?;
    let rows = session.rows(k).unwrap_or(&[]);
    verified(store, sources, old, new, rows, report)?;
    let rows = compared(alloc, chance, len)?;
    verified(store, sources, old, new, &rows, report)?;
    verified(store, sources, old, old, &rows, report)?;
    report.end()
}

/// Commands by chance, their rows, and what the check says of pairs of revisions.
pub fn rows(alloc: Global, chance: &mut Chance, report: &mut Report) -> Result<()> {
    report.words(":")?;
    report.end()?;
    let session = edited(alloc, chance, report)?;
    let first = even(alloc, LENS[0], 30)?;
    let second = even(alloc, LENS[1], 0)?;
    let mut sources = MemSources::new(alloc);
    sources.add(&first)?;
    sources.add(&second)?;
    for _ in 0..8 {
        tell_pair(alloc, &session, &mut sources, chance, report)?;
    }
    Ok(())
}
