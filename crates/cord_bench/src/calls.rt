//! Small calls that sessions and checks make again and again, each repeated until it takes long enough to be told.

// The lines `let _count = store.count();` are for the proof: the store keeps its rules, as its count says.

ghost use Rattle.std.specs.Prelude.{◌≡◌, ◌<◌, ◌≤◌, length, IfOk, IsTrue};
ghost use Rattle.std.specs.List.{AllByRecursion};
ghost use Rattle.function_leaf.specs.Coded.{coded_byte};
ghost use Rattle.rope_node.specs.Denotes.{rope_cells, rope_len, IsRope};
ghost use Rattle.rope_node.specs.Extends.{Extends};
ghost use Rattle.node_table.specs.Held.{table_of};
ghost use Rattle.span_certificate.specs.Commands.{full_edit, NamesSplices};
ghost use Rattle.span_certificate.specs.Looks.{BeginsCount};
ghost use Rattle.span_certificate.specs.Parts.{part_len, parts_cells, parts_of, AreRopes, IsInRange, IsPart};
ghost use Rattle.span_certificate.specs.declared.row.RowKind.TheVariants.{Leaf};

use crate::ropes::LINE;
use anyhow::{Result, bail};
use edit_commands::{Command, Session};
use function_leaf::Coded;
use lazy_file::MemSources;
use node_table::NodeFault;
use rope_node::{NodeSpace, Rope};
use rope_store::Store;
use session_image::write;
use span_certificate::{
    Count, Description, Edit, Looks, Part, Row, RowKind, Splice, Verdict, describe_part, make,
    parts, verify, verify_counted,
};
use std::alloc::Global;
use std::marker::Brand;
use std::sync::ledger::{Blank, Ledger};
use std::time::Instant;

/// A call is told once all of its repetitions take so many nanoseconds.
const LONG_ENOUGH: u128 = 200_000_000;

/// So often each call is made at first.
const FIRST_TIMES: u32 = 64;

/// So often that is doubled at most.
const MOST_DOUBLINGS: u32 = 25;

/// So many joints a deep rope has below its root.
const JOINTS: u32 = 59;

/// How long the leaf at a deep rope's bottom is, and the one of the text without the bytes that are deleted.
const FILL: u64 = 1000;

const FILL_LEFT: u64 = 992;

/// A text as it was.
const BACK: Edit = Edit::Back { r: 0 };

const NO_SPLICES: &[Splice] = &[];

/// One byte deleted at each of eight places.
const DELETIONS: Edit = Edit::Many {
    r: 0,
    first: 0,
    count: 8,
};

/// One byte deleted.
const DELETED: Splice = Splice {
    p: 100,
    m: 1,
    a: 0,
    n: 0,
};

const SPLICES: &[Splice] = &[
    DELETED,
    Splice { p: 200, ..DELETED },
    Splice { p: 300, ..DELETED },
    Splice { p: 400, ..DELETED },
    Splice { p: 500, ..DELETED },
    Splice { p: 600, ..DELETED },
    Splice { p: 700, ..DELETED },
    Splice { p: 800, ..DELETED },
];

/// A row over so many bytes of one leaf.
fn leaf_row(len: u64) -> Row
    ensures { result.kind ≡ Leaf }
{
    Row {
        len,
        kind: RowKind::Leaf,
    }
}

/// The rows of what is left between the deletions.
fn rows_between() -> [Row; 9]
    ensures { AllByRecursion (λ row. row.kind ≡ Leaf) result }
{
    let between = leaf_row(99);
    [
        leaf_row(100),
        between,
        between,
        between,
        between,
        between,
        between,
        between,
        leaf_row(199),
    ]
}

/// Which call is timed.
#[derive(Clone, Copy)]
enum Call {
    MakeBack,
    MakeMany,
    Verify,
    VerifyCounted,
    DescribeOld,
    DescribePool,
    WriteEmpty,
}

impl Call {
    fn name(self) -> &'static str {
        match self {
            Call::MakeBack => "rows of one leaf, made",
            Call::MakeMany => "rows of 9 parts, two deep ropes",
            Call::Verify => "rows of one leaf, verified",
            Call::VerifyCounted => "the same, each look counted",
            Call::DescribeOld => "one leaf described",
            Call::DescribePool => "a part of the pool described",
            Call::WriteEmpty => "the image of one empty text",
        }
    }
}

/// Ropes of one leaf, and of deep ones: a text, and its bytes that eight deletions leave.
#[derive(Drop)]
struct Ropes {
    store: Store<Coded>,
    leaf: Rope,
    deep: Rope,
    left: Rope,
}

/// A leaf with so many bytes put behind it one by one, each under a node of its own.
fn chain(store: &mut Store<Coded>, leaf: Rope, byte: Rope, joints: u32) -> Result<Rope, NodeFault>
    requires leaf { IsRope (table_of coded_byte store.old) leaf }
    requires byte { IsRope (table_of coded_byte store.old) byte }
    ensures rope { IfOk result (IsRope (table_of coded_byte store.new)) }
    ensures kept { IfOk result (λ _. Extends (table_of coded_byte store.old) (table_of coded_byte store.new)) }
{
    let mut text = leaf;
    for _ in 0..joints {
        text = store.cat(text, byte)?;
    }
    Ok(text)
}

/// So many bytes at the bottom of a deep rope.
fn deep_rope(store: &mut Store<Coded>, len: u64) -> Result<Rope, NodeFault>
    ensures { IfOk result (IsRope (table_of coded_byte store.new)) }
{
    let leaf = store.chars(b'x', len)?;
    let byte = store.chars(b'y', 1)?;
    chain(store, leaf, byte, JOINTS)
}

impl Ropes {
    /// The nodes of the deep text stand between the root of what is left of it and the nodes below that.
    fn new(alloc: Global) -> Result<Ropes> {
        let mut store = Store::new(alloc);
        let leaf = store.from_bytes(LINE)?;
        let below = deep_rope(&mut store, FILL_LEFT)?;
        let above = deep_rope(&mut store, FILL)?;
        let deep = store.substr(above, 0, FILL)?;
        if !store.has(below) {
            bail!("a rope is of another store");
        }
        let left = store.substr(below, 0, FILL_LEFT)?;
        Ok(Ropes {
            store,
            leaf,
            deep,
            left,
        })
    }
}

/// Whether rows of leaves show that a command's parts and a root have one text.
fn is_shown(
    alloc: Global,
    store: &Store<Coded>,
    roots: &[Rope],
    splices: &[Splice],
    edit: Edit,
    root: Rope,
    rows: &[Row],
) -> bool
    requires ropes { AreRopes (table_of coded_byte store.now) roots.now }
    requires named { NamesSplices splices.now edit }
    requires in_range { IsInRange (table_of coded_byte store.now) roots.now (full_edit splices.now edit) }
    requires root { IsRope (table_of coded_byte store.now) root }
    requires leaves { AllByRecursion (λ row. row.kind ≡ Leaf) rows.now }
    ensures { IsTrue result → parts_cells (table_of coded_byte store.now)
        (parts_of (table_of coded_byte store.now) roots.now (full_edit splices.now edit))
        ≡ rope_cells (table_of coded_byte store.now) root }
{
    let parts = parts(store, &roots, &splices, &edit);
    let mut none = MemSources::new(alloc);
    verify(store, &mut none, parts, root, &rows) == Ok(Verdict::Good)
}

/// The rows of a command and its root, made so often.
fn make_often(
    alloc: Global,
    store: &Store<Coded>,
    roots: &[Rope],
    splices: &[Splice],
    edit: Edit,
    root: Rope,
    times: u32,
) -> Result<()>
    requires ropes { AreRopes (table_of coded_byte store.now) roots.now }
    requires named { NamesSplices splices.now edit }
    requires in_range { IsInRange (table_of coded_byte store.now) roots.now (full_edit splices.now edit) }
    requires root { IsRope (table_of coded_byte store.now) root }
    requires same { parts_cells (table_of coded_byte store.now)
        (parts_of (table_of coded_byte store.now) roots.now (full_edit splices.now edit))
        ≡ rope_cells (table_of coded_byte store.now) root }
{
    for _ in 0..times {
        let parts = parts(store, &roots, &splices, &edit);
        if make(alloc, store, parts, root).is_err() {
            bail!("no rows were made");
        }
    }
    Ok(())
}

/// The rows of a text taken back.
fn make_back(alloc: Global, store: &Store<Coded>, text: Rope, times: u32) -> Result<()>
    requires { IsRope (table_of coded_byte store.now) text }
{
    let _count = store.count();
    let roots = [text];
    let rows = [leaf_row(store.len(text))];
    if !is_shown(alloc, store, &roots, NO_SPLICES, BACK, text, &rows) {
        bail!("a text is not what it was");
    }
    make_often(alloc, store, &roots, NO_SPLICES, BACK, text, times)
}

/// The rows of eight deletions in a deep text.
fn make_many(alloc: Global, store: &Store<Coded>, text: Rope, root: Rope, times: u32) -> Result<()>
    requires text { IsRope (table_of coded_byte store.now) text }
    requires root { IsRope (table_of coded_byte store.now) root }
{
    let _count = store.count();
    if store.len(text) != FILL {
        bail!("a text has another length");
    }
    let roots = [text];
    let rows = rows_between();
    if !is_shown(alloc, store, &roots, SPLICES, DELETIONS, root, &rows) {
        bail!("a text is not what the deletions leave");
    }
    make_often(alloc, store, &roots, SPLICES, DELETIONS, root, times)
}

/// The row of a text taken back, verified so often.
fn verify_often(alloc: Global, store: &Store<Coded>, text: Rope, times: u32) -> Result<()>
    requires { IsRope (table_of coded_byte store.now) text }
{
    let _count = store.count();
    let roots = [text];
    let rows = [leaf_row(store.len(text))];
    let mut none = MemSources::new(alloc);
    for _ in 0..times {
        let parts = parts(store, &&roots[..], &NO_SPLICES, &BACK);
        if verify(store, &mut none, parts, text, &&rows[..]) != Ok(Verdict::Good) {
            bail!("a row does not fit");
        }
    }
    Ok(())
}

/// The row of a text taken back, verified so often by looks, which are counted.
fn verify_counted_often<L: Ledger>(
    alloc: Global,
    store: &Store<Coded>,
    text: Rope,
    times: u32,
    blank: Blank,
) -> Result<()>
    requires text { IsRope (table_of coded_byte store.now) text }
    requires blank { BeginsCount L.name L.parts blank.name blank.parts }
{
    let _nodes = store.count();
    let roots = [text];
    let rows = [leaf_row(store.len(text))];
    let mut none = MemSources::new(alloc);
    let mut count = Count::<L>::new(blank);
    for _ in 0..times {
        let mut looks = Looks::over(store, &mut count);
        let parts = parts(store, &&roots[..], &NO_SPLICES, &BACK);
        if verify_counted(&mut looks, &mut none, parts, text, &&rows[..]) != Ok(Verdict::Good) {
            bail!("a row does not fit");
        }
    }
    Ok(())
}

/// Bytes of a part described so often, from where the one before
/// leads to, and the places of all of them in the pool in one number.
fn describe_often(store: &Store<Coded>, part: Part, times: u32) -> Result<u64>
    requires part { IsPart (table_of coded_byte store.now) part }
    requires long { 60 ≤ part_len part }
{
    let _count = store.count();
    let mut places: u64 = 1;
    for _ in 0..times {
        match describe_part(store, part, places % 4, 57) {
            Some(Description::Pooled { a }) => places = places.rotate_left(5) ^ a,
            _ => bail!("a part lies in no one literal"),
        }
    }
    Ok(places)
}

/// A text of one leaf, as a part.
fn describe_old(store: &Store<Coded>, text: Rope, times: u32) -> Result<u64>
    requires { IsRope (table_of coded_byte store.now) text }
{
    let n = store.len(text);
    if n < 60 {
        bail!("a text is too short");
    }
    let part = Part::Old {
        rope: text,
        i: 0,
        n,
    };
    describe_often(store, part, times)
}

/// The pool, as a part.
fn describe_pool(store: &Store<Coded>, times: u32) -> Result<u64> {
    let n = store.pool_len();
    if n < 60 {
        bail!("a pool is too short");
    }
    describe_often(store, Part::Pool { a: 0, n }, times)
}

/// The image of a session, written anew: whether it was written. It is not
/// made inline, so that no part of the work is done once for many images.
#[inline(never)]
fn write_anew(session: &Session, image: &mut Vec<u8>) -> bool {
    image.clear();
    write(session, image).is_ok() && image.last() == Some(&0)
}

/// The image of one empty text written so often.
fn write_often(alloc: Global, times: u32) -> Result<()> {
    let mut session = Session::new(alloc);
    session.apply(Command::New)?;
    let mut image = Vec::new(alloc);
    for _ in 0..times {
        if !write_anew(&session, &mut image) {
            bail!("an image was not written");
        }
    }
    Ok(())
}

/// Uses a number of places, so that no description of them is left out.
fn is_told(places: u64) -> Result<()> {
    if places == 0 {
        bail!("no place was told");
    }
    Ok(())
}

/// So many of these calls.
fn repeat(alloc: Global, ropes: &Ropes, call: Call, times: u32) -> Result<()> {
    let (store, leaf) = (&ropes.store, ropes.leaf);
    if !store.has(leaf) || !store.has(ropes.deep) || !store.has(ropes.left) {
        bail!("a rope is of another store");
    }
    match call {
        Call::MakeBack => make_back(alloc, store, leaf, times),
        Call::MakeMany => make_many(alloc, store, ropes.deep, ropes.left, times),
        Call::Verify => verify_often(alloc, store, leaf, times),
        Call::VerifyCounted => {
            verify_counted_often::<Brand>(alloc, store, leaf, times, Blank::new(1))
        }
        Call::DescribeOld => is_told(describe_old(store, leaf, times)?),
        Call::DescribePool => is_told(describe_pool(store, times)?),
        Call::WriteEmpty => write_often(alloc, times),
    }
}

/// Makes a call more and more often, until that takes long enough, and prints how long one of them took.
fn time_call(rt: &HostRuntime, ropes: &Ropes, call: Call) -> Result<()> {
    let mut times = FIRST_TIMES;
    for _ in 0..MOST_DOUBLINGS {
        let start = Instant::now(rt)?;
        repeat(rt.alloc(), ropes, call, times)?;
        let taken = start.elapsed(rt)?.as_nanos();
        if taken >= LONG_ENOUGH {
            let (name, each) = (call.name(), taken / u128::from(times.max(1)));
            eprintln!(rt; "  {name:<34} {each:>6} ns")?;
            return Ok(());
        }
        times = times.saturating_mul(2);
    }
    bail!("a call takes no time")
}

/// Times each of them.
pub fn time(rt: &HostRuntime) -> Result<()> {
    let ropes = Ropes::new(rt.alloc())?;
    for call in [
        Call::MakeBack,
        Call::MakeMany,
        Call::Verify,
        Call::VerifyCounted,
        Call::DescribeOld,
        Call::DescribePool,
        Call::WriteEmpty,
    ] {
        time_call(rt, &ropes, call)?;
    }
    Ok(())
}
