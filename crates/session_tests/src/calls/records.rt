//! Images put together record by record, from the tables of the format.

use std::alloc::AllocGlobal;
use std::process::Abort;

/// The fields of a node: kind, depth, function, pattern length, number, length, and sixteen bytes.
pub type Node = [u64; 8];

/// The fields of a revision: command, mark, two bytes, root, r, q, p, m, a, n, rows, four bytes.
pub type Revision = [u64; 12];

/// The fields of a splice: p, m, a, n.
pub type Splice = [u64; 4];

/// The fields of a row: tag, three bytes, node, length, offset.
pub type Row = [u64; 5];

const HEADER_WIDTHS: &[usize] = &[8, 4, 4, 4, 4, 4, 4, 8];

const NODE_WIDTHS: &[usize] = &[1, 1, 1, 1, 4, 8, 8, 8];

const REVISION_WIDTHS: &[usize] = &[1, 1, 2, 4, 4, 4, 8, 8, 8, 8, 4, 4];

const SPLICE_WIDTHS: &[usize] = &[8, 8, 8, 8];

const ROW_WIDTHS: &[usize] = &[1, 3, 4, 8, 8];

/// `CORDSESS`.
const MAGIC: u64 = 0x434f_5244_5345_5353;

/// The root of an empty text.
pub const NIL: u64 = 0xffff_ffff;

/// The records of an image, and its pool.
#[derive(Drop)]
pub struct Records<'a> {
    pub version: u64,
    pub sources: &'a [[u64; 1]],
    pub nodes: &'a [Node],
    pub revisions: &'a [Revision],
    pub splices: &'a [Splice],
    pub rows: &'a [Row],
    pub pool: &'a [u8],
}

/// The `n` bytes of the pool from `a` on.
pub(crate) fn literal(a: u64, n: u64) -> Node {
    [1, 0, 0, 0, 0, n, a, 0]
}

/// The first `n` bytes of source `s`.
pub(crate) fn opened(s: u64, n: u64) -> Node {
    [2, 0, 0, 0, s, n, 0, 0]
}

/// `n` bytes `c`.
pub(crate) fn filled(c: u64, n: u64) -> Node {
    [3, 0, 1, 0, 0, n, c << 56, 0]
}

/// Node `l` and then node `r`.
pub(crate) fn joined(l: u64, r: u64, depth: u64, n: u64) -> Node {
    [4, depth, 0, 0, l, n, r << 32, 0]
}

/// The `n` bytes of node `b` from `i` on.
pub(crate) fn part(b: u64, i: u64, depth: u64, n: u64) -> Node {
    [5, depth, 0, 0, b, n, i, 0]
}

/// `New`.
pub(crate) fn empty() -> Revision {
    [1, 0, 0, NIL, 0, 0, 0, 0, 0, 0, 0, 0]
}

/// `Open` of source `s`.
pub(crate) fn open(s: u64, mark: u64, root: u64, rows: u64) -> Revision {
    [2, mark, 0, root, 0, s, 0, 0, 0, 0, rows, 0]
}

/// `Insert` of `n` bytes of the pool from `a` on at place `p` of revision `r`.
pub(crate) fn insert(r: u64, p: u64, a: u64, n: u64, mark: u64, root: u64, rows: u64) -> Revision {
    [3, mark, 0, root, r, 0, p, 0, a, n, rows, 0]
}

/// A row of bytes that lead to place `o` of node `k` on both sides.
pub(crate) fn shared(k: u64, o: u64, n: u64) -> Row {
    [1, 0, k, n, o]
}

/// A row of a leaf.
pub(crate) fn leaf(n: u64) -> Row {
    [2, 0, 0, n, 0]
}

/// A row of bytes that are compared.
pub(crate) fn compared(n: u64) -> Row {
    [3, 0, 0, n, 0]
}

/// Puts the fields of a record behind an image, the highest byte of each first.
fn put_fields<A: Abort>(rt: &A, image: &mut Vec<u8>, widths: &[usize], numbers: &[u64]) {
    for (width, number) in widths.iter().zip(numbers.iter()) {
        let bytes = number.to_be_bytes();
        let field = bytes.get(8usize.saturating_sub(*width)..);
        let field = field.expect(rt, "a field");
        image.extend_from_slice(field).expect(rt, "memory");
    }
}

/// Puts the records of a section behind an image.
fn put_section<A: Abort, const N: usize>(
    rt: &A,
    image: &mut Vec<u8>,
    widths: &[usize],
    records: &[[u64; N]],
) {
    for record in records {
        put_fields(rt, image, widths, record);
    }
}

/// The image of these records.
pub(crate) fn image_of<A: AllocGlobal + Abort>(rt: &A, records: &Records<'_>) -> Vec<u8> {
    let mut image: Vec<u8> = Vec::new(rt.alloc());
    let header = [
        MAGIC,
        records.version,
        records.sources.len() as u64,
        records.nodes.len() as u64,
        records.revisions.len() as u64,
        records.rows.len() as u64,
        records.splices.len() as u64,
        records.pool.len() as u64,
    ];
    put_fields(rt, &mut image, HEADER_WIDTHS, &header);
    put_section(rt, &mut image, &[8], records.sources);
    put_section(rt, &mut image, NODE_WIDTHS, records.nodes);
    put_section(rt, &mut image, REVISION_WIDTHS, records.revisions);
    put_section(rt, &mut image, SPLICE_WIDTHS, records.splices);
    put_section(rt, &mut image, ROW_WIDTHS, records.rows);
    image.extend_from_slice(records.pool).expect(rt, "memory");
    image
}

/// The image of one insertion of `abc`, in this version.
pub(crate) fn one_insert<A: AllocGlobal + Abort>(rt: &A, version: u64) -> Vec<u8> {
    inserted(rt, version, b"abc", &[leaf(3)])
}

/// The image of one insertion of these bytes as one literal, with these rows.
pub(crate) fn inserted<A: AllocGlobal + Abort>(
    rt: &A,
    version: u64,
    pool: &[u8],
    rows: &[Row],
) -> Vec<u8> {
    let n = pool.len() as u64;
    image_of(
        rt,
        &Records {
            version,
            sources: &[],
            nodes: &[literal(0, n)],
            revisions: &[empty(), insert(0, 0, 0, n, 1, 0, rows.len() as u64)],
            splices: &[],
            rows,
            pool,
        },
    )
}

/// The image of sources of three bytes each opened, whose text is compared byte by byte.
pub(crate) fn two_opened<A: AllocGlobal + Abort>(rt: &A) -> Vec<u8> {
    image_of(
        rt,
        &Records {
            version: 1,
            sources: &[[3], [3]],
            nodes: &[opened(0, 3), opened(1, 3)],
            revisions: &[open(0, 0, 0, 1), open(1, 0, 1, 1)],
            splices: &[],
            rows: &[compared(3), compared(3)],
            pool: &[],
        },
    )
}

/// The image of the longest source opened, with these rows.
pub(crate) fn longest_opened<A: AllocGlobal + Abort>(rt: &A, rows: &[Row]) -> Vec<u8> {
    let n = (1 << 40) - 1;
    image_of(
        rt,
        &Records {
            version: 1,
            sources: &[[n]],
            nodes: &[opened(0, n)],
            revisions: &[open(0, 0, 0, rows.len() as u64)],
            splices: &[],
            rows,
            pool: &[],
        },
    )
}
