//! The records of an image in the making, as docs/FORMAT.md has them.

ghost use Rattle.std.specs.Prelude.{◌^◌, ◌<◌};

use anyhow::Result;
use std::alloc::Global;

/// Nodes, by their kinds.
const LITERAL: u8 = 1;

const FUNCTION: u8 = 3;

const CONCATENATION: u8 = 4;

const SUBSTRING: u8 = 5;

/// No node.
const NIL: u32 = u32::MAX;

/// Rows, by their tags.
const SHARED: u8 = 1;

const LEAF: u8 = 2;

const BYTES: u8 = 3;

/// What is known of a node.
#[derive(Clone, Copy, Debug)]
pub struct Known {
    pub len: u64,
    pub left: u32,
    pub right: u32,
    pub depth: u8,
}

/// What stands in place of a node that is not there.
const NOTHING: Known = Known {
    len: 0,
    left: 0,
    right: 0,
    depth: 0,
};

/// The numbers of a command.
#[derive(Clone, Copy, Debug)]
pub struct Fields {
    pub r: u32,
    pub q: u32,
    pub p: u64,
    pub m: u64,
    pub a: u64,
    pub n: u64,
}

/// The numbers of a command that uses none.
pub const NO_FIELDS: Fields = Fields {
    r: 0,
    q: 0,
    p: 0,
    m: 0,
    a: 0,
    n: 0,
};

/// Sections of an image without sources.
#[derive(Drop)]
pub struct Image {
    known: Vec<Known>,
    nodes: Vec<u8>,
    revisions: Vec<u8>,
    revision_count: u32,
    rows: Vec<u8>,
    row_count: u32,
    /// How many rows there were before the revision that is made.
    rows_before: u32,
    pub pool: Vec<u8>,
}

/// Four numbers of eight bytes each, one behind the other.
fn joined(a: [u8; 8], b: [u8; 8], c: [u8; 8], d: [u8; 8]) -> [u8; 32] {
    [
        a[0], a[1], a[2], a[3], a[4], a[5], a[6], a[7], b[0], b[1], b[2], b[3], b[4], b[5], b[6],
        b[7], c[0], c[1], c[2], c[3], c[4], c[5], c[6], c[7], d[0], d[1], d[2], d[3], d[4], d[5],
        d[6], d[7],
    ]
}

/// A record's first eight bytes and three numbers, put behind what is there.
fn put(out: &mut Vec<u8>, front: [u8; 8], b: u64, c: u64, d: u64) -> Result<()> {
    let record = joined(front, b.to_be_bytes(), c.to_be_bytes(), d.to_be_bytes());
    out.extend_from_slice(&record)?;
    Ok(())
}

/// Four bytes and a number, as eight bytes.
fn front_of(a: u8, b: u8, c: u8, x: u32) -> [u8; 8] {
    let number = x.to_be_bytes();
    [a, b, c, 0, number[0], number[1], number[2], number[3]]
}

impl Image {
    /// An image of nothing, with room for about so many nodes and as many rows.
    pub fn with_room(alloc: Global, room: usize) -> Result<Image>
        requires { room < 2 ^ 32 }
    {
        Ok(Image {
            known: Vec::with_capacity(alloc, room)?,
            nodes: Vec::with_capacity(alloc, 32 * room)?,
            revisions: Vec::with_capacity(alloc, 8 * room)?,
            revision_count: 0,
            rows: Vec::with_capacity(alloc, 24 * room)?,
            row_count: 0,
            rows_before: 0,
            pool: Vec::with_capacity(alloc, 4 * room)?,
        })
    }

    /// How many revisions there are.
    pub fn count(&self) -> u32 {
        self.revision_count
    }

    pub fn known(&self, id: u32) -> Known {
        self.known.get(id as usize).copied().unwrap_or(NOTHING)
    }

    fn node(&mut self, front: [u8; 8], payload: u64, known: Known) -> Result<u32> {
        let id = u32::try_from(self.known.len()).unwrap_or(NIL);
        put(&mut self.nodes, front, known.len, payload, 0)?;
        self.known.push(known)?;
        Ok(id)
    }

    /// The `n` bytes of the pool from `a` on.
    pub fn literal(&mut self, a: u64, n: u64) -> Result<u32> {
        let known = Known { len: n, ..NOTHING };
        self.node(front_of(LITERAL, 0, 0, 0), a, known)
    }

    /// One byte `c`, as a function.
    pub fn filled(&mut self, c: u8) -> Result<u32> {
        let known = Known { len: 1, ..NOTHING };
        self.node(front_of(FUNCTION, 0, 1, 0), u64::from(c) << 56, known)
    }

    /// Two nodes, one behind the other.
    pub fn cat(&mut self, left: u32, right: u32) -> Result<u32> {
        let (l, r) = (self.known(left), self.known(right));
        let depth = l.depth.max(r.depth).saturating_add(1);
        let known = Known {
            len: l.len.saturating_add(r.len),
            left,
            right,
            depth,
        };
        let front = front_of(CONCATENATION, depth, 0, left);
        self.node(front, u64::from(right) << 32, known)
    }

    /// The whole of a node, as a substring of it.
    pub fn sub(&mut self, base: u32) -> Result<u32> {
        let below = self.known(base);
        let depth = below.depth.saturating_add(1);
        let known = Known {
            len: below.len,
            left: base,
            right: 0,
            depth,
        };
        self.node(front_of(SUBSTRING, depth, 0, base), 0, known)
    }

    fn row(&mut self, front: [u8; 8], len: u64, offset: u64) -> Result<()> {
        let (len, offset) = (len.to_be_bytes(), offset.to_be_bytes());
        self.rows
            .extend_from_slice(&joined(front, len, offset, [0; 8])[..24])?;
        self.row_count = self.row_count.saturating_add(1);
        Ok(())
    }

    /// A row over the first `len` bytes of a node, from its byte `offset` on.
    pub fn shared(&mut self, id: u32, len: u64, offset: u64) -> Result<()> {
        self.row(front_of(SHARED, 0, 0, id), len, offset)
    }

    /// A row over one leaf span.
    pub fn leaf(&mut self, len: u64) -> Result<()> {
        self.row(front_of(LEAF, 0, 0, 0), len, 0)
    }

    /// A row that compares so many bytes.
    pub fn compared(&mut self, len: u64) -> Result<()> {
        self.row(front_of(BYTES, 0, 0, 0), len, 0)
    }

    /// A revision by the command of this code, whose rows are those that were made since the one before.
    pub fn revise(&mut self, code: u8, root: Option<u32>, fields: Fields) -> Result<()> {
        let rows = self.row_count.saturating_sub(self.rows_before);
        self.rows_before = self.row_count;
        let front = front_of(code, 0, 0, root.unwrap_or(NIL));
        let names = (u64::from(fields.r) << 32) | u64::from(fields.q);
        let behind = u64::from(rows) << 32;
        put(&mut self.revisions, front, names, fields.p, fields.m)?;
        let (a, n) = (fields.a.to_be_bytes(), fields.n.to_be_bytes());
        self.revisions
            .extend_from_slice(&joined(a, n, behind.to_be_bytes(), [0; 8])[..24])?;
        self.revision_count = self.revision_count.saturating_add(1);
        Ok(())
    }

    /// The image's bytes.
    pub fn bytes(&self, alloc: Global) -> Result<Vec<u8>> {
        let nodes = self.known.len() as u64;
        let counts = (nodes << 32) | u64::from(self.revision_count);
        let rows = u64::from(self.row_count) << 32;
        let mut out = Vec::new(alloc);
        out.extend_from_slice(b"CORDSESS")?;
        put(
            &mut out,
            [0, 0, 0, 2, 0, 0, 0, 0],
            counts,
            rows,
            self.pool.len() as u64,
        )?;
        let sections = [&self.nodes, &self.revisions, &self.rows, &self.pool];
        for section in sections {
            out.reserve(section.len())?;
        }
        for section in sections {
            out.extend_from_slice(section)?;
        }
        Ok(out)
    }
}
