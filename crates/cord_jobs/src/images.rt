//! Images that are made field by field: a text of many literals that
//! is changed all over, and rows that compare bytes of deep ropes.

ghost use Rattle.std.specs.Prelude.{◌<◌};

use crate::chance::Chance;
use crate::image::{Fields, Image, NO_FIELDS};
use anyhow::Result;
use std::alloc::Global;

/// Commands, by their codes.
const NEW: u8 = 1;

const INSERT: u8 = 3;

const REPLACE: u8 = 5;

const JOIN: u8 = 7;

const BACK: u8 = 10;

/// The deepest rope.
const DEEPEST: u8 = 64;

/// So many bytes a row compares at most.
const COMPARED: u64 = 4096;

/// Letters put into the pool, and where.
fn pooled(image: &mut Image, chance: &mut Chance, n: u64) -> Result<u64> {
    let a = image.pool.len() as u64;
    for _ in 0..n {
        image.pool.push(chance.letter())?;
    }
    Ok(a)
}

/// The first text: 2^levels literals under a tree, each with its row.
fn planted(image: &mut Image, chance: &mut Chance, levels: u32) -> Result<u32>
    requires { levels < 24 }
{
    image.revise(NEW, None, NO_FIELDS)?;
    let mut len: u64 = 0;
    for _ in 0..1u32 << levels {
        let n = 8 + chance.below(16);
        let a = pooled(image, chance, n)?;
        image.literal(a, n)?;
        image.leaf(n)?;
        len = len.saturating_add(n);
    }
    let mut first: u32 = 0;
    let mut root: u32 = 0;
    for level in 0..levels {
        let count = 1u32 << (levels - level);
        for k in 0..count / 2 {
            let left = first.saturating_add(2 * k);
            root = image.cat(left, left.saturating_add(1))?;
        }
        first = first.saturating_add(count);
    }
    image.revise(
        INSERT,
        Some(root),
        Fields {
            n: len,
            ..NO_FIELDS
        },
    )?;
    Ok(root)
}

/// The nodes beside a way down, from the root on, and whether the way goes to the right of each.
#[derive(Drop)]
struct Way {
    beside: [u32; 32],
    goes_right: [bool; 32],
    leaf: u32,
    place: u64,
}

/// The way down to a leaf.
fn way_to(image: &Image, root: u32, leaf: u64, levels: u32) -> Way
    requires { levels < 24 }
{
    let mut way = Way {
        beside: [0; 32],
        goes_right: [false; 32],
        leaf: root,
        place: 0,
    };
    for level in 0..levels {
        let node = image.known(way.leaf);
        let goes_right = (leaf >> (levels - 1 - level)) & 1 == 1;
        let at = level as usize;
        way.goes_right[at] = goes_right;
        if goes_right {
            way.beside[at] = node.left;
            way.leaf = node.right;
            way.place = way.place.saturating_add(image.known(node.left).len);
        } else {
            way.beside[at] = node.right;
            way.leaf = node.left;
        }
    }
    way
}

/// The rows of a text of which one leaf was replaced by one of `n` bytes.
fn cover(image: &mut Image, way: &Way, levels: usize, n: u64) -> Result<()>
    requires { levels < 24 }
{
    for k in 0..levels {
        if way.goes_right[k] {
            image.shared(way.beside[k], image.known(way.beside[k]).len, 0)?;
        }
    }
    image.leaf(n)?;
    for k in (0..levels).rev() {
        if !way.goes_right[k] {
            image.shared(way.beside[k], image.known(way.beside[k]).len, 0)?;
        }
    }
    Ok(())
}

/// Replaces one leaf, and answers the new root.
fn replace_leaf(image: &mut Image, chance: &mut Chance, root: u32, levels: u32) -> Result<u32>
    requires { levels < 24 }
{
    let way = way_to(image, root, chance.below(1 << levels), levels);
    let n = 8 + chance.below(16);
    let a = pooled(image, chance, n)?;
    let mut at = image.literal(a, n)?;
    for k in (0..levels as usize).rev() {
        at = if way.goes_right[k] {
            image.cat(way.beside[k], at)?
        } else {
            image.cat(at, way.beside[k])?
        };
    }
    cover(image, &way, levels as usize, n)?;
    let fields = Fields {
        r: image.count().saturating_sub(1),
        q: 0,
        p: way.place,
        m: image.known(way.leaf).len,
        a,
        n,
    };
    image.revise(REPLACE, Some(at), fields)?;
    Ok(at)
}

/// A text of 2^levels literals, of which so many are replaced one after the other.
pub fn changed(alloc: Global, chance: &mut Chance, levels: u32, times: u64) -> Result<Vec<u8>>
    requires { levels < 24 }
{
    let nodes = times.saturating_mul(u64::from(levels) + 1);
    let room = nodes.saturating_add(2 << levels).min(1 << 30) as usize;
    let mut image = Image::with_room(alloc, room)?;
    let mut root = planted(&mut image, chance, levels)?;
    for _ in 0..times {
        root = replace_leaf(&mut image, chance, root, levels)?;
    }
    image.bytes(alloc)
}

/// One byte, as it is first put in.
fn sown(image: &mut Image, chance: &mut Chance) -> Result<u32> {
    let a = pooled(image, chance, 1)?;
    let root = image.literal(a, 1)?;
    image.revise(NEW, None, NO_FIELDS)?;
    image.leaf(1)?;
    image.revise(INSERT, Some(root), Fields { n: 1, ..NO_FIELDS })?;
    Ok(root)
}

/// Rows that compare the whole of a text.
fn compare(image: &mut Image, root: u32) -> Result<()> {
    let len = image.known(root).len;
    for _ in 0..len / COMPARED {
        image.compared(COMPARED)?;
    }
    if len % COMPARED > 0 {
        image.compared(len % COMPARED)?;
    }
    Ok(())
}

/// A revision of the same text as the last one's, whose rows compare all of it.
fn compare_again(image: &mut Image, root: u32) -> Result<()> {
    compare(image, root)?;
    let r = image.count().saturating_sub(1);
    image.revise(BACK, Some(root), Fields { r, ..NO_FIELDS })
}

/// One byte doubled so often, below substrings that chance puts between,
/// down to the greatest depth; and all of the text compared so many times.
pub fn deepest(alloc: Global, chance: &mut Chance, doublings: u8, times: u64) -> Result<Vec<u8>> {
    let mut image = Image::with_room(alloc, 4096)?;
    let mut root = sown(&mut image, chance)?;
    for k in 0..doublings {
        let half = root;
        let len = image.known(half).len;
        root = image.cat(half, half)?;
        let left = (DEEPEST.saturating_sub(image.known(root).depth)).saturating_sub(
            doublings.saturating_sub(k).saturating_sub(1),
        );
        let between = if u32::from(k) + 1 == u32::from(doublings) {
            u64::from(left)
        } else {
            chance.up_to(u64::from(left / 4))
        };
        for _ in 0..between {
            root = image.sub(root)?;
        }
        image.shared(half, len, 0)?;
        image.shared(half, len, 0)?;
        let r = image.count().saturating_sub(1);
        image.revise(
            JOIN,
            Some(root),
            Fields {
                r,
                q: r,
                ..NO_FIELDS
            },
        )?;
    }
    for _ in 0..times {
        compare_again(&mut image, root)?;
    }
    image.bytes(alloc)
}

/// A text of many literals of a few bytes each under trees of two shapes, one even,
/// one that grows at its left end; and each compared with the other so many times.
pub fn two_shapes(
    alloc: Global,
    chance: &mut Chance,
    doublings: u8,
    times: u64,
) -> Result<Vec<u8>> {
    let mut image = Image::with_room(alloc, 4096)?;
    let a = pooled(&mut image, chance, 3)?;
    let byte = image.literal(a, 3)?;
    image.revise(NEW, None, NO_FIELDS)?;
    image.leaf(3)?;
    image.revise(INSERT, Some(byte), Fields { n: 3, ..NO_FIELDS })?;
    let (mut even, mut grown) = (byte, byte);
    for _ in 0..doublings {
        grown = image.cat(grown, even)?;
        even = image.cat(even, even)?;
        let half = image.known(even).left;
        let len = image.known(half).len;
        image.shared(half, len, 0)?;
        image.shared(half, len, 0)?;
        let r = image.count().saturating_sub(1);
        image.revise(
            JOIN,
            Some(even),
            Fields {
                r,
                q: r,
                ..NO_FIELDS
            },
        )?;
    }
    for k in 0..times {
        compare_again(&mut image, if k % 2 == 0 { grown } else { even })?;
    }
    image.bytes(alloc)
}
