//! The pool.

ghost use Rattle.std.specs.Prelude.{◌≡◌, ℕ, ◌+◌, ◌-◌, ◌^◌, ◌<◌, ◌≤◌, ◌↔◌, [], All, length, slice_range, IsSome, IfSome, OnSome, IfNone, IsOk, IfOk, OnOk, OnErr, IsErr, IsErrOf, IsTrue};
ghost use Rattle.std.specs.List.{AllWithin};
ghost use Rattle.leaf_buffer.specs.Contents.{IsInOneBlock, KeepsPieces, IsLastPiece, LastBlockTakes, CanExtend, IsPoolFull, extended, with_block, appended, held_whole};
ghost use Rattle.leaf_buffer.specs.Blocks.{AreConsecutive, IsLastBlock, IsBlockAt};

use crate::block::{BLOCK_SIZE, Block};
use crate::fault::LeafError;
use crate::piece::Piece;
use crate::placed::PlacedBlock;
use std::alloc::{AllocError, Global};
use std::marker::Model;

/// The length that a pool stays below, in bytes.
pub const POOL_LIMIT: u64 = 1 << 32;

/// One list of bytes that only grows. It lies in blocks of 65,536 bytes, which never move, and
/// what one call appends lies in one block.
#[derive(Drop)]
pub struct Pool {
    alloc: Global,
    blocks: Vec<PlacedBlock>,
}

impl Model for Pool {
    ghost use Rattle.leaf_buffer.specs.Contents.{Contents};

    ghost Value = { Contents };

    ghost use Rattle.leaf_buffer.specs.Blocks.{contents_of, ArePool};

    ghost view = { λ p. contents_of p.blocks.items };

    ghost invariant = { λ p. ArePool p.blocks.items };
}

/// The last block.
fn last_of(blocks: &[PlacedBlock]) -> Option<&PlacedBlock>
    requires { AreConsecutive 0 blocks.now }
    ensures none { IfNone result (blocks.now ≡ []) }
    ensures some { IfSome result (λ last. IsLastBlock blocks.now last.now) }
{
    blocks.last()
}

/// How many blocks begin at `place` or before it.
fn count_begun(blocks: &[PlacedBlock], place: u32) -> usize
    requires { AreConsecutive 0 blocks.now }
    ensures within { result ≤ length blocks.now }
    ensures begun { AllWithin (λ b. b.start ≤ place) blocks.now 0 result }
    ensures behind { AllWithin (λ b. place < b.start) blocks.now result (length blocks.now) }
{
    blocks.partition_point(|b| b.start <= place)
}

/// The last block that begins at `place` or before it.
fn block_of(blocks: &[PlacedBlock], place: u32) -> Option<&PlacedBlock>
    requires { AreConsecutive 0 blocks.now }
    ensures none { IfNone result (blocks.now ≡ []) }
    ensures some { IfSome result (λ block. IsBlockAt blocks.now place block.now) }
{
    let last = count_begun(blocks, place).checked_sub(1)?;
    Some(&blocks[last])
}

impl Pool {
    /// An empty pool, which has asked for no memory yet.
    pub fn new(alloc: Global) -> Pool
        ensures { result ≡ record { bytes = []; borders = []; room = 0 } }
    {
        Pool {
            alloc,
            blocks: Vec::new(alloc),
        }
    }

    /// A pool that begins with these bytes, in one block that takes no more.
    ///
    /// # Errors
    ///
    /// `AllocError` where no memory was given for the list of blocks.
    pub fn holding(alloc: Global, bytes: Vec<u8>) -> Result<Pool, AllocError>
        requires { length bytes.items < POOL_LIMIT }
        ensures pool { IfOk result (λ pool. pool ≡ held_whole bytes.items) }
        ensures memory { IsErr result → 0 < length bytes.items }
    {
        let mut blocks = Vec::new(alloc);
        if !bytes.is_empty() {
            let block = Block::holding(bytes);
            blocks.push(PlacedBlock { start: 0, block })?;
        }
        Ok(Pool { alloc, blocks })
    }

    /// How many bytes the pool holds.
    pub fn len(&self) -> u64
        ensures len { result ≡ length self.now.bytes }
        ensures limit { result < POOL_LIMIT }
        ensures borders { All (λ border. border < result) self.now.borders }
        ensures room { self.now.room ≤ BLOCK_SIZE }
    {
        match last_of(&self.blocks) {
            Some(last) => u64::from(last.start) + last.block.len() as u64,
            None => 0,
        }
    }

    /// How many bytes the last block still takes.
    pub fn room(&self) -> usize
        ensures room { result ≡ self.now.room }
        ensures limit { result ≤ BLOCK_SIZE }
    {
        match last_of(&self.blocks) {
            Some(last) => last.block.room(),
            None => 0,
        }
    }

    /// Puts these bytes at the pool's end, in one block, and gives their place.
    ///
    /// An append of at most `room` bytes takes no memory.
    ///
    /// # Errors
    ///
    /// `Empty` where there are no bytes, `TooLong` for more than 65,536 of them, `PoolFull` where
    /// the pool would be longer than 2^32 - 1 bytes, `Memory` where none was given for a new block.
    pub fn append(&mut self, bytes: &[u8]) -> Result<Piece, LeafError>
        ensures piece { IfOk result (λ p. p ≡ record { start = length self.old.bytes; len = length bytes.now }) }
        ensures ok { OnOk result (self.new ≡ appended self.old bytes.now) }

        ensures empty { IsErrOf result LeafError.Empty ↔ (length bytes.now ≡ 0) }
        ensures too_long { IsErrOf result LeafError.TooLong ↔ (BLOCK_SIZE < length bytes.now) }
        ensures full { IsErrOf result LeafError.PoolFull ↔ IsPoolFull self.old (length bytes.now) }
        ensures memory { IsErrOf result LeafError.Memory → self.old.room < length bytes.now }
        ensures succeeds { LastBlockTakes self.old (length bytes.now) → IsOk result }
        ensures err { OnErr result (self.new ≡ self.old) }

        ensures in_one_block { IfOk result (λ p. IsInOneBlock self.new p.start p.len) }
        ensures keeps { KeepsPieces self.old self.new }
    {
        let len = self.len();
        if bytes.is_empty() {
            return Err(LeafError::Empty);
        }
        if bytes.len() > BLOCK_SIZE {
            return Err(LeafError::TooLong);
        }
        if len + bytes.len() as u64 >= POOL_LIMIT {
            return Err(LeafError::PoolFull);
        }
        Ok(self.put(bytes)?)
    }

    /// Puts these bytes at the pool's end, in one block, and gives their place. Bytes that fit `room` take no memory.
    ///
    /// # Errors
    ///
    /// `AllocError` where no memory was given for a new block. The pool is then as before.
    pub fn put(&mut self, bytes: &[u8]) -> Result<Piece, AllocError>
        requires some { 0 < length bytes.now }
        requires fits { length bytes.now ≤ BLOCK_SIZE }
        requires limit { length self.old.bytes + length bytes.now < POOL_LIMIT }
        ensures piece { IfOk result (λ p. p ≡ record { start = length self.old.bytes; len = length bytes.now }) }
        ensures ok { OnOk result (self.new ≡ appended self.old bytes.now) }
        ensures memory { IsErr result → self.old.room < length bytes.now }
        ensures err { OnErr result (self.new ≡ self.old) }
        ensures in_one_block { IfOk result (λ p. IsInOneBlock self.new p.start p.len) }
        ensures keeps { KeepsPieces self.old self.new }
    {
        let (start, room) = (self.len(), self.room());
        if bytes.len() <= room {
            self.extend(bytes);
        } else {
            self.open_block(bytes)?;
        }
        Ok(Piece {
            start: start as u32,
            len: bytes.len() as u32,
        })
    }

    /// Puts these bytes behind a piece that ends at the pool's end, where they fit its block, and
    /// gives the longer piece. Otherwise nothing changes. It takes no memory.
    pub fn extend_last(&mut self, piece: Piece, bytes: &[u8]) -> Option<Piece>
        ensures found { IsSome result ↔ CanExtend self.old piece (length bytes.now) }
        ensures longer { IfSome result
            (λ p. p ≡ record { start = piece.start; len = piece.len + length bytes.now }) }
        ensures some { OnSome result (self.new ≡ extended self.old bytes.now) }
        ensures none { IfNone result (self.new ≡ self.old) }

        ensures in_one_block { IfSome result (λ p. IsInOneBlock self.new p.start p.len) }
        ensures keeps { KeepsPieces self.old self.new }
    {
        if !self.can_extend(piece, bytes.len()) {
            return None;
        }
        self.extend(bytes);
        Some(Piece {
            start: piece.start,
            len: piece.len + bytes.len() as u32,
        })
    }

    /// Whether `extend_last` would put this many bytes behind the piece.
    pub fn can_extend(&self, piece: Piece, count: usize) -> bool
        ensures { IsTrue result ↔ CanExtend self.now piece count }
    {
        self.ends_with(piece) && self.takes(count)
    }

    /// The bytes of a piece, where it is not empty and lies in one block.
    pub fn get(&self, piece: Piece) -> Option<&[u8]>
        ensures found { IsSome result ↔ ((0 < piece.len) × IsInOneBlock self.now piece.start piece.len) }
        ensures bytes { IfSome result
            (λ b. b.now ≡ slice_range self.now.bytes piece.start (piece.start + piece.len)) }
    {
        if piece.len == 0 {
            return None;
        }
        let holder = block_of(&self.blocks, piece.start)?;
        let from = (piece.start - holder.start) as usize;
        holder.block.as_slice().get(from..from + piece.len as usize)
    }

    /// The bytes from a place to the end of its block: one at least.
    pub fn rest_of_block(&self, place: u32) -> &[u8]
        requires { place < length self.now.bytes }
        ensures some { 0 < length result.now }
        ensures in_one_block { IsInOneBlock self.now place (length result.now) }
        ensures longest { (n : ℕ) → IsInOneBlock self.now place n → n ≤ length result.now }
        ensures bytes { result.now ≡ slice_range self.now.bytes place (place + length result.now) }
    {
        match block_of(&self.blocks, place) {
            Some(holder) => &holder.block.as_slice()[(place - holder.start) as usize..],
            None => unreachable!(),
        }
    }

    /// Whether the pool ends with this piece.
    fn ends_with(&self, piece: Piece) -> bool
        ensures { IsTrue result ↔ IsLastPiece self.now piece.start piece.len }
    {
        let end = u64::from(piece.start) + u64::from(piece.len);
        if piece.len == 0 || end != self.len() {
            return false;
        }
        match last_of(&self.blocks) {
            Some(last) => last.start <= piece.start,
            None => false,
        }
    }

    /// Whether the last block takes this many bytes more.
    fn takes(&self, count: usize) -> bool
        ensures { IsTrue result ↔ LastBlockTakes self.now count }
    {
        count > 0 && count <= self.room() && (count as u64) < POOL_LIMIT - self.len()
    }

    /// Writes these bytes into the room of the last block, behind those that are there. It takes no memory.
    pub fn extend(&mut self, bytes: &[u8])
        requires { LastBlockTakes self.old (length bytes.now) }
        ensures new { self.new ≡ extended self.old bytes.now }
        ensures keeps { KeepsPieces self.old self.new }
        ensures borders { All (λ border. border < length self.old.bytes) self.old.borders }
    {
        let last = self.blocks.len() - 1;
        self.blocks[last].block.append(bytes);
    }

    /// Opens a block for these bytes.
    fn open_block(&mut self, bytes: &[u8]) -> Result<(), AllocError>
        requires some { 0 < length bytes.now }
        requires fits { length bytes.now ≤ BLOCK_SIZE }
        requires limit { length self.old.bytes + length bytes.now < POOL_LIMIT }
        ensures ok { OnOk result (self.new ≡ with_block self.old bytes.now) }
        ensures err { OnErr result (self.new ≡ self.old) }
    {
        let start = self.len() as u32;
        let block = Block::with(self.alloc, bytes)?;
        self.blocks.push(PlacedBlock { start, block })?;
        Ok(())
    }
}
