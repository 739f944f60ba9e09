//! The bytes that leaves of a rope lie in: a pool of blocks that never move, and a cursor over one leaf.
#![tactic(auto)]

mod block;
mod fault;
mod lent;
mod piece;
mod placed;
mod pool;
mod raw_block;
mod room;
mod run;

pub use block::BLOCK_SIZE;
pub use fault::LeafError;
pub use piece::Piece;
pub use pool::{POOL_LIMIT, Pool};
pub use run::Run;
