//! Comparison and search of the texts of ropes, and a text written to its end, run by run.
#![tactic(auto)]

mod compare;
mod fault;
mod look;
mod pattern;
mod runs;
mod seeker;
mod single_bytes;
mod skips;
mod text_bytes;
mod write;

pub use compare::{cmp, ncmp};
pub use fault::{FindFault, PutFault};
pub use pattern::{PATTERN_LIMIT, find};
pub use runs::{PIECE, gather};
pub use single_bytes::{chr, chr_with, rchr};
pub use skips::clear_behind;
pub use text_bytes::byte_at;
pub use write::put;
