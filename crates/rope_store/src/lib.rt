//! A store of ropes: calls that make texts and parts and concatenations of texts, as nodes of a table that only grows.
#![tactic(auto)]

mod appending;
mod copying;
mod endings;
mod joining;
mod leaves;
mod merging;
mod parts;
mod space;
mod store;

pub use endings::MOST_MERGED;
pub use store::Store;
