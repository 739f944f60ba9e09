//! The crates' definitions on worked examples: each function has no body, and what it ensures is computed.
#![tactic(auto)]

mod certificates;
mod functions;
mod images;
mod keys;
mod limits;
mod nodes;
mod origins;
mod pieces;
mod places;
mod pools;
mod sessions;
