//! The byte at a place of a rope, and positions in its text.
#![tactic(auto)]

mod fetching;
mod fill;
mod leaf;
mod path;
mod position;
mod run;

pub use fetching::fetch;
pub use fill::{fill_part, fill_source};
pub use position::Pos;
