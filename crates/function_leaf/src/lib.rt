//! Functions as leaves of a rope: a byte for each place.
#![tactic(auto)]

mod coded;
mod leaf_fn;
mod pattern;

pub use coded::Coded;
pub use leaf_fn::{LeafFn, fill};
pub use pattern::{PATTERN_LIMIT, Pattern};
