//! Ropes made shallow: a new rope of the same text whose depth its
//! length asks for, and calls that do so where a rope would be too deep.
#![tactic(auto)]

mod any;
mod balanced;
mod balancing;
mod fault;
mod pieces;
mod slots;

pub use any::{append_any, cat_any, substr_any};
pub use balanced::is_balanced;
pub use balancing::balance;
pub use fault::BalanceFault;
pub use pieces::MOST_PIECES;
