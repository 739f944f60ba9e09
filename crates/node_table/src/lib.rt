//! A table of nodes that only grows: its records, their functions, the pool of its literals and its sources.
#![tactic(auto)]

mod block;
mod blocks;
mod copying;
mod entry;
mod fault;
mod new_nodes;
mod node_table;
mod record;
mod space;

pub use fault::NodeFault;
pub use new_nodes::NewNodes;
pub use node_table::{FEW_SOURCES, NodeTable};
pub use record::Record;
