//! Tables of nodes: the texts that they denote, and what must hold of their records.
#![tactic(auto)]

mod limits;
mod node;
mod path;
mod space;
mod step;

pub use limits::{MOST_DEPTH, MOST_NODES, MOST_SOURCES, TEXT_LIMIT};
pub use node::{LeafSpan, NodeId, NodeView, Rope, Span};
pub use path::{LeafPlace, find_leaf};
pub use space::{CodedSpace, NodeSpace, rope_len};
pub use step::{StepDown, step_down};
