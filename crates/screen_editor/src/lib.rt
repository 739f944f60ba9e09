//! The screen editor: keys in, frames of a terminal out, over a session that keeps every text.
#![tactic(auto)]

mod cut_span;
mod editor;
mod edits;
mod fault;
mod keeping;
mod key;
mod known;
pub mod laws;
mod noting;
mod opening;
mod priors;
mod running;
mod typing;
mod workspace;

pub use editor::Editor;
pub use fault::{EditorFault, End, KeyFault, RunFault};
pub use key::{Effect, Key, LinePlace, Step};
pub use running::MOST_KEYS;
pub use text_lines::FrameFault;
