//! The lines of a rope's text: where they begin and end, and the screen that shows them about a place.
#![tactic(auto)]

mod borders;
mod fault;
mod frame;
mod held;
mod known;
mod known_lines;
mod lines;
mod rows;
mod window;

pub use fault::FrameFault;
pub use frame::frame_about;
pub use known::{KnownLine, are_told_by_others};
pub use known_lines::KnownLines;
pub use lines::{line_end, line_start, place_down, place_up};
