//! Commands as lines of a script.
#![tactic(auto)]

mod applying;
mod blanks;
mod changes;
mod command;
mod comment;
mod fault;
mod handing;
mod law;
mod line;
mod number;
mod printing;
mod quoted;
mod room;

pub use applying::{apply_script, apply_script_told};
pub use blanks::{behind_blanks, is_end, split_front};
pub use comment::{Note, comment_text};
pub use fault::{LineFault, Stop, Stopped};
pub use handing::{handed, span};
pub use law::{reads_a_log, reads_as_printed, says_the_script, says_the_texts};
pub use line::parse_line;
pub use number::{number32, number64};
pub use printing::{glyph, push_escaped, push_front, push_line, push_number};
pub use quoted::quoted_bytes;
pub use room::Room;
