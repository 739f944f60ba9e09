//! A session that takes requests, a line each: commands and questions.
#![tactic(auto)]

mod answering;
mod asking;
mod fault;
mod front;
mod laws;
mod outcome;
mod question;
mod reading;
mod speaking;
mod taking;

pub use fault::AskFault;
pub use front::{journals_are_scripts, lines_front};
pub use laws::{is_recovered, keeps_a_script, no_command_asks};
pub use outcome::Outcome;
pub use question::{Question, asked};
pub use speaking::{Speaking, serve_speaking};
