//! Sessions: revisions of texts made by commands, each with the rows that show it.
#![tactic(auto)]

mod building;
mod command;
mod fault;
mod known;
mod refusing;
mod revising;
mod revision;
mod session;
mod term;

pub use command::{Change, Command};
pub use fault::EditFault;
pub use session::Session;
