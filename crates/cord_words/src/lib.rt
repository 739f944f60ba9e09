//! The program's command line.
#![tactic(auto)]

mod action;
mod apply;
mod args;
mod blame;
mod check;
mod cmp;
mod command_line;
mod commit;
mod cut;
mod edit;
mod fault;
mod find;
mod given;
mod join;
mod log;
mod migrate;
mod request;
mod restore;
mod serve;
mod show;

pub use action::{Action, Lengths};
pub use command_line::{no_text, words};
pub use fault::WordsFault;
pub use request::Request;
