//! The program's tools, each over readers and writers.
#![tactic(auto)]

mod check;
mod cmp;
mod cut;
mod edit;
mod edit_onto;
mod edit_typed;
mod fault;
mod files;
mod find;
mod find_all;
mod input;
mod join;
pub mod laws;
mod looking;
mod migrate;
mod outcome;
mod show;
mod sources;
mod status;

pub use check::{refuse_check, run_check, run_check_told, run_stdin};
pub use cmp::run_cmp;
pub use cut::run_cut;
pub use edit::{may_replace, run_edit, run_kept};
pub use edit_onto::{run_edit_onto, run_kept_onto};
pub use edit_typed::{run_typed, run_typed_onto};
pub use fault::ToolFault;
pub use find::run_find;
pub use find_all::{run_find_all, run_find_all_told};
pub use input::read_image;
pub use join::run_join;
pub use looking::only_look;
pub use migrate::{run_migrate, run_migrate_told};
pub use outcome::{Outcome, exit_status};
pub use show::{run_show, run_show_wanted};
pub use sources::read_source;
pub use status::Status;
