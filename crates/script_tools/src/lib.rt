//! Sessions from scripts, and scripts of sessions.
#![tactic(auto)]

mod applying;
mod blaming;
mod fault;
mod law;
mod logging;
mod onto;
mod shown;
mod wanted;

pub use applying::{begun_alone, run_apply, run_apply_told};
pub use blaming::{run_blame, run_blame_told};
pub use fault::{ApplyFault, BlameFault, LogFault, OntoFault};
pub use law::{
    applies_up_to_limits, gives_the_image_again, gives_the_texts_again, has_the_texts,
    reads_each_line, refuses_at_a_limit, says_the_commands, shows_the_bytes, stops_at_a_limit,
    writes_what_needs_no_read,
};
pub use logging::{run_log, run_log_told};
pub use onto::{begun_onto, run_apply_onto};
pub use shown::{BRIEF_LEN, LogTexts};
pub use wanted::BytesOfText;
