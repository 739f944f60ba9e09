//! The text of a file as the next state of a session.
#![tactic(auto)]

mod answer;
mod batches;
mod committing;
mod earlier;
mod fault;
mod found;
mod laws;
mod stretches;
mod texts;

pub use answer::Commit;
pub use committing::{run_commit, run_commit_anew};
pub use fault::CommitFault;
pub use laws::{keeps_common_ends, keeps_earlier_origins};
