//! Where each byte of an open session's texts comes from.
#![tactic(auto)]

mod history;
mod tracing;

pub use history::SessionHistory;
pub use tracing::origin;
