//! What the libraries for other languages hand in and answer: the structs of
//! their headers, and what their numbers mean.
#![tactic(auto)]

mod check;
mod held_sources;
mod origins;
mod run;
mod span;
mod verdict;

pub use check::checked;
pub use held_sources::{CordSource, HeldSources};
pub use origins::CordOrigin;
pub use run::{COMPUTED, CordRun, POOLED, SOURCED};
pub use span::{located, read_run};
pub use verdict::CordVerdict;
