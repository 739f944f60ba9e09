//! Bytes written to their end, or a prefix of them where the writer fails.
#![tactic(auto)]

mod writing;

pub use writing::{WriteFault, write_bytes};
