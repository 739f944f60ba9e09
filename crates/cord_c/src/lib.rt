//! The checker of session images for other languages: a static
//! library of C functions, which take no memory of their own.
#![tactic(auto)]

mod check;
mod open;
mod origins;
mod telling;
#[cfg(test)]
mod tests;
mod text;
mod waiting;

pub use check::{cord_check, cord_looks_bound};
pub use cord_types::{CordOrigin, CordRun, CordSource, CordVerdict};
pub use open::{CordImage, cord_open};
pub use origins::cord_origin;
pub use telling::cord_origins;
pub use text::{cord_counts, cord_fetch, cord_locate, cord_read, cord_text_len};
