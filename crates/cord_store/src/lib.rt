//! Ropes behind a handle of a caller: made, asked and read by numbers.
#![tactic(auto)]

mod asking;
pub mod codes;
mod finding;
mod loose;
mod making;
mod numbers;
mod reading;
mod rope_handle;
mod rope_slot;
mod ropes_kept;

pub use asking::{
    compare_ropes, fetch_byte, find_byte, find_last_byte, find_pattern, locate_byte, read_bytes,
    tell_depth, tell_len,
};
pub use loose::Loose;
pub use making::{add_source, append, balanced, cat, of_bytes, of_function, of_source, substr};
pub use numbers::{known, node_number};
pub use rope_handle::CordStore;
pub use ropes_kept::Ropes;
