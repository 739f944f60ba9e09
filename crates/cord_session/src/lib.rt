//! Ropes and sessions for other languages: a static library of C functions,
//! which hold them in memory of the C library's heap.
#![tactic(auto)]

mod asking;
mod codes;
mod commands;
mod edits;
mod exports;
mod handle;
mod images;
mod kept;
mod searching;
mod slot;
mod store_asking;
mod store_making;
mod tracing;

pub use commands::CordCommand;
pub use cord_store::CordStore;
pub use cord_types::{CordOrigin, CordRun, CordSource, CordVerdict};
pub use edits::{CordEdit, cord_session_edit};
pub use exports::{
    CordSizes, cord_session_add_source, cord_session_apply, cord_session_begin, cord_session_end,
    cord_session_len, cord_session_locate, cord_session_read, cord_session_sizes,
};
pub use handle::CordSession;
pub use images::{cord_session_forget, cord_session_resume, cord_session_save, cord_session_saved};
pub use searching::{cord_session_chr, cord_session_compare, cord_session_find, cord_session_rchr};
pub use store_asking::{
    cord_store_chr, cord_store_compare, cord_store_depth, cord_store_fetch, cord_store_find,
    cord_store_len, cord_store_locate, cord_store_rchr, cord_store_read,
};
pub use store_making::{
    cord_store_add_source, cord_store_append, cord_store_balance, cord_store_begin,
    cord_store_bytes, cord_store_cat, cord_store_end, cord_store_function, cord_store_source,
    cord_store_substr,
};
pub use tracing::cord_session_origin;
