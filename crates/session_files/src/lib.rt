//! What is kept of a session that is not saved, and who has it.
#![tactic(auto)]

mod journal;
mod journal_front;
mod lines_over;
mod other_journals;
mod saving;
mod session_file;
mod synced_file;

pub use journal::{Journal, LockedJournal, discard};
pub use journal_front::{Front, Kind, Standing};
pub use lines_over::{Place, drop_over, keep_over};
pub use other_journals::{place_of, refuse_keys, refuse_lines};
pub use saving::put_behind;
pub use session_file::{Beginning, read_beginning, write_beginning};
pub use synced_file::SyncedFile;
