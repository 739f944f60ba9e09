//! The checker: a session image that it accepts can be trusted without the editor that wrote it.
#![tactic(auto)]

mod checked;
mod command_rules;
mod fault;
mod node_rules;
mod revision_rules;
mod source_rules;
mod splice_rules;
mod tables;
mod wanted;

pub use checked::{Checked, check, check_at_most, check_counted, check_told};
pub use fault::CheckFault;
pub use revision_rules::revisions_counted;
pub use tables::{Tables, check_tables, tables_counted};
pub use wanted::WantedRevision;
