//! Session images, written: what a session writes is accepted.
#![tactic(auto)]

mod gathered;
mod held;
mod nodes;
mod records;
mod restating;
mod revisions;
mod writing;

pub use held::Record;
pub use nodes::node_record;
pub use records::{
    Counts, header_record, revision_record, row_record, source_record, splice_record,
};
pub use restating::restate;
pub use writing::write;
