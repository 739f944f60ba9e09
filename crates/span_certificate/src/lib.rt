//! Certificates: rows that show, span by span, that a rope has the text that a command gives.
#![tactic(auto)]

mod bytes;
mod content;
mod cover;
mod each_row;
mod exact;
mod kept_ways;
mod longest;
mod looks;
mod making;
mod over_bytes;
mod row;
mod walk;

// Names of the crates below that programs over this one use, which stood here before those crates.
pub use command_parts::{
    Edit, MOST_REVISIONS, MOST_SPLICES, Part, PartIter, Roots, SPLICES_LIMIT, Splice, Splices,
    codes, parts,
};
pub use cover::{Verdict, verify, verify_counted, verify_told};
pub use exact::describe_part;
pub use kept_ways::Trails;
pub use longest::are_longest;
pub use looks::{LOOKS_LIMIT, Looks};
pub use making::{MakeFault, ROWS_LIMIT, make, make_by};
pub use over_bytes::meets_no_source;
pub use row::{Row, RowKind, Rows};
pub use span_descent::{Count, CountedSpace, Description, describe_leaf};
pub use walk::BYTES_LIMIT;
