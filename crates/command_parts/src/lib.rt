//! Commands as they are recorded, and the parts of which each makes its text.
#![tactic(auto)]

pub mod codes;
mod edit;
mod numbers;
mod part;
mod part_iter;
mod pieces;
mod place;
mod roots;
mod splices;

pub use edit::{Edit, EditRecord, MOST_REVISIONS, MOST_SPLICES, SPLICES_LIMIT, Splice};
pub use numbers::Numbers;
pub use part::Part;
pub use part_iter::{PartIter, parts};
pub use place::PartPlace;
pub use roots::Roots;
pub use splices::Splices;
