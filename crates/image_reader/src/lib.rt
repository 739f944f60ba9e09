//! Session images, read in place: the bytes are borrowed, and no memory is taken.
#![tactic(auto)]

mod bound;
pub mod codes;
mod command;
mod decode;
mod fault;
mod header;
mod image;
mod layout;
mod node;
mod number;
mod records;
mod revision;
mod revisions;
mod roots;
mod rows;
mod section;
mod version;

pub use bound::looks_bound;
pub use command_parts::Numbers;
pub use decode::NIL_ROOT;
pub use fault::ReadFault;
pub use header::{LONGEST_IMAGE, MAGIC, MOST_POOL, judged_len};
pub use image::Image;
pub use layout::{HEADER_SIZE, NODE_SIZE, REVISION_SIZE, ROW_SIZE, SOURCE_SIZE, SPLICE_SIZE};
pub use records::{NodeRecord, Records};
pub use revision::Revision;
pub use revisions::Revisions;
pub use roots::EarlierRoots;
pub use rows::RevisionRows;
pub use version::{FormatVersion, VERSION_ONE, VERSION_TWO};
