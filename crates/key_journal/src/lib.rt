//! A journal of keys: what is typed is kept before it is taken, and what was kept is found again.
#![tactic(auto)]

mod finding;
mod headers;
mod kept;
pub mod laws;
mod ready;

pub use finding::{Found, find_keys};
pub use headers::{
    END_SIZE, FROM_SOURCES, HEADER_SIZE, ONTO_IMAGE, WHOLE_LIMIT, header_onto, header_over,
};
pub use kept::{KeepFault, Kept, LEAVE, SAVE};
pub use ready::Ready;
