//! Where each byte of a text comes from.
#![tactic(auto)]

mod arrivals;
mod descent;
mod history;
mod joining;
mod laws;
mod origin_store;
mod ropes;
mod run;
mod starts;
mod stretch;
mod taking;
mod texts;
mod tracing;
mod walking;

pub use descent::leaf_span;
pub use history::History;
pub use joining::Origins;
pub use laws::{
    as_many_as_bytes, brought_by_its_command, goes_back_whole, keeps_both_ends, names_each_byte,
    stood_there,
};
pub use run::{Brought, Origin, OriginRun};
pub use starts::next_start;
pub use stretch::Stretch;
pub use taking::{CameFrom, taken};
pub use tracing::origin;
