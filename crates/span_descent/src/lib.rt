//! Descents: from some bytes of a node to the leaf that they begin in or lie in, each look counted.
#![tactic(auto)]

mod counted;
mod descent;
mod description;
mod from_root;
mod stop;
mod trail;
mod way;

pub use counted::{Count, CountedSpace};
pub use descent::{Reached, SpanPlace, first_leaf, leads_to, leaf_span};
pub use description::{Description, describe, describe_leaf};
pub use from_root::FromRoot;
pub use stop::{MOST_STOPS, Stop};
pub use trail::Trail;
pub use way::{Descent, Way, Ways};
