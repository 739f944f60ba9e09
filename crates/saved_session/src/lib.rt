//! Sessions that go on from a saved image.
#![tactic(auto)]

mod fault;
mod laws;
mod taking;

pub use fault::TakeFault;
pub use laws::{same_texts, written_again};
pub use taking::take_up;
