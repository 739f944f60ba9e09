//! Requests that stand on lines, taken one after the other: what is to be kept is kept before it is answered.
#![tactic(auto)]

mod cutting;
mod fault;
mod finding;
mod reading;
mod room;
mod serving;
mod taking;
mod turning;

pub use cutting::{leaves_the_first, one_cut, split_whole};
pub use fault::{End, ServeFault};
pub use finding::{is_torn, kept_lines, leaves_a_journal};
pub use room::Room;
pub use serving::serve;
pub use taking::{Next, TakesLines};
