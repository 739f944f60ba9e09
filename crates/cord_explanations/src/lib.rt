//! What the program's codes mean, for people.
#![tactic(auto)]

mod explaining;
mod file_fault;
mod looking;
mod meaning;
mod script_line;
mod sentence;
mod shown_name;
mod wrong_word;

pub use explaining::{Explanation, explained};
pub use file_fault::explained_file;
pub use shown_name::ShownName;
