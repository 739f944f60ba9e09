//! What a command line asks for.

use crate::action::Action;

/// What the program is to do, whether it tells nothing of how
/// far it is, and whether it then explains a refusal or a fault.
#[derive(Debug, Drop, PartialEq, Eq)]
pub struct Request<'a> {
    pub explain: bool,
    pub quiet: bool,
    pub action: Action<'a>,
}
