//! What a handle holds.

use edit_commands::Session;

/// A session, and its image as it was saved last, which is empty before.
#[derive(Drop)]
pub struct Kept {
    pub session: Session,
    pub image: Vec<u8>,
}
