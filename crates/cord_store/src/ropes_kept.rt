//! What the handle of a store holds.

use function_leaf::Coded;
use rope_store::Store;

/// Ropes without a history.
#[derive(Drop)]
pub struct Ropes {
    pub store: Store<Coded>,
}
