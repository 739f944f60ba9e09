//! Room for what a line hands in.

ghost use Rattle.std.specs.Prelude.{◌≡◌, []};

use edit_commands::Change;
use std::alloc::Global;

/// The bytes and the changes of the line that was read last.
#[derive(Drop)]
pub struct Room {
    pub bytes: Vec<u8>,
    pub changes: Vec<Change>,
}

impl Room {
    /// Room in which nothing stands. It takes no memory.
    pub fn new(alloc: Global) -> Room
        ensures bytes { result.bytes.items ≡ [] }
        ensures changes { result.changes.items ≡ [] }
    {
        Room {
            bytes: Vec::new(alloc),
            changes: Vec::new(alloc),
        }
    }

    /// Empties the room, and keeps its memory.
    pub fn clear(&mut self)
        ensures bytes { self.new.bytes.items ≡ [] }
        ensures changes { self.new.changes.items ≡ [] }
    {
        self.bytes.clear();
        self.changes.clear();
    }
}
