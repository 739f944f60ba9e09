//! What stands beside an image and goes with it.

use crate::file_state::state_at;
use cord_tools::ToolFault;
use std::fs;

/// The endings of their names.
const ENDINGS: [&str; 2] = [".sources", ".committed"];

/// Gives what stands beside an image the name that fits another one, which that image has got: where that name is free.
pub fn follow(rt: &HostRuntime, image: &str, kept: &str) -> Result<(), ToolFault> {
    for ending in ENDINGS {
        let old = format!(in rt.alloc(); "{image}{ending}")?;
        let new = format!(in rt.alloc(); "{kept}{ending}")?;
        if state_at(rt, &new).is_none() {
            // What cannot be renamed tells of an image that is no more.
            let _ = fs::rename(rt, &old, &new);
        }
    }
    Ok(())
}
