//! A session is saved: its image in its place, its journal set aside till then.

use crate::journal::Journal;
use cord_tools::ToolFault;
use image_files::{ImageFile, Put};

/// Puts an image that is whole in its place. Its journal is set aside meanwhile:
/// it was begun over the older image, which may be the one whose place it takes.
pub fn put_behind(journal: &Journal<'_>, image: &ImageFile<'_>) -> Result<Put, ToolFault> {
    if !image.takes_place() {
        return image.put();
    }
    journal.set_aside()?;
    let put = image.put();
    match &put {
        Ok(Put::InPlace | Put::Over(_)) => {}
        _ => journal.bring_back(),
    }
    put
}
