//! What stands in the message's row of a first screen.

use std::alloc::{AllocError, Global};

/// The most bytes of a name, so that the row has room for all.
const MOST_OF_NAME: usize = 18;

const KEYS: &str = "  Ctrl-X saves  Ctrl-C leaves";

/// The name of the image's file, or the end of it, and the keys that end a session. Bytes other than space to `~`, which a
/// terminal would take for its own, are question marks.
pub fn hint(alloc: Global, image: &str) -> Result<String, AllocError> {
    let name = match image.rsplit_once('/') {
        Some((_, name)) => name,
        None => image,
    };
    let bytes = name.as_bytes();
    let from = bytes.len().saturating_sub(MOST_OF_NAME);
    let mut text = String::new(alloc);
    for byte in bytes.get(from..).unwrap_or(&[]) {
        match *byte {
            0x20..=0x7E => text.push(char::from(*byte))?,
            _ => text.push('?')?,
        }
    }
    text.push_str(KEYS)?;
    Ok(text)
}
