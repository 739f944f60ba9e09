//! The image that the lines of a session go on from, by a second name: there it stays, where another program takes its place.

use image_files::{FileState, state_at};
use std::fs;

/// Where a session stands: its image, by the name that a link leads to, and its journal.
#[derive(Clone, Copy)]
pub struct Place<'a> {
    pub image: &'a str,
    pub lines: &'a str,
}

/// The second name of the image beside which these lines stand. Without memory it has none.
fn name_over(rt: &HostRuntime, lines: &str) -> Option<String> {
    format!(in rt.alloc(); "{lines}.over").ok()
}

/// Takes the second name away.
pub fn drop_over(rt: &HostRuntime, lines: &str) {
    if let Some(over) = name_over(rt, lines) {
        // What stays is replaced by the next session.
        let _ = fs::remove_file(rt, over.as_str());
    }
}

/// Whether a name is of the file that was in this state.
fn is_of(rt: &HostRuntime, name: &str, state: FileState) -> bool {
    match state_at(rt, name) {
        Some(there) => there.has_bytes_of(state),
        None => false,
    }
}

/// Gives the image in this state the name, in the place of an older one's.
fn link(rt: &HostRuntime, image: &str, over: &str, state: FileState) {
    if is_of(rt, over, state) {
        return;
    }
    let _ = fs::remove_file(rt, over);
    // A device may have no links.
    let _ = fs::hard_link(rt, image, over);
    if !is_of(rt, over, state) {
        let _ = fs::remove_file(rt, over);
    }
}

/// Gives the image of a session its second name, where that can be, and answers the state that it has then.
pub fn keep_over(
    rt: &HostRuntime,
    place: Place<'_>,
    state: Option<FileState>,
) -> Option<FileState> {
    let (Some(begun), Some(over)) = (state, name_over(rt, place.lines)) else {
        return state;
    };
    link(rt, place.image, over.as_str(), begun);
    match state_at(rt, place.image) {
        Some(now) if now.has_bytes_of(begun) => Some(now),
        _ => state,
    }
}
