//! The texts of an open image.

ghost use Rattle.std.specs.Prelude.{◌≡◌, ◌↔◌, ◌<◌, ℕ, false, length, IsTrue};
ghost use Rattle.rope_node.specs.Denotes.{IsRope};
ghost use Rattle.image_reader.specs.Value.{image_table};
ghost use Rattle.session_checker.specs.Faithful.{revision_text};
ghost use Rattle.cord_types.specs.HeldTexts.{stated_as_held};
ghost use Rattle.cord_c.specs.Opened.{opened_image};
ghost use Rattle.cord_types.specs.Verdicts.{accepted_verdict};
ghost use Rattle.cord_c.specs.Runs.{FetchesByte, IsLocated, ReadsRun, revision_len, text_root};

use crate::open::CordImage;
use cord_types::{CordRun, CordSource, CordVerdict, HeldSources, located, read_run};
use rope_node::{Rope, rope_len};
use session_checker::Checked;

/// The bytes that were asked for are there.
pub const READ: u32 = 0;

/// There is no such place, or no such revision.
pub const NO_PLACE: u32 = 1;

/// They are of a source that does not hold them.
pub const NOT_HELD: u32 = 2;

/// How many revisions, nodes and rows the image has.
#[unsafe(no_mangle)]
pub extern "C" fn cord_counts(image: &CordImage, counts: &mut CordVerdict)
    ensures { counts.new ≡ accepted_verdict (opened_image image.now) }
{
    *counts = CordVerdict::of_image(&image.checked());
}

/// The length of the text of a revision, where there is one. Else `len` stays.
#[unsafe(no_mangle)]
pub extern "C" fn cord_text_len(image: &CordImage, revision: u32, len: &mut u64) -> bool
    ensures there { IsTrue result ↔ (revision < length (opened_image image.now).revisions) }
    ensures value { IsTrue result → (source : ℕ → ℕ → ℕ)
        → len.new ≡ length (revision_text (opened_image image.now) source revision) }
    ensures kept { result ≡ false → len.new ≡ len.old }
{
    let image = image.checked();
    match image.root(revision) {
        Some(root) => {
            *len = rope_len(&image, root);
            true
        }
        None => false,
    }
}

/// The byte at a place of the text of a revision. `READ`: it is `byte`. `NO_PLACE`, or `NOT_HELD`: `byte` stays.
#[unsafe(no_mangle)]
pub extern "C" fn cord_fetch(
    image: &CordImage,
    sources: &[CordSource],
    revision: u32,
    place: u64,
    byte: &mut u8,
) -> u32
    ensures { FetchesByte (opened_image image.now) (stated_as_held sources.now) revision place
        byte.old byte.new result }
{
    let Ok(mut held) = HeldSources::new(sources) else {
        return NOT_HELD;
    };
    match image.checked().fetch(&mut held, revision, place) {
        Ok((Some(found), _)) => {
            *byte = found;
            READ
        }
        Ok((None, _)) => NO_PLACE,
        Err(_) => NOT_HELD,
    }
}

/// The root of the text of a revision; of none, nil.
fn root_of(image: &Checked, revision: u32) -> Rope
    ensures value { result ≡ text_root image.now revision }
    ensures rope { IsRope (image_table image.now) result }
{
    match image.root(revision) {
        Some(root) => root,
        None => None,
    }
}

/// Where the byte at a place of the text of a revision stands, and how many bytes of the text follow it there: all up
/// to the end of its leaf's span. Where there is no such place, or no such revision, `run` stays.
#[unsafe(no_mangle)]
pub extern "C" fn cord_locate(
    image: &CordImage,
    revision: u32,
    place: u64,
    run: &mut CordRun,
) -> bool
    ensures there { IsTrue result ↔ (place < revision_len (opened_image image.now) revision) }
    ensures located { IsTrue result → IsLocated (opened_image image.now) revision place run.new }
    ensures kept { result ≡ false → run.new ≡ run.old }
{
    let image = image.checked();
    let root = root_of(&image, revision);
    match located(&image, root, place) {
        Some(found) => {
            *run = found;
            true
        }
        None => false,
    }
}

/// Writes the bytes of the text of a revision from a place on into `out`: as many as it
/// takes, up to the end of the run that `cord_locate` tells, and answers how many by `count`.
/// `READ`: they were written. `NOT_HELD`: none is counted, and `out` may hold any bytes.
#[unsafe(no_mangle)]
pub extern "C" fn cord_read(
    image: &CordImage,
    sources: &[CordSource],
    revision: u32,
    place: u64,
    out: &mut [u8],
    count: &mut usize,
) -> u32
    ensures { ReadsRun (opened_image image.now) (stated_as_held sources.now) revision place
        out.old out.new count.new result }
{
    *count = 0;
    let Ok(mut held) = HeldSources::new(sources) else {
        return NOT_HELD;
    };
    let image = image.checked();
    let root = root_of(&image, revision);
    match read_run(&image, &mut held, root, place, out) {
        Ok(n) => {
            *count = n;
            READ
        }
        Err(_) => NOT_HELD,
    }
}
