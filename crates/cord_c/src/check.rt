//! The check of an image, and what it may cost.

ghost use Rattle.std.specs.Prelude.{◌≡◌, ◌↔◌, None, false, IsTrue};
ghost use Rattle.image_reader.specs.Looks.{looks_bound};
ghost use Rattle.image_reader.specs.Reading.{fault_of, image_in};
ghost use Rattle.cord_types.specs.HeldTexts.{stated_as_held};
ghost use Rattle.cord_types.specs.Answers.{JudgesImage};

use cord_types::{CordSource, CordVerdict, checked};
use image_reader::{Image, looks_bound};

/// How many looks at nodes the check of an image takes at most, by its counts and its rows, before any node is looked
/// at. Where the bytes are no image, so that the check's answer is `C1`, `bound` stays.
#[unsafe(no_mangle)]
pub extern "C" fn cord_looks_bound(image: &[u8], bound: &mut u64) -> bool
    ensures there { IsTrue result ↔ (fault_of image.now ≡ None) }
    ensures value { IsTrue result → bound.new ≡ looks_bound (image_in image.now) }
    ensures kept { result ≡ false → bound.new ≡ bound.old }
{
    match Image::read(image) {
        Ok(read) => {
            *bound = looks_bound(&read);
            true
        }
        Err(_) => false,
    }
}

/// Accepts or refuses a session image with its sources, and says why or how large it is. It reads of the sources what
/// rows of bytes compare; where such bytes are not held, the answer is `C12(S2)`. It takes no memory.
#[unsafe(no_mangle)]
pub extern "C" fn cord_check(
    image: &[u8],
    sources: &[CordSource],
    verdict: &mut CordVerdict,
) -> bool
    ensures { JudgesImage image.now (stated_as_held sources.now) result verdict.new }
{
    checked(image, sources, verdict).is_some()
}
