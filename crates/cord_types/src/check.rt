//! An image with its sources, checked.

ghost use Rattle.std.specs.Prelude.{◌≡◌, is_some, IfSome};
ghost use Rattle.image_reader.specs.Reading.{image_in};
ghost use Rattle.cord_types.specs.HeldTexts.{stated_as_held};
ghost use Rattle.cord_types.specs.Answers.{JudgesImage};

use crate::held_sources::{CordSource, HeldSources};
use crate::verdict::CordVerdict;
use session_checker::{Checked, check};

/// The image of bytes that are accepted with these sources, and the verdict on them. It reads of the sources what rows
/// of bytes compare; where such bytes are not held, the verdict is `C12(S2)`. It takes no memory.
pub fn checked<'a>(
    image: &'a [u8],
    sources: &[CordSource],
    verdict: &mut CordVerdict,
) -> Option<Checked<'a>>
    ensures judges { JudgesImage image.now (stated_as_held sources.now) (is_some result) verdict.new }
    ensures image { IfSome result (λ v. v ≡ image_in image.now) }
{
    let mut held = match HeldSources::new(sources) {
        Ok(held) => held,
        Err(fault) => {
            *verdict = CordVerdict::of_sources(fault);
            return None;
        }
    };
    match check(image, &mut held) {
        Ok(checked) => {
            *verdict = CordVerdict::of_image(&checked);
            Some(checked)
        }
        Err(fault) => {
            *verdict = CordVerdict::of_fault(fault);
            None
        }
    }
}
