//! Images that stay open.

ghost use Rattle.std.specs.Prelude.{◌≡◌, false, is_some, IfSome, IsTrue};
ghost use Rattle.cord_types.specs.HeldTexts.{stated_as_held};
ghost use Rattle.cord_types.specs.Answers.{JudgesImage};
ghost use Rattle.cord_c.specs.Opened.{WasAccepted, opened_image};

use crate::check::cord_check;
use cord_types::{CordSource, CordVerdict};
use session_checker::Checked;
use std::marker::Model;

/// An image that was accepted, by its bytes, which it borrows.
#[repr(C)]
#[derive(Drop)]
pub struct CordImage<'a> {
    bytes: &'a [u8],
}

impl<'a> Model for CordImage<'a> {
    ghost use Rattle.std.specs.Prelude.{ℕ, List};
    ghost use Rattle.std.specs.Borrow.{Bor};
    ghost use Rattle.cord_c.specs.Opened.{WasAccepted};

    ghost Value = { Bor (List ℕ) };

    ghost view = { λ a. a.bytes };

    ghost invariant = { λ a. WasAccepted a.bytes.now };

    ghost inverse = { λ bytes. record { bytes = bytes } };
}

impl<'a> CordImage<'a> {
    /// The image of bytes that are accepted with these sources, and the verdict of `cord_check` on them.
    pub fn open(
        image: &'a [u8],
        sources: &[CordSource],
        verdict: &mut CordVerdict,
    ) -> Option<CordImage<'a>>
        ensures check { JudgesImage image.now (stated_as_held sources.now) (is_some result) verdict.new }
        ensures value { IfSome result (λ opened. opened.now ≡ image.now) }
    {
        if cord_check(image, sources, verdict) {
            Some(CordImage { bytes: image })
        } else {
            None
        }
    }

    /// The image as one that was checked, which answers questions.
    pub fn checked(&self) -> Checked<'a>
        ensures value { result ≡ opened_image self.now }
        ensures accepted { WasAccepted self.now.now }
    {
        Checked::again(self.bytes)
    }
}

/// The check of an image, as `cord_check` makes it. An image that is accepted
/// is put into `opened`, which then borrows its bytes; else `opened` stays.
#[unsafe(no_mangle)]
pub extern "C" fn cord_open<'a>(
    image: &'a [u8],
    sources: &[CordSource],
    opened: &mut CordImage<'a>,
    verdict: &mut CordVerdict,
) -> bool
    ensures check { JudgesImage image.now (stated_as_held sources.now) result verdict.new }
    ensures opened { IsTrue result → opened.new.now ≡ image.now }
    ensures kept { result ≡ false → opened.new ≡ opened.old }
{
    match CordImage::open(image, sources, verdict) {
        Some(found) => {
            *opened = found;
            true
        }
        None => false,
    }
}
