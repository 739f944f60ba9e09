//! Where the bytes of an open image's texts come from, as numbers.

ghost use Rattle.std.specs.Prelude.{◌≡◌, ◌↔◌, ◌<◌, false, length, IsTrue};
ghost use Rattle.byte_origins.specs.Origins.{origins_at};
ghost use Rattle.cord_c.specs.Opened.{opened_image};
ghost use Rattle.cord_types.specs.ToldOrigins.{IsToldOrigin};

use crate::open::CordImage;
use byte_origins::origin;
use cord_types::CordOrigin;

/// Where the byte at a place of the text of a revision comes from. Where there is no such place, or no such revision,
/// `run` stays. It takes no memory and no source.
#[unsafe(no_mangle)]
pub extern "C" fn cord_origin(
    image: &CordImage,
    revision: u32,
    place: u64,
    run: &mut CordOrigin,
) -> bool
    ensures there { IsTrue result ↔ (place < length (origins_at (opened_image image.now) revision)) }
    ensures told { IsTrue result → IsToldOrigin (opened_image image.now) revision place run.new }
    ensures kept { result ≡ false → run.new ≡ run.old }
{
    match origin(&image.checked(), revision, place) {
        Some(found) => {
            *run = CordOrigin::of(found);
            true
        }
        None => false,
    }
}
