//! The roots of the revisions before one.

ghost use Rattle.std.specs.Prelude.{◌<◌, ◌≤◌, length};
ghost use Rattle.image_reader.specs.Accepted.{roots_before};

use crate::image::Image;
use command_parts::Roots;
use rope_node::Rope;

/// The roots of an image's revisions before revision `k`.
#[derive(Drop)]
pub struct EarlierRoots<'i, 'a> {
    pub(crate) image: &'i Image<'a>,
    pub(crate) k: u32,
    ghost inside: { k ≤ length image.now.revisions },
}

impl Roots for EarlierRoots<'_, '_> {
    ghost roots = { λ r. roots_before r.image.now r.k };

    fn count(&self) -> usize {
        self.k as usize
    }

    fn root(&self, r: u32) -> Rope {
        self.image.root(r)
    }
}
