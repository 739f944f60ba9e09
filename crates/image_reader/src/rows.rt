//! The rows of one revision.

ghost use Rattle.std.specs.Prelude.{◌+◌, ◌<◌, ◌≤◌, length, take, drop};

use crate::image::Image;
use span_certificate::{Row, Rows};

/// The `count` rows of an image from row `from` on.
#[derive(Drop)]
pub struct RevisionRows<'i, 'a> {
    pub(crate) image: &'i Image<'a>,
    pub(crate) from: u32,
    pub(crate) count: u32,
    ghost inside: { from + count ≤ length image.now.rows },
}

impl Rows for RevisionRows<'_, '_> {
    ghost listed = { λ r. take r.count (drop r.from r.image.now.rows) };

    fn count(&self) -> usize {
        self.count as usize
    }

    fn row(&self, j: usize) -> Row {
        self.image.row(self.from as usize + j)
    }
}
