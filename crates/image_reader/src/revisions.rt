//! The revisions of an image, without its nodes.

ghost use Rattle.std.specs.Prelude.{◌≡◌, ◌+◌, ◌<◌, ◌≤◌, length, take, drop, slice_get, Some};
ghost use Rattle.image_reader.specs.Accepted.{roots_before, revision_at, splices_before};
ghost use Rattle.image_reader.specs.Value.{IsImage};

use crate::image::Image;
use crate::revision::Revision;
use crate::roots::EarlierRoots;
use crate::rows::RevisionRows;
use command_parts::{Splice, Splices};
use std::marker::Model;

/// The revisions of an image, their roots and rows. Of its nodes it gives none.
#[derive(Drop)]
pub struct Revisions<'i, 'a> {
    image: &'i Image<'a>,
}

impl<'i, 'a> Model for Revisions<'i, 'a> {
    ghost use Rattle.image_reader.specs.Value.{ImageValue, IsImage};

    ghost Value = { ImageValue };

    ghost view = { λ a. a.image.now };

    ghost invariant = { λ a. IsImage a.image.now };
}

impl<'i, 'a> Revisions<'i, 'a> {
    /// Those of an image.
    pub fn over(image: &'i Image<'a>) -> Revisions<'i, 'a>
        ensures { result ≡ image.now }
    {
        // The value is an image, as its count says.
        let _nodes = image.node_count();
        Revisions { image }
    }

    /// How many there are.
    pub fn count(&self) -> u32
        ensures count { result ≡ length self.now.revisions }
        ensures image { IsImage self.now }
    {
        self.image.revision_count()
    }

    /// Revision `k` as it is recorded, where the revisions before it have `first` splices.
    pub fn revision(&self, k: u32, first: u32) -> Revision
        requires there { k < length self.now.revisions }
        requires first { first ≡ splices_before self.now k }
        ensures value { slice_get self.now.revisions k ≡ Some result }
        ensures at { result ≡ revision_at self.now k }
        ensures image { IsImage self.now }
    {
        self.image.revision(k, first)
    }

    /// The roots of the revisions before revision `k`.
    pub fn earlier(&self, k: u32) -> EarlierRoots<'i, 'a>
        requires { k ≤ length self.now.revisions }
        ensures image { result.image.now ≡ self.now }
        ensures k { result.k ≡ k }
    {
        EarlierRoots {
            image: self.image,
            k,
        }
    }

    /// The `count` rows from row `from` on.
    pub fn rows(&self, from: u32, count: u32) -> RevisionRows<'i, 'a>
        requires { from + count ≤ length self.now.rows }
        ensures image { result.image.now ≡ self.now }
        ensures from { result.from ≡ from }
        ensures count { result.count ≡ count }
    {
        RevisionRows {
            image: self.image,
            from,
            count,
        }
    }
}

impl Splices for Revisions<'_, '_> {
    ghost splices = { λ v. v.splices };

    fn count(&self) -> usize {
        self.image.splice_count() as usize
    }

    fn splice(&self, j: u32) -> Splice {
        self.image.splice(j)
    }
}
