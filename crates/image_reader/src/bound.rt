//! How many looks the check of an image may take.

ghost use Rattle.std.specs.Prelude.{◌≡◌, ◌*◌, ◌≤◌, length};
ghost use Rattle.std.specs.List.{sum_by};
ghost use Rattle.span_certificate.specs.Looks.{row_bytes};
ghost use Rattle.span_certificate.specs.declared.walk.TheConstants.{BYTES_LIMIT};
ghost use Rattle.image_reader.specs.Looks.{looks_bound};

use crate::image::Image;
use span_certificate::{BYTES_LIMIT, LOOKS_LIMIT, Row, RowKind};

/// How many bytes a row compares, where it is not too long.
fn row_bytes(row: Row) -> u64
    ensures value { result ≡ row_bytes row }
    ensures limit { result ≤ BYTES_LIMIT }
{
    match row.kind {
        RowKind::Bytes => row.len.min(BYTES_LIMIT),
        RowKind::Shared(..) | RowKind::Leaf => 0,
    }
}

/// How many bytes the rows of an image compare.
fn compared_bytes(image: &Image) -> u64
    ensures value { result ≡ sum_by row_bytes image.now.rows }
    ensures limit { result ≤ BYTES_LIMIT * length image.now.rows }
{
    let mut bytes = 0;
    for j in 0..image.row_count() as usize {
        bytes += row_bytes(image.row(j));
    }
    bytes
}

/// The most looks at nodes that the check of an image takes: one for each node,
/// two for each revision, `LOOKS_LIMIT` for each row, and as many for each byte of
/// the rows that compare bytes, of which each counts for at most `BYTES_LIMIT`.
pub fn looks_bound(image: &Image) -> u64
    ensures { result ≡ looks_bound image.now }
{
    let rows = u64::from(image.row_count());
    u64::from(image.node_count())
        + 2 * u64::from(image.revision_count())
        + LOOKS_LIMIT * rows
        + LOOKS_LIMIT * compared_bytes(image)
}
