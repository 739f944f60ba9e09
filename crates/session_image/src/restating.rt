//! An image written anew in version 2.

ghost use Rattle.std.specs.Prelude.{◌≡◌};
ghost use Rattle.image_reader.specs.Layout.{spelled};
ghost use Rattle.image_reader.specs.Spelling.{header_layout, header_numbers, records_spelling, spelling};
ghost use Rattle.image_reader.specs.Value.{IsImage, in_version_two};
ghost use Rattle.session_image.specs.Written.{Writes};

use crate::held::Record;
use crate::records::{Counts, header_record};
use byte_output::{WriteFault, write_bytes};
use image_reader::{FormatVersion, Image};
use std::io;

/// The header of an image in version 2.
fn restated_header(image: &Image) -> Record
    ensures { result ≡ spelled header_layout (header_numbers (in_version_two image.now)) }
{
    header_record(Counts {
        version: FormatVersion::Two,
        sources: image.source_count(),
        nodes: image.node_count(),
        revisions: image.revision_count(),
        splices: image.splice_count(),
        rows: image.row_count(),
        pool: image.pool().len() as u64,
    })
}

/// Writes an image in version 2: its value is the same but for the version. It takes no memory.
///
/// # Errors
///
/// `WriteFault`, where the writer failed or took no byte. A prefix of the image was written then.
#[tactic(auto, using(image_reader::proofs::Versions::image_in_two))]
pub fn restate<W: io::Write>(image: &Image, writer: &mut W) -> Result<(), WriteFault>
    ensures written { Writes (W.contents writer.old) (W.contents writer.new)
        (spelling (in_version_two image.now)) result }
    // So what is written is read as that value.
    ensures image { IsImage (in_version_two image.now) }
{
    // The value is an image, as its count says.
    let _nodes = image.node_count();
    write_bytes(writer, restated_header(image).as_slice())?;
    write_bytes(writer, image.records())?;
    write_bytes(writer, image.pool())
}
