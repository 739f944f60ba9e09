//! The header of a journal: which session its keys belong to.

ghost use Rattle.std.specs.Prelude.{◌≡◌, ◌+◌, ◌-◌, ◌<◌, ◌≤◌, [], length, max, take, IfOk, IfSome, OnOk};
ghost use Rattle.lazy_file.specs.SourceTexts.{text_at};
ghost use Rattle.lazy_file.specs.Readings.{InSpan, Reads, fault_in};
ghost use Rattle.lazy_file.specs.declared.sources.TheConstants.{SOURCE_LIMIT};
ghost use Rattle.key_journal.specs.declared.headers.TheConstants.{FROM_SOURCES, FRONT_SIZE, ONTO_IMAGE, WHOLE_LIMIT};
ghost use Rattle.key_journal.specs.Headers.{IsHeader, IsHeaderOnto, IsOfFirst, TakesDigested, TakesIn, front_over, header_of};

use lazy_file::{SourceFault, Sources};
use sha2::{Digest, Sha256};

/// The bytes of a header.
pub const HEADER_SIZE: usize = 56;

/// The bytes of a header in front of its digest.
pub const FRONT_SIZE: usize = 24;

/// The format's number, where a session begins from its sources.
pub const FROM_SOURCES: u8 = 1;

/// The format's number, where a session goes on from an image.
pub const ONTO_IMAGE: u8 = 2;

/// The most bytes of a text whose digest is of the whole of it.
pub const WHOLE_LIMIT: u64 = 1 << 24;

/// Of so many bytes at each end of a longer text its digest is.
pub const END_SIZE: u64 = 1 << 20;

/// The most bytes that are read at once.
const CHUNK: usize = 4096;

/// `CORDKEYS`.
const FRONT: [u8; HEADER_SIZE] = [
    0x43, 0x4F, 0x52, 0x44, 0x4B, 0x45, 0x59, 0x53, 0, 0, 0, 0, 0, 0, 0, 0, 0, 0, 0, 0, 0, 0, 0, 0,
    0, 0, 0, 0, 0, 0, 0, 0, 0, 0, 0, 0, 0, 0, 0, 0, 0, 0, 0, 0, 0, 0, 0, 0, 0, 0, 0, 0, 0, 0, 0, 0,
];

/// Takes bytes of source 0 from place `off` on into a digest, as many as the buffer has.
fn digest_run<S: Sources>(
    sources: &mut S,
    off: u64,
    buffer: &mut [u8],
    hasher: &mut Sha256,
) -> Result<(), SourceFault>
    ensures bytes { OnOk result (IfSome (text_at (S.reading sources.old).stated 0)
        (λ t. TakesIn t off (length buffer.old) hasher.old hasher.new)) }
    ensures reads { Reads (S.reading sources.old) (S.reading sources.new)
        (InSpan 0 off (max 1 (length buffer.old))) (fault_in result) }
{
    sources.read(0, off, buffer)?;
    hasher.update(&*buffer);
    Ok(())
}

/// Takes `n` bytes of source 0 from place `off` on into a digest.
fn digest_span<S: Sources>(
    sources: &mut S,
    off: u64,
    n: u64,
    hasher: &mut Sha256,
) -> Result<(), SourceFault>
    requires { off + n ≤ SOURCE_LIMIT }
    ensures bytes { OnOk result (IfSome (text_at (S.reading sources.old).stated 0)
        (λ t. TakesIn t off n hasher.old hasher.new)) }
    ensures reads { Reads (S.reading sources.old) (S.reading sources.new) (InSpan 0 off n) (fault_in result) }
{
    let mut buffer = [0; CHUNK];
    let mut done = 0;
    while done < n {
        let size = (n - done).min(CHUNK as u64) as usize;
        digest_run(sources, off + done, &mut buffer[..size], hasher)?;
        done += size as u64;
    }
    Ok(())
}

/// Takes both ends of source 0 into a digest, one behind the other.
fn digest_ends<S: Sources>(
    sources: &mut S,
    size: u64,
    hasher: &mut Sha256,
) -> Result<(), SourceFault>
    requires large { WHOLE_LIMIT < size }
    requires limit { size ≤ SOURCE_LIMIT }
    ensures bytes { OnOk result (IfSome (text_at (S.reading sources.old).stated 0)
        (λ t. TakesDigested t size hasher.old hasher.new)) }
    ensures reads { Reads (S.reading sources.old) (S.reading sources.new) (InSpan 0 0 size) (fault_in result) }
{
    digest_span(sources, 0, END_SIZE, &mut *hasher)?;
    digest_span(sources, size - END_SIZE, END_SIZE, &mut *hasher)?;
    Ok(())
}

/// Takes source 0 into a digest: all of it, or both of its ends.
fn digest_source<S: Sources>(
    sources: &mut S,
    size: u64,
    hasher: &mut Sha256,
) -> Result<(), SourceFault>
    requires { size ≤ SOURCE_LIMIT }
    ensures bytes { OnOk result (IfSome (text_at (S.reading sources.old).stated 0)
        (λ t. TakesDigested t size hasher.old hasher.new)) }
    ensures reads { Reads (S.reading sources.old) (S.reading sources.new) (InSpan 0 0 size) (fault_in result) }
{
    if size <= WHOLE_LIMIT {
        digest_span(sources, 0, size, hasher)
    } else {
        digest_ends(sources, size, hasher)
    }
}

/// Takes the bytes of an image into a digest: all of them, or both of their ends.
fn digest_image(image: &[u8], hasher: &mut Sha256)
    ensures { TakesDigested image.now (length image.now) hasher.old hasher.new }
{
    if image.len() as u64 <= WHOLE_LIMIT {
        hasher.update(image);
    } else {
        hasher.update(&image[..END_SIZE as usize]);
        hasher.update(&image[image.len() - END_SIZE as usize..]);
    }
}

/// The header of this number, of sources so many, of which the first has this size, and this digest.
fn spelled(number: u8, sources: u8, size: u64, digest: &[u8; 32]) -> [u8; HEADER_SIZE]
    ensures header { result ≡ header_of number sources size digest.now }
    ensures front { take FRONT_SIZE result ≡ header_of number sources size [] }
{
    let mut bytes = FRONT;
    bytes[11] = number;
    bytes[15] = sources;
    bytes[16..24].copy_from_slice(&size.to_be_bytes());
    bytes[24..].copy_from_slice(digest);
    bytes
}

/// The header of the journal of a session over these sources, of which it reads the first: all of it where that has at
/// most `WHOLE_LIMIT` bytes, else `END_SIZE` bytes at each of its ends.
///
/// # Errors
///
/// Those of the one read that failed.
pub fn header_over<S: Sources>(sources: &mut S) -> Result<[u8; HEADER_SIZE], SourceFault>
    ensures header { IfOk result (IsHeader (S.reading sources.old).stated) }
    ensures front { IfOk result
        (λ header. take FRONT_SIZE header ≡ front_over FROM_SOURCES (S.reading sources.old).stated.sizes) }
    ensures reads { Reads (S.reading sources.old) (S.reading sources.new)
        (IsOfFirst (S.reading sources.old).stated.sizes) (fault_in result) }
{
    let mut hasher = Sha256::new();
    let count = sources.count();
    if count == 0 {
        return Ok(spelled(FROM_SOURCES, 0, 0, &hasher.finalize()));
    }
    let size = sources.len(0);
    digest_source(sources, size, &mut hasher)?;
    Ok(spelled(FROM_SOURCES, count, size, &hasher.finalize()))
}

/// The header of the journal of a session that goes on from an image over these sources, of which it reads the first.
/// Its digest is of the image and of that source, one behind the other: each whole where it has at most `WHOLE_LIMIT`
/// bytes, else `END_SIZE` bytes at each of its ends.
///
/// # Errors
///
/// Those of the one read that failed.
pub fn header_onto<S: Sources>(
    sources: &mut S,
    image: &[u8],
) -> Result<[u8; HEADER_SIZE], SourceFault>
    ensures header { IfOk result (IsHeaderOnto image.now (S.reading sources.old).stated) }
    ensures front { IfOk result
        (λ header. take FRONT_SIZE header ≡ front_over ONTO_IMAGE (S.reading sources.old).stated.sizes) }
    ensures reads { Reads (S.reading sources.old) (S.reading sources.new)
        (IsOfFirst (S.reading sources.old).stated.sizes) (fault_in result) }
{
    let mut hasher = Sha256::new();
    digest_image(image, &mut hasher);
    let count = sources.count();
    if count == 0 {
        return Ok(spelled(ONTO_IMAGE, 0, 0, &hasher.finalize()));
    }
    let size = sources.len(0);
    digest_source(sources, size, &mut hasher)?;
    Ok(spelled(ONTO_IMAGE, count, size, &hasher.finalize()))
}
