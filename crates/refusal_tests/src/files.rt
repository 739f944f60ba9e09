//! Devices whose blocks are kept, and an image with a row of bytes over one.

use crate::refusals::{Refusals, TRIES, assert_same};
use lazy_file::{AddFault, Device, DeviceError, FileSources, SourceFault, Sources};
use session_checker::{CheckFault, check};
use std::alloc::{AllocError, AllocGlobal};
use std::num::NonZeroUsize;
use std::process::Abort;

/// A file in memory, which states none of its bytes.
#[derive(Clone, Copy, Debug)]
pub struct File<'a> {
    bytes: &'a [u8],
    size: u64,
}

impl<'a> Device for File<'a> {
    type Book = ();

    ghost use Rattle.lazy_file.specs.DeviceTexts.{unstated};

    ghost reading = { λ d. record { stated = unstated d.size; failures = 0; calls = 0 } };

    fn size(&self) -> u64 {
        self.size
    }

    fn read_at(
        &mut self,
        _book: &mut (),
        off: u64,
        buffer: &mut [u8],
    ) -> Result<usize, DeviceError> {
        let rest = self.bytes.get(off as usize..).unwrap_or(&[]);
        let count = rest.len().min(buffer.len());
        buffer[..count].copy_from_slice(&rest[..count]);
        Ok(count)
    }
}

type Files<'a> = FileSources<File<'a>>;

/// No files, and room for one block.
fn no_files<'a, A: AllocGlobal>(rt: &A) -> Result<Files<'a>, AllocError> {
    FileSources::new(rt.alloc(), NonZeroUsize::MIN, ())
}

fn made<'a, A: AllocGlobal + Abort>(rt: &A, refusals: &mut Refusals) -> Files<'a> {
    for _ in 0..TRIES {
        match no_files(rt) {
            Ok(files) => return files,
            Err(_) => refusals.met(rt, &(), &()),
        }
    }
    panic!(rt; "refused each time")
}

/// How many files there are, and their bytes together.
fn kept(files: &Files<'_>) -> (u8, u64) {
    let mut sum = 0u64;
    for s in 0..files.count() {
        sum = sum.saturating_add(files.len(s));
    }
    (files.count(), sum)
}

/// Adds a file; on a fault the file that was handed back.
fn add<'a>(files: &mut Files<'a>, file: File<'a>) -> Result<u8, (AddFault, File<'a>)> {
    match files.add(file) {
        Ok(s) => Ok(s),
        Err(refused) => Err((refused.fault, refused.device)),
    }
}

/// Adds a file, and adds the one that is handed back once more where that was refused memory.
fn added<'a, A: Abort>(
    rt: &A,
    files: &mut Files<'a>,
    given: File<'a>,
    refusals: &mut Refusals,
) -> u8 {
    let before = kept(files);
    let mut file = given;
    for _ in 0..TRIES {
        match add(files, file) {
            Ok(s) => return s,
            Err((fault, back)) => {
                assert_same(rt, &fault, &AddFault::Memory, &"a file");
                refusals.met(rt, &kept(files), &before);
                file = back;
            }
        }
    }
    panic!(rt; "refused each time")
}

/// Reads `n` bytes of a file: what comes of it, with a dot for each byte that was not asked for.
fn read<A: Abort>(
    rt: &A,
    files: &mut Files<'_>,
    s: u8,
    off: u64,
    n: usize,
) -> Result<[u8; 5], SourceFault> {
    let mut buffer = *b".....";
    files.read(s, off, buffer.get_mut(..n).expect(rt, "at most five bytes"))?;
    Ok(buffer)
}

/// Reads, once more where that was refused memory.
fn bytes_of<A: Abort>(
    rt: &A,
    files: &mut Files<'_>,
    asked: (u8, u64, usize),
    refusals: &mut Refusals,
) -> Result<[u8; 5], SourceFault> {
    let (s, off, n) = asked;
    let before = kept(files);
    for _ in 0..TRIES {
        match read(rt, files, s, off, n) {
            Err(SourceFault::Memory) => refusals.met(rt, &kept(files), &before),
            answer => return answer,
        }
    }
    panic!(rt; "refused each time")
}

pub(crate) fn five_bytes<A: AllocGlobal + Abort>(rt: &A, refusals: &mut Refusals) {
    let mut files = made(rt, refusals);
    for (s, bytes) in [(0, b"abcde".as_slice()), (1, b"abc")] {
        let file = File { bytes, size: 5 };
        assert_same(rt, &added(rt, &mut files, file, refusals), &s, &"a file");
    }
    for (asked, wanted) in [
        ((0, 1, 3), Ok(*b"bcd..")),
        ((0, 4, 2), Err(SourceFault::BadSource)),
        ((1, 0, 5), Err(SourceFault::Short)),
        ((0, 0, 5), Ok(*b"abcde")),
    ] {
        let found = bytes_of(rt, &mut files, asked, refusals);
        assert_same(rt, &found, &wanted, &asked);
    }
}

/// A source of 3 bytes, opened, whose bytes a row compares: its header, source, node, revision and row.
pub const OPEN_SOURCE: &[u8] = b"CORDSESS\0\0\0\x01\0\0\0\x01\0\0\0\x01\0\0\0\x01\
    \0\0\0\x01\0\0\0\0\0\0\0\0\0\0\0\0\
    \0\0\0\0\0\0\0\x03\
    \x02\0\0\0\0\0\0\0\0\0\0\0\0\0\0\x03\0\0\0\0\0\0\0\0\
    \0\0\0\0\0\0\0\0\x02\0\0\0\0\0\0\0\0\0\0\0\0\0\0\0\
    \0\0\0\0\0\0\0\0\0\0\0\0\0\0\0\0\0\0\0\0\0\0\0\0\
    \0\0\0\0\0\0\0\0\0\0\0\x01\0\0\0\0\
    \x03\0\0\0\0\0\0\0\0\0\0\0\0\0\0\x03\0\0\0\0\0\0\0\0";

/// The number of revisions of an image that is accepted, and the byte at place 2 of the first with the nodes visited.
fn checked(files: &mut Files<'_>) -> Result<(u32, Option<u8>, u32), CheckFault> {
    let image = check(OPEN_SOURCE, files)?;
    match image.fetch(files, 0, 2) {
        Ok((byte, visits)) => Ok((image.revisions(), byte, visits)),
        Err(fault) => Err(CheckFault::Source(fault)),
    }
}

pub(crate) fn row_of_bytes<A: AllocGlobal + Abort>(rt: &A, refusals: &mut Refusals) {
    let mut files = made(rt, refusals);
    let bytes = b"abc".as_slice();
    let file = File { bytes, size: 3 };
    assert_same(rt, &added(rt, &mut files, file, refusals), &0, &"a file");
    let before = kept(&files);
    for _ in 0..TRIES {
        let answer = checked(&mut files);
        if answer == Err(CheckFault::Source(SourceFault::Memory)) {
            refusals.met(rt, &kept(&files), &before);
        } else {
            assert_same(rt, &answer, &Ok((1, Some(b'c'), 1)), &"accepted");
            return;
        }
    }
    panic!(rt; "refused each time")
}

/// Room for one block and a file of these bytes.
pub(crate) fn one_file<'a, A: AllocGlobal + Abort>(
    rt: &A,
    bytes: &'a [u8],
    refusals: &mut Refusals,
) -> Files<'a> {
    let mut files = made(rt, refusals);
    let file = File {
        bytes,
        size: bytes.len() as u64,
    };
    assert_same(rt, &added(rt, &mut files, file, refusals), &0, &"a file");
    files
}
