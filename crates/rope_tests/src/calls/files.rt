//! Sources that are devices.

ghost use Rattle.std.specs.Prelude.{◌≡◌, ◌<◌, [], OnOk};
ghost use Rattle.lazy_file.specs.KeptBlocks.{used_block};

use super::{assert_same, assert_same_at};
use lazy_file::{
    AddFault, BLOCK_SIZE, Device, DeviceError, FileDevice, FileSources, SourceFault, Sources,
};
use std::alloc::AllocGlobal;
use std::fs::File;
use std::marker::Brand;
use std::num::NonZeroUsize;
use std::process::Abort;
use std::sync::ledger::{Blank, Ledger};

/// A device in memory: a text that may end before its size, how many bytes a call gives, and at which call it fails.
#[derive(Clone, Copy, Debug)]
pub(super) struct Slice<'a> {
    text: &'a [u8],
    size: u64,
    most: usize,
    fails_at: u64,
    calls: u64,
    failed: u64,
}

impl<'a> Slice<'a> {
    /// A device that gives all at once and never fails.
    pub(super) fn new(text: &'a [u8]) -> Slice<'a> {
        Slice {
            text,
            size: text.len() as u64,
            most: usize::MAX,
            fails_at: u64::MAX,
            calls: 0,
            failed: 0,
        }
    }

    /// This device, but it fails at this call.
    pub(super) fn failing_at(self, call: u64) -> Slice<'a> {
        Slice {
            fails_at: call,
            ..self
        }
    }
}

impl<'a> Device for Slice<'a> {
    type Book = ();

    ghost use Rattle.lazy_file.specs.DeviceTexts.{unstated};

    ghost reading = { λ d. record { stated = unstated d.size; failures = d.failed; calls = d.calls } };

    fn size(&self) -> u64 {
        self.size
    }

    fn read_at(
        &mut self,
        _book: &mut (),
        off: u64,
        buffer: &mut [u8],
    ) -> Result<usize, DeviceError> {
        self.calls = self.calls.saturating_add(1);
        if let Some(failed) = self.failed.checked_add(1) {
            if self.calls == self.fails_at {
                self.failed = failed;
                return Err(DeviceError);
            }
        }
        let rest = self.text.get(off as usize..).unwrap_or(&[]);
        let count = rest.len().min(self.most).min(buffer.len());
        buffer[..count].copy_from_slice(&rest[..count]);
        Ok(count)
    }
}

/// These sources, and room for one block.
pub(super) fn one_block<'a>(
    rt: &(impl AllocGlobal + Abort),
    devices: &[Slice<'a>],
) -> FileSources<Slice<'a>> {
    let mut sources = FileSources::new(rt.alloc(), NonZeroUsize::MIN, ()).expect(
        rt,
        "room for a block",
    );
    for device in devices {
        assert!(rt; sources.add(*device).is_ok());
    }
    sources
}

/// Reads `n` bytes of source `s` from `off` on: what comes of it, with a dot for each byte that was not asked for.
fn read(
    rt: &impl Abort,
    sources: &mut FileSources<Slice<'_>>,
    s: u8,
    off: u64,
    n: usize,
) -> Result<[u8; 5], SourceFault> {
    let mut buffer = *b".....";
    sources.read(s, off, buffer.get_mut(..n).expect(rt, "at most five bytes"))?;
    Ok(buffer)
}

#[test]
fn a_block_of_another_source_is_not_taken(rt: HostRuntime) {
    let mut sources = one_block(&rt, &[Slice::new(b"aaaa"), Slice::new(b"bbbb")]);
    for (s, text) in [(0, *b"aaaa."), (1, *b"bbbb."), (0, *b"aaaa.")] {
        assert_same(&rt, &read(&rt, &mut sources, s, 0, 4), &Ok(text));
    }
}

#[test]
fn a_failed_block_is_read_again(rt: HostRuntime) {
    let mut sources = one_block(&rt, &[Slice::new(&[b'x'; 8192]).failing_at(2)]);
    for (off, wanted) in [
        (0, Ok(*b"x....")),
        (4096, Err(SourceFault::Device)),
        (4096, Ok(*b"x....")),
    ] {
        assert_same_at(&rt, &read(&rt, &mut sources, 0, off, 1), &wanted, &off);
    }
}

/// A device of two blocks that gives one byte a call, and fails at this one.
fn byte_by_byte(fails_at: u64) -> Slice<'static> {
    Slice {
        most: 1,
        ..Slice::new(&[b'x'; 8192]).failing_at(fails_at)
    }
}

// A block is filled by as many calls as it has bytes, and then kept: the next call is that for another block.
#[test]
fn a_block_is_filled_one_byte_a_call(rt: HostRuntime) {
    let mut early = one_block(&rt, &[byte_by_byte(4096)]);
    let fault = Err(SourceFault::Device);
    assert_same(&rt, &read(&rt, &mut early, 0, 0, 1), &fault);
    let mut later = one_block(&rt, &[byte_by_byte(4097)]);
    for (off, n, wanted) in [
        (0, 1, Ok(*b"x....")),
        (4091, 5, Ok(*b"xxxxx")),
        (4096, 1, fault),
    ] {
        assert_same_at(&rt, &read(&rt, &mut later, 0, off, n), &wanted, &off);
    }
}

// A read of as many bytes as a block has is not kept: the next one is another call.
#[test]
fn a_long_read_takes_one_byte_a_call(rt: HostRuntime) {
    for (fails_at, outcome) in [(4096, Err(SourceFault::Device)), (4097, Ok(()))] {
        let mut sources = one_block(&rt, &[byte_by_byte(fails_at)]);
        let mut buffer = [0; 4096];
        assert_same(&rt, &sources.read(0, 0, &mut buffer), &outcome);
        if outcome.is_ok() {
            assert!(rt; buffer == [b'x'; 4096]);
            assert_same(
                &rt,
                &read(&rt, &mut sources, 0, 0, 1),
                &Err(SourceFault::Device),
            );
        }
    }
}

/// A device that is too long is refused so, and handed back.
fn assert_refused(rt: &impl Abort, sources: &mut FileSources<Slice<'_>>, fault: AddFault) {
    let device = Slice {
        size: 1 << 40,
        ..Slice::new(b"abc")
    };
    match sources.add(device) {
        Ok(_) => panic!(rt; "not refused"),
        Err(refused) => {
            assert_same(rt, &refused.fault, &fault);
            assert_same(rt, &refused.device.size, &(1 << 40));
            assert_same(rt, &refused.device.text, &b"abc".as_slice());
        }
    }
}

#[test]
fn a_device_that_is_not_taken_is_handed_back(rt: HostRuntime) {
    let mut sources = one_block(&rt, &[]);
    assert_refused(&rt, &mut sources, AddFault::SourceTooLong);
    for s in 0..255 {
        let number = sources.add(Slice::new(b"a")).expect(&rt, "a source");
        assert_same(&rt, &number, &s);
    }
    assert_refused(&rt, &mut sources, AddFault::TooManySources);
    assert!(rt; sources.count() == 255);
    assert_same(&rt, &sources.len(254), &1);
}

#[test]
fn a_span_outside_and_a_text_cut_short_are_told(rt: HostRuntime) {
    let short = Slice {
        size: 5,
        ..Slice::new(b"abc")
    };
    let mut sources = one_block(&rt, &[Slice::new(b"abcde"), short]);
    for (s, off, n, wanted) in [
        (0, 1, 3, Ok(*b"bcd..")),
        (0, 4, 2, Err(SourceFault::BadSource)),
        (2, 0, 1, Err(SourceFault::BadSource)),
        (0, u64::MAX, 1, Err(SourceFault::BadSource)),
        (0, 5, 0, Ok(*b".....")),
        (1, 0, 5, Err(SourceFault::Short)),
    ] {
        let found = read(&rt, &mut sources, s, off, n);
        assert_same_at(&rt, &found, &wanted, &(s, off));
    }
}

#[test]
fn long_and_short_reads_agree(rt: HostRuntime) {
    let mut text = [0; 10_000];
    for (i, byte) in text.iter_mut().enumerate() {
        *byte = (i % 251) as u8;
    }
    let device = Slice {
        most: 3000,
        ..Slice::new(&text)
    };
    let mut sources = one_block(&rt, &[device]);
    for n in [1, 7, 1000, BLOCK_SIZE - 1, BLOCK_SIZE, 5000, 10_000] {
        let mut read = [0; 10_000];
        let mut place = 0;
        for part in read.chunks_mut(n) {
            assert_same(&rt, &sources.read(0, place, part), &Ok(()));
            place = place.saturating_add(n as u64);
        }
        assert!(rt; read == text, "by {n}");
    }
}

/// Sources with room for so many blocks, over this device.
fn with_room<'a>(
    rt: &(impl AllocGlobal + Abort),
    blocks: u16,
    device: Slice<'a>,
) -> FileSources<Slice<'a>>
    ensures room { result.most ≡ blocks }
    ensures none { result.kept ≡ [] }
{
    let room = NonZeroUsize::new(usize::from(blocks)).expect(rt, "a block or more");
    let mut sources = FileSources::new(rt.alloc(), room, ()).expect(rt, "room for blocks");
    let added = sources.add(device);
    assert!(rt; added.is_ok());
    sources
}

/// The first byte of a block, which is used then.
fn byte_of_block(sources: &mut FileSources<Slice<'_>>, block: u16) -> Result<u8, SourceFault>
    ensures { OnOk result
        (sources.new.kept ≡ used_block sources.old.most sources.old.kept (0, block)) }
{
    let mut byte = [0];
    sources.read(0, u64::from(block) * BLOCK_SIZE as u64, &mut byte)?;
    Ok(byte[0])
}

/// So many blocks of `x`.
fn blocks_of_x(rt: &(impl AllocGlobal + Abort), blocks: usize) -> Vec<u8> {
    let mut text = Vec::new(rt.alloc());
    let size = BLOCK_SIZE.saturating_mul(blocks);
    text.resize(size, b'x').expect(rt, "memory");
    text
}

// The device fails at the call for one block more than there is room for: so each
// of the others was read once. That one is not kept, and takes no other's place.
#[test]
fn as_many_blocks_are_kept_as_there_is_room_for(rt: HostRuntime) {
    let text = blocks_of_x(&rt, 258);
    for blocks in [1u16, 2, 256, 257] {
        let device = Slice::new(&text).failing_at(u64::from(blocks) + 1);
        let mut sources = with_room(&rt, blocks, device);
        for _ in 0..2 {
            for block in 0..blocks {
                let found = byte_of_block(&mut sources, block);
                assert_same_at(&rt, &found, &Ok(b'x'), &(blocks, block));
            }
        }
        let found = byte_of_block(&mut sources, blocks);
        assert_same_at(&rt, &found, &Err(SourceFault::Device), &blocks);
        let found = byte_of_block(&mut sources, 0);
        assert_same_at(&rt, &found, &Ok(b'x'), &blocks);
    }
}

// One block more takes the place of the first one, and the others
// are kept: the device fails where the first is read again.
#[test]
fn the_block_used_longest_ago_is_let_go(rt: HostRuntime) {
    let text = blocks_of_x(&rt, 258);
    for blocks in [1u16, 2, 256, 257] {
        let device = Slice::new(&text).failing_at(u64::from(blocks) + 2);
        let mut sources = with_room(&rt, blocks, device);
        for block in (0..=blocks).chain(1..=blocks) {
            let found = byte_of_block(&mut sources, block);
            assert_same_at(&rt, &found, &Ok(b'x'), &(blocks, block));
        }
        let found = byte_of_block(&mut sources, 0);
        assert_same_at(&rt, &found, &Err(SourceFault::Device), &blocks);
    }
}

/// Reads two blocks at once, and whether there were `x` in them.
fn two_at_once(sources: &mut FileSources<Slice<'_>>, block: u16) -> Result<bool, SourceFault> {
    let mut bytes = [0; 2 * BLOCK_SIZE];
    sources.read(0, u64::from(block) * BLOCK_SIZE as u64, &mut bytes)?;
    Ok(bytes == [b'x'; 2 * BLOCK_SIZE])
}

// Two calls fill the two blocks that are kept. The third one is that of a long read, which keeps none of its blocks and lets none go:
// the fourth one is that for a third block, and fails.
#[test]
fn a_long_read_leaves_what_is_kept(rt: HostRuntime) {
    let text = blocks_of_x(&rt, 3);
    let mut sources = with_room(&rt, 2, Slice::new(&text).failing_at(4));
    for block in 0..2 {
        let found = byte_of_block(&mut sources, block);
        assert_same_at(&rt, &found, &Ok(b'x'), &block);
    }
    assert_same(&rt, &two_at_once(&mut sources, 1), &Ok(true));
    for block in 0..2 {
        let found = byte_of_block(&mut sources, block);
        assert_same_at(&rt, &found, &Ok(b'x'), &block);
    }
    let found = byte_of_block(&mut sources, 2);
    assert_same(&rt, &found, &Err(SourceFault::Device));
}

/// Reads three bytes of a file of five, whose reads, and those that failed, are counted in the book of a blank.
fn read_a_file<R: AllocGlobal + Abort, L: Ledger>(
    rt: &R,
    file: File,
    blank: Blank,
    wanted: Result<(), SourceFault>,
)
    requires name { blank.name ≡ L.name }
    requires parts { blank.parts ≡ L.parts }
    requires some { 2 < blank.parts }
{
    let (book, all) = blank.open::<L>();
    let mut parts = all;
    let failed = parts.split_off(1, 0);
    let called = parts.split_off(1, 0);
    let mut sources = FileSources::new(rt.alloc(), NonZeroUsize::MIN, book).expect(rt, "a block");
    assert!(rt;
        sources
            .add(FileDevice::new(file, 5, failed, called))
            .is_ok()
    );
    let mut buffer = *b"abc";
    assert_same(rt, &sources.read(0, 2, &mut buffer), &wanted);
    if wanted.is_ok() {
        assert_same(rt, &buffer, &[0; 3]);
    }
    assert_same(
        rt,
        &sources.read(0, 3, &mut buffer),
        &Err(SourceFault::BadSource),
    );
}

#[test]
fn a_file_is_a_device(rt: HostRuntime) {
    let file = File::open(&rt, "/dev/zero").expect(&rt, "a file");
    read_a_file::<HostRuntime, Brand>(&rt, file, Blank::new(3), Ok(()));
}

#[test]
fn a_file_that_has_ended_is_short(rt: HostRuntime) {
    let file = File::open(&rt, "/dev/null").expect(&rt, "a file");
    read_a_file::<HostRuntime, Brand>(&rt, file, Blank::new(3), Err(SourceFault::Short));
}

#[test]
fn a_folder_fails_as_a_device(rt: HostRuntime) {
    let folder = File::open(&rt, "/").expect(&rt, "a folder");
    read_a_file::<HostRuntime, Brand>(&rt, folder, Blank::new(3), Err(SourceFault::Device));
}
