//! Files that are read where they lie, and held bytes, as the sources of a tool.

use crate::fakes::{Full, Giver, Taker};
use crate::images::ONE_INSERT;
use crate::same::assert_same;
use cord_tools::{read_source, run_join};
use lazy_file::{Device, DeviceError, FileSources, Sources};
use source_device::SourceDevice;
use std::io::ErrorKind;
use std::num::NonZeroUsize;
use std::test::Fail;

/// A file in memory, which states none of its bytes.
#[derive(Clone, Copy)]
struct File<'a> {
    bytes: &'a [u8],
}

impl<'a> Device for File<'a> {
    type Book = ();

    ghost use Rattle.std.specs.Prelude.{length};
    ghost use Rattle.lazy_file.specs.DeviceTexts.{unstated};

    ghost reading = { λ d. record { stated = unstated (length d.bytes.now); failures = 0; calls = 0 } };

    fn size(&self) -> u64 {
        self.bytes.len() as u64
    }

    fn read_at(
        &mut self,
        _book: &mut (),
        off: u64,
        buffer: &mut [u8],
    ) -> Result<usize, DeviceError> {
        let rest = self.bytes.get(off as usize..).unwrap_or(&[]);
        let count = rest.len().min(buffer.len());
        buffer[..count].copy_from_slice(&rest[..count]);
        Ok(count)
    }
}

#[test]
fn files_and_held_bytes_are_sources_in_their_order(rt: HostRuntime) -> Result<(), Fail> {
    let alloc = rt.alloc();
    let mut sources = FileSources::new(alloc, NonZeroUsize::MIN, ())?;
    for text in [b"abc".as_slice(), b"", ONE_INSERT] {
        let interrupted = Giver {
            cut: Some(1),
            kind: ErrorKind::Interrupted,
            ..Giver::of(text)
        };
        let held = SourceDevice::Held(read_source(alloc, interrupted)?);
        assert!(&rt; sources.add(held).is_ok());
    }
    let file = File { bytes: b"xyz" };
    assert!(&rt; sources.add(SourceDevice::File(file)).is_ok());
    assert!(&rt; sources.count() == 4);
    let sizes = [
        sources.len(0),
        sources.len(1),
        sources.len(2),
        sources.len(3),
    ];
    assert_same(&rt, &sizes, &[3, 0, 211, 3], &"sizes");
    let mut writer = Taker::with_room(512, Full::Fails);
    assert_same(
        &rt,
        &run_join(alloc, &mut sources, &mut writer),
        &Ok(()),
        &"joined",
    );
    let joined = writer.taken().strip_prefix(b"abc".as_slice());
    let rest = joined.expect(&rt, "the first");
    assert_same(
        &rt,
        &rest.strip_prefix(ONE_INSERT),
        &Some(b"xyz".as_slice()),
        &"the others",
    );
    Ok(())
}
