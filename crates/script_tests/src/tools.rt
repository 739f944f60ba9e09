//! Scripts made images. The image is one that is worked by hand.

use edit_commands::EditFault;
use edit_script::{Stop, Stopped};
use node_table::NodeFault;
use script_tools::{ApplyFault, run_apply};
use std::alloc::AllocGlobal;
use std::fmt::Debug;
use std::io;
use std::io::{Error, ErrorKind, Write};
use std::process::Abort;

/// The insertion of `abc` as it is worked by hand, in version 2: its header, node, two revisions, row and pool.
pub(crate) const ONE_INSERT: &[u8] = b"CORDSESS\0\0\0\x02\0\0\0\0\0\0\0\x01\0\0\0\x02\
    \0\0\0\x01\0\0\0\0\0\0\0\0\0\0\0\x03\
    \x01\0\0\0\0\0\0\0\0\0\0\0\0\0\0\x03\0\0\0\0\0\0\0\0\
    \0\0\0\0\0\0\0\0\
    \x01\0\0\0\xff\xff\xff\xff\0\0\0\0\0\0\0\0\0\0\0\0\0\0\0\0\
    \0\0\0\0\0\0\0\0\0\0\0\0\0\0\0\0\0\0\0\0\0\0\0\0\
    \0\0\0\0\0\0\0\0\
    \x03\x01\0\0\0\0\0\0\0\0\0\0\0\0\0\0\0\0\0\0\0\0\0\0\
    \0\0\0\0\0\0\0\0\0\0\0\0\0\0\0\0\0\0\0\0\0\0\0\x03\
    \0\0\0\x01\0\0\0\0\
    \x02\0\0\0\0\0\0\0\0\0\0\0\0\0\0\x03\0\0\0\0\0\0\0\0\
    abc";

/// Fails the test where the two differ, and prints both.
pub(crate) fn assert_same<A: Abort, T: PartialEq + Debug>(rt: &A, found: &T, wanted: &T) {
    assert_eq!(rt; found, wanted);
}

/// A writer that takes so many bytes, and then fails or takes nothing.
#[derive(Drop)]
pub(crate) struct Taker<'a> {
    pub(crate) left: usize,
    pub(crate) fails: bool,
    pub(crate) taken: &'a mut Vec<u8>,
}

impl Write for Taker<'_> {
    ghost use Rattle.std.specs.Prelude.{None};

    ghost contents = { λ _. None };

    fn write(&mut self, bytes: &[u8]) -> io::Result<usize> {
        let size = bytes.len().min(self.left);
        if size == 0 && !bytes.is_empty() && self.fails {
            return Err(Error::from(ErrorKind::BrokenPipe));
        }
        self.left -= size;
        self.taken.extend_from_slice(&bytes[..size])?;
        Ok(size)
    }

    fn flush(&mut self) -> io::Result<()> {
        Ok(())
    }
}

/// The image that a script makes over sources of these lengths, or why it makes none.
pub(crate) fn applied<A: AllocGlobal>(
    rt: &A,
    script: &[u8],
    lens: &[u64],
) -> Result<Vec<u8>, ApplyFault> {
    let mut image: Vec<u8> = Vec::new(rt.alloc());
    run_apply(rt.alloc(), script, lens, &mut image)?;
    Ok(image)
}

/// Its script, each line with its end and a comment.
pub(crate) const ONE_INSERT_LINES: &[u8] = b"new # 0: 0 bytes, depth 0, 0 rows
insert 0 0 \"abc\" # 1: 3 bytes, depth 0, balanced, 1 rows
";

#[test]
fn image_of_one_insertion(rt: HostRuntime) {
    for script in [b"new\ninsert 0 0 \"abc\"".as_slice(), ONE_INSERT_LINES] {
        let image = applied(&rt, script, &[]).expect(&rt, "an image");
        assert_same(&rt, &image.as_slice(), &ONE_INSERT);
    }
}

pub(crate) fn stopped(line: u64, why: Stop) -> ApplyFault {
    ApplyFault::Stop(Stopped { line, why })
}

#[test]
fn scripts_without_an_image(rt: HostRuntime) {
    for (script, lens, wanted) in [
        (
            b"new\nnews".as_slice(),
            [].as_slice(),
            stopped(2, Stop::NoCommand),
        ),
        (
            b"new\nopen 1",
            &[3],
            stopped(2, Stop::Refused(EditFault::NoSource)),
        ),
        (
            b"new\ninsert 0 0 \"a\"...",
            &[],
            stopped(2, Stop::NoCommand),
        ),
    ] {
        let mut taken: Vec<u8> = Vec::new(rt.alloc());
        let answer = run_apply(rt.alloc(), script, lens, &mut taken);
        assert_same(&rt, &answer, &Err(wanted));
        assert_same(&rt, &taken.len(), &0);
    }
    for (lens, fault) in [
        ([1 << 40].as_slice(), NodeFault::TooLong),
        ([0; 256].as_slice(), NodeFault::TooManySources),
    ] {
        let refused = ApplyFault::Source(EditFault::Node(fault));
        assert_same(&rt, &applied(&rt, b"new", lens), &Err(refused));
    }
}

#[test]
fn writers_that_fail(rt: HostRuntime) {
    for left in 0..ONE_INSERT.len() {
        for fails in [true, false] {
            let mut taken: Vec<u8> = Vec::new(rt.alloc());
            let mut writer = Taker {
                left,
                fails,
                taken: &mut taken,
            };
            let answer = run_apply(rt.alloc(), b"new\ninsert 0 0 \"abc\"", &[], &mut writer);
            assert_same(&rt, &answer, &Err(ApplyFault::Write));
            assert_same(&rt, &Some(taken.as_slice()), &ONE_INSERT.get(..left));
        }
    }
}
