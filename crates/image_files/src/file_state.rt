//! What stands under a name.

ghost use Rattle.std.specs.Prelude.{◌↔◌, IsTrue};
ghost use Rattle.image_files.specs.FileStates.{HasBytesOf};

use std::fmt;
use std::fs::{self, File, Metadata};
use std::os::unix::fs::MetadataExt;
use std::time::{Duration, SystemTime};

/// A time since 1970.
#[derive(Clone, Copy, Default, PartialEq, Eq)]
pub struct Moment {
    pub seconds: u64,
    pub nanoseconds: u64,
}

impl fmt::Display for Moment {
    fn fmt<W: fmt::Write>(&self, f: &mut fmt::Formatter<W>) -> fmt::Result {
        let Moment {
            seconds,
            nanoseconds,
        } = *self;
        write!(f, "{seconds} {nanoseconds}")
    }
}

/// The time of these numbers, of which a negative one is told as the large one that the system stores.
fn moment_of(seconds: i64, nanoseconds: i64) -> Moment {
    Moment {
        seconds: seconds.cast_unsigned(),
        nanoseconds: nanoseconds.cast_unsigned(),
    }
}

/// A file in its state: it is this one, unchanged, as long as each look gives the same.
#[derive(Clone, Copy, PartialEq, Eq)]
pub struct FileState {
    pub device: u64,
    pub inode: u64,
    pub size: u64,
    /// When its bytes changed last, and when any of it did.
    pub modified: Moment,
    pub changed: Moment,
}

impl FileState {
    /// Whether the file is the one that it was then, with the bytes that it had. It may have got or lost a name.
    pub fn has_bytes_of(&self, then: FileState) -> bool
        ensures { IsTrue result ↔ HasBytesOf self.now then }
    {
        self.device == then.device
            && self.inode == then.inode
            && self.size == then.size
            && self.modified == then.modified
    }
}

/// The state that is told of a file. Of what is no regular file only its number and that of its device count.
fn state(found: &Metadata) -> FileState {
    let mut state = FileState {
        device: found.dev(),
        inode: found.ino(),
        size: 0,
        modified: Moment::default(),
        changed: Moment::default(),
    };
    if found.is_file() || found.is_symlink() {
        state.size = found.size();
        state.modified = moment_of(found.mtime(), found.mtime_nsec());
        state.changed = moment_of(found.ctime(), found.ctime_nsec());
    }
    state
}

/// The state of what stands under a name, where something does. A link is not followed.
pub fn state_at(rt: &HostRuntime, path: &str) -> Option<FileState> {
    Some(state(&fs::symlink_metadata(rt, path).ok()?))
}

/// The state of what a name leads to, where something stands there: a link is followed.
pub fn state_behind(rt: &HostRuntime, path: &str) -> Option<FileState> {
    Some(state(&fs::metadata(rt, path).ok()?))
}

/// The state of a file that is open.
pub fn state_of(file: &File) -> Option<FileState> {
    Some(state(&file.metadata().ok()?))
}

/// Which file this is, whatever becomes of its bytes: another one that gets its number is born later.
#[derive(Clone, Copy, PartialEq, Eq)]
pub struct FileBirth {
    pub device: u64,
    pub inode: u64,
    /// In nanoseconds since 1970, and 0 where the system does not tell it.
    pub born: u64,
}

/// The nanoseconds of a time since 1970.
fn nanoseconds(time: SystemTime) -> Option<u64> {
    let since: Duration = time.duration_since(SystemTime::UNIX_EPOCH).ok()?;
    u64::try_from(since.as_nanos()).ok()
}

/// When a file was born.
fn born(found: &Metadata) -> Option<u64> {
    nanoseconds(found.created().ok()?)
}

/// Which file this is.
pub fn birth_of(file: &File) -> Option<FileBirth> {
    let found = file.metadata().ok()?;
    Some(FileBirth {
        device: found.dev(),
        inode: found.ino(),
        born: born(&found).unwrap_or(0),
    })
}

/// Whether a name leads to a file that is open.
pub fn is_named(rt: &HostRuntime, path: &str, file: &File) -> bool {
    match (file.metadata(), fs::metadata(rt, path)) {
        (Ok(opened), Ok(named)) => opened.ino() == named.ino() && opened.dev() == named.dev(),
        _ => false,
    }
}
