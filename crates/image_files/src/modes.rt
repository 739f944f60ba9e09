//! Who may read and write the files that are made.

use std::fs::{self, File, Permissions};
use std::io;
use std::os::unix::fs::{MetadataExt, PermissionsExt, fchown};

/// A file of keys is its owner's alone: nobody else sees what is typed before it is saved.
pub const OF_KEYS: u32 = 0o600;

/// What a new file asks for. The system takes from it what its owner gives to no new file.
const ASKED: u32 = 0o666;

/// The bits that say who may read, write and run a file. No other bit of a file is given to one that is made.
const SHARED: u32 = 0o777;

/// What a group may do, of a mode.
const OF_GROUP: u32 = 0o070;

/// Who may read and write a file: its mode, and its group.
#[derive(Clone, Copy)]
pub struct Shared {
    mode: u32,
    group: u32,
}

impl Shared {
    fn of(found: &fs::Metadata) -> Shared {
        Shared {
            mode: found.mode() & SHARED,
            group: found.gid(),
        }
    }

    /// Open to nobody to whom one of both is not. Where they are of two groups, a group gets no more than others do.
    fn and(self, other: Shared) -> Shared {
        let both = Shared {
            mode: self.mode & other.mode,
            group: self.group,
        };
        if self.group == other.group {
            both
        } else {
            both.of_any_group()
        }
    }

    /// The same, where its group gets no more than others do.
    fn of_any_group(self) -> Shared {
        Shared {
            mode: self.mode & (!OF_GROUP | (self.mode << 3)),
            group: self.group,
        }
    }

    /// What a file is made with, which has its group only later.
    fn asked(self) -> u32 {
        self.of_any_group().mode
    }

    /// Gives a file the group and the mode. Where it may not have the group, that gets no more than others do.
    fn give(self, file: &File) -> io::Result<()> {
        let given = match fchown(file, None, Some(self.group)) {
            Ok(()) => self,
            Err(_) => self.of_any_group(),
        };
        file.set_permissions(Permissions::from_mode(given.mode))
    }
}

/// The mode of an image.
#[derive(Clone, Copy)]
pub enum Mode {
    /// That of any new file.
    New,
    /// That of the file whose text a new image has.
    OfText(Shared),
    /// That of the file whose place it takes.
    OfReplaced(Shared),
}

/// Who may read and write the file of this name, where there is one.
fn shared_of(rt: &HostRuntime, path: &str) -> Option<Shared> {
    match fs::metadata(rt, path) {
        Ok(found) if found.is_file() => Some(Shared::of(&found)),
        _ => None,
    }
}

impl Mode {
    /// That of a file whose place is taken.
    pub fn of_replaced(found: &fs::Metadata) -> Mode {
        Mode::OfReplaced(Shared::of(found))
    }

    /// A new image has the text of this file too: it is open to nobody to whom this one is not.
    pub fn with_text_of(self, rt: &HostRuntime, path: &str) -> Mode {
        match (self, shared_of(rt, path)) {
            (Mode::New, Some(found)) => Mode::OfText(found),
            (Mode::OfText(shared), Some(found)) => Mode::OfText(shared.and(found)),
            _ => self,
        }
    }

    /// The same of an image that takes the place of another one, whose history it has not.
    pub fn narrowed_by(self, rt: &HostRuntime, path: &str) -> Mode {
        match (self, shared_of(rt, path)) {
            (Mode::OfReplaced(shared), Some(found)) => Mode::OfReplaced(shared.and(found)),
            _ => self.with_text_of(rt, path),
        }
    }

    /// What the file is made with, which is never open to more than it will be.
    pub fn asked(self) -> u32 {
        match self {
            Mode::New => ASKED,
            Mode::OfText(shared) | Mode::OfReplaced(shared) => shared.asked(),
        }
    }

    /// Gives it to a file that was made with what is asked. A device
    /// without modes leaves a new image as open as all that it has.
    pub fn give(self, file: &File) -> io::Result<()> {
        match self {
            Mode::New => Ok(()),
            Mode::OfText(shared) => {
                let _ = shared.give(file);
                Ok(())
            }
            Mode::OfReplaced(shared) => shared.give(file),
        }
    }
}
