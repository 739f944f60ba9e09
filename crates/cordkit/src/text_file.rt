//! A file that gets another text.

use cord_tools::ToolFault;
use image_files::{Faults, FileState, Mode, put_new, state_at, state_behind, sync_folder};
use std::fs::{self, File};
use std::io::{self, ErrorKind};
use std::os::unix::fs::OpenOptionsExt;
use std::path::Path;

/// A text is written beside its file under one of so many names.
const NAMES: u32 = 999;

/// A file, as it was found.
#[derive(Drop)]
pub struct TextFile {
    /// Where a link leads to, it is that.
    path: String,
    mode: Mode,
    /// None, where nothing was there.
    state: Option<FileState>,
}

/// A new file beside another one.
#[derive(Drop)]
pub struct Part<'a> {
    name: String,
    file: File,
    faults: &'a Faults,
}

/// A new file, to which the mode was given.
pub fn made(rt: &HostRuntime, name: &str, mode: Mode) -> io::Result<File> {
    let mut options = File::options();
    options.read(true).write(true).create_new(true);
    options.mode(mode.asked());
    let file = options.open(rt, name)?;
    if let Err(error) = mode.give(&file) {
        // What stays is empty.
        let _ = fs::remove_file(rt, name);
        return Err(error);
    }
    Ok(file)
}

/// The folder in which a path leads to its last name.
fn folder_of(rt: &HostRuntime, path: Path<'_>) -> Option<FileState> {
    match path.parent() {
        Some(folder) if !folder.as_str().is_empty() => state_behind(rt, folder.as_str()),
        _ => state_behind(rt, "."),
    }
}

impl TextFile {
    /// The file of this name, or none. A link is followed.
    ///
    /// # Errors
    ///
    /// `Write`, where it is no regular file. `Read`, where a link leads nowhere, and `Memory`.
    pub fn find(rt: &HostRuntime, path: &str, faults: &Faults) -> Result<TextFile, ToolFault> {
        let (whole, mode, state) = match fs::metadata(rt, path) {
            Ok(found) if found.is_file() => {
                let whole = match fs::canonicalize(rt, path) {
                    Ok(whole) => String::from_str(rt.alloc(), whole.as_str())?,
                    Err(error) => return Err(faults.unread(path, error)),
                };
                (whole, Mode::of_replaced(&found), state_behind(rt, path))
            }
            Ok(_) => {
                let why = io::Error::other("it is no regular file");
                return Err(faults.unwritten(path, why));
            }
            Err(error) if error.kind() == ErrorKind::NotFound && state_at(rt, path).is_none() => {
                (String::from_str(rt.alloc(), path)?, Mode::New, None)
            }
            Err(error) => return Err(faults.unread(path, error)),
        };
        Ok(TextFile {
            path: whole,
            mode,
            state,
        })
    }

    /// Where it was not there it gets the text of this file, and is open to nobody to whom that one is not.
    pub fn has_text_of(&mut self, rt: &HostRuntime, path: &str) {
        self.mode = self.mode.with_text_of(rt, path);
    }

    /// Whether it is a file of this name, in the folder of that name.
    pub fn is_called(&self, rt: &HostRuntime, name: &str) -> bool {
        let (own, other) = (Path::new(self.path.as_str()), Path::new(name));
        own.file_name() == other.file_name() && folder_of(rt, own) == folder_of(rt, other)
    }

    /// Whether it was there.
    pub fn is_there(&self) -> bool {
        self.state.is_some()
    }

    /// A new file beside it, with its mode.
    pub fn part<'a>(&self, rt: &HostRuntime, faults: &'a Faults) -> Result<Part<'a>, ToolFault> {
        let path = self.path.as_str();
        for n in 1..=NAMES {
            let name = format!(in rt.alloc(); "{path}.new-{n}")?;
            match made(rt, name.as_str(), self.mode) {
                Ok(file) => return Ok(Part { name, file, faults }),
                Err(error) if error.kind() == ErrorKind::AlreadyExists => {}
                Err(error) => return Err(faults.unwritten(name.as_str(), error)),
            }
        }
        Err(faults.unwritten(path, io::Error::other("each name beside it is taken")))
    }

    /// Puts the new file in its place, if it is as it was found, or if there is none still.
    ///
    /// # Errors
    ///
    /// `Read`, where it is another one or has changed. `Write`. It is as it was then.
    pub fn replace(&self, rt: &HostRuntime, part: &Part<'_>) -> Result<(), ToolFault> {
        let (path, name) = (self.path.as_str(), part.name.as_str());
        if let Err(error) = part.file.sync_all() {
            return Err(part.faults.unwritten(name, error));
        }
        let is_put = match self.state {
            Some(state) if state_at(rt, path) == Some(state) => {
                match fs::rename(rt, name, path) {
                    Ok(()) => true,
                    Err(error) => return Err(part.faults.unwritten(path, error)),
                }
            }
            Some(_) => false,
            None => put_new(rt, name, path, part.faults)?,
        };
        if !is_put {
            let why = io::Error::other("it changed meanwhile");
            return Err(part.faults.unread(path, why));
        }
        sync_folder(rt, path);
        Ok(())
    }
}

impl Part<'_> {
    /// Takes the file away that was to be another one.
    pub fn take_away(&self, rt: &HostRuntime) {
        // What stays has a name that nothing else takes.
        let _ = fs::remove_file(rt, self.name.as_str());
    }
}

impl io::Write for Part<'_> {
    fn write(&mut self, bytes: &[u8]) -> io::Result<usize> {
        let written = self.file.write(bytes);
        if let Err(error) = &written {
            if error.kind() != ErrorKind::Interrupted {
                self.faults.unwritten(self.name.as_str(), *error);
            }
        }
        written
    }

    fn flush(&mut self) -> io::Result<()> {
        self.file.flush()
    }
}
