//! The file of an image.

ghost use Rattle.std.specs.Prelude.{◌≤◌, IfOk, length};

use crate::faults::Faults;
use crate::file_state::{FileState, is_named, state_at, state_of};
use crate::following::follow;
use crate::modes::Mode;
use crate::old_image::{bring_back, keep, would_be_lost};
use crate::opening::{sync_folder, told, told_size};
use crate::part_file::{lock_in_turn, make_in_turn, remove_in_turn};
use crate::twin::have_same_bytes;
use cord_tools::{ToolFault, may_replace, read_image};
use std::fs::File;
use std::io::{ErrorKind, Read, Seek, SeekFrom, Write};
use std::{fs, io};

/// The bytes with which an image begins.
const FRONT: u64 = 8;

/// An image for which there is no room where it is to stand gets one of so many names.
const OTHER_NAMES: u32 = 999;

/// So often an image that takes any other's place tries to lock that one.
const TRIES: usize = 20;

/// What an image takes the place of.
#[derive(Clone, Copy)]
enum Replaced {
    /// Of what is there when it is whole.
    Any,
    /// Of nothing: there was no file when the session began.
    Nothing,
    /// Of this file alone.
    This(FileState),
}

/// Why the file of an image was not made.
#[derive(Clone, Copy, PartialEq, Eq)]
enum Hindrance {
    /// Something else was found there.
    OtherImage,
    /// Another run was writing an image beside it.
    Busy,
}

/// Why it was not, as the error of the file beside the image tells.
fn hindrance_of(kind: ErrorKind) -> Option<Hindrance> {
    match kind {
        ErrorKind::AlreadyExists => Some(Hindrance::OtherImage),
        ErrorKind::WouldBlock => Some(Hindrance::Busy),
        _ => None,
    }
}

/// What became of an image.
#[derive(Drop)]
pub enum Put {
    /// None was written.
    None,
    /// It is in its place.
    InPlace,
    /// It is in its place, and what was there has this name.
    Over(String),
    /// It is in its place since an earlier run.
    Before,
    /// Something else is there, and stays. The image has this name.
    Beside(String),
}

/// The file of an image, which is made when its first byte is written: beside the one that
/// it is to replace, which is as it was until the image is whole. What is there and is no
/// regular file is written where it is, and so is one in a folder that takes no new file.
#[derive(Drop)]
pub struct ImageFile<'a> {
    rt: &'a HostRuntime,
    faults: &'a Faults,
    /// The file of the image.
    path: String,
    /// Where the image is written first, if not there.
    part: Option<String>,
    mode: Mode,
    replaced: Replaced,
    /// Whether it is not even begun where something else is there by then.
    gives_way: bool,
    /// Why it was not made, if a session may tell that.
    hindrance: Option<Hindrance>,
    /// Whether it is not written where it is to stand.
    never_in_place: bool,
    /// Whether what it takes the place of is kept by another name.
    keeps_old: bool,
    /// What it goes on from, where that is what it is to replace: it has all that was there.
    older: Option<FileState>,
    file: Option<File>,
}

/// Whether a regular file is empty or an image. One that is not
/// is refused, and one that cannot be read may not be replaced.
fn is_image(rt: &HostRuntime, path: &str) -> Result<bool, ToolFault> {
    let mut front = Vec::new(rt.alloc());
    let read = match fs::open(rt, path) {
        Ok(file) => file.take(FRONT).read_to_end(&mut front).map_err(told),
        // Another run has taken it away meanwhile.
        Err(error) if error.kind() == ErrorKind::NotFound => return Ok(true),
        Err(error) => Err(told(error)),
    };
    match read {
        Ok(_) => {
            may_replace(&front)?;
            Ok(true)
        }
        Err(ToolFault::Memory) => Err(ToolFault::Memory),
        Err(_) => Ok(false),
    }
}

/// Whether an image may take the place of what is at this path: of nothing, of an empty file, or of an image.
fn is_replaceable(rt: &HostRuntime, path: &str, faults: &Faults) -> Result<bool, ToolFault> {
    match fs::metadata(rt, path) {
        Ok(metadata) if metadata.is_file() => is_image(rt, path),
        Ok(metadata) if metadata.is_dir() => {
            Err(faults.unwritten(path, io::Error::from(ErrorKind::IsADirectory)))
        }
        Ok(_) => Ok(false),
        Err(error) => match error.kind() {
            ErrorKind::NotFound => Ok(true),
            ErrorKind::OutOfMemory => Err(ToolFault::Memory),
            _ => Ok(false),
        },
    }
}

/// A text, if memory has room for it.
fn text(rt: &HostRuntime, parts: &[&str]) -> Result<String, ToolFault> {
    let mut text = String::new(rt.alloc());
    for part in parts {
        text.push_str(part).map_err(|_| ToolFault::Memory)?;
    }
    Ok(text)
}

/// Gives the file `part` a new name, which no other file has. Answers whether none had it.
pub fn put_new(
    rt: &HostRuntime,
    part: &str,
    path: &str,
    faults: &Faults,
) -> Result<bool, ToolFault> {
    match fs::hard_link(rt, part, path) {
        Ok(()) => {
            // What stays is the image itself, which no session writes to.
            let _ = fs::remove_file(rt, part);
            Ok(true)
        }
        Err(error) if error.kind() == ErrorKind::AlreadyExists => Ok(false),
        Err(_) if state_at(rt, path).is_some() => Ok(false),
        Err(_) => {
            // The device has no links.
            rename(rt, part, path, faults)?;
            Ok(true)
        }
    }
}

/// Gives the file `part` another one's name.
fn rename(rt: &HostRuntime, part: &str, path: &str, faults: &Faults) -> Result<(), ToolFault> {
    match fs::rename(rt, part, path) {
        Ok(()) => Ok(()),
        Err(error) => Err(faults.unwritten(path, error)),
    }
}

/// Whether a file is still as it was, but for another name that it may have got.
fn is_still(rt: &HostRuntime, path: &str, state: FileState, may_be_linked: bool) -> bool {
    match state_at(rt, path) {
        Some(now) => now == state || (may_be_linked && now.has_bytes_of(state)),
        None => false,
    }
}

/// What is to be replaced, and a lock on it, where it can be opened.
#[derive(Drop)]
struct Locked {
    file: Option<File>,
}

/// A lock on a file that is still as it was. Sessions that save to one name at once
/// hold it on what is there: one of them finds what the other has put there.
fn lock(rt: &HostRuntime, path: &str, state: FileState, may_be_linked: bool) -> Option<Locked> {
    if !is_still(rt, path, state, may_be_linked) {
        return None;
    }
    let file = fs::open(rt, path).ok();
    if let Some(there) = &file {
        if !lock_in_turn(rt, there) {
            return None;
        }
    }
    if !is_still(rt, path, state, may_be_linked) {
        return None;
    }
    Some(Locked { file })
}

impl<'a> ImageFile<'a> {
    /// The file of this name. It is looked at, and not changed.
    pub fn new(
        rt: &'a HostRuntime,
        path: &str,
        faults: &'a Faults,
    ) -> Result<ImageFile<'a>, ToolFault> {
        let mut image = ImageFile {
            rt,
            faults,
            path: text(rt, &[path])?,
            part: None,
            mode: Mode::New,
            replaced: Replaced::Any,
            gives_way: false,
            hindrance: None,
            never_in_place: false,
            keeps_old: false,
            older: None,
            file: None,
        };
        if !is_replaceable(rt, path, faults)? {
            return Ok(image);
        }
        if let Ok(metadata) = fs::metadata(rt, path) {
            // The file that a link leads to is replaced, and not the link.
            let whole = match fs::canonicalize(rt, path) {
                Ok(whole) => whole,
                Err(error) => return Err(faults.unread(path, error)),
            };
            image.path = text(rt, &[whole.as_str()])?;
            image.mode = Mode::of_replaced(&metadata);
        }
        let part = text(rt, &[image.path.as_str(), ".new"])?;
        if is_replaceable(rt, part.as_str(), faults)? {
            image.part = Some(part);
        } else if fs::metadata(rt, part.as_str()).is_ok() {
            // What stands there is no image that can be read. It stays, so no image can be written beside the old one.
            let why = io::Error::other("what is there cannot be read and stays");
            return Err(faults.unwritten(part.as_str(), why));
        }
        Ok(image)
    }

    /// Where it is to stand.
    pub fn path(&self) -> &str {
        self.path.as_str()
    }

    /// Whether there is a file that is not empty.
    pub fn is_there(&self) -> bool {
        match fs::metadata(self.rt, self.path.as_str()) {
            Ok(metadata) => metadata.len() > 0,
            Err(_) => false,
        }
    }

    /// Whether an open file is the one of the image, or the one in which the image is written first.
    pub fn has(&self, file: &File) -> bool {
        let is_part = match &self.part {
            Some(part) => is_named(self.rt, part.as_str(), file),
            None => false,
        };
        is_part || is_named(self.rt, self.path.as_str(), file)
    }

    /// What is there. A second name of it is taken away first, where one
    /// stands beside it as a crash leaves it behind the first image of a name.
    pub fn look(&self) -> Option<FileState> {
        let state = state_at(self.rt, self.path.as_str())?;
        let Some(part) = &self.part else {
            return Some(state);
        };
        if state_at(self.rt, part.as_str()) != Some(state) {
            return Some(state);
        }
        // What stays is the image itself, which no session writes to.
        remove_in_turn(self.rt, part.as_str());
        state_at(self.rt, self.path.as_str())
    }

    /// Where there is no file whose place it takes, it has the text of this one, and is open to nobody to whom this one is not.
    pub fn has_text_of(&mut self, path: &str) {
        self.mode = self.mode.with_text_of(self.rt, path);
    }

    /// It begins a history with the text of this file: it is open to nobody to whom this one is not, whatever it replaces.
    pub fn begins_with(&mut self, path: &str) {
        self.mode = self.mode.narrowed_by(self.rt, path);
    }

    /// From now on it is not even begun where something else is there by then.
    pub fn give_way(&mut self) {
        self.gives_way = true;
    }

    /// From now on it takes the place of this alone, which was there when the session began.
    pub fn replace_only(&mut self, begun: Option<FileState>) {
        self.replaced = match begun {
            Some(state) => Replaced::This(state),
            None => Replaced::Nothing,
        };
    }

    /// The same, of a file that still has the bytes that it had. Its mode may be another one, and a second name of it, which a
    /// call that failed has left, is taken away first.
    pub fn replace_still(&mut self, begun: Option<FileState>) {
        let is_still = match (state_at(self.rt, self.path.as_str()), begun) {
            (Some(now), Some(then)) => now.has_bytes_of(then),
            _ => false,
        };
        let begun = if is_still { self.look() } else { begun };
        self.replace_only(begun);
    }

    /// From now on what it takes the place of is kept by another name, where it would be lost.
    pub fn keep_old(&mut self) {
        self.keeps_old = true;
    }

    /// Whether it is to take the place of a file that has the bytes that it had in this state.
    pub fn replaces(&self, state: FileState) -> bool {
        match self.replaced {
            Replaced::This(there) => there.has_bytes_of(state),
            _ => false,
        }
    }

    /// Whether an image was written, and is to take the place of what stands there and may be replaced.
    pub fn takes_place(&self) -> bool {
        self.file.is_some() && self.is_as_begun()
    }

    /// Where this file is the one that is to be replaced, it is so by a file beside
    /// it alone: what is written where it stands would be lost where that fails.
    pub fn keep_whole(&mut self, older: &File) -> Result<(), ToolFault> {
        if self.part.is_none() && is_named(self.rt, self.path.as_str(), older) {
            let why = io::Error::other("no file can be made beside it to take its place");
            return Err(self.unwritten(why));
        }
        self.never_in_place = is_named(self.rt, self.path.as_str(), older);
        if self.never_in_place {
            self.older = state_of(older);
        }
        Ok(())
    }

    /// Whether what is there may be replaced.
    pub fn is_as_begun(&self) -> bool {
        let path = self.path.as_str();
        match self.replaced {
            Replaced::Any => true,
            Replaced::Nothing => state_at(self.rt, path).is_none(),
            Replaced::This(state) => is_still(self.rt, path, state, self.may_be_linked()),
        }
    }

    /// Makes the file beside the one that it is to replace. One that gives
    /// way is taken away again where something else is there by now.
    fn make_part(&self, part: &str) -> io::Result<File> {
        let file = make_in_turn(self.rt, part, self.mode)?;
        if self.gives_way && !self.is_as_begun() {
            // What stays is replaced by the next image.
            let _ = fs::remove_file(self.rt, part);
            return Err(io::Error::from(ErrorKind::AlreadyExists));
        }
        Ok(file)
    }

    /// Makes the file.
    fn make(&mut self) -> io::Result<File> {
        if let Some(part) = &self.part {
            match self.make_part(part.as_str()) {
                Err(error) if error.kind() == ErrorKind::PermissionDenied && !self.never_in_place =>
                    {
                        self.part = None;
                    }
                Err(error) => {
                    self.hindrance = hindrance_of(error.kind());
                    return Err(error);
                }
                made => return made,
            }
        }
        if !self.is_as_begun() {
            self.hindrance = Some(Hindrance::OtherImage);
            return Err(io::Error::from(ErrorKind::AlreadyExists));
        }
        if self.keeps_old && self.is_there() {
            // It can have no other name.
            return Err(io::Error::from(ErrorKind::PermissionDenied));
        }
        match self.replaced {
            Replaced::Nothing => File::create_new(self.rt, self.path.as_str()),
            _ => File::create(self.rt, self.path.as_str()),
        }
    }

    /// Whether another run writes an image that is to stand here.
    pub fn is_busy(&self) -> bool {
        self.hindrance == Some(Hindrance::Busy)
    }

    /// It could not be written.
    fn unwritten(&self, why: io::Error) -> ToolFault {
        self.faults.unwritten(self.path.as_str(), why)
    }

    /// Why no image was written.
    pub fn cause(&self, fault: ToolFault) -> ToolFault {
        match self.hindrance {
            Some(Hindrance::OtherImage) => ToolFault::OtherImage,
            Some(Hindrance::Busy) | None => fault,
        }
    }

    /// Whether what is there is to be kept, and would be lost where this file takes its place.
    fn would_lose(&self, part: &str) -> bool {
        let path = self.path.as_str();
        let goes_on = self.older.is_some() && state_at(self.rt, path) == self.older;
        self.keeps_old && !goes_on && would_be_lost(self.rt, part, path)
    }

    /// Whether what is there may have got another name, by a run that ended before it put its image in its place.
    fn may_be_linked(&self) -> bool {
        self.keeps_old && self.older.is_none()
    }

    /// Puts an image that is whole over what is there, which is kept where it would be lost.
    fn replace(&self, part: &str) -> Result<Put, ToolFault> {
        let path = self.path.as_str();
        if !self.would_lose(part) {
            rename(self.rt, part, path, self.faults)?;
            return Ok(Put::InPlace);
        }
        let name = keep(self.rt, path, self.faults)?;
        if let Err(fault) = rename(self.rt, part, path, self.faults) {
            bring_back(self.rt, path, name.as_str());
            return Err(fault);
        }
        // Where there is no memory for it, what stands beside the image is replaced.
        let _ = follow(self.rt, path, name.as_str());
        Ok(Put::Over(name))
    }

    /// Puts an image that is whole over a file, if that is still as it was.
    fn put_over(&self, part: &str, state: FileState) -> Result<Put, ToolFault> {
        match lock(self.rt, self.path.as_str(), state, self.may_be_linked()) {
            Some(_locked) => self.replace(part),
            None => Ok(Put::None),
        }
    }

    /// Puts an image that is whole over whatever is there, with a lock on that where it can be had.
    fn put_over_any(&self, part: &str) -> Result<Put, ToolFault> {
        for _ in 0..TRIES {
            let put = match state_at(self.rt, self.path.as_str()) {
                Some(state) => self.put_over(part, state)?,
                None => self.put_first(part)?,
            };
            match put {
                Put::None => {}
                put => return Ok(put),
            }
        }
        self.replace(part)
    }

    /// Puts an image that is whole where nothing is.
    fn put_first(&self, part: &str) -> Result<Put, ToolFault> {
        if put_new(self.rt, part, self.path.as_str(), self.faults)? {
            Ok(Put::InPlace)
        } else {
            Ok(Put::None)
        }
    }

    /// The state of the file that was written.
    pub fn state(&self) -> Option<FileState> {
        state_of(self.file.as_ref()?)
    }

    /// What was written, read from the file that it was written to, whatever has its name by now.
    pub fn read_back(&self) -> Result<Vec<u8>, ToolFault> {
        let Some(written) = &self.file else {
            return Err(ToolFault::Read);
        };
        let expected = told_size(written);
        let mut file = written;
        match file.seek(SeekFrom::Start(0)) {
            Ok(_) => read_image(self.rt.alloc(), file, expected),
            Err(error) => Err(self.faults.unread(self.path.as_str(), error)),
        }
    }

    /// Puts an image that is whole where it is to stand, if nothing else is there.
    fn put_part(&self, part: &str) -> Result<Put, ToolFault> {
        match self.replaced {
            Replaced::Any => self.put_over_any(part),
            Replaced::Nothing => self.put_first(part),
            Replaced::This(state) => self.put_over(part, state),
        }
    }

    /// Puts an image that is whole over one with the same bytes: an earlier run saved it, and
    /// ended before its keys were taken away.
    fn put_over_twin(&self, part: &str) -> Result<Put, ToolFault> {
        let path = self.path.as_str();
        let is_file = match fs::symlink_metadata(self.rt, path) {
            Ok(metadata) => metadata.is_file(),
            Err(_) => false,
        };
        match state_at(self.rt, path) {
            Some(state) if is_file && have_same_bytes(self.rt, part, path) => {
                self.put_over(part, state)
            }
            _ => Ok(Put::None),
        }
    }

    /// Puts an image that is whole under a name that is free.
    fn put_beside(&self, part: &str) -> Result<String, ToolFault> {
        let path = self.path.as_str();
        for n in 1..=OTHER_NAMES {
            let name = format!(in self.rt.alloc(); "{path}.saved-{n}")?;
            if put_new(self.rt, part, name.as_str(), self.faults)? {
                return Ok(name);
            }
        }
        Err(self.unwritten(io::Error::other("each of its other names is taken")))
    }

    /// Whether what is there is a regular file. Nothing else need take a sync.
    fn is_regular(&self) -> bool {
        match fs::metadata(self.rt, self.path.as_str()) {
            Ok(metadata) => metadata.is_file(),
            Err(_) => true,
        }
    }

    /// The file of an image that is whole, synced, where it does not stand in its place already.
    fn synced(&self) -> Result<Option<&String>, ToolFault> {
        let Some(file) = &self.file else {
            return Ok(None);
        };
        let synced = file.sync_all();
        let is_synced = synced.is_ok();
        match &self.part {
            Some(part) if is_synced && is_named(self.rt, part.as_str(), file) => Ok(Some(part)),
            None if is_synced || !self.is_regular() => Ok(None),
            _ => Err(self.unwritten(match synced {
                Ok(()) => io::Error::other("it was taken away meanwhile"),
                Err(error) => error,
            })),
        }
    }

    /// Puts an image that is whole in its place, and nowhere else: where something else is there, it is refused.
    pub fn put_here(&self) -> Result<(), ToolFault> {
        if let Some(part) = self.synced()? {
            if let Put::None = self.put_part(part.as_str())? {
                return Err(ToolFault::OtherImage);
            }
            sync_folder(self.rt, self.path.as_str());
        }
        Ok(())
    }

    /// Puts an image that is whole in its place, or else under another name.
    fn put_somewhere(&self, part: &str) -> Result<Put, ToolFault> {
        let put = match self.put_part(part)? {
            Put::None => self.put_over_twin(part)?,
            put => put,
        };
        match put {
            Put::None => Ok(Put::Beside(self.put_beside(part)?)),
            put => Ok(put),
        }
    }

    /// Puts an image that is whole in its place.
    pub fn put(&self) -> Result<Put, ToolFault> {
        if self.file.is_none() {
            return Ok(Put::None);
        }
        let Some(part) = self.synced()? else {
            return Ok(Put::InPlace);
        };
        let put = self.put_somewhere(part.as_str())?;
        // The new name stands before the keys go.
        sync_folder(self.rt, self.path.as_str());
        Ok(put)
    }

    /// Takes the part of an image away that is not whole.
    pub fn drop_part(&self) {
        if let (Some(file), Some(part)) = (&self.file, &self.part) {
            if is_named(self.rt, part.as_str(), file) {
                // What stays is replaced by the next image.
                let _ = fs::remove_file(self.rt, part.as_str());
            }
        }
    }
}

impl ImageFile<'_> {
    /// Writes some of the bytes, to a file that is made for the first of them.
    fn write_some(&mut self, bytes: &[u8]) -> io::Result<usize>
        ensures bound { IfOk result (λ n. n ≤ length bytes.now) }
    {
        if self.file.is_none() {
            self.file = Some(self.make()?);
        }
        match &mut self.file {
            Some(file) => file.write(bytes),
            None => Ok(0),
        }
    }
}

impl io::Write for ImageFile<'_> {
    fn write(&mut self, bytes: &[u8]) -> io::Result<usize> {
        let written = self.write_some(bytes);
        if let Err(error) = &written {
            if error.kind() != ErrorKind::Interrupted {
                self.unwritten(*error);
            }
        }
        written
    }

    fn flush(&mut self) -> io::Result<()> {
        Ok(())
    }
}
