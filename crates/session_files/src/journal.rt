//! The journal of a session that is not saved: its keys, or its lines.

use crate::journal_front::{FRONT_OF_KEYS, Front, Standing};
use crate::session_file::Beginning;
use crate::synced_file::SyncedFile;
use cord_tools::{Status, ToolFault, only_look};
use image_files::{Faults, FileBirth, OF_KEYS, birth_of, is_named, pause, sync_folder};
use key_journal::header_over;
use lazy_file::Sources;
use line_server::split_whole;
use std::fs::File;
use std::io::{ErrorKind, Read, Write};
use std::os::unix::fs::OpenOptionsExt;
use std::{fs, io};

/// A lock on a journal that is begun anew is tried so many times.
const TRIES: usize = 400;

/// The file of the keys or the lines of a session that is not saved. It has its front, and is locked.
#[derive(Drop)]
pub struct Journal<'a> {
    rt: &'a HostRuntime,
    faults: &'a Faults,
    path: &'a str,
    /// Its name while it is set aside: nothing wants memory then.
    aside: String,
    file: File,
    /// So many bytes has its front.
    front: usize,
    /// What it had when it was opened.
    bytes: Vec<u8>,
}

/// Where frames and answers go. A file that takes them takes no keys and no lines.
const STANDARD_OUTPUT: &str = "/dev/stdout";

/// Whether a file is a device, a pipe or a folder, in which nothing is kept.
fn is_no_regular(file: &File) -> bool {
    match file.metadata() {
        Ok(metadata) => !metadata.is_file(),
        Err(_) => false,
    }
}

/// Locks a journal that was opened. A session that ended
/// meanwhile may have taken it away, so that another one has its name.
fn lock(rt: &HostRuntime, path: &str, file: &File, faults: &Faults) -> Result<(), ToolFault> {
    if is_no_regular(file) {
        return Err(ToolFault::OtherKeys);
    }
    if is_named(rt, STANDARD_OUTPUT, file) {
        let why = io::Error::other("it is where standard output goes");
        return Err(faults.unwritten(path, why));
    }
    if file.try_lock().is_ok() && is_named(rt, path, file) {
        Ok(())
    } else {
        Err(ToolFault::KeysInUse)
    }
}

/// Opens the file, or makes it, and locks it.
fn open_locked(rt: &HostRuntime, path: &str, faults: &Faults) -> Result<File, ToolFault> {
    let mut options = File::options();
    options.read(true).append(true).create(true);
    options.mode(OF_KEYS);
    let file = match options.open(rt, path) {
        Ok(file) => file,
        Err(error) => return Err(faults.unwritten(path, error)),
    };
    lock(rt, path, &file, faults)?;
    Ok(file)
}

/// Opens the file that a session had which goes on, and locks it.
fn reopen_locked(
    rt: &HostRuntime,
    path: &str,
    keys: FileBirth,
    faults: &Faults,
) -> Result<File, ToolFault> {
    let mut options = File::options();
    options.read(true).append(true);
    let file = match options.open(rt, path) {
        Ok(file) => file,
        Err(error) if error.kind() == ErrorKind::NotFound => return Err(ToolFault::KeysGone),
        Err(error) => return Err(faults.unwritten(path, error)),
    };
    if birth_of(&file) != Some(keys) {
        return Err(ToolFault::KeysGone);
    }
    lock(rt, path, &file, faults)?;
    Ok(file)
}

/// Takes a file of keys away that no session has.
///
/// # Errors
///
/// `KeysGone`, where there is none, `OtherKeys`, where it is no file of keys,
/// and `KeysInUse`, where a session has it. `Read`, `Write` and `Memory`.
pub fn discard(rt: &HostRuntime, path: &str, faults: &Faults) -> Result<Status, ToolFault> {
    let file = match fs::open(rt, path) {
        Ok(file) => file,
        Err(error) if error.kind() == ErrorKind::NotFound => return Err(ToolFault::KeysGone),
        Err(error) => return Err(faults.unread(path, error)),
    };
    lock(rt, path, &file, faults)?;
    let mut front = Vec::new(rt.alloc());
    if let Err(error) = file
        .take(FRONT_OF_KEYS.len() as u64)
        .read_to_end(&mut front)
    {
        return Err(faults.unread(path, error));
    }
    if front.as_slice() != FRONT_OF_KEYS {
        return Err(ToolFault::OtherKeys);
    }
    match fs::remove_file(rt, path) {
        Ok(()) => Ok(Status::Success),
        Err(error) => Err(faults.unwritten(path, error)),
    }
}

/// What a file has from its beginning on.
fn all_of(
    rt: &HostRuntime,
    path: &str,
    file: &File,
    faults: &Faults,
) -> Result<Vec<u8>, ToolFault> {
    let mut reader = file;
    let mut bytes = Vec::new(rt.alloc());
    match reader.read_to_end(&mut bytes) {
        // The bytes tell how many they are.
        Ok(_) => Ok(bytes),
        Err(error) => Err(faults.unread(path, error)),
    }
}

/// The name of a journal that is set aside while the image of its session takes its place.
fn aside_name(rt: &HostRuntime, path: &str) -> Result<String, ToolFault> {
    Ok(format!(in rt.alloc(); "{path}.saved")?)
}

/// The journal that was set aside at a save, and stays where that did not end. It is locked.
fn aside_locked(rt: &HostRuntime, path: &str, faults: &Faults) -> Result<Option<File>, ToolFault> {
    let name = aside_name(rt, path)?;
    let mut options = File::options();
    options.read(true).append(true);
    match options.open(rt, name.as_str()) {
        Ok(file) => {
            lock(rt, name.as_str(), &file, faults)?;
            Ok(Some(file))
        }
        Err(error) if error.kind() == ErrorKind::NotFound => Ok(None),
        Err(error) => Err(faults.unwritten(name.as_str(), error)),
    }
}

/// The journal of a session over an image, which is locked before the image is opened; and the one that was set
/// aside, if there is one. A session that goes on has that one alone, where its Save did not end.
#[derive(Drop)]
pub struct LockedJournal {
    file: Option<File>,
    aside: Option<File>,
}

impl LockedJournal {
    /// Opens the file, or makes it, and locks it. A session that goes on had this file.
    pub fn open(
        rt: &HostRuntime,
        path: &str,
        had: Option<FileBirth>,
        faults: &Faults,
    ) -> Result<LockedJournal, ToolFault> {
        let file = match had {
            Some(keys) => match reopen_locked(rt, path, keys, faults) {
                Err(ToolFault::KeysGone) => return LockedJournal::of_save(rt, path, keys, faults),
                file => file?,
            },
            None => open_locked(rt, path, faults)?,
        };
        let mut locked = LockedJournal {
            file: Some(file),
            aside: None,
        };
        match locked.find_aside(rt, path, faults) {
            Ok(()) => Ok(locked),
            Err(fault) => {
                locked.drop_empty(rt, path);
                Err(fault)
            }
        }
    }

    /// Locks the file that was set aside. A session that could not save may have given
    /// it its name back meanwhile, so that the file that was made here has none.
    fn find_aside(
        &mut self,
        rt: &HostRuntime,
        path: &str,
        faults: &Faults,
    ) -> Result<(), ToolFault> {
        self.aside = aside_locked(rt, path, faults)?;
        match &self.file {
            Some(file) if is_named(rt, path, file) => Ok(()),
            _ => Err(ToolFault::KeysInUse),
        }
    }

    /// The file that a session had which goes on, and that its Save set aside.
    fn of_save(
        rt: &HostRuntime,
        path: &str,
        keys: FileBirth,
        faults: &Faults,
    ) -> Result<LockedJournal, ToolFault> {
        match aside_locked(rt, path, faults)? {
            Some(file) if birth_of(&file) == Some(keys) => Ok(LockedJournal {
                file: None,
                aside: Some(file),
            }),
            _ => Err(ToolFault::KeysGone),
        }
    }

    /// Takes the file away where it is empty, as one is that was made just now.
    pub fn drop_empty(&self, rt: &HostRuntime, path: &str) {
        let Some(file) = &self.file else {
            return;
        };
        let is_empty = match file.metadata() {
            Ok(metadata) => metadata.len() == 0,
            Err(_) => false,
        };
        if is_empty && is_named(rt, path, file) {
            // One that stays has no key.
            let _ = fs::remove_file(rt, path);
        }
    }
}

impl<'a> Journal<'a> {
    /// Opens the file, or makes it, for a session over these sources. A session that goes on had this file.
    pub fn open<S: Sources>(
        rt: &'a HostRuntime,
        path: &'a str,
        had: Option<FileBirth>,
        sources: &mut S,
        faults: &'a Faults,
    ) -> Result<Journal<'a>, ToolFault> {
        let front = Front::of_keys(rt.alloc(), &header_over(sources)?)?;
        let file = match had {
            Some(keys) => reopen_locked(rt, path, keys, faults)?,
            None => open_locked(rt, path, faults)?,
        };
        let bytes = all_of(rt, path, &file, faults)?;
        Journal::begun(rt, path, file, bytes, &front, faults)
    }

    /// The file that is locked, for a session that goes on from an image, with this front. The one that was set aside
    /// gets its name back, where it was begun over this image and the file keeps nothing: the save behind it did not
    /// end. Where a session that goes on has that one alone, and it was begun over another image, its Save did end: it
    /// begins anew. Lines that were set aside over another image are in this one, and go; but for those of a save whose
    /// image still has its first name, `part`: they are in none that stands in its place.
    pub fn onto(
        rt: &'a HostRuntime,
        path: &'a str,
        locked: LockedJournal,
        front: &Front,
        part: Option<&str>,
        faults: &'a Faults,
    ) -> Result<Journal<'a>, ToolFault> {
        let LockedJournal { file, aside } = locked;
        let bytes = match &file {
            Some(file) => all_of(rt, path, file, faults)?,
            None => Vec::new(rt.alloc()),
        };
        let mut is_saved = false;
        if let Some(aside) = aside {
            let name = aside_name(rt, path)?;
            let kept = all_of(rt, name.as_str(), &aside, faults)?;
            if front.keeps_nothing(&bytes) && front.standing(&kept) == Standing::Kept {
                if let Err(error) = fs::rename(rt, name.as_str(), path) {
                    return Err(faults.unwritten(path, error));
                }
                sync_folder(rt, path);
                return Journal::begun(rt, path, aside, kept, front, faults);
            }
            is_saved = front.is_of_older_lines(&kept);
            if is_saved && part.is_some_and(|part| fs::metadata(rt, part).is_ok()) {
                return Err(ToolFault::OtherKeys);
            }
        }
        let journal = match file {
            Some(file) => Journal::begun(rt, path, file, bytes, front, faults)?,
            None => Journal::anew(rt, path, front, faults)?,
        };
        if is_saved {
            journal.drop_aside();
        }
        Ok(journal)
    }

    /// The file, which is opened or made, and locked, with this front.
    fn anew(
        rt: &'a HostRuntime,
        path: &'a str,
        front: &Front,
        faults: &'a Faults,
    ) -> Result<Journal<'a>, ToolFault> {
        let file = open_locked(rt, path, faults)?;
        let bytes = all_of(rt, path, &file, faults)?;
        Journal::begun(rt, path, file, bytes, front, faults)
    }

    /// The same, once no other run has it locked: one that looks at it has it for a moment.
    pub fn anew_in_turn(
        rt: &'a HostRuntime,
        path: &'a str,
        front: &Front,
        faults: &'a Faults,
    ) -> Result<Journal<'a>, ToolFault> {
        for _ in 0..TRIES {
            match Journal::anew(rt, path, front, faults) {
                Err(ToolFault::KeysInUse) => pause(rt),
                journal => return journal,
            }
        }
        Err(ToolFault::KeysInUse)
    }

    /// The file that is locked and has these bytes. A front that is torn is written to its end, and the front of a
    /// session over another text, of which nothing is kept, is written anew.
    fn begun(
        rt: &'a HostRuntime,
        path: &'a str,
        file: File,
        bytes: Vec<u8>,
        front: &Front,
        faults: &'a Faults,
    ) -> Result<Journal<'a>, ToolFault> {
        let mut file = file;
        let aside = aside_name(rt, path)?;
        let there = match front.standing(&bytes) {
            Standing::Kept => front.len(),
            Standing::Torn => bytes.len(),
            Standing::Other if front.keeps_nothing(&bytes) => {
                if let Err(error) = file.set_len(0) {
                    return Err(faults.unwritten(path, error));
                }
                0
            }
            Standing::Other => return Err(ToolFault::OtherKeys),
        };
        if there < front.len() {
            if let Err(error) = file.write_all(front.behind(there)) {
                // Nothing is kept in it.
                let _ = fs::remove_file(rt, path);
                return Err(faults.unwritten(path, error));
            }
            sync_folder(rt, path);
        }
        Ok(Journal {
            rt,
            faults,
            path,
            aside,
            file,
            front: front.len(),
            bytes,
        })
    }

    /// What its session began with, where that had this file: else it begins anew.
    pub fn begun_with(&self, begun: Option<Beginning>) -> Option<Beginning> {
        match begun {
            Some(beginning) if birth_of(&self.file) == Some(beginning.keys) => Some(beginning),
            _ => None,
        }
    }

    /// Which file it is.
    pub fn birth(&self) -> Result<FileBirth, ToolFault> {
        birth_of(&self.file).ok_or(ToolFault::Read)
    }

    /// The keys that it had when it was opened.
    pub fn keys(&self) -> &[u8] {
        self.bytes.get(self.front..).unwrap_or(&[])
    }

    /// The script that it was when it was opened, without a last line that has no end.
    pub fn script(&self) -> &[u8] {
        split_whole(&self.bytes).0
    }

    /// Cuts off a last line without an end, which a write that was cut short has left.
    pub fn cut(&self) -> Result<(), ToolFault> {
        let whole = self.script().len();
        if whole < self.front || whole == self.bytes.len() {
            return Ok(());
        }
        match self.file.set_len(whole as u64) {
            Ok(()) => Ok(()),
            Err(error) => Err(self.faults.unwritten(self.path, error)),
        }
    }

    /// Gives back the memory of what it had when it was opened.
    pub fn forget(&mut self) {
        self.bytes = Vec::new(self.rt.alloc());
    }

    /// Whether something is kept in it. One that does not tell how long it is may have something.
    pub fn keeps_any(&self) -> bool {
        match self.file.metadata() {
            Ok(metadata) => metadata.len() > self.front as u64,
            Err(_) => true,
        }
    }

    /// Whether its name leads to it.
    pub fn is_named(&self) -> bool {
        is_named(self.rt, self.path, &self.file)
    }

    /// Where its keys or its lines are written.
    pub fn synced(&self) -> SyncedFile<'_> {
        SyncedFile::new(self.rt, self.path, &self.file, self.faults)
    }

    /// Sets it aside, and syncs its folder: the image of its session is to take the place of the one that it was begun
    /// over. A file that was set aside before is replaced.
    pub fn set_aside(&self) -> Result<(), ToolFault> {
        if !self.is_named() {
            return Err(ToolFault::KeysGone);
        }
        match fs::rename(self.rt, self.path, self.aside.as_str()) {
            Ok(()) => {
                sync_folder(self.rt, self.path);
                Ok(())
            }
            Err(error) => Err(self.faults.unwritten(self.aside.as_str(), error)),
        }
    }

    /// Gives it its name back, where the image is not in its place. What
    /// stays aside is found by the next session over the older image.
    pub fn bring_back(&self) {
        let _ = fs::rename(self.rt, self.aside.as_str(), self.path);
        sync_folder(self.rt, self.path);
    }

    /// Takes it away behind its Save, for which it was set aside.
    pub fn remove_saved(&self) -> Result<(), ToolFault> {
        if self.is_named() {
            return self.remove();
        }
        self.remove_name(self.aside.as_str())
    }

    /// Takes away what was set aside, where it is still there. What stays is dropped by the next session.
    pub fn drop_aside(&self) {
        let _ = fs::remove_file(self.rt, self.aside.as_str());
    }

    /// Takes away what has one of its names.
    fn remove_name(&self, name: &str) -> Result<(), ToolFault> {
        match fs::remove_file(self.rt, name) {
            Ok(()) => Ok(()),
            Err(error) => Err(self.faults.unwritten(name, error)),
        }
    }

    /// Whether its keys make no revision, if there are any. One that cannot be read may have some that do.
    pub fn only_looks(&self) -> bool {
        match fs::read(self.rt, self.path) {
            Ok(bytes) => only_look(bytes.get(self.front..).unwrap_or(&[])),
            Err(_) => false,
        }
    }

    /// Syncs it, where it stays. What cannot be synced is kept as long as the system stands.
    pub fn sync(&self) {
        let _ = self.file.sync_data();
    }

    /// Syncs it, and tells where it cannot be.
    pub fn sync_told(&self) -> Result<(), ToolFault> {
        match self.file.sync_data() {
            Ok(()) => Ok(()),
            Err(error) => Err(self.faults.unwritten(self.path, error)),
        }
    }

    /// Leaves it behind a run: it is synced, and goes where nothing is kept in it. Answers whether nothing is.
    pub fn close(&self) -> bool {
        self.sync();
        if self.keeps_any() {
            return false;
        }
        if self.is_named() {
            // What stays keeps nothing.
            let _ = fs::remove_file(self.rt, self.path);
        }
        true
    }

    /// Takes it away.
    pub fn remove(&self) -> Result<(), ToolFault> {
        self.remove_name(self.path)
    }
}
