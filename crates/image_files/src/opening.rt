//! Files and their folders.

use cord_tools::ToolFault;
use std::fs::{self, File};
use std::io::{self, ErrorKind};
use std::path::Path;

/// How an error of an input is told.
pub fn told(error: io::Error) -> ToolFault {
    if error.kind() == ErrorKind::OutOfMemory {
        ToolFault::Memory
    } else {
        ToolFault::Read
    }
}

/// Opens an input.
pub fn open(rt: &HostRuntime, path: &str) -> Result<File, ToolFault> {
    fs::open(rt, path).map_err(told)
}

/// So many bytes a file tells that it has. A pipe tells none, nor does a file that the system makes as it is read.
pub fn told_size(file: &File) -> u64 {
    match file.metadata() {
        Ok(metadata) if metadata.is_file() => metadata.len(),
        _ => 0,
    }
}

/// Syncs the folder of a file, whose name stands then. What cannot be synced stands as long as the system does.
pub fn sync_folder(rt: &HostRuntime, path: &str) {
    if let Some(folder) = Path::new(path).parent() {
        let name = if folder.as_str().is_empty() {
            "."
        } else {
            folder.as_str()
        };
        if let Ok(folder) = File::open(rt, name) {
            let _ = folder.sync_all();
        }
    }
}
