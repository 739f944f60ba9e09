//! A file that is synced as it is written.

use image_files::Faults;
use std::fs::File;
use std::io::{self, ErrorKind, Write};
use std::time::{Duration, Instant};

/// What is written is synced where the last sync is over for so many times
/// as long as it took, and for so many milliseconds at most.
const REST_FACTOR: u32 = 16;

const LONGEST_REST_MILLISECONDS: u64 = 1000;

/// A file that is synced as keys or lines come: each one, where they
/// come no faster than the device syncs them with rests between.
#[derive(Drop)]
pub struct SyncedFile<'a> {
    rt: &'a HostRuntime,
    path: &'a str,
    file: &'a File,
    faults: &'a Faults,
    /// When it was last synced, and how long it rests from then on.
    synced: Option<Instant>,
    rest: Duration,
}

impl<'a> SyncedFile<'a> {
    /// A file that was not synced yet.
    pub fn new(
        rt: &'a HostRuntime,
        path: &'a str,
        file: &'a File,
        faults: &'a Faults,
    ) -> SyncedFile<'a> {
        SyncedFile {
            rt,
            path,
            file,
            faults,
            synced: None,
            rest: Duration::from_millis(LONGEST_REST_MILLISECONDS),
        }
    }

    /// Whether it rests. Without a clock it does not.
    fn rests(&self) -> bool {
        match &self.synced {
            Some(synced) => match synced.elapsed(self.rt) {
                Ok(elapsed) => elapsed < self.rest,
                Err(_) => false,
            },
            None => false,
        }
    }

    /// Syncs it. What cannot be synced is kept as long as the system stands.
    fn sync(&mut self) {
        let begun = Instant::now(self.rt).ok();
        let _ = self.file.sync_data();
        self.synced = Instant::now(self.rt).ok();
        if let (Some(begun), Some(synced)) = (&begun, &self.synced) {
            let longest = Duration::from_millis(LONGEST_REST_MILLISECONDS);
            let rest = synced.duration_since(*begun).saturating_mul(REST_FACTOR);
            self.rest = if rest < longest { rest } else { longest };
        }
    }
}

impl io::Write for SyncedFile<'_> {
    fn write(&mut self, bytes: &[u8]) -> io::Result<usize> {
        let mut file = self.file;
        let n = match file.write(bytes) {
            Ok(n) => n,
            Err(error) => {
                if error.kind() != ErrorKind::Interrupted {
                    self.faults.unwritten(self.path, error);
                }
                return Err(error);
            }
        };
        if !self.rests() {
            self.sync();
        }
        Ok(n)
    }

    fn flush(&mut self) -> io::Result<()> {
        Ok(())
    }
}
