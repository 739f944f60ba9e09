//! What the program answered.

use cord_explanations::ShownName;
use image_files::Faults;
use std::alloc::Global;
use std::{fmt, io};

/// So many bytes of an answer are kept. A refusal has fewer.
const KEPT: usize = 128;

/// What is told of the image of a session.
#[derive(Drop)]
pub enum Note {
    /// It got this name, and not its own.
    OtherName(String),
    /// It is in its place, and the one that was there has this name.
    Kept(String),
    /// It has this name since an earlier run.
    SavedBefore(String),
}

impl fmt::Display for Note {
    fn fmt<W: fmt::Write>(&self, f: &mut fmt::Formatter<W>) -> fmt::Result {
        match self {
            Note::OtherName(name) => {
                write!(f, "the image of the session is {}", ShownName { name })
            }
            Note::Kept(name) => {
                let name = ShownName { name };
                write!(f, "the image that was there is kept as {name}")
            }
            Note::SavedBefore(name) => {
                let name = ShownName { name };
                write!(f, "the session was saved before: its image is {name}")
            }
        }
    }
}

/// A writer, of which the first bytes that it takes are kept, and
/// so is a refusal that is told elsewhere: it is what is explained.
/// Beside it the file that could not be read or written.
#[derive(Drop)]
pub struct Answer<'a, W> {
    writer: W,
    kept: Vec<u8>,
    note: Option<Note>,
    faults: &'a Faults,
}

impl<'a, W> Answer<'a, W> {
    /// A writer of which nothing is kept yet.
    pub fn new(alloc: Global, writer: W, faults: &'a Faults) -> Answer<'a, W> {
        Answer {
            writer,
            kept: Vec::new(alloc),
            note: None,
            faults,
        }
    }

    /// Which file could not be read or written.
    pub fn faults(&self) -> &'a Faults {
        self.faults
    }

    /// Keeps these bytes, if there is room for them. What is not kept is not explained.
    pub fn keep(&mut self, bytes: &[u8]) {
        if self.kept.len() < KEPT && bytes.len() < KEPT {
            let _ = self.kept.extend_from_slice(bytes);
        }
    }

    /// Keeps what is to be told of an image.
    pub fn set_note(&mut self, note: Note) {
        self.note = Some(note);
    }

    /// What is to be told of an image.
    pub fn note(&self) -> Option<&Note> {
        self.note.as_ref()
    }

    /// The code of the refusal, if there was one.
    pub fn refusal(&self) -> Option<&str> {
        let text = str::from_utf8(&self.kept).ok()?;
        Some(text.strip_prefix("refused ")?.trim_end())
    }
}

impl<W: io::Write> io::Write for Answer<'_, W> {
    fn write(&mut self, bytes: &[u8]) -> io::Result<usize> {
        let n = self.writer.write(bytes)?;
        if let Some(taken) = bytes.get(..n) {
            self.keep(taken);
        }
        Ok(n)
    }

    fn flush(&mut self) -> io::Result<()> {
        self.writer.flush()
    }
}
