//! Digests of the files that a session was made from. They stand beside its image, which has the lengths of these files alone.

use crate::side_file::{Found, found_at, write_by};
use cord_tools::ToolFault;
use image_files::Mode;
use key_journal::{END_SIZE, WHOLE_LIMIT};
use sha2::{Digest, Sha256};
use std::fmt;
use std::fs::{self, File};
use std::io::{self, ErrorKind, Read, Seek, SeekFrom, Write};

/// The most bytes of a file of digests. Its 255 lines have fewer.
const MOST: u64 = 32_768;

/// The hexadecimal digits of a digest.
const DIGITS: usize = 64;

/// The line of a source of which no digest was taken: of no file, such as a pipe.
const NO_DIGEST: &str = "-";

/// A digest, by its hexadecimal digits.
#[derive(Drop)]
struct Spelled([u8; 32]);

impl fmt::Display for Spelled {
    fn fmt<W: fmt::Write>(&self, f: &mut fmt::Formatter<W>) -> fmt::Result {
        for byte in self.0 {
            write!(f, "{byte:02x}")?;
        }
        Ok(())
    }
}

/// What takes bytes into a digest.
#[derive(Drop)]
struct Hashing {
    hasher: Sha256,
}

impl io::Write for Hashing {
    fn write(&mut self, bytes: &[u8]) -> io::Result<usize> {
        self.hasher.update(bytes);
        Ok(bytes.len())
    }

    fn flush(&mut self) -> io::Result<()> {
        Ok(())
    }
}

/// The digest of a file of this size, of as much of it as a header of keys takes: of the whole, or of both ends.
fn digest_of(file: &File, size: u64) -> io::Result<[u8; 32]> {
    let mut hashing = Hashing {
        hasher: Sha256::new(),
    };
    let mut file = file;
    if size <= WHOLE_LIMIT {
        io::copy(&mut file.take(size), &mut hashing)?;
    } else {
        io::copy(&mut file.take(END_SIZE), &mut hashing)?;
        file.seek(SeekFrom::Start(size.saturating_sub(END_SIZE)))?;
        io::copy(&mut file.take(END_SIZE), &mut hashing)?;
    }
    let Hashing { hasher } = hashing;
    Ok(hasher.finalize())
}

/// Whether a file has more bytes than one end whose digest is taken.
pub fn is_large(rt: &HostRuntime, path: &str) -> bool {
    match fs::metadata(rt, path) {
        Ok(metadata) => metadata.len() > END_SIZE,
        Err(_) => false,
    }
}

/// The digest and the size of what a name leads to, where that is a file that can be read.
fn look_at(rt: &HostRuntime, path: &str) -> Option<(Spelled, u64)> {
    // Nothing else is opened: a pipe would have its reader wait.
    if !fs::metadata(rt, path).ok()?.is_file() {
        return None;
    }
    let file = fs::open(rt, path).ok()?;
    let size = file.metadata().ok()?.len();
    let digest = digest_of(&file, size).ok()?;
    Some((Spelled(digest), size))
}

/// The line of a source as it is now.
fn line_of(rt: &HostRuntime, path: &str) -> Result<String, ToolFault> {
    match look_at(rt, path) {
        Some((digest, size)) => Ok(format!(in rt.alloc(); "{digest} {size}")?),
        None => Ok(String::from_str(rt.alloc(), NO_DIGEST)?),
    }
}

/// Whether a line is one of a file of digests.
fn is_line(line: &str) -> bool {
    match line.split_once(' ') {
        Some((digest, size)) => digest.len() == DIGITS && size.parse::<u64>().is_ok(),
        None => line == NO_DIGEST,
    }
}

/// Whether each line is one of a file of digests.
fn are_lines(text: &str) -> bool {
    for line in text.lines() {
        if !is_line(line) {
            return false;
        }
    }
    true
}

/// Whether two lines are of files of one size with different bytes.
fn is_changed(then: &str, now: &str) -> bool {
    match (then.split_once(' '), now.split_once(' ')) {
        (Some((digest, size)), Some((digest_now, size_now))) => {
            size == size_now && digest != digest_now
        }
        _ => false,
    }
}

/// What stands under the name of a file of digests. Something else than such a file stays.
fn lines_at(rt: &HostRuntime, name: &str) -> Result<Found, ToolFault> {
    match found_at(rt, name, MOST)? {
        Found::Text(text) if !are_lines(&text) => Ok(Found::Other),
        found => Ok(found),
    }
}

/// What was kept of the sources of an image, beside the file that a link leads to; an empty text, where nothing was.
fn kept_beside(rt: &HostRuntime, image: &str) -> Result<String, ToolFault> {
    let nothing = String::new(rt.alloc());
    let whole = match fs::canonicalize(rt, image) {
        Ok(whole) => whole,
        Err(error) if error.kind() == ErrorKind::OutOfMemory => return Err(ToolFault::Memory),
        Err(_) => return Ok(nothing),
    };
    let whole = whole.as_str();
    let name = format!(in rt.alloc(); "{whole}.sources")?;
    match lines_at(rt, &name)? {
        Found::Text(text) => Ok(text),
        Found::Nothing | Found::Other => Ok(nothing),
    }
}

/// Tells a sentence on standard error. Control characters of a name are shown as question marks.
pub fn tell(rt: &HostRuntime, sentence: &str) -> Result<(), ToolFault> {
    let mut shown = String::new(rt.alloc());
    for c in sentence.chars() {
        let c = if c.is_control() { '?' } else { c };
        shown.push(c).map_err(|_| ToolFault::Memory)?;
    }
    // There is no other place to tell that standard error is closed.
    let _ = rt.eprintln(shown);
    Ok(())
}

/// Tells that what stands beside an image could not be written.
pub fn tell_unwritten(rt: &HostRuntime, image: &str, ending: &str) {
    if let Ok(sentence) = format!(in rt.alloc(); "{image}{ending} could not be written") {
        // There is no other place to tell that there is no memory.
        let _ = tell(rt, &sentence);
    }
}

/// The image beside which lines were kept, and whether it is told where a file has other bytes now.
#[derive(Clone, Copy)]
struct Beside<'a> {
    image: &'a str,
    tells: bool,
}

/// Tells that a source of an image has other bytes than it had.
fn tell_source(rt: &HostRuntime, image: &str, path: &str) -> Result<(), ToolFault> {
    let sentence = format!(in rt.alloc();
        "{path} is not the file that {image} was made from: \
        its digest is not the one in {image}.sources. cordedit --copy keeps a copy of the file beside the image"
    )?;
    tell(rt, &sentence)
}

/// The line of a source of an image: the one that was kept, where the file has other bytes now.
fn line_over(
    rt: &HostRuntime,
    beside: Beside<'_>,
    kept: &str,
    path: &str,
) -> Result<String, ToolFault> {
    let line = line_of(rt, path)?;
    if !is_changed(kept, &line) {
        return Ok(line);
    }
    if beside.tells {
        tell_source(rt, beside.image, path)?;
    }
    Ok(String::from_str(rt.alloc(), kept)?)
}

/// The lines of the sources of an image, of which these were kept.
fn lines_over(
    rt: &HostRuntime,
    beside: Beside<'_>,
    kept: &str,
    paths: &[&str],
) -> Result<String, ToolFault> {
    let mut all = String::new(rt.alloc());
    let mut kept = kept.lines();
    for path in paths {
        let line = line_over(rt, beside, kept.next().unwrap_or(""), path)?;
        all.push_str(&line).map_err(|_| ToolFault::Memory)?;
        all.push('\n').map_err(|_| ToolFault::Memory)?;
    }
    Ok(all)
}

/// Tells on standard error which of these files are not those that the session of an image was made from. Nothing is
/// told, and no file is read, where there is no file of digests beside the image.
///
/// # Errors
///
/// `Memory`.
pub fn tell_changed(rt: &HostRuntime, image: &str, paths: &[&str]) -> Result<(), ToolFault> {
    if paths.is_empty() {
        return Ok(());
    }
    let kept = kept_beside(rt, image)?;
    if !kept.is_empty() {
        lines_over(rt, Beside { image, tells: true }, &kept, paths)?;
    }
    Ok(())
}

/// Gives a file of digests its text, where it has another one or is not there. What is no such file stays.
fn replace(rt: &HostRuntime, name: &str, mode: Mode, text: &str) -> Result<(), ToolFault> {
    match lines_at(rt, name)? {
        Found::Text(there) if there.as_str() == text => return Ok(()),
        Found::Text(_) | Found::Nothing => {}
        Found::Other => return Err(ToolFault::Write),
    }
    let part = format!(in rt.alloc(); "{name}.new")?;
    match lines_at(rt, &part)? {
        Found::Text(_) => fs::remove_file(rt, &part).map_err(|_| ToolFault::Write)?,
        Found::Nothing => {}
        Found::Other => return Err(ToolFault::Write),
    }
    write_by(rt, &part, name, mode, text)
}

/// The lines of the sources of a session that is about to be saved.
#[derive(Drop)]
pub struct SourceLines {
    lines: String,
}

impl SourceLines {
    /// Those of a session over these files. One that goes on from an image has the lines that stand beside that,
    /// and it is told where a file has other bytes.
    ///
    /// # Errors
    ///
    /// `Memory`.
    pub fn over(
        rt: &HostRuntime,
        older: Option<&str>,
        paths: &[&str],
    ) -> Result<SourceLines, ToolFault> {
        match older {
            Some(image) => SourceLines::beside(rt, Beside { image, tells: true }, paths),
            None => Ok(SourceLines {
                lines: lines_over(
                    rt,
                    Beside {
                        image: "",
                        tells: false,
                    },
                    "",
                    paths,
                )?,
            }),
        }
    }

    /// Those of a session that goes on from an image of which it was told where a file has other bytes.
    ///
    /// # Errors
    ///
    /// `Memory`.
    pub fn over_told(
        rt: &HostRuntime,
        image: &str,
        paths: &[&str],
    ) -> Result<SourceLines, ToolFault> {
        SourceLines::beside(
            rt,
            Beside {
                image,
                tells: false,
            },
            paths,
        )
    }

    /// Those of a session that goes on from this image.
    fn beside(
        rt: &HostRuntime,
        beside: Beside<'_>,
        paths: &[&str],
    ) -> Result<SourceLines, ToolFault> {
        let kept = if paths.is_empty() {
            String::new(rt.alloc())
        } else {
            kept_beside(rt, beside.image)?
        };
        let lines = lines_over(rt, beside, &kept, paths)?;
        Ok(SourceLines { lines })
    }

    /// That of a session over one file of which no digest was taken.
    ///
    /// # Errors
    ///
    /// `Memory`.
    pub fn of_unread(rt: &HostRuntime) -> Result<SourceLines, ToolFault> {
        Ok(SourceLines {
            lines: format!(in rt.alloc(); "{NO_DIGEST}\n")?,
        })
    }

    /// Writes them beside an image that is in its place.
    fn write_beside(&self, rt: &HostRuntime, image: &str) -> Result<(), ToolFault> {
        match fs::metadata(rt, image) {
            Ok(metadata) if metadata.is_file() => {
                let name = format!(in rt.alloc(); "{image}.sources")?;
                replace(rt, &name, Mode::of_replaced(&metadata), self.lines.as_str())
            }
            _ => Ok(()),
        }
    }

    /// Writes them beside an image that is in its place, if there are any, and it is a regular file. Where they cannot
    /// be written, that is told on standard error.
    pub fn keep_beside(&self, rt: &HostRuntime, image: &str) {
        if self.lines.is_empty() || self.write_beside(rt, image).is_ok() {
            return;
        }
        tell_unwritten(rt, image, ".sources");
    }
}
