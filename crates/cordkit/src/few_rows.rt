//! Frames on a terminal of fewer rows than they have.

use std::alloc::{AllocError, Global};
use std::io::{ErrorKind, Write};
use std::{env, io};

/// The rows of a frame. The last one is the message's.
const FRAME_ROWS: usize = 24;

/// The fewest rows of a terminal: two of the text, and the message's.
const FEWEST_ROWS: usize = 3;

/// What a frame begins with.
const CLEAR: &str = "\x1B[2J\x1B[H";

/// How many rows a terminal has, by the variable `LINES`; 24 where that says nothing of use.
pub fn rows_of_terminal(rt: &HostRuntime) -> usize {
    let Ok(lines) = env::var(rt, "LINES") else {
        return FRAME_ROWS;
    };
    match lines.as_str().parse::<usize>() {
        Ok(rows) if rows >= FEWEST_ROWS => rows,
        _ => FRAME_ROWS,
    }
}

/// The last rows of a frame that fit, with the message's; or, where the cursor's row is above these, from that one on. None
/// of what is no frame.
fn cut(alloc: Global, frame: &str, rows: usize) -> Result<Option<String>, AllocError> {
    let Some((screen, cursor)) = frame.rsplit_once("\x1B[") else {
        return Ok(None);
    };
    let (Some(screen), Some((row, column))) = (screen.strip_prefix(CLEAR), cursor.split_once(';'))
    else {
        return Ok(None);
    };
    let (Some((lines, status)), Ok(row)) = (screen.rsplit_once("\r\n"), row.parse::<usize>()) else {
        return Ok(None);
    };
    let above = FRAME_ROWS.saturating_sub(rows).min(row.saturating_sub(1));
    let mut text = String::from_str(alloc, CLEAR)?;
    for line in lines.split("\r\n").skip(above).take(rows.saturating_sub(1)) {
        text.push_str(line)?;
        text.push_str("\r\n")?;
    }
    let row = row.saturating_sub(above);
    let end = format!(in alloc; "{status}\x1B[{row};{column}")?;
    text.push_str(end.as_str())?;
    Ok(Some(text))
}

/// A screen of so many rows, to which frames are written.
#[derive(Drop)]
pub struct FewRows<W: Write + Drop> {
    alloc: Global,
    inner: W,
    rows: usize,
}

impl<W: Write + Drop> FewRows<W> {
    /// The screen behind this writer.
    pub fn new(alloc: Global, inner: W, rows: usize) -> FewRows<W> {
        FewRows { alloc, inner, rows }
    }

    /// What is written of these bytes in place of them.
    fn cut(&self, bytes: &[u8]) -> io::Result<Option<String>> {
        match str::from_utf8(bytes) {
            Ok(frame) if self.rows < FRAME_ROWS => cut(self.alloc, frame, self.rows).map_err(
                |_| io::Error::from(ErrorKind::OutOfMemory),
            ),
            _ => Ok(None),
        }
    }
}

impl<W: Write + Drop> Write for FewRows<W> {
    /// Takes all bytes, which are a frame.
    fn write(&mut self, bytes: &[u8]) -> io::Result<usize> {
        match self.cut(bytes)? {
            Some(text) => self.inner.write_all(text.as_bytes())?,
            None => self.inner.write_all(bytes)?,
        }
        Ok(bytes.len())
    }

    fn flush(&mut self) -> io::Result<()> {
        self.inner.flush()
    }
}
