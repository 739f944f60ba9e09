//! Keys typed into a large text, each with its frame.

use anyhow::{Result, bail};
use lazy_file::MemSources;
use screen_editor::Editor;
use std::time::Instant;

/// So many keys are typed at each place.
const TYPED: u32 = 2000;

/// How long a line is with its break, and the key that goes down by one.
const LINE: usize = 61;

const DOWN: u8 = 0x0E;

/// A text of lines of 60 bytes and a break.
fn lines(rt: &HostRuntime, len: usize) -> Result<Vec<u8>> {
    let mut text = Vec::with_capacity(rt.alloc(), len)?;
    for k in 0..len {
        text.push(if k % LINE == LINE - 1 { b'\n' } else { b'x' })?;
    }
    Ok(text)
}

fn editor<'a>(rt: &HostRuntime, text: &'a [u8]) -> Result<Editor<MemSources<'a>>> {
    let mut sources = MemSources::new(rt.alloc());
    if sources.add(text).is_err() {
        bail!("the text is no source");
    }
    match Editor::new(rt.alloc(), sources) {
        Ok(editor) => Ok(editor),
        Err(_) => bail!("there is no editor"),
    }
}

fn press(editor: &mut Editor<MemSources<'_>>, byte: u8) -> Result<()> {
    if editor.key(byte).is_err() {
        bail!("a key was refused");
    }
    Ok(())
}

/// Goes down to the line of a place.
fn go_down(editor: &mut Editor<MemSources<'_>>, place: usize) -> Result<()> {
    for _ in 0..place / LINE {
        press(editor, DOWN)?;
    }
    Ok(())
}

/// Types at the line of a place.
fn time_at(rt: &HostRuntime, text: &[u8], place: usize, name: &str) -> Result<()> {
    let mut editor = editor(rt, text)?;
    go_down(&mut editor, place)?;
    let start = Instant::now(rt)?;
    for _ in 0..TYPED {
        press(&mut editor, b'x')?;
        if editor.frame().is_err() {
            bail!("a frame was refused");
        }
    }
    let taken = start.elapsed(rt)?.as_micros() / u128::from(TYPED);
    eprintln!(rt;
        "{taken} us a key and its frame, {name} of {} bytes",
        text.len()
    )?;
    Ok(())
}

/// How many keys are typed before one is refused.
fn typed_until_refused(editor: &mut Editor<MemSources<'_>>) -> u64 {
    for keys in 0..u64::MAX {
        if editor.key(b'x').is_err() {
            return keys;
        }
    }
    u64::MAX
}

/// Types at the end and in the middle of a text of 1 MB and of one of 64 MB,
/// and then in the middle of the first, without frames, until a key is refused.
pub fn time(rt: &HostRuntime) -> Result<()> {
    for len in [1 << 20, 1 << 26] {
        let text = lines(rt, len)?;
        time_at(rt, &text, len, "at the end")?;
        time_at(rt, &text, len / 2, "in the middle")?;
    }
    let text = lines(rt, 1 << 20)?;
    let mut editor = editor(rt, &text)?;
    go_down(&mut editor, text.len() / 2)?;
    let keys = typed_until_refused(&mut editor);
    eprintln!(rt; "{keys} keys are taken, and the next is refused")?;
    Ok(())
}
