//! A session of about a million nodes, and its image on standard output.

use anyhow::{Result, bail};
use edit_commands::{Command, Session};
use rope_node::NodeSpace;
use session_image::write;
use std::io::{self, BufWriter, Write};
use std::time::Instant;

/// So many keys are typed, each into the middle of the text so far, which takes some six nodes.
const KEYS: u32 = 160_000;

/// So many bytes are written at a time.
const BUFFER: usize = 1 << 17;

/// A session of keys, each a revision.
fn typed(rt: &HostRuntime) -> Result<Session> {
    let mut session = Session::new(rt.alloc());
    let mut r = session.apply(Command::New)?;
    for k in 0..KEYS {
        let p = k as u64 / 2;
        r = session.apply(Command::Insert { r, p, bytes: b"x" })?;
    }
    Ok(session)
}

/// Writes the image, and says on standard error how long that took.
pub fn write_image(rt: &HostRuntime) -> Result<()> {
    let session = typed(rt)?;
    let mut writer = BufWriter::with_capacity(rt.alloc(), BUFFER, io::writer(rt))?;
    let start = Instant::now(rt)?;
    if write(&session, &mut writer).is_err() {
        bail!("the image was not written whole");
    }
    writer.flush()?;
    let taken = start.elapsed(rt)?.as_micros();
    let nodes = session.space().count();
    eprintln!(rt;
        "{taken} us for {nodes} nodes and {} revisions",
        session.count()
    )?;
    Ok(())
}
