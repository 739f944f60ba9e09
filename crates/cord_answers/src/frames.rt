//! The reads of a file that frames and keys make, and what comes of them.

ghost use Rattle.std.specs.Prelude.{◌≡◌, IfOk};

use crate::chance::Chance;
use crate::device::{File, Watch};
use crate::digest::Digest;
use crate::plans::{Plan, plan_of};
use crate::report::Report;
use crate::turns::{BREAK, Turn};
use anyhow::{Result, bail};
use lazy_file::{FileSources, SourceFault};
use screen_editor::{Editor, FrameFault};
use std::alloc::Global;
use std::num::NonZeroUsize;

/// So many blocks of a file are kept, as the program keeps them.
const BLOCKS: usize = 256;

type Screen<'a> = Editor<FileSources<File<'a>>>;

fn fault_word(fault: FrameFault) -> &'static str {
    match fault {
        FrameFault::Memory => "memory",
        FrameFault::Source(SourceFault::Device) => "S1",
        FrameFault::Source(SourceFault::Short) => "S2",
        FrameFault::Source(SourceFault::BadSource) => "S3",
        FrameFault::Source(SourceFault::Memory) => "source memory",
    }
}

/// An editor of a file.
fn opened<'a>(alloc: Global, plan: &'a Plan, watch: &'a Watch) -> Result<Screen<'a>> {
    let blocks = NonZeroUsize::new(BLOCKS).unwrap_or(NonZeroUsize::MIN);
    let mut sources = FileSources::new(alloc, blocks, ())?;
    let file = File {
        bytes: plan.text.as_slice(),
        watch,
        trouble: plan.trouble,
        since: plan.since,
        most: plan.most,
        failed: 0,
    };
    if sources.add(file).is_err() {
        bail!("a file is no source");
    }
    match Editor::new(alloc, sources) {
        Ok(editor) => Ok(editor),
        Err(_) => bail!("a file was not opened"),
    }
}

/// Makes a frame, and answers whether there is one.
fn show(editor: &mut Screen<'_>, watch: &Watch, report: &mut Report) -> Result<bool> {
    report.words("frame")?;
    let made = editor.frame();
    watch.tell(report)?;
    report.words(" -> ")?;
    match &made {
        Ok(frame) => {
            let mut digest = Digest::new();
            digest.take(frame);
            report.hex(digest.value(), 16)?;
        }
        Err(fault) => report.words(fault_word(*fault))?,
    }
    report.end()?;
    Ok(made.is_ok())
}

/// Presses a key so often, and answers the last refusal of it.
fn press(editor: &mut Screen<'_>, key: u8, times: u64) -> Option<&'static str> {
    let mut refusal = None;
    for _ in 0..times {
        if let Err(fault) = editor.key(key) {
            refusal = Some(fault.code());
        }
    }
    refusal
}

/// What a turn's keys read, where there was one key, and the last refusal.
fn tell_turn(
    watch: &Watch,
    turn: Turn,
    refusal: Option<&'static str>,
    report: &mut Report,
) -> Result<()> {
    report.words("key ")?;
    report.hex(u64::from(turn.key), 2)?;
    if turn.times == 1 {
        watch.tell(report)?;
    } else {
        report.entry(" times ", turn.times)?;
        watch.forget();
    }
    report.words(" -> ")?;
    report.words(refusal.unwrap_or("ok"))?;
    report.end()
}

/// A turn, and whether the run goes on behind it. Typed bytes that are taken are told only where a frame is made.
fn take(editor: &mut Screen<'_>, watch: &Watch, turn: Turn, report: &mut Report) -> Result<bool> {
    let refusal = press(editor, turn.key, turn.times);
    let is_typed = turn.key >= b' ' || turn.key == BREAK;
    if turn.is_shown || refusal.is_some() || !is_typed {
        tell_turn(watch, turn, refusal, report)?;
    }
    if turn.is_shown {
        show(editor, watch, report)
    } else {
        Ok(true)
    }
}

/// What a plan is, in words.
fn describe(plan: &Plan, report: &mut Report) -> Result<()> {
    report.entry(": a file of ", plan.text.len() as u64)?;
    report.words(" bytes")?;
    if let Some(byte) = plan.trouble.fails_at {
        report.entry(", unreadable at ", byte)?;
    }
    if let Some(end) = plan.trouble.ends_at {
        report.entry(", cut at ", end)?;
    }
    report.entry(" from turn ", plan.since)?;
    report.words(" on")?;
    if plan.most < usize::MAX {
        report.entry(", at most so many bytes a read: ", plan.most as u64)?;
    }
    report.end()
}

/// Frames with keys between them, up to the first frame that fails.
pub fn frames(alloc: Global, chance: &mut Chance, seed: u64, report: &mut Report) -> Result<()> {
    let plan = plan_of(alloc, chance, seed)?;
    describe(&plan, report)?;
    let watch = Watch::new(alloc);
    let mut editor = opened(alloc, &plan, &watch)?;
    if plan.is_shown && !show(&mut editor, &watch, report)? {
        return Ok(());
    }
    let mut number: u64 = 0;
    for turn in &plan.turns.all {
        number = number.saturating_add(1);
        watch.begin(number);
        if !take(&mut editor, &watch, *turn, report)? {
            break;
        }
    }
    Ok(())
}
