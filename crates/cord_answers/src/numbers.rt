//! Scripts with numbers at each edge.

use crate::chance::Chance;
use crate::commands::tell_stop;
use crate::digest::Digest;
use crate::report::Report;
use anyhow::Result;
use script_tools::{ApplyFault, run_apply};
use std::alloc::Global;

/// The lines before.
const BEFORE: &str = "open 0\nnew\ninsert 1 0 \"abcdefghij\"\nfill 2 5 65 70000\n";

/// The lines with a number, in two parts.
const FORMS: [(&str, &str); 26] = [
    ("open ", ""),
    ("insert ", " 0 \"x\""),
    ("insert 3 ", " \"x\""),
    ("delete ", " 0 1"),
    ("delete 3 ", " 1"),
    ("delete 3 0 ", ""),
    ("replace ", " 0 1 \"x\""),
    ("replace 3 ", " 1 \"x\""),
    ("replace 3 0 ", " \"x\""),
    ("paste ", " 0 3 0 1"),
    ("paste 3 ", " 3 0 1"),
    ("paste 3 0 ", " 0 1"),
    ("paste 3 0 3 ", " 1"),
    ("paste 3 0 3 0 ", ""),
    ("join ", " 3"),
    ("join 3 ", ""),
    ("cut ", " 0 1"),
    ("cut 3 ", " 1"),
    ("cut 3 0 ", ""),
    ("fill ", " 0 65 1"),
    ("fill 3 ", " 65 1"),
    ("fill 3 0 ", " 1"),
    ("fill 3 0 65 ", ""),
    ("back ", ""),
    ("balance ", ""),
    ("many 3 ", " 1 \"x\""),
];

/// Numbers whose neighbours are tried too.
const EDGES: [u64; 14] = [
    1,
    9,
    10,
    99,
    255,
    256,
    65_535,
    70_010,
    1 << 20,
    1 << 31,
    1 << 32,
    1 << 40,
    1 << 63,
    u64::MAX,
];

/// Words that stand where a number does.
const WORDS: [&str; 22] = [
    "18446744073709551616",
    "18446744073709551617",
    "18446744073709551625",
    "28446744073709551615",
    "99999999999999999999",
    "100000000000000000000",
    "184467440737095516150",
    "00000000000000000000000000000003",
    "000018446744073709551615",
    "000018446744073709551616",
    "00",
    "03",
    "+3",
    "-3",
    "-0",
    "+",
    "-",
    "3x",
    "0x3",
    "3.",
    "3_0",
    "3e0",
];

/// What a script that has a word in place of a number gives.
fn tell_word(alloc: Global, form: (&str, &str), word: &[u8], report: &mut Report) -> Result<()> {
    let mut script = Report::new(alloc);
    script.words(BEFORE)?;
    script.words(form.0)?;
    script.append(word)?;
    script.words(form.1)?;
    let mut image = Digest::new();
    let made = run_apply(alloc, script.bytes(), &[1 << 20], &mut image);
    report.append(word)?;
    report.words(" -> ")?;
    match made {
        Ok(()) => {
            report.entry("", image.count())?;
            report.words(" bytes ")?;
            report.hex(image.value(), 16)?;
        }
        Err(ApplyFault::Stop(stopped)) => tell_stop(alloc, stopped, report)?,
        Err(ApplyFault::Source(_)) => report.words("source")?,
        Err(ApplyFault::Write) => report.words("write")?,
    }
    report.end()
}

/// What a script that has a number there gives.
fn tell_number(alloc: Global, form: (&str, &str), n: u64, report: &mut Report) -> Result<()> {
    let mut word = Report::new(alloc);
    word.number(n)?;
    tell_word(alloc, form, word.bytes(), report)
}

/// A line's form with numbers at each edge and words that are none; of a later seed, with numbers by chance.
pub fn numbers(alloc: Global, chance: &mut Chance, seed: u64, report: &mut Report) -> Result<()> {
    let count = FORMS.len() as u64;
    let form = FORMS
        .get((seed % count) as usize)
        .copied()
        .unwrap_or(("", ""));
    report.words(": ")?;
    report.words(form.0)?;
    report.words("..")?;
    report.words(form.1)?;
    report.end()?;
    if seed >= count {
        for _ in 0..20 {
            let edge = chance.pick(&EDGES);
            let n = edge.wrapping_add(chance.below(41)).wrapping_sub(20);
            tell_number(alloc, form, n, report)?;
        }
        return Ok(());
    }
    for edge in EDGES {
        tell_number(alloc, form, edge.wrapping_sub(1), report)?;
        tell_number(alloc, form, edge, report)?;
        tell_number(alloc, form, edge.wrapping_add(1), report)?;
    }
    for word in WORDS {
        tell_word(alloc, form, word.as_bytes(), report)?;
    }
    Ok(())
}
