//! Words that are read.

use crate::refusals::{Refusals, TRIES, assert_same};
use cord_words::{Action, Request, WordsFault, words};
use std::alloc::{AllocError, AllocGlobal};
use std::process::Abort;

/// The words of a line, which stand one space apart.
fn line_of<A: AllocGlobal>(rt: &A, text: &str) -> Result<Vec<String>, AllocError> {
    let alloc = rt.alloc();
    let mut words = Vec::new(alloc);
    for word in text.split(' ') {
        words.push(String::from_str(alloc, word)?)?;
    }
    Ok(words)
}

/// The words of a line, in memory of the test's own, which may be refused too.
fn line<A: AllocGlobal + Abort>(rt: &A, text: &str, refusals: &mut Refusals) -> Vec<String> {
    for _ in 0..TRIES {
        match line_of(rt, text) {
            Ok(line) => return line,
            Err(_) => refusals.met(rt, &(), &()),
        }
    }
    panic!(rt; "refused each time")
}

/// Whether a request asks for this; the number tells which it is.
fn is_asked(request: &Request<'_>, number: usize) -> bool {
    match (&request.action, number) {
        (Action::CheckInput, 0) => true,
        (
            Action::Show {
                at_most: Some(137),
                image: "a.cord",
                revision: Some(2),
                sources,
            },
            1,
        ) => sources.as_slice() == ["b", "c"].as_slice(),
        (
            Action::Cut {
                start: 3,
                count: 10,
                file: "a.txt",
            },
            2,
        ) => true,
        (
            Action::Edit {
                keys: Some("k"),
                image: "a.cord",
                file: Some("b.txt"),
                ..
            },
            3,
        ) => true,
        _ => false,
    }
}

/// Whether the words were not read for want of memory.
fn is_refused(fault: &WordsFault) -> bool {
    matches!(fault, WordsFault::Memory)
}

/// Reads words, once more where that was refused memory.
fn read<A: AllocGlobal + Abort>(rt: &A, text: &str, number: usize, refusals: &mut Refusals) {
    let line = line(rt, text, refusals);
    for _ in 0..TRIES {
        match words(rt.alloc(), line.as_slice()) {
            Ok(request) => {
                assert!(rt; is_asked(&request, number), "{text}");
                return;
            }
            Err(fault) => {
                assert!(rt; is_refused(&fault), "{text}");
                refusals.met(rt, &(), &());
            }
        }
    }
    panic!(rt; "refused each time: {text}")
}

/// Reads words that do not go together, once more where that was refused memory.
fn refuse<A: AllocGlobal + Abort>(rt: &A, text: &str, refusals: &mut Refusals) {
    let line = line(rt, text, refusals);
    for _ in 0..TRIES {
        match words(rt.alloc(), line.as_slice()) {
            Err(WordsFault::Usage(_)) => return,
            Err(WordsFault::Memory) => refusals.met(rt, &(), &()),
            _ => panic!(rt; "{text}"),
        }
    }
    panic!(rt; "refused each time: {text}")
}

pub(crate) fn words_are_read<A: AllocGlobal + Abort>(rt: &A, refusals: &mut Refusals) {
    for (number, text) in [
        "cordkit",
        "cordkit show a.cord 2 b c --at-most 137",
        "cordkit cut 3 10 a.txt",
        "cordkit edit --keep k a.cord b.txt",
    ]
    .iter()
    .enumerate()
    {
        read(rt, text, number, refusals);
    }
    refuse(rt, "cordkit edit --keep k --discard a.keys", refusals);
    assert_same(rt, &(), &(), &"each was read");
}
