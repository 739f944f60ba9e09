//! How words name a revision.

use session_checker::WantedRevision;
use std::alloc::{AllocError, Global};

/// The tools that are given the number of a revision.
const TOOLS: [&str; 3] = ["show", "blame", "restore"];

/// Their options that have a value.
const OPTIONS: [&str; 3] = ["--at-most", "--start", "--count"];

/// So many words stand before a revision: the program, the tool and the image.
const OF_REVISION: u32 = 3;

/// A word for the last revision that would be read as an option, and the one that stands for it.
const MINUS_ONE: &str = "-1";

const LAST: &str = "last";

/// The revision of this number, and the last one, where there is none.
pub fn wanted(revision: Option<u64>) -> WantedRevision {
    match revision {
        Some(number) => WantedRevision::Number(number),
        None => WantedRevision::Last,
    }
}

/// Where a word stands among those of a command line.
#[derive(Clone, Copy, Default)]
struct Places {
    /// How many words stand before it that are no options and no values of options.
    before: u32,
    /// Whether it is the value of the option before it.
    is_value: bool,
    /// Whether no options follow.
    are_names: bool,
}

impl Places {
    /// Whether the next word stands where a revision does: behind the program, the tool and the image.
    fn are_of_revision(&mut self, word: &str) -> bool {
        if self.is_value {
            self.is_value = false;
            return false;
        }
        if !self.are_names && word.starts_with("--") {
            self.are_names = word == "--";
            self.is_value = OPTIONS.contains(&word);
            return false;
        }
        let before = self.before;
        self.before = before.saturating_add(1);
        before == OF_REVISION
    }
}

/// Whether the words are of a tool that is given the number of a revision.
fn names_revision(words: &[String]) -> bool {
    let mut others = words.iter().skip(1).filter(|word| !word.starts_with('-'));
    match others.next() {
        Some(tool) => TOOLS.contains(&tool.as_str()),
        None => false,
    }
}

/// The words, where `-1` that names a revision says `last`. It stands behind the tool and the image.
pub fn with_last(alloc: Global, words: Vec<String>) -> Result<Vec<String>, AllocError> {
    if !names_revision(&words) {
        return Ok(words);
    }
    let mut said = Vec::new(alloc);
    let mut places = Places::default();
    for word in words {
        let word = if places.are_of_revision(word.as_str()) && word.as_str() == MINUS_ONE {
            String::from_str(alloc, LAST)?
        } else {
            word
        };
        said.push(word).map_err(|_| AllocError)?;
    }
    Ok(said)
}
