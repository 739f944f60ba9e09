//! Sentences in which numbers and names stand.

use crate::shown_name::ShownName;
use std::alloc::Global;
use std::fmt;

/// A sentence, in which a `%` stands for what it is about, and each `#` for the next of the numbers, which commas part.
#[derive(Drop)]
pub struct Sentence {
    pub text: &'static str,
    pub about: String,
    pub numbers: String,
}

impl Sentence {
    /// The sentence, if memory has room for it.
    pub fn new(alloc: Global, text: &'static str, about: &str, numbers: &str) -> Option<Sentence> {
        Some(Sentence {
            text,
            about: String::from_str(alloc, about).ok()?,
            numbers: String::from_str(alloc, numbers).ok()?,
        })
    }
}

impl fmt::Display for Sentence {
    fn fmt<W: fmt::Write>(&self, f: &mut fmt::Formatter<W>) -> fmt::Result {
        let mut numbers = self.numbers.split(',');
        for c in self.text.chars() {
            match c {
                '%' => write!(f, "{}", ShownName { name: &self.about })?,
                '#' => f.write_str(numbers.next().unwrap_or(""))?,
                _ => f.write_char(c)?,
            }
        }
        Ok(())
    }
}
