//! Which word of a script's line is wrong.

use std::fmt;

/// So many letters of a word are told.
const TOLD: usize = 40;

/// What a word behind a command's name has to be.
#[derive(Clone, Copy)]
enum Kind {
    /// Digits, of a number up to this one.
    Number(u64),
    /// Bytes in quotes.
    Text,
}

/// The number of a revision or of a source.
const REVISION: Kind = Kind::Number(u32::MAX as u64);
/// A place or a length.
const PLACE: Kind = Kind::Number(u64::MAX);
/// The number of a byte.
const BYTE: Kind = Kind::Number(u8::MAX as u64);

impl fmt::Display for Kind {
    fn fmt<W: fmt::Write>(&self, f: &mut fmt::Formatter<W>) -> fmt::Result {
        f.write_str(match self {
            Kind::Number(_) => "a number",
            Kind::Text => "bytes in quotes",
        })
    }
}

/// The words behind a command's name, and those that may follow them, again and again.
#[derive(Clone, Copy)]
struct Shape {
    once: &'static [Kind],
    again: &'static [Kind],
}

impl Shape {
    /// The shape of the command of this name.
    fn of(name: &str) -> Option<Shape> {
        let once: &'static [Kind] = match name {
            "new" => &[],
            "open" | "back" | "balance" | "many" => &[REVISION],
            "join" => &[REVISION, REVISION],
            "delete" | "cut" => &[REVISION, PLACE, PLACE],
            "insert" => &[REVISION, PLACE, Kind::Text],
            "replace" => &[REVISION, PLACE, PLACE, Kind::Text],
            "fill" => &[REVISION, PLACE, BYTE, PLACE],
            "paste" => &[REVISION, PLACE, REVISION, PLACE, PLACE],
            _ => return None,
        };
        let again: &'static [Kind] = match name {
            "many" => &[PLACE, PLACE, Kind::Text],
            _ => &[],
        };
        Some(Shape { once, again })
    }

    /// What the word has to be behind which so many stand, none where there may be no such word.
    fn kind(&self, before: usize) -> Option<Kind> {
        match before.checked_sub(self.once.len()) {
            None => self.once.get(before).copied(),
            Some(more) => self.again.get(more.checked_rem(self.again.len())?).copied(),
        }
    }

    /// Whether so many words may be all of them.
    fn may_end(&self, count: usize) -> bool {
        match count.checked_sub(self.once.len()) {
            None => false,
            Some(more) => more.checked_rem(self.again.len()).unwrap_or(more) == 0,
        }
    }
}

/// What is wrong with a word.
#[derive(Clone, Copy)]
enum Wrong {
    NoName,
    Missing(Kind),
    NoNumber,
    /// The number is more than this one.
    TooLarge(u64),
    NoQuotes,
    OpenQuotes,
    /// This stands behind a backslash.
    NoEscape(char),
    NoDigits,
    /// This is to be written as an escape.
    Unescaped(char),
    BehindQuotes,
    TooMany,
}

/// The first word of a line that is wrong.
#[derive(Clone, Copy)]
pub struct WrongWord<'a> {
    /// Its number, the command's name being 1.
    number: usize,
    word: &'a str,
    wrong: Wrong,
}

/// A word as it is told: its front, with control characters by their numbers.
#[derive(Clone, Copy)]
struct Told<'a>(&'a str);

impl fmt::Display for Told<'_> {
    fn fmt<W: fmt::Write>(&self, f: &mut fmt::Formatter<W>) -> fmt::Result {
        for (k, c) in self.0.chars().enumerate() {
            if k == TOLD {
                return f.write_str("...");
            }
            if c.is_control() {
                let number = u32::from(c);
                write!(f, "\\x{number:02x}")?;
            } else {
                f.write_char(c)?;
            }
        }
        Ok(())
    }
}

impl fmt::Display for WrongWord<'_> {
    fn fmt<W: fmt::Write>(&self, f: &mut fmt::Formatter<W>) -> fmt::Result {
        let number = self.number;
        let word = Told(self.word);
        match self.wrong {
            Wrong::NoName => write!(f, "there is no command {word}"),
            Wrong::Missing(kind) => write!(f, "word {number}, {kind}, is missing"),
            Wrong::NoNumber => write!(f, "word {number} ({word}) is no number"),
            Wrong::TooLarge(most) => write!(f, "word {number} ({word}) is more than {most}"),
            Wrong::NoQuotes => write!(f, "word {number} ({word}) is not in quotes"),
            Wrong::OpenQuotes => write!(f, "the quotes of word {number} are not closed"),
            Wrong::NoEscape(c) => write!(f, "word {number} has \\{c}, which is no escape"),
            Wrong::NoDigits => write!(f, "word {number} has \\x without two hex digits"),
            Wrong::Unescaped(c) => {
                let byte = u32::from(c);
                write!(
                    f,
                    "word {number} has a byte that is to be written \\x{byte:02x}"
                )
            }
            Wrong::BehindQuotes => write!(
                f,
                "{word} stands right behind the quotes of word {number}"
            ),
            Wrong::TooMany => write!(f, "word {number} ({word}) is one too many"),
        }
    }
}

/// Whether a character stands between words.
fn is_blank(c: char) -> bool {
    matches!(c, ' ' | '\t' | '\r')
}

/// Whether no word goes on with a character.
fn ends_word(c: char) -> bool {
    is_blank(c) || c == '#'
}

/// A text without the blanks that it begins with.
fn behind_blanks(text: &str) -> &str {
    text.trim_start_matches(is_blank)
}

/// Whether a text has no more words.
fn is_end(text: &str) -> bool {
    let rest = behind_blanks(text);
    rest.is_empty() || rest.starts_with('#')
}

/// The word that a text begins with, and what is left.
fn split_word(text: &str) -> (&str, &str) {
    let text = behind_blanks(text);
    let word = text.split(ends_word).next().unwrap_or("");
    (word, text.strip_prefix(word).unwrap_or(""))
}

/// What of a text between quotes was read.
#[derive(Clone, Copy)]
enum Read {
    Whole,
    Backslash,
    /// A `\x`, and so many of its digits.
    Digits(u8),
}

impl Read {
    /// With one more character.
    fn with(self, c: char) -> Result<Read, Wrong> {
        match (self, c) {
            (Read::Whole, '\\') => Ok(Read::Backslash),
            (Read::Whole, '\t') => Ok(Read::Whole),
            (Read::Whole, _) if c.is_ascii_control() => Err(Wrong::Unescaped(c)),
            (Read::Whole, _) => Ok(Read::Whole),
            (Read::Backslash, 'n' | 't' | 'r' | '\\' | '"') => Ok(Read::Whole),
            (Read::Backslash, 'x') => Ok(Read::Digits(0)),
            (Read::Backslash, _) => Err(Wrong::NoEscape(c)),
            (Read::Digits(_), _) if !c.is_ascii_hexdigit() => Err(Wrong::NoDigits),
            (Read::Digits(0), _) => Ok(Read::Digits(1)),
            (Read::Digits(_), _) => Ok(Read::Whole),
        }
    }
}

/// What stands behind the quote that closes a text.
fn behind_text(text: &str) -> Result<&str, Wrong> {
    let mut read = Read::Whole;
    for (place, c) in text.char_indices() {
        if c == '"' && matches!(read, Read::Whole) {
            let closing = text.get(place..).unwrap_or("");
            return Ok(closing.strip_prefix('"').unwrap_or(""));
        }
        read = read.with(c)?;
    }
    Err(Wrong::OpenQuotes)
}

/// What stands behind a number that a text begins with, or the word that is none.
fn behind_number(text: &str, most: u64) -> Result<&str, (&str, Wrong)> {
    let (word, rest) = split_word(text);
    if !word.chars().all(|c| c.is_ascii_digit()) {
        return Err((word, Wrong::NoNumber));
    }
    match word.parse::<u64>() {
        Ok(number) if number <= most => Ok(rest),
        _ => Err((word, Wrong::TooLarge(most))),
    }
}

/// What stands behind the quotes that a text begins with, or the word that is wrong.
fn behind_quotes(text: &str) -> Result<&str, (&str, Wrong)> {
    let (word, _) = split_word(text);
    let Some(quoted) = behind_blanks(text).strip_prefix('"') else {
        return Err((word, Wrong::NoQuotes));
    };
    let rest = match behind_text(quoted) {
        Ok(rest) => rest,
        Err(wrong) => return Err((word, wrong)),
    };
    if rest.is_empty() || rest.starts_with(ends_word) {
        Ok(rest)
    } else {
        Err((split_word(rest).0, Wrong::BehindQuotes))
    }
}

/// What stands behind the next word, behind so many that are right; none behind the last. Or the word that is wrong.
fn behind_word(shape: Shape, before: usize, text: &str) -> Result<Option<&str>, (&str, Wrong)> {
    if is_end(text) && shape.may_end(before) {
        return Ok(None);
    }
    let rest = match shape.kind(before) {
        Some(kind) if is_end(text) => return Err(("", Wrong::Missing(kind))),
        Some(Kind::Number(most)) => behind_number(text, most)?,
        Some(Kind::Text) => behind_quotes(text)?,
        None => return Err((split_word(text).0, Wrong::TooMany)),
    };
    Ok(Some(rest))
}

/// The first word of a line that is wrong, where the line is no command.
pub fn wrong_word(line: &str) -> Option<WrongWord<'_>> {
    let (word, behind) = split_word(line);
    let Some(shape) = Shape::of(word) else {
        return Some(WrongWord {
            number: 1,
            word,
            wrong: Wrong::NoName,
        });
    };
    let mut rest = behind;
    for before in 0..line.len() {
        match behind_word(shape, before, rest) {
            Ok(text) => rest = text?,
            Err((word, wrong)) => {
                return Some(WrongWord {
                    number: before + 2,
                    word,
                    wrong,
                });
            }
        }
    }
    None
}
