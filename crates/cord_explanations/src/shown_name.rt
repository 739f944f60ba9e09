//! Names, as a terminal may be shown them.

use std::fmt;

/// A name, whose control characters are told by their numbers, as `\x1b`: a terminal would take them for its own.
#[derive(Clone, Copy)]
pub struct ShownName<'a> {
    pub name: &'a str,
}

impl fmt::Display for ShownName<'_> {
    fn fmt<W: fmt::Write>(&self, f: &mut fmt::Formatter<W>) -> fmt::Result {
        for c in self.name.chars() {
            if c.is_control() {
                write!(f, "\\x{:02x}", u32::from(c))?;
            } else {
                f.write_char(c)?;
            }
        }
        Ok(())
    }
}
