//! Which file of a run could not be read or written.

use cord_explanations::{Explanation, explained_file};
use cord_tools::ToolFault;
use std::alloc::Global;
use std::cell::RefCell;
use std::io::{self, ErrorKind, Printer};

/// How standard input and standard output are named.
pub const STANDARD_INPUT: &str = "standard input";

const STANDARD_OUTPUT: &str = "standard output";

/// A file, and why the system did not read or write it.
#[derive(Drop)]
struct FileFault {
    fault: ToolFault,
    name: String,
    why: io::Error,
}

/// The first file that could not be read or written.
#[derive(Drop)]
pub struct Faults {
    alloc: Global,
    first: RefCell<Option<FileFault>>,
}

impl Faults {
    /// None yet.
    pub fn new(alloc: Global) -> Faults {
        Faults {
            alloc,
            first: RefCell::new(None),
        }
    }

    /// Keeps the first one. What memory has no room for is not told.
    fn keep(&self, fault: ToolFault, name: &str, why: io::Error) {
        let Ok(mut first) = self.first.try_borrow_mut() else {
            return;
        };
        if first.is_some() {
            return;
        }
        if let Ok(name) = String::from_str(self.alloc, name) {
            *first = Some(FileFault { fault, name, why });
        }
    }

    /// This file could not be read. Want of memory is told as that.
    pub fn unread(&self, name: &str, why: io::Error) -> ToolFault {
        if why.kind() == ErrorKind::OutOfMemory {
            return ToolFault::Memory;
        }
        self.keep(ToolFault::Read, name, why);
        ToolFault::Read
    }

    /// This file could not be written.
    pub fn unwritten(&self, name: &str, why: io::Error) -> ToolFault {
        self.keep(ToolFault::Write, name, why);
        ToolFault::Write
    }

    /// What the code of a fault means, where a file is known for it.
    pub fn explained<'a>(&self, fault: ToolFault, code: &'a str) -> Option<Explanation<'a>> {
        let first = self.first.try_borrow().ok()?;
        match &*first {
            Some(kept) if kept.fault == fault => {
                explained_file(self.alloc, code, &kept.name, kept.why)
            }
            _ => None,
        }
    }

    /// Standard output.
    pub fn output<'a>(&'a self, rt: &'a HostRuntime) -> Output<'a> {
        Output {
            writer: io::writer(rt),
            faults: self,
        }
    }

    /// A reader of this name.
    pub fn input<'a, R>(&'a self, name: &'a str, reader: R) -> Input<'a, R> {
        Input {
            reader,
            name,
            faults: self,
        }
    }
}

/// Standard output, whose faults are kept.
#[derive(Drop)]
pub struct Output<'a> {
    writer: Printer<'a, HostRuntime>,
    faults: &'a Faults,
}

impl io::Write for Output<'_> {
    fn write(&mut self, bytes: &[u8]) -> io::Result<usize> {
        let written = self.writer.write(bytes);
        if let Err(error) = &written {
            if error.kind() != ErrorKind::Interrupted {
                self.faults.unwritten(STANDARD_OUTPUT, *error);
            }
        }
        written
    }

    fn flush(&mut self) -> io::Result<()> {
        self.writer.flush()
    }
}

/// An input, whose faults are kept.
#[derive(Drop)]
pub struct Input<'a, R> {
    reader: R,
    name: &'a str,
    faults: &'a Faults,
}

impl<R: io::Read> io::Read for Input<'_, R> {
    fn read(&mut self, buffer: &mut [u8]) -> io::Result<usize> {
        let read = self.reader.read(buffer);
        if let Err(error) = &read {
            if error.kind() != ErrorKind::Interrupted {
                self.faults.unread(self.name, *error);
            }
        }
        read
    }
}
