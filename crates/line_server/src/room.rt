//! Where a run reads a line, and gathers what is to be kept and told.

ghost use Rattle.std.specs.Prelude.{◌≡◌, [], ◌++◌, IfErr, OnErr, OnOk};
ghost use Rattle.line_server.specs.declared.fault.ServeFault.TheVariants.{Memory};
ghost use Rattle.line_server.specs.Turns.{ended, kept_line};

use crate::fault::ServeFault;
use std::alloc::{AllocFailed, Global};

/// So many bytes are gathered before they are kept and told, and the rest of a line.
const MOST_BYTES: usize = 65_536;

/// Where a run reads a line, and gathers what is to be kept of lines and what is told of them.
#[derive(Drop)]
pub struct Room {
    /// The line that was read last, without its end.
    pub line: Vec<u8>,
    pub(crate) answer: Vec<u8>,
    pub(crate) kept: Vec<u8>,
    pub(crate) told: Vec<u8>,
}

/// Puts a line with its end behind bytes, all of it or nothing.
fn push_ended(bytes: &mut Vec<u8>, line: &[u8]) -> Result<(), ServeFault>
    ensures ok { OnOk result (bytes.new.items ≡ bytes.old.items ++ ended line.now) }
    ensures err { OnErr result (bytes.new.items ≡ bytes.old.items) }
    ensures fault { IfErr result (λ e. e ≡ Memory) }
{
    let before = bytes.len();
    bytes.extend_from_slice(line)?;
    match bytes.push(b'\n') {
        Ok(()) => Ok(()),
        Err(_) => {
            bytes.truncate(before);
            Err(ServeFault::Memory)
        }
    }
}

impl Room {
    /// Room in which nothing stands. It takes no memory.
    pub fn new(alloc: Global) -> Room {
        Room {
            line: Vec::new(alloc),
            answer: Vec::new(alloc),
            kept: Vec::new(alloc),
            told: Vec::new(alloc),
        }
    }

    /// Whether what is gathered is to be kept and told now.
    pub(crate) fn is_full(&self) -> bool {
        self.kept.len().saturating_add(self.told.len()) >= MOST_BYTES
    }

    /// Forgets what was kept and told.
    pub(crate) fn empty(&mut self)
        ensures kept { self.new.kept.items ≡ [] }
        ensures told { self.new.told.items ≡ [] }
    {
        self.kept.clear();
        self.told.clear();
    }

    /// Puts the answer behind the others, and the line, where it is to be kept: all of that or nothing.
    pub(crate) fn gather(&mut self, is_kept: bool) -> Result<(), ServeFault>
        ensures kept { OnOk result
            (self.new.kept.items ≡ self.old.kept.items ++ kept_line is_kept self.old.line.items) }
        ensures told { OnOk result (self.new.told.items ≡ self.old.told.items ++ ended self.old.answer.items) }
        ensures none_kept { OnErr result (self.new.kept.items ≡ self.old.kept.items) }
        ensures none_told { OnErr result (self.new.told.items ≡ self.old.told.items) }
        ensures fault { IfErr result (λ e. e ≡ Memory) }
    {
        let before = self.told.len();
        push_ended(&mut self.told, &self.answer)?;
        if !is_kept {
            return Ok(());
        }
        match push_ended(&mut self.kept, &self.line) {
            Ok(()) => Ok(()),
            Err(fault) => {
                self.told.truncate(before);
                Err(fault)
            }
        }
    }
}
