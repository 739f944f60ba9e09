//! Lines read to their ends.

ghost use Rattle.std.specs.Prelude.{◌≡◌, ◌⊎◌, ℕ, List, [], ◌∷◌, ◌++◌, IfOk, IfErr, OnOk, OnErr, IsTrue, IfSome, not};
ghost use Rattle.std.specs.Io.{StopsAt};
ghost use Rattle.std.specs.Io.KnownBytes.{Consumes, IsAtEnd};
ghost use Rattle.std.specs.Io.BufRead.{DropsThrough, take_through};
ghost use Rattle.line_server.specs.declared.fault.ServeFault.TheVariants.{Read, Memory};
ghost use Rattle.line_server.specs.Turns.{HasNoEnd, ended};
ghost use Rattle.line_server.specs.Reading.{ReadsLine};

use crate::fault::ServeFault;
use std::io::{BufRead, ErrorKind};

/// Reads up to the end of a line, in place of what the room held.
fn read_through<R: BufRead>(reader: &mut R, room: &mut Vec<u8>) -> Result<(), ServeFault>
    ensures read { Consumes (R.remaining reader.old) (R.remaining reader.new) room.new.items }
    ensures stops { StopsAt room.new.items 10 }
    ensures bytes { OnOk result (IfSome (R.remaining reader.old) (λ xs. room.new.items ≡ take_through 10 xs)) }
    ensures rest { OnOk result (DropsThrough (R.remaining reader.old) (R.remaining reader.new) 10) }
    ensures fault { IfErr result (λ e. (e ≡ Read) ⊎ (e ≡ Memory)) }
{
    room.clear();
    match reader.read_until(b'\n', room) {
        Ok(_) => Ok(()),
        Err(error) => {
            if error.kind() == ErrorKind::OutOfMemory {
                Err(ServeFault::Memory)
            } else {
                Err(ServeFault::Read)
            }
        }
    }
}

/// Whether a line ends at the end of a text that it ends nowhere else in.
fn is_ended(text: &[u8]) -> bool
    requires { StopsAt text.now 10 }
    ensures open { IsTrue (not result) → HasNoEnd text.now }
    ensures ended { IsTrue result → (line : List ℕ) × (text.now ≡ ended line) × HasNoEnd line }
{
    text.last() == Some(&b'\n')
}

/// Reads a line, and takes its end away. Answers whether it had one: what the input ends with has none.
pub(crate) fn read_line<R: BufRead>(reader: &mut R, room: &mut Vec<u8>) -> Result<bool, ServeFault>
    ensures { ReadsLine (R.remaining reader.old) (R.remaining reader.new) room.new.items result }
{
    read_through(reader, room)?;
    if is_ended(room) {
        let _ = room.pop();
        Ok(true)
    } else {
        Ok(false)
    }
}
