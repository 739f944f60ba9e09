//! A reader whose bytes are kept before they are given.

ghost use Rattle.std.specs.Prelude.{Ok, None, ◌≡◌, [], ◌∷◌, IfOk, IfErr, IsTrue, OnOk, OnErr, option_to_list};
ghost use Rattle.std.specs.Io.KnownBytes.{Appends, Consumes, IsAtEnd, Keeps};
ghost use Rattle.key_journal.specs.Keys.{goes_on, kept_of};
ghost use Rattle.key_journal.specs.Left.{IsKeepFault, IsNextByte, keys_kept, keys_left};
ghost use Rattle.key_journal.specs.declared.kept.KeepFault.TheVariants as KeepFault;

use crate::ready::Ready;
use std::io::{ErrorKind, Read, Write};

/// The key that saves and ends a run.
pub const SAVE: u8 = 0x18;

/// The key that ends a run.
pub const LEAVE: u8 = 0x03;

/// Whether a run goes on behind this key.
pub(crate) fn goes_on(key: u8) -> bool
    ensures { result ≡ goes_on key }
{
    key != SAVE && key != LEAVE
}

/// Why no key was given.
#[derive(Clone, Copy, Debug, PartialEq, Eq)]
pub enum KeepFault {
    /// The reader failed.
    Read,
    /// The journal could not be written.
    Write,
}

/// Reads one byte, or none at the end. A read that was interrupted is made again.
fn read_one<R: Read>(reader: &mut R) -> Result<Option<u8>, KeepFault>
    ensures next { IfOk result (IsNextByte (R.remaining reader.old) (R.remaining reader.new)) }
    ensures err { OnErr result (Consumes (R.remaining reader.old) (R.remaining reader.new) []) }
    ensures fault { IfErr result (λ f. f ≡ KeepFault.Read) }
{
    let mut one = [0];
    for _ in 0..u64::MAX {
        match reader.read(&mut one) {
            Ok(0) => return Ok(None),
            Ok(_) => return Ok(Some(one[0])),
            Err(error) => {
                if error.kind() != ErrorKind::Interrupted {
                    return Err(KeepFault::Read);
                }
            }
        }
    }
    Err(KeepFault::Read)
}

/// Writes one byte. A write that was interrupted is made again.
fn write_one<W: Write>(writer: &mut W, byte: u8) -> Result<(), KeepFault>
    ensures ok { OnOk result (Appends (W.contents writer.old) (W.contents writer.new) (byte ∷ [])) }
    ensures err { OnErr result (Keeps (W.contents writer.old) (W.contents writer.new)) }
    ensures fault { IfErr result (λ f. f ≡ KeepFault.Write) }
{
    for _ in 0..u64::MAX {
        match writer.write(&[byte]) {
            Ok(0) => return Err(KeepFault::Write),
            Ok(_) => return Ok(()),
            Err(error) => {
                if error.kind() != ErrorKind::Interrupted {
                    return Err(KeepFault::Write);
                }
            }
        }
    }
    Err(KeepFault::Write)
}

/// The keys of `inner`, each of which is written to `journal` before it is given, but for those that end a run.
#[derive(Drop)]
pub struct Kept<R: Drop, W: Drop> {
    inner: R,
    journal: W,
    /// What was read and is not given yet.
    held: Option<u8>,
}

impl<R: Read + Drop, W: Write + Drop> Kept<R, W> {
    /// What the reader has left, kept in the journal behind what that holds.
    pub fn new(inner: R, journal: W) -> Kept<R, W>
        ensures left { keys_left R.remaining result ≡ R.remaining inner }
        ensures kept { keys_kept W.contents result ≡ W.contents journal }
    {
        Kept {
            inner,
            journal,
            held: None,
        }
    }

    /// Reads a byte where none is held. Answers the byte that is held then, or none at the end.
    fn hold(&mut self) -> Result<Option<u8>, KeepFault>
        ensures held { IfOk result (λ byte. self.new.held ≡ byte) }
        ensures left { Consumes (keys_left R.remaining self.old) (keys_left R.remaining self.new) [] }
        ensures end { result ≡ Ok None → IsAtEnd (keys_left R.remaining self.new) }
        ensures journal { self.new.journal ≡ self.old.journal }
        ensures fault { IfErr result (IsKeepFault self.new) }
    {
        if self.held.is_none() {
            self.held = read_one(&mut self.inner)?;
        }
        Ok(self.held)
    }

    /// Writes a key to the journal, or not where it ends a run.
    fn keep(&mut self, key: u8) -> Result<(), KeepFault>
        ensures ok { OnOk result
            (Appends (W.contents self.old.journal) (W.contents self.new.journal) (kept_of (key ∷ []))) }
        ensures err { OnErr result (Keeps (W.contents self.old.journal) (W.contents self.new.journal)) }
        ensures inner { self.new.inner ≡ self.old.inner }
        ensures held { self.new.held ≡ self.old.held }
        ensures fault { IfErr result (λ f. (f ≡ KeepFault.Write) × IsTrue (goes_on key)) }
    {
        if goes_on(key) {
            write_one(&mut self.journal, key)?;
        }
        Ok(())
    }

    /// The next key, or none at the end. The journal has it, unless it ends a run.
    ///
    /// # Errors
    ///
    /// `Read` and `Write`, where that fails. The journal is as it was then, and the key is still to be given.
    pub fn next_key(&mut self) -> Result<Option<u8>, KeepFault>
        ensures next { IfOk result (IsNextByte (keys_left R.remaining self.old) (keys_left R.remaining self.new)) }
        ensures kept { IfOk result (λ key. Appends (keys_kept W.contents self.old) (keys_kept W.contents self.new)
            (kept_of (option_to_list key))) }
        ensures none_given { OnErr result
            (Consumes (keys_left R.remaining self.old) (keys_left R.remaining self.new) []) }
        ensures none_kept { OnErr result (Appends (keys_kept W.contents self.old) (keys_kept W.contents self.new) []) }
        ensures fault { IfErr result (IsKeepFault self.new) }
    {
        let Some(key) = self.hold()? else {
            return Ok(None);
        };
        self.keep(key)?;
        self.held = None;
        Ok(Some(key))
    }
}

impl<R: Ready + Drop, W: Write + Drop> Kept<R, W> {
    /// Whether the next key is there already. None is given, and none is kept.
    pub fn is_ready(&mut self) -> bool
        ensures left { Consumes (keys_left R.remaining self.old) (keys_left R.remaining self.new) [] }
        ensures journal { keys_kept W.contents self.new ≡ keys_kept W.contents self.old }
    {
        self.held.is_some() || self.inner.is_ready()
    }
}
