//! Reading.

ghost use Rattle.std.specs.Prelude.{◌≡◌, ◌⊎◌, ◌+◌, ◌<◌, ◌≤◌, length, OnOk, IfOk, IfErr};
ghost use Rattle.std.specs.Io.KnownBytes.{IsAtEnd, ReadConsumes};
ghost use Rattle.cord_tools.specs.Answers.{AreRead, AreReadUpTo};
ghost use Rattle.cord_tools.specs.Input.{ReadsBehind, ReadsUpTo};
ghost use Rattle.cord_tools.specs.declared.fault.ToolFault.TheVariants.{Memory, Read};

use crate::fault::ToolFault;
use image_reader::{HEADER_SIZE, judged_len};
use std::alloc::Global;
use std::io::{ErrorKind, Read};

/// Bytes are read by so many.
const PIECE: usize = 65_536;

/// One read, made again where it was interrupted.
fn read_some<R: Read>(reader: &mut R, buffer: &mut [u8]) -> Result<usize, ToolFault>
    ensures count { IfOk result (λ n. n ≤ length buffer.new) }
    ensures bytes { ReadConsumes (R.remaining reader.old) (R.remaining reader.new) result buffer.new }
    ensures fault { IfErr result (λ e. (e ≡ Memory) ⊎ (e ≡ Read)) }
{
    for _ in 0..u64::MAX {
        match reader.read(buffer) {
            Ok(n) => return Ok(n),
            Err(error) => match error.kind() {
                ErrorKind::Interrupted => {}
                ErrorKind::OutOfMemory => return Err(ToolFault::Memory),
                _ => return Err(ToolFault::Read),
            },
        }
    }
    Err(ToolFault::Read)
}

/// Reads one piece, of at most `count` bytes, behind those that
/// are there. It answers how many: 0 where the reader ended.
fn read_piece<R: Read>(
    reader: &mut R,
    buffer: &mut [u8],
    bytes: &mut Vec<u8>,
    count: u64,
) -> Result<usize, ToolFault>
    requires { (0 < length buffer.old) × (0 < count) }
    ensures ok { OnOk result (ReadsBehind (R.remaining reader.old) (R.remaining reader.new)
        bytes.old.items bytes.new.items) }
    ensures count { IfOk result (λ n. (n ≤ count) × (length bytes.new.items ≡ length bytes.old.items + n)) }
    ensures end { IfOk result (λ n. n ≡ 0 → IsAtEnd (R.remaining reader.new)) }
    ensures fault { IfErr result (λ e. (e ≡ Memory) ⊎ (e ≡ Read)) }
{
    let size = count.min(buffer.len() as u64) as usize;
    let piece = &mut buffer[..size];
    let read = read_some(reader, piece)?;
    bytes.extend_from_slice(&piece[..read])?;
    Ok(read)
}

/// Reads behind the bytes that are there, until they are `limit`,
/// or the reader ends. Room for `expected` of them is taken first.
fn read_on<R: Read>(
    reader: &mut R,
    bytes: &mut Vec<u8>,
    expected: u64,
    limit: u64,
) -> Result<(), ToolFault>
    requires { length bytes.old.items ≤ limit }
    ensures ok { OnOk result (ReadsUpTo limit (R.remaining reader.old) (R.remaining reader.new)
        bytes.old.items bytes.new.items) }
    ensures fault { IfErr result (λ e. (e ≡ Memory) ⊎ (e ≡ Read)) }
{
    let more = expected.min(limit).saturating_sub(bytes.len() as u64);
    bytes.reserve(usize::try_from(more).map_err(|_| ToolFault::Memory)?)?;
    let mut buffer = [0; PIECE];
    let mut left = limit - bytes.len() as u64;
    while left > 0 {
        let read = read_piece(reader, &mut buffer, bytes, left)?;
        if read == 0 {
            return Ok(());
        }
        left -= read as u64;
    }
    Ok(())
}

/// Reads an image: its header, and the rest where that has no fault by itself, up to one
/// byte more than it states. A longer image is refused by what was read. Room for `expected`
/// bytes is taken before the rest is read, but for no more than the header states.
///
/// # Errors
///
/// `Read` where a read failed; `Memory`.
pub fn read_image<R: Read + Drop>(
    alloc: Global,
    reader: R,
    expected: u64,
) -> Result<Vec<u8>, ToolFault>
    ensures ok { IfOk result (λ v. AreRead (R.remaining reader) v.items) }
    ensures fault { IfErr result (λ e. (e ≡ Memory) ⊎ (e ≡ Read)) }
{
    let mut reader = reader;
    let mut bytes = Vec::new(alloc);
    read_on(&mut reader, &mut bytes, 0, HEADER_SIZE as u64)?;
    if bytes.len() < HEADER_SIZE {
        return Ok(bytes);
    }
    let limit = judged_len(&bytes);
    read_on(&mut reader, &mut bytes, expected, limit)?;
    Ok(bytes)
}

/// Reads all the bytes, and at most `limit` of them. Room for `expected` bytes is taken first.
pub fn read_up_to<R: Read + Drop>(
    alloc: Global,
    reader: R,
    expected: u64,
    limit: u64,
) -> Result<Vec<u8>, ToolFault>
    ensures ok { IfOk result (λ v. AreReadUpTo limit (R.remaining reader) v.items) }
    ensures fault { IfErr result (λ e. (e ≡ Memory) ⊎ (e ≡ Read)) }
{
    let mut reader = reader;
    let mut bytes = Vec::new(alloc);
    read_on(&mut reader, &mut bytes, expected, limit)?;
    Ok(bytes)
}
