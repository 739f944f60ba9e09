//! The changes of a `many`.

ghost use Rattle.std.specs.Prelude.{◌≡◌, ◌+◌, ◌^◌, ◌≤◌, [], ◌∷◌, length, take, drop, IfOk, IfErr, OnOk};
ghost use Rattle.std.specs.List.{sum_by};
ghost use Rattle.edit_script.specs.declared.fault.LineFault.TheVariants.{Memory};
ghost use Rattle.edit_script.specs.Words.{Number, Quoted};
ghost use Rattle.edit_script.specs.Commands.{splice_words, splice_kinds};
ghost use Rattle.edit_script.specs.Handed.{placed_splices};
ghost use Rattle.edit_script.specs.Reading.{IsReadAs, change_at, groups_at};

use crate::blanks::is_end;
use crate::fault::LineFault;
use crate::number::number64;
use crate::quoted::quoted_bytes;
use crate::room::Room;
use edit_commands::Change;

/// The change that a line begins with, which leaves what is behind it. Its bytes are put behind those that are there.
fn change(line: &mut &[u8], bytes: &mut Vec<u8>) -> Result<Change, LineFault>
    ensures read { IsReadAs (λ x. (
      Number x.p ∷ Number x.m ∷ Quoted (drop (length bytes.old.items) bytes.new.items) ∷ [],
      line.new.now,
    )) result (change_at line.old.now) }
    ensures len { IfOk result (λ x. length bytes.new.items ≡ length bytes.old.items + x.n) }
    ensures kept { take (length bytes.old.items) bytes.new.items ≡ bytes.old.items }
{
    Ok(Change {
        p: number64(line)?,
        m: number64(line)?,
        n: quoted_bytes(line, bytes)?,
    })
}

/// How many changes there are, where that fits 32 bits.
fn count_of(changes: &[Change]) -> Result<u32, LineFault>
    ensures count { IfOk result (λ n. n ≡ length changes.now) }
    ensures memory { IfErr result (λ e. (e ≡ Memory) × (2 ^ 32 ≤ length changes.now)) }
{
    match u32::try_from(changes.len()) {
        Ok(count) => Ok(count),
        Err(_) => Err(LineFault::Memory),
    }
}

/// Puts the changes of a line, up to its end, into the room, and counts them.
pub fn changes(line: &[u8], room: &mut Room) -> Result<u32, LineFault>
    requires bytes { room.now.bytes.items ≡ [] }
    requires changes { room.now.changes.items ≡ [] }
    ensures read { IsReadAs (λ _. splice_words room.new.bytes.items (placed_splices room.new.changes.items)) result
        (groups_at (length line.now) splice_kinds line.now) }
    ensures count { IfOk result (λ n. n ≡ length room.new.changes.items) }
    ensures takes { OnOk result (sum_by (λ c. c.n) room.new.changes.items ≡ length room.new.bytes.items) }
{
    let mut rest = line;
    while !is_end(rest) {
        let change = change(&mut rest, &mut room.bytes)?;
        room.changes.push(change)?;
    }
    let count = count_of(&room.changes)?;
    Ok(count)
}
