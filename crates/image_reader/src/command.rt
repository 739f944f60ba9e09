//! The numbers of a command in a revision's record.

ghost use Rattle.std.specs.Prelude.{◌≡◌, length};
ghost use Rattle.command_parts.specs.Fields.{edit_by, field_of, unused};
ghost use Rattle.image_reader.specs.declared.layout.TheConstants.{REVISION_SIZE};
ghost use Rattle.image_reader.specs.Reading.{numbers_in, any_nonzero};

use crate::number::{u32_in, u64_in};
use command_parts::{Edit, Numbers};

/// The numbers that a revision's record holds.
pub fn numbers_in(bytes: &[u8]) -> Numbers
    requires { length bytes.now ≡ REVISION_SIZE }
    ensures { result ≡ numbers_in bytes.now }
{
    Numbers {
        r: u32_in(bytes, 8),
        q: u32_in(bytes, 12),
        p: u64_in(bytes, 16),
        m: u64_in(bytes, 24),
        a: u64_in(bytes, 32),
        n: u64_in(bytes, 40),
    }
}

/// Whether a number that the command of this code does not use is not zero: they are not the command's own.
#[tactic(auto, using(crate::proofs::Commands::own_unused, crate::proofs::Commands::unused_own))]
pub fn has_unused_number(code: u8, numbers: Numbers) -> bool
    ensures { result ≡ any_nonzero (unused (edit_by 0 code (field_of numbers)) (field_of numbers)) }
{
    numbers != Edit::of_code(0, code, numbers).recorded().numbers
}
