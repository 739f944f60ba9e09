//! A source that is read whole.

ghost use Rattle.std.specs.Prelude.{◌≡◌, ◌⊎◌, IfOk, IfErr};
ghost use Rattle.cord_tools.specs.Answers.{AreReadUpTo};
ghost use Rattle.cord_tools.specs.Sources.{source_limit};
ghost use Rattle.cord_tools.specs.declared.fault.ToolFault.TheVariants.{Memory, Read};

use crate::fault::ToolFault;
use crate::input::read_up_to;
use lazy_file::SOURCE_LIMIT;
use std::alloc::Global;
use std::io;

/// Reads the text of a source that tells no size, and at most 2^40 bytes of it. That is one more than a source may
/// have, so a longer one is refused by what was read.
///
/// # Errors
///
/// `Read`, where the reader failed. `Memory`.
pub fn read_source<R: io::Read + Drop>(alloc: Global, reader: R) -> Result<Vec<u8>, ToolFault>
    ensures ok { IfOk result (λ v. AreReadUpTo source_limit (R.remaining reader) v.items) }
    ensures fault { IfErr result (λ e. (e ≡ Memory) ⊎ (e ≡ Read)) }
{
    read_up_to(alloc, reader, 0, SOURCE_LIMIT + 1)
}
