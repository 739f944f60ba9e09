//! The order of two files.

ghost use Rattle.std.specs.Prelude.{◌≡◌, ◌⊎◌, ◌≤◌, ◌++◌, length, IfOk, IfErr};
ghost use Rattle.cord_tools.specs.Files.{ComparesFiles, IsOrderOfFiles, file_cells, order_line, order_status};
ghost use Rattle.cord_tools.specs.Unread.{ToolReadsCells};
ghost use Rattle.cord_tools.specs.declared.fault.ToolFault.TheVariants.{Memory, Read};

use crate::fault::ToolFault;
use crate::files::{part, store_of};
use crate::status::Status;
use byte_output::write_bytes;
use cord_search::cmp;
use lazy_file::Sources;
use std::alloc::Global;
use std::cmp::Ordering;
use std::io;

/// The line that tells an order.
fn line_of(order: Ordering) -> &'static [u8]
    ensures { result.now ≡ order_line order }
{
    match order {
        Ordering::Less => b"less\n",
        Ordering::Equal => b"equal\n",
        Ordering::Greater => b"greater\n",
    }
}

/// Whether files of this order are equal.
fn equality_status(order: Ordering) -> Status
    ensures { result ≡ order_status order }
{
    match order {
        Ordering::Equal => Status::Success,
        Ordering::Less | Ordering::Greater => Status::Failure,
    }
}

/// The order of the first two sources. The fault is `Read` or `Memory`.
fn order_of<T: Sources>(alloc: Global, sources: &mut T) -> Result<Ordering, ToolFault>
    requires { 2 ≤ length (T.reading sources.old).stated.sizes }
    ensures order { IfOk result (IsOrderOfFiles (T.reading sources.old).stated) }
    ensures fault { IfErr result (λ e. (e ≡ Read) ⊎ (e ≡ Memory)) }
    ensures reads { ToolReadsCells (T.reading sources.old) (T.reading sources.new)
        (file_cells (T.reading sources.old).stated.sizes 0 ++ file_cells (T.reading sources.old).stated.sizes 1)
        result }
{
    let mut store = store_of(alloc, sources)?;
    let first = part(&mut store, 0, 0, u64::MAX)?;
    let second = part(&mut store, 1, 0, u64::MAX)?;
    Ok(cmp(alloc, &store, sources, first, second)?)
}

/// Compares the bytes of the first two sources. It writes the line `less`, `equal` or `greater`, and answers `Success`
/// where they are equal, else `Failure`. Where the writer fails, a prefix of the line was written.
///
/// # Errors
///
/// `Write`, where the writer failed or took no byte. `Read`, where a source could not be read. `Memory`.
pub fn run_cmp<T: Sources, W: io::Write>(
    alloc: Global,
    sources: &mut T,
    writer: &mut W,
) -> Result<Status, ToolFault>
    requires { 2 ≤ length (T.reading sources.old).stated.sizes }
    ensures { ComparesFiles (T.reading sources.old) (T.reading sources.new)
        (W.contents writer.old) (W.contents writer.new) result }
{
    let order = order_of(alloc, sources)?;
    write_bytes(writer, line_of(order))?;
    Ok(equality_status(order))
}
