//! The sources handed in, beside those that the image says.

ghost use Rattle.std.specs.Prelude.{◌↔◌, IsOk, IfErr};
ghost use Rattle.image_reader.specs.Accepted.{HasSources};
ghost use Rattle.session_checker.specs.SourceRules.{IsFirstSourceFault};

use crate::fault::CheckFault;
use image_reader::Records;
use lazy_file::Sources;
use std::sync::ledger::Ledger;

/// Whether the sources are as many and as long as the image says. The fault is the first.
pub fn check_sources<S: Sources, L: Ledger>(
    records: &Records<'_, '_, '_, L>,
    sources: &S,
) -> Result<(), CheckFault>
    ensures ok { IsOk result ↔ HasSources records.now.image.now (S.reading sources.now).stated.sizes }
    ensures err { IfErr result (IsFirstSourceFault records.now.image.now (S.reading sources.now).stated.sizes) }
{
    let count = records.source_count();
    if count != u32::from(sources.count()) {
        return Err(CheckFault::SourceCount);
    }
    for s in 0..count {
        if records.source_len(s) != sources.len(s as u8) {
            return Err(CheckFault::SourceLength(s));
        }
    }
    Ok(())
}
