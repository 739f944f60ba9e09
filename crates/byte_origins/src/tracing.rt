//! Where a byte of a text comes from: step by step back, until a command brought it.

// The line `let _count = ..` is for the proof: the history's records are true, as this call says.

ghost use Rattle.std.specs.Prelude.{◌≡◌, ◌↔◌, ◌+◌, ◌<◌, length, IfSome, IsSome};
ghost use Rattle.byte_origins.specs.EarlierTexts.{len_of_text};
ghost use Rattle.byte_origins.specs.Origins.{origins_at};
ghost use Rattle.byte_origins.specs.StepsBack.{IsOriginAt};
ghost use Rattle.byte_origins.specs.Stretches.{IsStretch};

use crate::history::History;
use crate::run::OriginRun;
use crate::stretch::Stretch;
use crate::taking::{CameFrom, taken};

/// The run of origins at the beginning of the rest of a text, as far as its bytes came in together.
fn walked<H: History>(history: H, rest: Stretch) -> OriginRun
    requires stretch { IsStretch (H.image history) rest }
    requires whole { rest.place + rest.len ≡ len_of_text (H.image history) rest.revision }
    ensures { IsOriginAt (H.image history) rest.revision rest.place result }
{
    let _count = history.revision_count();
    let mut top = rest;
    'back: loop {
        match taken(history, top.revision, top.first, top.place) {
            CameFrom::Run(run) => {
                return OriginRun {
                    first: run.first,
                    len: top.len.min(run.len),
                };
            }
            CameFrom::FromText(j, place, n) => top = top.earlier(history, j, place, n),
        }
    }
}

/// Where the byte at `place` of the text of revision `k` comes from, and how
/// many bytes from it on came in together with it. It takes no memory.
pub fn origin<H: History>(history: H, k: u32, place: u64) -> Option<OriginRun>
    ensures there { IsSome result ↔ place < length (origins_at (H.image history) k) }
    ensures run { IfSome result (IsOriginAt (H.image history) k place) }
{
    let rest = Stretch::rest_of(history, k, place)?;
    Some(walked(history, rest))
}
