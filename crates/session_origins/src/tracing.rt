//! Where a byte of an open session comes from.

ghost use Rattle.std.specs.Prelude.{◌↔◌, ◌<◌, IfSome, IsSome};
ghost use Rattle.byte_origins.specs.StepsBack.{IsOriginAt};
ghost use Rattle.edit_commands.specs.Session.{length_at};
ghost use Rattle.session_image.specs.Written.{image_of};

use crate::history::SessionHistory;
use byte_origins::OriginRun;
use edit_commands::Session;
use rope_node::NodeSpace;

/// Where the byte at `place` of the text of revision `k` comes from, and how many bytes from it on came in together with
/// it: what `byte_origins::origin` tells of the session's image, which need not be written for it. It takes no memory.
/// There is none where the text has no such place, or there is no such revision.
pub fn origin(session: &Session, k: u32, place: u64) -> Option<OriginRun>
    ensures there { IsSome result ↔ place < length_at session.now k }
    ensures run { IfSome result (IsOriginAt (image_of session.now) k place) }
{
    // The session and its store keep their rules, as their counts say.
    let _nodes = session.space().count();
    let _count = session.count();
    byte_origins::origin(SessionHistory(session), k, place)
}
