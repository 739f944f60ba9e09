//! Stretches of texts that wait in a caller's room until their origins are told.

ghost use Rattle.std.specs.Prelude.{◌≡◌, ◌+◌, ◌<◌, ◌≤◌, ◌^◌, length};
ghost use Rattle.cord_c.specs.OriginRooms.{FreesSlot, PutsInFront, behind_of, stretch_of, waiting_numbers};

use byte_origins::Stretch;
use cord_types::CordOrigin;

/// The kind of a stretch that waits.
pub const WAITING: u32 = 0;

/// The numbers of a stretch that waits.
fn waiting(x: Stretch) -> CordOrigin
    ensures { result ≡ waiting_numbers x }
{
    CordOrigin {
        revision: x.revision,
        kind: WAITING,
        source: x.first,
        byte: 0,
        place: x.place,
        start: 0,
        len: x.len,
    }
}

/// The stretch that has these numbers.
pub(crate) fn stretch_of(x: CordOrigin) -> Stretch
    ensures { result ≡ stretch_of x }
{
    Stretch {
        revision: x.revision,
        place: x.place,
        len: x.len,
        first: x.source,
    }
}

/// Frees a slot in front of those that wait from `left` on, where none
/// from `from` on is free: then only the first half of them is kept.
fn free_slot(room: &mut [CordOrigin], from: usize, left: usize) -> usize
    requires order { from ≤ left }
    requires inside { left ≤ length room.old }
    ensures { FreesSlot room.old from left room.new result }
{
    if from < left {
        return left;
    }
    let kept = (room.len() - left) / 2;
    let at = room.len() - kept;
    room.copy_within(left..left + kept, at);
    at
}

/// Puts what lies behind the first `n` bytes of a stretch, where there is something, in front of those
/// that wait from `left` on, in the slots from `from` on. Answers from which slot on they wait then.
pub(crate) fn put_behind(
    room: &mut [CordOrigin],
    from: usize,
    left: usize,
    x: Stretch,
    n: u64,
) -> usize
    requires fits { x.place + x.len < 2 ^ 64 }
    requires order { from ≤ left }
    requires inside { left ≤ length room.old }
    ensures { PutsInFront (behind_of x n) room.old from left room.new result }
{
    if n >= x.len {
        return left;
    }
    let free = free_slot(room, from, left);
    if free == from {
        return free;
    }
    room[free - 1] = waiting(x.behind(n));
    free - 1
}
