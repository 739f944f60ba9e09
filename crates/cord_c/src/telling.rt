//! The origins of a text from a place on, told into a caller's room by one way back for them all.

// The lines `let _count = ..` are for the proof: the image's records are true, as these calls say.

ghost use Rattle.std.specs.Prelude.{◌≡◌, ◌+◌, ◌≤◌, length};
ghost use Rattle.byte_origins.specs.EarlierTexts.{len_of_text};
ghost use Rattle.byte_origins.specs.Stretches.{IsStretch};
ghost use Rattle.cord_c.specs.Opened.{opened_image};
ghost use Rattle.cord_c.specs.OriginRooms.{TellsFirst, TellsOrigins, TellsRuns};

use crate::open::CordImage;
use crate::waiting::{put_behind, stretch_of};
use byte_origins::{CameFrom, OriginRun, Stretch, taken};
use cord_types::CordOrigin;
use session_checker::Checked;

/// The run that a stretch begins with, as far as its bytes came in together. What lies behind it on the way back waits
/// from the answered slot on, in front of those that wait from `left` on.
fn first_run(
    image: &Checked,
    room: &mut [CordOrigin],
    from: usize,
    left: usize,
    x: Stretch,
) -> (OriginRun, usize)
    requires stretch { IsStretch image.now x }
    requires order { from ≤ left }
    requires inside { left ≤ length room.old }
    ensures { TellsFirst image.now x room.old from left room.new result.0 result.1 }
{
    let _count = image.revisions();
    let mut top = x;
    let mut at = left;
    'back: loop {
        // Most steps are over one splice that is put in front of all bytes or behind them all.
        match top.moved(image) {
            Some(moved) => top = moved,
            None => {
                let came = taken(image, top.revision, top.first, top.place);
                at = put_behind(room, from, at, top, came.len());
                match came {
                    CameFrom::Run(run) => {
                        let len = top.len.min(run.len);
                        return (OriginRun { len, ..run }, at);
                    }
                    CameFrom::FromText(j, place, n) => top = top.earlier(image, j, place, n),
                }
            }
        }
    }
}

/// Tells the runs of the rest of a text, as many as the room takes, and answers how many they are.
fn tell(image: &Checked, room: &mut [CordOrigin], rest: Stretch) -> usize
    requires some { 1 ≤ length room.old }
    requires stretch { IsStretch image.now rest }
    requires whole { rest.place + rest.len ≡ len_of_text image.now rest.revision }
    ensures { TellsRuns image.now rest.revision rest.place room.new result }
{
    let _count = image.revisions();
    let all = room.len();
    let mut top = rest;
    let mut left = all;
    let mut done = 0;
    'told: loop {
        let (run, at) = first_run(image, room, done + 1, left, top);
        room[done] = CordOrigin::of(run);
        done += 1;
        if at == all {
            return done;
        }
        top = stretch_of(room[at]);
        left = at + 1;
    }
}

/// The same, also where there is no room.
fn tell_all(image: &Checked, room: &mut [CordOrigin], rest: Stretch) -> usize
    requires stretch { IsStretch image.now rest }
    requires whole { rest.place + rest.len ≡ len_of_text image.now rest.revision }
    ensures { TellsRuns image.now rest.revision rest.place room.new result }
{
    if room.is_empty() {
        return 0;
    }
    tell(image, room, rest)
}

/// Where the bytes of the text of a revision from a place on come from: the runs that `cord_origin` tells, one behind the
/// other, to the text's end, or as many as fill half of the room, or more. Answers how many by `count`. Where there is no
/// such place, or no such revision, `count` is 0, and `runs` stays. It takes no memory and no source.
#[unsafe(no_mangle)]
pub extern "C" fn cord_origins(
    image: &CordImage,
    revision: u32,
    place: u64,
    runs: &mut [CordOrigin],
    count: &mut usize,
) -> bool
    ensures { TellsOrigins (opened_image image.now) revision place runs.old runs.new count.new result }
{
    *count = 0;
    let image = image.checked();
    match Stretch::rest_of(&image, revision, place) {
        Some(rest) => {
            *count = tell_all(&image, runs, rest);
            true
        }
        None => false,
    }
}
