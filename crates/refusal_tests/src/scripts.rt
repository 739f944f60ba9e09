//! Scripts that are applied, the image of one, its log, and where its bytes come from.

use crate::fakes::{Giver, ONE_INSERT_IN_TWO, Taker};
use crate::kept::{Reach, session_digest};
use crate::refusals::{Refusals, TRIES, assert_same};
use crate::sessions::{assert_text, session_of};
use edit_commands::{EditFault, Session};
use edit_script::{Room, Stop, Stopped, apply_script};
use lazy_file::MemSources;
use line_server::{End, Room as LineRoom, ServeFault};
use saved_session::TakeFault;
use script_tools::{
    ApplyFault, BlameFault, BytesOfText, LogFault, LogTexts, OntoFault, run_apply, run_apply_onto,
    run_blame, run_log,
};
use session_checker::WantedRevision;
use session_server::{Speaking, serve_speaking};
use std::alloc::AllocGlobal;
use std::io::BufReader;
use std::process::Abort;
use work_progress::Untold;

/// The lines of a script, of which each makes a revision.
const LINES: [&[u8]; 4] = [
    b"new",
    b"insert 0 0 \"abcdef\"",
    b"many 1 1 2 \"X\" 4 0 \"YZ\" 5 1 \"\"",
    b"paste 1 1 1 0 3",
];

/// The texts of its revisions.
const TEXTS: [&[u8]; 4] = [b"", b"abcdef", b"aXdYZe", b"aabcbcdef"];

/// Whether a script was stopped for want of memory.
fn wants_memory(why: Stop) -> bool {
    matches!(why, Stop::Memory | Stop::Refused(EditFault::Memory))
}

/// Applies a line, once more where that was refused memory.
fn applied<A: AllocGlobal + Abort>(
    rt: &A,
    session: &mut Session,
    line: &[u8],
    refusals: &mut Refusals,
) {
    let mut none = MemSources::new(rt.alloc());
    let reach = Reach::of(session.space());
    let before = session_digest(rt, session, &mut none, reach);
    for _ in 0..TRIES {
        match apply_script(session, line, &mut Room::new(rt.alloc())) {
            Ok(()) => return,
            Err(Stopped { line, why }) => {
                assert!(rt; wants_memory(why), "{why:?}");
                assert_same(rt, &line, &1, &"the line");
                let now = session_digest(rt, session, &mut none, reach);
                refusals.met(rt, &now, &before);
            }
        }
    }
    panic!(rt; "refused each time")
}

pub(crate) fn lines<A: AllocGlobal + Abort>(rt: &A, refusals: &mut Refusals) {
    let mut session = session_of(rt, &[], refusals);
    for line in LINES {
        applied(rt, &mut session, line, refusals);
    }
    for (k, text) in (0u32..).zip(TEXTS.iter()) {
        assert_text(rt, &session, k, *text);
    }
    assert_same(rt, &session.count(), &4, &"revisions");
}

/// Whether no image was made for want of memory.
fn has_no_memory(fault: ApplyFault) -> bool {
    match fault {
        ApplyFault::Stop(stopped) => wants_memory(stopped.why),
        ApplyFault::Source(fault) => fault == EditFault::Memory,
        ApplyFault::Write => false,
    }
}

/// The image of a script over a source, which is written at once or not at all.
pub(crate) fn image<A: AllocGlobal + Abort>(rt: &A, refusals: &mut Refusals) {
    let script = b"new\ninsert 0 0 \"abc\"".as_slice();
    for _ in 0..TRIES {
        let mut writer = Taker::new();
        match run_apply(rt.alloc(), script, &[], &mut writer) {
            Ok(()) => {
                assert_same(rt, &writer.taken(), &ONE_INSERT_IN_TWO, &"the image");
                return;
            }
            Err(fault) => {
                assert!(rt; has_no_memory(fault), "{fault:?}");
                refusals.met(rt, &writer.taken().len(), &0);
            }
        }
    }
    panic!(rt; "refused each time")
}

/// Whether no image was made behind another for want of memory.
fn has_no_memory_behind(fault: OntoFault) -> bool {
    match fault {
        OntoFault::TakeUp(fault) => fault == TakeFault::Memory,
        OntoFault::Stop(stopped) => wants_memory(stopped.why),
        OntoFault::Check(_) | OntoFault::Write => false,
    }
}

/// Writes the image of a script behind an image, whose bytes are handed over.
fn behind<A: AllocGlobal + Abort>(
    rt: &A,
    script: &[u8],
    writer: &mut Taker,
) -> Result<(), OntoFault> {
    let Ok(image) = ONE_INSERT_IN_TWO.to_vec(rt.alloc()) else {
        return Err(OntoFault::TakeUp(TakeFault::Memory));
    };
    let mut none = MemSources::new(rt.alloc());
    run_apply_onto(
        rt.alloc(),
        image,
        &mut none,
        None,
        script,
        writer,
        &mut Untold,
    )
}

/// What is written of a script behind an image, which is made again where memory was refused.
fn image_behind<A: AllocGlobal + Abort>(rt: &A, script: &[u8], refusals: &mut Refusals) -> Taker {
    for _ in 0..TRIES {
        let mut writer = Taker::new();
        match behind(rt, script, &mut writer) {
            Ok(()) => return writer,
            Err(fault) => {
                assert!(rt; has_no_memory_behind(fault), "{fault:?}");
                refusals.met(rt, &writer.taken().len(), &0);
            }
        }
    }
    panic!(rt; "refused each time")
}

/// The images of scripts behind an image: of one without a command, which is the image itself, and of one with a
/// command, which has a revision of 56 bytes more and no row.
pub(crate) fn images_behind<A: AllocGlobal + Abort>(rt: &A, refusals: &mut Refusals) {
    let again = image_behind(rt, b"", refusals);
    assert_same(rt, &again.taken(), &ONE_INSERT_IN_TWO, &"the image");
    let longer = image_behind(rt, b"new", refusals);
    let wanted = ONE_INSERT_IN_TWO.len() + 56;
    assert_same(rt, &longer.taken().len(), &wanted, &"a revision more");
}

/// The log of the image.
const LOG: &[u8] = b"new # 0: 0 bytes, depth 0, 0 rows\n\
    insert 0 0 \"abc\" # 1: 3 bytes, depth 0, balanced, 1 rows\n";

/// The log of an image. A front of it is written where memory is refused.
pub(crate) fn logged<A: AllocGlobal + Abort>(rt: &A, refusals: &mut Refusals) {
    for _ in 0..TRIES {
        let mut writer = Taker::new();
        let mut none = MemSources::new(rt.alloc());
        match run_log(
            rt.alloc(),
            ONE_INSERT_IN_TWO,
            &mut none,
            None,
            LogTexts::Whole,
            &mut writer,
        ) {
            Ok(()) => {
                assert_same(rt, &writer.taken(), &LOG, &"the log");
                return;
            }
            Err(fault) => {
                assert_same(rt, &fault, &LogFault::Memory, &"the fault");
                refusals.met(rt, &LOG.starts_with(writer.taken()), &true);
            }
        }
    }
    panic!(rt; "refused each time")
}

/// Where the bytes of a text come from. A front of the lines is written where memory is refused.
pub(crate) fn blamed<A: AllocGlobal + Abort>(rt: &A, refusals: &mut Refusals) {
    let lines = b"0 3 1 0 insert 0 0 \"abc\"\n".as_slice();
    let wanted = BytesOfText {
        revision: WantedRevision::Number(1),
        start: 0,
        count: 3,
    };
    for _ in 0..TRIES {
        let mut writer = Taker::new();
        let mut none = MemSources::new(rt.alloc());
        let image = ONE_INSERT_IN_TWO;
        match run_blame(rt.alloc(), image, &mut none, None, wanted, &mut writer) {
            Ok(()) => {
                assert_same(rt, &writer.taken(), &lines, &"the lines");
                return;
            }
            Err(fault) => {
                assert_same(rt, &fault, &BlameFault::Memory, &"the fault");
                refusals.met(rt, &lines.starts_with(writer.taken()), &true);
            }
        }
    }
    panic!(rt; "refused each time")
}

/// Requests, each with its answer. The first four make the revisions of `LINES`.
const REQUESTS: [(&[u8], &[u8]); 8] = [
    (b"new\n", b"0 0\n"),
    (b"insert 0 0 \"abcdef\"\n", b"1 6\n"),
    (b"many 1 1 2 \"X\" 4 0 \"YZ\" 5 1 \"\"\n", b"2 6\n"),
    (b"paste 1 1 1 0 3\n", b"3 9\n"),
    (b"length 1\n", b"1 6\n"),
    (b"bytes 3 0 9\n", b"\"aabcbcdef\"\n"),
    (b"find 3 1 \"bc\"\n", b"2\n"),
    (b"last\n", b"3 9\n"),
];

/// Makes a request, and puts what it is answered into a writer.
fn request<A: AllocGlobal + Abort>(
    rt: &A,
    speaking: &mut Speaking<MemSources<'static>>,
    line: &[u8],
    answers: &mut Taker,
) -> Result<End, ServeFault> {
    let Ok(mut requests) = BufReader::new(rt.alloc(), Giver { bytes: line }) else {
        return Err(ServeFault::Memory);
    };
    let mut kept = Taker::new();
    let mut room = LineRoom::new(rt.alloc());
    serve_speaking(speaking, &mut requests, &mut kept, answers, &mut room)
}

/// Makes a request, once more where it was refused memory and made no revision.
fn requested<A: AllocGlobal + Abort>(
    rt: &A,
    speaking: &mut Speaking<MemSources<'static>>,
    line: &[u8],
    wanted: &[u8],
    refusals: &mut Refusals,
) {
    let before = speaking.session().count();
    for _ in 0..TRIES {
        let mut answers = Taker::new();
        let end = request(rt, speaking, line, &mut answers);
        if answers.taken() == wanted {
            assert_same(rt, &end, &Ok(End::Input), &line);
            return;
        }
        let told: &[u8] = match end {
            Ok(_) => b"refused memory\n",
            Err(_) => b"",
        };
        refusals.met(rt, &answers.taken(), &told);
        if speaking.session().count() > before {
            assert_same(rt, &end, &Err(ServeFault::Memory), &line);
            return;
        }
    }
    panic!(rt; "refused each time")
}

/// A session that takes requests.
pub(crate) fn served<A: AllocGlobal + Abort>(rt: &A, refusals: &mut Refusals) {
    let session = session_of(rt, &[], refusals);
    let mut speaking = Speaking::new(rt.alloc(), session, MemSources::new(rt.alloc()));
    for (line, wanted) in REQUESTS {
        requested(rt, &mut speaking, line, wanted, refusals);
    }
    for (k, text) in (0u32..).zip(TEXTS.iter()) {
        assert_text(rt, speaking.session(), k, *text);
    }
    assert_same(rt, &speaking.session().count(), &4, &"revisions");
}
