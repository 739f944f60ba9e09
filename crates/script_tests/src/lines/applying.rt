//! Scripts applied to sessions.

use super::assert_same_at;
use super::printing::line;
use edit_commands::{EditFault, Session};
use edit_script::{Room, Stop, Stopped, apply_script};
use node_table::NodeFault;
use rope_node::NodeSpace;
use std::alloc::AllocGlobal;
use std::process::Abort;

/// A session with a source of three bytes.
fn begun<A: AllocGlobal + Abort>(rt: &A) -> Session {
    let mut session = Session::new(rt.alloc());
    session.add_source(3).expect(rt, "a source");
    session
}

fn applied<A: AllocGlobal>(rt: &A, session: &mut Session, script: &[u8]) -> Result<(), Stopped> {
    apply_script(session, script, &mut Room::new(rt.alloc()))
}

/// The bytes of a session's pool.
fn pool<A: AllocGlobal + Abort>(rt: &A, session: &Session) -> Vec<u8> {
    let space = session.space();
    let mut bytes = Vec::new(rt.alloc());
    let mut done = 0u64;
    for _ in 0..u64::MAX {
        if done >= space.pool_len() {
            break;
        }
        let block = space.pool(done);
        bytes.extend_from_slice(block).expect(rt, "a block");
        done = done.saturating_add(block.len() as u64);
    }
    bytes
}

/// The lines of a session's commands, each with its end.
fn lines<A: AllocGlobal + Abort>(rt: &A, session: &Session) -> Vec<u8> {
    let pool = pool(rt, session);
    let mut out: Vec<u8> = Vec::new(rt.alloc());
    for k in 0..session.count() {
        let edit = session.edit(k).expect(rt, "a command");
        let splices = session.splices(k).expect(rt, "splices");
        let line = line(rt, pool.as_slice(), splices, edit);
        out.extend_from_slice(line.as_slice()).expect(rt, "a line");
        out.push(b'\n').expect(rt, "a line end");
    }
    out
}

/// Each command, some in lines that end as those of other systems do, the last one without its end.
const SCRIPT: &[u8] = b"# a text, and what can be made of it\r
new\r
insert 0 0 \"abc\\ndef\"   # seven bytes

  open 00
delete 1 1 2#a word ends here
replace\t3 0 1 \"\\x58\xc3\xa9\"
paste 1 7 4 0 3
join 1 2
cut 6 2 5
fill 7 5 33 3
back 6
balance 8
many 1 0 1 \"A\" 4 0 \"\\x2d\\\\\" 6 1 \"\"";

/// The same commands as they are printed.
const PRINTED: &[u8] = b"new
insert 0 0 \"abc\\ndef\"
open 0
delete 1 1 2
replace 3 0 1 \"X\\xc3\\xa9\"
paste 1 7 4 0 3
join 1 2
cut 6 2 5
fill 7 5 33 3
back 6
balance 8
many 1 0 1 \"A\" 4 0 \"-\\\\\" 6 1 \"\"
";

#[test]
fn sessions_say_what_their_scripts_say(rt: HostRuntime) {
    for script in [SCRIPT, PRINTED] {
        let mut session = begun(&rt);
        assert_same_at(&rt, &applied(&rt, &mut session, script), &Ok(()), &script);
        let found = lines(&rt, &session);
        assert_same_at(&rt, &found.as_slice(), &PRINTED, &script);
    }
}

fn stopped(line: u64, why: Stop) -> Result<(), Stopped> {
    Err(Stopped { line, why })
}

#[test]
fn lines_that_are_not_taken(rt: HostRuntime) {
    for (script, wanted, made) in [
        (b"new x".as_slice(), stopped(1, Stop::NoCommand), 0),
        (b"new\nnew\n\nnews\n", stopped(4, Stop::NoCommand), 2),
        (
            b"new\nopen 1\nnew",
            stopped(2, Stop::Refused(EditFault::NoSource)),
            1,
        ),
        (
            b"back 0",
            stopped(1, Stop::Refused(EditFault::NoRevision)),
            0,
        ),
        (
            b"new\ninsert 0 1 \"a\"\n",
            stopped(2, Stop::Refused(EditFault::Range)),
            1,
        ),
        (
            b"new\ninsert 0 0 \"\"\n",
            stopped(2, Stop::Refused(EditFault::EmptyText)),
            1,
        ),
        (
            b"new\nmany 0",
            stopped(2, Stop::Refused(EditFault::SpliceCount)),
            1,
        ),
        (
            b"new\nfill 0 0 1 1099511627776",
            stopped(2, Stop::Refused(EditFault::Node(NodeFault::TooLong))),
            1,
        ),
        (b"", Ok(()), 0),
        (b"\r\n \n#\n", Ok(()), 0),
    ] {
        let mut session = begun(&rt);
        assert_same_at(&rt, &applied(&rt, &mut session, script), &wanted, &script);
        assert_same_at(&rt, &session.count(), &made, &script);
    }
}
