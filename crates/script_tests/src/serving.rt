//! Runs of requests over sessions.

use crate::lines::assert_same_at;
use edit_commands::Session;
use edit_script::{Room, apply_script};
use lazy_file::{MemSources, SourceFault, Sources};
use line_server::{End, Room as LineRoom, ServeFault};
use session_server::{Speaking, serve_speaking};
use std::alloc::AllocGlobal;
use std::io::BufReader;
use std::process::Abort;

/// Requests, each with its answer, and whether it is kept.
const REQUESTS: [(&[u8], &[u8], bool); 30] = [
    (b"last", b"none", false),
    (b"new", b"0 0", true),
    (b"insert 0 0 \"abc\\ndef\" # seven bytes", b"1 7", true),
    (b"", b"none", false),
    (b"\t # a note", b"none", false),
    (b"delete 1 1 2", b"2 5", true),
    (b"length 1", b"1 7", false),
    (b"length 3", b"refused E1", false),
    (b" last # the third", b"2 5", false),
    (b"bytes 2 0 5", b"\"a\\ndef\"", false),
    (b"bytes 1 0 3", b"\"abc\"", false),
    (b"bytes 2 5 0", b"\"\"", false),
    (b"bytes 2 4 2", b"refused E3", false),
    (b"bytes 2 18446744073709551615 1", b"refused E3", false),
    (b"bytes 3 0 0", b"refused E1", false),
    (b"find 2 1 \"d\"", b"2", false),
    (b"find 2 3 \"d\"", b"none", false),
    (b"find 2 5 \"\"", b"5", false),
    (b"find 2 6 \"d\"", b"refused E3", false),
    (b"find 3 0 \"d\"", b"refused E1", false),
    (b"find 2 0 d", b"refused P", false),
    (b"bytes 2 0", b"refused P", false),
    (b"lasting", b"refused P", false),
    (b"news", b"refused P", false),
    (b"back 9", b"refused E1", false),
    (b"insert 2 6 \"x\"", b"refused E3", false),
    (b"insert 2 0 \"\"", b"refused E4", false),
    (b"open 0", b"3 3", true),
    (b"bytes 3 1 2", b"\"yz\"", false),
    (b"find 3 0 \"z\"", b"2", false),
];

/// The texts of the revisions that are made.
const TEXTS: [&[u8]; 4] = [b"", b"abc\ndef", b"a\ndef", b"xyz"];

/// Lines, each with its end.
fn put_line<A: AllocGlobal + Abort>(rt: &A, out: &mut Vec<u8>, line: &[u8]) {
    out.extend_from_slice(line).expect(rt, "a line");
    out.push(b'\n').expect(rt, "a line end");
}

/// A session with a source of three bytes, which takes lines.
fn begun<A: AllocGlobal + Abort, S: Sources>(rt: &A, sources: S) -> Speaking<S> {
    let mut session = Session::new(rt.alloc());
    session.add_source(3).expect(rt, "a source");
    Speaking::new(rt.alloc(), session, sources)
}

/// The source `xyz`, in memory.
fn in_memory<A: AllocGlobal + Abort>(rt: &A) -> MemSources<'static> {
    let mut sources = MemSources::new(rt.alloc());
    sources.add(b"xyz").expect(rt, "a source");
    sources
}

/// How a run over these requests ends, what it keeps, and what it tells.
fn served<A: AllocGlobal + Abort, S: Sources>(
    rt: &A,
    speaking: &mut Speaking<S>,
    requests: &[u8],
) -> (Result<End, ServeFault>, Vec<u8>, Vec<u8>) {
    let mut reader = BufReader::new(rt.alloc(), requests).expect(rt, "a reader");
    let mut kept = Vec::new(rt.alloc());
    let mut told = Vec::new(rt.alloc());
    let mut room = LineRoom::new(rt.alloc());
    let end = serve_speaking(speaking, &mut reader, &mut kept, &mut told, &mut room);
    (end, kept, told)
}

#[test]
fn each_line_has_its_answer(rt: HostRuntime) {
    let mut requests = Vec::new(rt.alloc());
    let mut wanted = Vec::new(rt.alloc());
    let mut script = Vec::new(rt.alloc());
    for (line, answer, is_kept) in REQUESTS {
        put_line(&rt, &mut requests, line);
        put_line(&rt, &mut wanted, answer);
        if is_kept {
            put_line(&rt, &mut script, line);
        }
    }
    // What the last line end leaves is no line.
    requests.extend_from_slice(b"new").expect(&rt, "a rest");
    let mut speaking = begun(&rt, in_memory(&rt));
    let (end, kept, told) = served(&rt, &mut speaking, &requests);
    assert_same_at(&rt, &end, &Ok(End::Input), &"the end");
    assert_same_at(&rt, &told.as_slice(), &wanted.as_slice(), &"answers");
    assert_same_at(&rt, &kept.as_slice(), &script.as_slice(), &"what is kept");
    assert_same_at(&rt, &speaking.session().count(), &4, &"revisions");
}

#[test]
fn what_is_kept_makes_the_texts_again(rt: HostRuntime) {
    let mut requests = Vec::new(rt.alloc());
    for (line, _, _) in REQUESTS {
        put_line(&rt, &mut requests, line);
    }
    let mut speaking = begun(&rt, in_memory(&rt));
    let (_, kept, _) = served(&rt, &mut speaking, &requests);
    let mut again = Session::new(rt.alloc());
    again.add_source(3).expect(&rt, "a source");
    let applied = apply_script(&mut again, &kept, &mut Room::new(rt.alloc()));
    assert_same_at(&rt, &applied, &Ok(()), &"the script");
    let mut speaking = Speaking::new(rt.alloc(), again, in_memory(&rt));
    for (k, text) in TEXTS.iter().enumerate() {
        let line = format!(in rt.alloc(); "bytes {k} 0 {}\n", text.len()).expect(&rt, "a line");
        let (_, _, told) = served(&rt, &mut speaking, line.as_bytes());
        let mut wanted = Vec::new(rt.alloc());
        wanted.push(b'"').expect(&rt, "a quote");
        for b in *text {
            match b {
                b'\n' => wanted.extend_from_slice(b"\\n").expect(&rt, "a line end"),
                _ => wanted.push(*b).expect(&rt, "a byte"),
            }
        }
        put_line(&rt, &mut wanted, b"\"");
        assert_same_at(&rt, &told.as_slice(), &wanted.as_slice(), &k);
    }
}

#[test]
fn a_line_that_ends_the_run_is_not_answered(rt: HostRuntime) {
    for line in [b"sync".as_slice(), b"save # now", b"quit"] {
        let mut requests = Vec::new(rt.alloc());
        put_line(&rt, &mut requests, b"new");
        put_line(&rt, &mut requests, line);
        put_line(&rt, &mut requests, b"new");
        let mut speaking = begun(&rt, in_memory(&rt));
        let (end, kept, told) = served(&rt, &mut speaking, &requests);
        assert_same_at(&rt, &end, &Ok(End::Asked), &line);
        assert_same_at(&rt, &told.as_slice(), &b"0 0\n".as_slice(), &line);
        assert_same_at(&rt, &kept.as_slice(), &b"new\n".as_slice(), &line);
    }
}

/// A source of three bytes whose reads fail: it is shorter than it was, or memory is refused.
#[derive(Drop)]
struct Failing {
    is_shorter: bool,
}

impl Sources for Failing {
    ghost use Rattle.std.specs.Prelude.{[], ◌∷◌, None, false};

    ghost reading = { λ _. record {
      stated = record { sizes = 3 ∷ []; texts = None ∷ []; never_fails = false };
      failures = λ _. 0;
    } };

    fn count(&self) -> u8 {
        1
    }

    fn len(&self, _s: u8) -> u64 {
        3
    }

    fn read(&mut self, s: u8, off: u64, buffer: &mut [u8]) -> Result<(), SourceFault> {
        if s > 0 || off > 3 || buffer.len() as u64 > 3 - off {
            return Err(SourceFault::BadSource);
        }
        if self.is_shorter {
            return Err(SourceFault::Short);
        }
        Err(SourceFault::Memory)
    }
}

#[test]
fn a_read_that_fails_is_told(rt: HostRuntime) {
    for (is_shorter, wanted) in [
        (true, b"0 3\nrefused S2\nrefused S2\n0 3\n".as_slice()),
        (false, b"0 3\nrefused memory\nrefused memory\n0 3\n"),
    ] {
        let mut speaking = begun(&rt, Failing { is_shorter });
        let requests = b"open 0\nbytes 0 0 1\nfind 0 0 \"x\"\nlength 0\n";
        let (end, kept, told) = served(&rt, &mut speaking, requests);
        assert_same_at(&rt, &end, &Ok(End::Input), &is_shorter);
        assert_same_at(&rt, &kept.as_slice(), &b"open 0\n".as_slice(), &is_shorter);
        assert_same_at(&rt, &told.as_slice(), &wanted, &is_shorter);
    }
}
