//! Keys of a terminal by tables of their bytes, and journals that are torn at each byte.

use crate::fakes::{Flaky, Full, Giver, Taker};
use crate::images::{ONE_INSERT, ONE_INSERT_IN_TWO};
use crate::same::assert_same;
use crate::tools::texts_in;
use key_journal::{Found, HEADER_SIZE, KeepFault, Kept, find_keys, header_onto, header_over};
use lazy_file::{SourceFault, Sources};
use std::alloc::AllocGlobal;
use std::io::{Read, Write};
use std::process::Abort;
use terminal_keys::TerminalKeys;

/// Bytes that a terminal sends, and the keys that they are.
const SEQUENCES: [(&[u8], &[u8]); 67] = [
    (b"abc", b"abc"),
    (b"\x18\x03\x80\xff\0", b"\x18\x03\x80\xff\0"),
    // Arrows, Home and End.
    (b"\x1b[Az", b"\x10z"),
    (b"\x1b[Bz", b"\x0ez"),
    (b"\x1b[Cz", b"\x06z"),
    (b"\x1b[Dz", b"\x02z"),
    (b"\x1b[Hz", b"\x01z"),
    (b"\x1b[Fz", b"\x05z"),
    (b"\x1bOAz", b"\x10z"),
    (b"\x1bODz", b"\x02z"),
    (b"\x1bOHz", b"\x01z"),
    (b"\x1bOFz", b"\x05z"),
    (b"\x1b[1~z", b"\x01z"),
    (b"\x1b[7~z", b"\x01z"),
    (b"\x1b[4~z", b"\x05z"),
    (b"\x1b[8~z", b"\x05z"),
    // Delete, and with modifiers.
    (b"\x1b[3~z", b"\x04z"),
    (b"\x1b[3;5~z", b"\x04z"),
    (b"\x1b[1;5Cz", b"\x06z"),
    // Pages.
    (
        b"\x1b[5~z",
        b"\x10\x10\x10\x10\x10\x10\x10\x10\x10\x10\x10\x10\x10\x10\x10\x10\x10\x10\x10\x10\x10\x10z",
    ),
    (
        b"\x1b[6~z",
        b"\x0e\x0e\x0e\x0e\x0e\x0e\x0e\x0e\x0e\x0e\x0e\x0e\x0e\x0e\x0e\x0e\x0e\x0e\x0e\x0e\x0e\x0ez",
    ),
    // Insert, F5, F1, the place of the cursor, Shift and Tab, a longer number.
    (b"\x1b[2~z", b"z"),
    (b"\x1b[15~z", b"z"),
    (b"\x1bOPz", b"z"),
    (b"\x1b[12;34Rz", b"z"),
    (b"\x1b[Zz", b"z"),
    (b"\x1b[33~z", b"z"),
    // Escape sequences: Alt and x, a character set, a keypad's
    // mode, a reset, an index, and one of two intermediate bytes.
    (b"\x1bxz", b"z"),
    (b"\x1b(Bz", b"z"),
    (b"\x1b=z", b"z"),
    (b"\x1bcz", b"z"),
    (b"\x1bMz", b"z"),
    (b"\x1b%/Gz", b"z"),
    // An escape before a byte that is none of a sequence, and before another escape.
    (b"\x1b\x18z", b"\x18z"),
    (b"\x1b\x7fz", b"\x7fz"),
    (b"\x1b\x1b[Az", b"\x10z"),
    // Control strings: a colour that was asked for, by ST and by BEL, a title in UTF-8 with a tab and a line end, a
    // terminal's name, its capabilities, and the three others.
    (b"\x1b]11;rgb:0000/0000/0000\x1b\\z", b"z"),
    (b"\x1b]11;rgb:0000/0000/0000\x07z", b"z"),
    (b"\x1b]lcaf\xc3\xa9\t[201~\r\nA\x1b\\z", b"z"),
    (b"\x1bP>|XTerm(388)\x1b\\z", b"z"),
    (b"\x1bP1+r544e=787465726d\x1b\\z", b"z"),
    (b"\x1bXabc\x1b\\z", b"z"),
    (b"\x1b^abc\x1b\\z", b"z"),
    (b"\x1b_Gi=31;OK\x1b\\z", b"z"),
    (b"\x1b]\x1b\\z", b"z"),
    // Strings that a byte breaks off: CAN, SUB, a key of the
    // editor, Backspace, an arrow, and the mark that ends a paste.
    (b"\x1b]0;a\x18z", b"\x18z"),
    (b"\x1bPa\x1az", b"\x1az"),
    (b"\x1b_a\x01z", b"\x01z"),
    (b"\x1bXa\x7fz", b"\x7fz"),
    (b"\x1b^a\x1b[Az", b"\x10z"),
    (b"\x1b[200~a\x1b]b\x1b[201~\x18", b"a\x18"),
    // Other sequences that a byte breaks off, and sequences that the bytes end in.
    (b"\x1b[1;\x18z", b"\x18z"),
    (b"\x1b[\x80z", b"\x80z"),
    (b"\x1bO\x18z", b"\x18z"),
    (b"\x1b(\x03z", b"\x03z"),
    (b"\x1b[000000000000000000000000000000Az", b"\x10z"),
    (b"z\x1b", b"z"),
    (b"z\x1b[", b"z"),
    (b"z\x1bO", b"z"),
    (b"z\x1b(", b"z"),
    (b"z\x1b]0;a", b"z"),
    // Pastes: no command, the end of a line once, no sequence, and one without an end. What is no text is no key.
    (
        b"\x1b[200~a\x18\x03\0\xff\tb\x1b[201~\x18",
        b"a\x80\x80\x80\x80\tb\x18",
    ),
    (
        b"\x1b[200~a\r\nb\rc\nd\r\r\n\x1b[201~\r\n",
        b"a\rb\rc\nd\r\r\r\n",
    ),
    (b"\x1b[200~\x1b[A\x1bOAx\x1b[3~\x1b[201~\x1b[A", b"x\x10"),
    (b"\x1b[200~\x1b]0;a\x07x\x1bPb\x1b\\y\x1b[201~z", b"xyz"),
    (b"\x1b[201~z", b"z"),
    (b"\x1b[200~a\x1b[200~b\x18", b"ab\x80"),
];

/// The keys of these bytes, and how many reads failed. The reader is read on behind a failed read.
fn keys_of<R: AllocGlobal + Abort>(rt: &R, bytes: Giver<'_>) -> (Vec<u8>, u64) {
    let mut keys = TerminalKeys::new(bytes);
    let mut found = Vec::new(rt.alloc());
    let mut failed = 0u64;
    let mut buffer = [0; 3];
    for _ in 0..4096 {
        match keys.read(&mut buffer) {
            Ok(0) => break,
            Ok(n) => found
                .extend_from_slice(buffer.get(..n).unwrap_or(&[]))
                .expect(rt, "a key"),
            Err(_) => failed = failed.saturating_add(1),
        }
    }
    (found, failed)
}

#[test]
fn sequences_are_keys(rt: HostRuntime) {
    for (bytes, wanted) in SEQUENCES {
        let (keys, failed) = keys_of(&rt, Giver::of(bytes));
        assert_same(&rt, &keys.as_slice(), &wanted, &bytes);
        assert_same(&rt, &failed, &0, &bytes);
    }
}

#[test]
fn a_sequence_goes_on_behind_a_failed_read(rt: HostRuntime) {
    for (bytes, wanted) in SEQUENCES {
        for cut in 0..bytes.len() {
            let giver = Giver {
                cut: Some(cut),
                ..Giver::of(bytes)
            };
            let (keys, failed) = keys_of(&rt, giver);
            assert_same(&rt, &keys.as_slice(), &wanted, &(bytes, cut));
            assert_same(&rt, &failed, &1, &(bytes, cut));
        }
    }
}

/// A sequence that begins with these bytes and goes on with one, up to 1,024 bytes, and what is typed behind it.
fn assert_cut_off<R: AllocGlobal + Abort>(rt: &R, front: &[u8], byte: u8) {
    let mut typed = Vec::new(rt.alloc());
    typed.extend_from_slice(front).expect(rt, "a front");
    for _ in front.len()..1024 {
        typed.push(byte).expect(rt, "a byte");
    }
    let (keys, _) = keys_of(rt, Giver::of(&typed));
    assert_same(rt, &keys.as_slice(), &b"".as_slice(), &front);
    typed.extend_from_slice(b"ab\x18").expect(rt, "keys");
    let (keys, _) = keys_of(rt, Giver::of(&typed));
    assert_same(rt, &keys.as_slice(), &b"ab\x18".as_slice(), &front);
}

#[test]
fn a_sequence_without_an_end_takes_no_more_than_its_most_bytes(rt: HostRuntime) {
    assert_cut_off(&rt, b"\x1b]0;", b'x');
    assert_cut_off(&rt, b"\x1bP", b'\r');
    assert_cut_off(&rt, b"\x1b[", b'0');
    assert_cut_off(&rt, b"\x1b(", b' ');
}

/// `CORDKEYS`, the number 1, no source, size 0, and the SHA-256 of no bytes.
const HEADER_OVER_NONE: [u8; HEADER_SIZE] = *b"CORDKEYS\0\0\0\x01\0\0\0\0\0\0\0\0\0\0\0\0\
    \xe3\xb0\xc4\x42\x98\xfc\x1c\x14\x9a\xfb\xf4\xc8\x99\x6f\xb9\x24\
    \x27\xae\x41\xe4\x64\x9b\x93\x4c\xa4\x95\x99\x1b\x78\x52\xb8\x55";

/// The header over one source, whose text is `abc`.
const HEADER_OVER_ABC: [u8; HEADER_SIZE] = *b"CORDKEYS\0\0\0\x01\0\0\0\x01\0\0\0\0\0\0\0\x03\
    \xba\x78\x16\xbf\x8f\x01\xcf\xea\x41\x41\x40\xde\x5d\xae\x22\x23\
    \xb0\x03\x61\xa3\x96\x17\x7a\x9c\xb4\x10\xff\x61\xf2\x00\x15\xad";

/// The header over the image `ONE_INSERT_IN_TWO` and no sources, and over `abc` too: its digest is of both.
const HEADER_ONTO_ONE_INSERT: [u8; HEADER_SIZE] = *b"CORDKEYS\0\0\0\x02\0\0\0\0\0\0\0\0\0\0\0\0\
    \x1c\x40\x73\x03\x07\xb5\x0b\x9c\x32\x19\x95\x59\xa3\x42\x34\x59\
    \x80\xef\x4d\x4b\xb8\xf2\xd3\xfd\x9b\xf1\xa9\x04\xe0\x7b\x4a\xa6";

const HEADER_ONTO_BOTH: [u8; HEADER_SIZE] = *b"CORDKEYS\0\0\0\x02\0\0\0\x01\0\0\0\0\0\0\0\x03\
    \x0c\xc9\xe7\xb7\xa6\x06\x55\xcb\x9d\x6d\x43\xe7\x68\x26\x05\x67\
    \xd5\xee\x51\x24\x5f\x54\xbc\xe1\x67\xbf\x05\xeb\x17\xef\x82\x2d";

/// The SHA-256 of the first 16,777,216 bytes of `Ramp`.
const WHOLE_RAMP: [u8; 32] = *b"\x28\x75\x07\xf4\x03\x17\x6f\x1f\x5b\x22\xb9\xa4\xd9\xcb\x49\xf7\
    \xd7\xf8\x8a\xc1\x9e\x40\x6b\x5a\xe8\x7c\xe1\x09\x56\x48\x46\xbd";

/// That of the first and last megabyte of one byte more.
const RAMP_ENDS: [u8; 32] = *b"\x0f\xa0\x57\x40\x57\x5a\x33\x32\x52\x38\xbc\xde\x3c\xfe\xe2\x36\
    \x39\xc1\xed\xa1\x6a\xe2\x54\x2b\xe8\xee\x3d\xb7\x63\x62\xfe\x2d";

/// A source of which place `p` has the byte `p % 251`.
#[derive(Drop)]
struct Ramp {
    len: u64,
}

impl Sources for Ramp {
    ghost use Rattle.std.specs.Prelude.{[], ◌∷◌, None, true, min};
    ghost use Rattle.lazy_file.specs.declared.sources.TheConstants.{SOURCE_LIMIT};

    ghost reading = { λ s. record {
      stated = record { sizes = min s.len SOURCE_LIMIT ∷ []; texts = None ∷ []; never_fails = true };
      failures = λ _. 0;
    } };

    fn count(&self) -> u8 {
        1
    }

    fn len(&self, _s: u8) -> u64 {
        self.len.min(lazy_file::SOURCE_LIMIT)
    }

    fn read(&mut self, s: u8, off: u64, buffer: &mut [u8]) -> Result<(), SourceFault> {
        let len = self.len.min(lazy_file::SOURCE_LIMIT);
        if s > 0 || off > len || buffer.len() as u64 > len - off {
            return Err(SourceFault::BadSource);
        }
        let mut value = u8::try_from(off % 251).unwrap_or(0);
        for byte in buffer.iter_mut() {
            *byte = value;
            value = value.wrapping_add(1) % 251;
        }
        Ok(())
    }
}

#[test]
fn a_header_is_of_the_sources(rt: HostRuntime) {
    let none = header_over(&mut texts_in(&rt, &[]));
    assert_same(&rt, &none, &Ok(HEADER_OVER_NONE), &"none");
    let abc = header_over(&mut texts_in(&rt, &[b"abc"]));
    assert_same(&rt, &abc, &Ok(HEADER_OVER_ABC), &"abc");
    for (len, front, digest) in [
        (1 << 24, b"\0\0\0\0\x01\0\0\0", &WHOLE_RAMP),
        // Of a longer one its first and last megabyte.
        ((1 << 24) + 1, b"\0\0\0\0\x01\0\0\x01", &RAMP_ENDS),
    ] {
        let header = header_over(&mut Ramp { len }).expect(&rt, "a header");
        assert_same(&rt, &header.get(16..24), &Some(front.as_slice()), &len);
        assert_same(&rt, &header.get(24..), &Some(digest.as_slice()), &len);
    }
    let mut flaky = Flaky {
        texts: texts_in(&rt, &[b"abc"]),
        broken: 0,
        left: 0,
        failed: 0,
    };
    let refused = header_over(&mut flaky);
    assert_same(
        &rt,
        &refused,
        &Err(SourceFault::Device),
        &"a read that fails",
    );
    let again = header_over(&mut flaky);
    assert_same(&rt, &again, &Ok(HEADER_OVER_ABC), &"again");
}

#[test]
fn a_header_over_an_image_is_of_its_bytes_too(rt: HostRuntime) {
    let none = header_onto(&mut texts_in(&rt, &[]), ONE_INSERT_IN_TWO);
    assert_same(&rt, &none, &Ok(HEADER_ONTO_ONE_INSERT), &"none");
    let both = header_onto(&mut texts_in(&rt, &[b"abc"]), ONE_INSERT_IN_TWO);
    assert_same(&rt, &both, &Ok(HEADER_ONTO_BOTH), &"abc");
    let other = header_onto(&mut texts_in(&rt, &[]), ONE_INSERT).expect(&rt, "a header");
    let found = find_keys(&HEADER_ONTO_ONE_INSERT, &other);
    assert_same(&rt, &found, &Found::Other, &"another image");
}

#[test]
fn a_journal_is_found_as_far_as_it_was_written(rt: HostRuntime) {
    let mut journal = HEADER_OVER_ABC.to_vec(rt.alloc()).expect(&rt, "a journal");
    journal.extend_from_slice(b"ab\0\x80").expect(&rt, "keys");
    for n in 0..=journal.len() {
        let front = journal.get(..n).expect(&rt, "a front");
        let wanted = if n < HEADER_SIZE {
            Found::Torn
        } else {
            Found::Keys
        };
        assert_same(&rt, &find_keys(&HEADER_OVER_ABC, front), &wanted, &n);
        // Of another text no more than what all headers begin with is taken.
        let wanted = if n <= 15 { Found::Torn } else { Found::Other };
        assert_same(&rt, &find_keys(&HEADER_OVER_NONE, front), &wanted, &n);
    }
    for last in [0x18, 0x03] {
        journal.push(last).expect(&rt, "a key");
        let found = find_keys(&HEADER_OVER_ABC, &journal);
        assert_same(&rt, &found, &Found::Other, &last);
        // It was put there just now.
        let _ = journal.pop();
    }
    assert_same(
        &rt,
        &find_keys(&HEADER_OVER_ABC, b"mine"),
        &Found::Other,
        &"mine",
    );
}

/// Takes keys up to the end or to a fault, which it answers.
fn take_all<K: Read + Drop, J: Write + Drop, R: AllocGlobal + Abort>(
    rt: &R,
    keys: &mut Kept<K, J>,
    given: &mut Vec<u8>,
) -> Option<KeepFault> {
    for _ in 0..64 {
        match keys.next_key() {
            Ok(Some(key)) => given.push(key).expect(rt, "a key"),
            Ok(None) => return None,
            Err(fault) => return Some(fault),
        }
    }
    None
}

#[test]
fn a_key_is_given_once_the_journal_has_it(rt: HostRuntime) {
    // Save and Leave are given and not kept.
    let typed = b"ab\x18cd\x03e";
    for (room, given, kept) in [
        (0, b"".as_slice(), b"".as_slice()),
        (1, b"a", b"a"),
        (2, b"ab\x18", b"ab"),
        (3, b"ab\x18c", b"abc"),
        (4, b"ab\x18cd\x03", b"abcd"),
        (5, b"ab\x18cd\x03e", b"abcde"),
    ] {
        let mut taker = Taker::with_room(room, Full::TakesNothing);
        let mut found = Vec::new(rt.alloc());
        let mut keys = Kept::new(Giver::of(typed), &mut taker);
        let fault = take_all(&rt, &mut keys, &mut found);
        drop(keys);
        let wanted = if room < 5 {
            Some(KeepFault::Write)
        } else {
            None
        };
        assert_same(&rt, &fault, &wanted, &room);
        assert_same(&rt, &found.as_slice(), &given, &room);
        assert_same(&rt, &taker.taken(), &kept, &room);
    }
}

#[test]
fn a_read_that_fails_takes_no_key(rt: HostRuntime) {
    for cut in 0..3 {
        let giver = Giver {
            cut: Some(cut),
            ..Giver::of(b"abc")
        };
        let mut found = Vec::new(rt.alloc());
        let mut keys = Kept::new(giver, Vec::new(rt.alloc()));
        let fault = take_all(&rt, &mut keys, &mut found);
        assert_same(&rt, &fault, &Some(KeepFault::Read), &cut);
        let end = take_all(&rt, &mut keys, &mut found);
        assert_same(&rt, &end, &None, &cut);
        assert_same(&rt, &found.as_slice(), &b"abc".as_slice(), &cut);
    }
}
