//! What a line says.

use super::assert_same_at;
use edit_commands::{Change, Command};
use edit_script::{LineFault, Room, handed, parse_line};
use std::alloc::AllocGlobal;
use std::process::Abort;

// What a call ensures is not needed to prove a test, so each stands in a function of its own that ensures nothing.

/// Whether the line says this command.
fn says<A: AllocGlobal>(rt: &A, line: &[u8], wanted: Command<'_>) -> bool {
    let mut room = Room::new(rt.alloc());
    match parse_line(line, &mut room) {
        Ok(Some(edit)) => handed(&edit, &room) == wanted,
        _ => false,
    }
}

/// Whether the line has no words.
fn is_blank<A: AllocGlobal>(rt: &A, line: &[u8]) -> bool {
    let mut room = Room::new(rt.alloc());
    matches!(parse_line(line, &mut room), Ok(None))
}

/// Whether the line has words that are no command.
fn is_none<A: AllocGlobal>(rt: &A, line: &[u8]) -> bool {
    let mut room = Room::new(rt.alloc());
    matches!(parse_line(line, &mut room), Err(LineFault::NoCommand))
}

fn assert_says<A: AllocGlobal + Abort>(rt: &A, line: &[u8], wanted: Command<'_>) {
    assert_same_at(rt, &says(rt, line, wanted), &true, &line);
}

fn insert(bytes: &[u8]) -> Command<'_> {
    Command::Insert { r: 1, p: 4, bytes }
}

#[test]
fn commands_in_their_fields_order(rt: HostRuntime) {
    assert_says(&rt, b"new", Command::New);
    assert_says(&rt, b"open 7", Command::Open { s: 7 });
    assert_says(&rt, b"insert 1 4 \"x\\n\"", insert(b"x\n"));
    assert_says(&rt, b"delete 2 5 10", Command::Delete { r: 2, p: 5, n: 10 });
    assert_says(
        &rt,
        b"replace 2 5 3 \"xyz\"",
        Command::Replace {
            r: 2,
            p: 5,
            m: 3,
            bytes: b"xyz",
        },
    );
    assert_says(
        &rt,
        b"paste 3 10 1 0 5",
        Command::Paste {
            r: 3,
            p: 10,
            q: 1,
            i: 0,
            n: 5,
        },
    );
    assert_says(&rt, b"join 1 2", Command::Join { r: 1, q: 2 });
    assert_says(&rt, b"cut 2 0 10", Command::Cut { r: 2, i: 0, n: 10 });
    assert_says(
        &rt,
        b"fill 4 3 97 100",
        Command::Fill {
            r: 4,
            p: 3,
            c: 97,
            n: 100,
        },
    );
    assert_says(&rt, b"back 3", Command::Back { r: 3 });
    assert_says(&rt, b"balance 4", Command::Balance { r: 4 });
}

fn change(p: u64, m: u64, n: u64) -> Change {
    Change { p, m, n }
}

#[test]
fn many_changes_in_one_line(rt: HostRuntime) {
    let changes = [change(1, 2, 1), change(4, 0, 2), change(5, 1, 0)];
    let three = Command::Many {
        r: 1,
        changes: changes.as_slice(),
        bytes: b"XYZ",
    };
    for line in [
        b"many 1 1 2 \"X\" 4 0 \"YZ\" 5 1 \"\"".as_slice(),
        b"\tmany  01 1 2 \"\\x58\"\t4 0 \"Y\\x5A\" 5 1 \"\"# three\r",
    ] {
        assert_says(&rt, line, three);
    }
    assert_says(
        &rt,
        b"many 9",
        Command::Many {
            r: 9,
            changes: &[],
            bytes: &[],
        },
    );
}

#[test]
fn bytes_in_quotes(rt: HostRuntime) {
    for (line, bytes) in [
        (b"insert 1 4 \"\"".as_slice(), b"".as_slice()),
        (
            b"insert 1 4 \"\\n\\t\\r\\\\\\\"\\x00\\x7f\\xfF\"",
            b"\n\t\r\\\"\x00\x7f\xff",
        ),
        (b"insert 1 4 \"\x80\xc3\xa9\xff\"", b"\x80\xc3\xa9\xff"),
        (b"insert 1 4 \"a\tb # c\"", b"a\tb # c"),
        (b"insert 1 4 \"a\"#b", b"a"),
        (b"  insert\t1  4 \"a\" \r", b"a"),
    ] {
        assert_says(&rt, line, insert(bytes));
    }
}

#[test]
fn lines_without_words(rt: HostRuntime) {
    for line in [
        b"".as_slice(),
        b"\r",
        b" \t ",
        b"#",
        b"# new",
        b"   #\"",
        b"#\x00\xff",
    ] {
        assert_same_at(&rt, &is_blank(&rt, line), &true, &line);
    }
}

#[test]
fn numbers_up_to_their_limits(rt: HostRuntime) {
    assert_says(&rt, b"open 4294967295", Command::Open { s: 4294967295 });
    assert_says(
        &rt,
        b"open 0000000000000000000000007#",
        Command::Open { s: 7 },
    );
    assert_says(
        &rt,
        b"delete 0 18446744073709551615 0",
        Command::Delete {
            r: 0,
            p: 18446744073709551615,
            n: 0,
        },
    );
    assert_says(
        &rt,
        b"fill 0 0 255 1",
        Command::Fill {
            r: 0,
            p: 0,
            c: 255,
            n: 1,
        },
    );
}

#[test]
fn words_that_are_no_command(rt: HostRuntime) {
    for line in [
        b"New".as_slice(),
        b"news",
        b"new 1",
        b"new\x0c",
        b"\x00",
        b"\"new\"",
        b"open",
        b"open a",
        b"open +1",
        b"open -1",
        b"open 1x",
        b"open 4294967296",
        b"open 18446744073709551616",
        b"delete 0 18446744073709551616 0",
        b"delete 0 99999999999999999999999 0",
        b"fill 0 0 256 1",
        b"insert 1 4",
        b"insert 1 4 a",
        b"insert 1 4 \"",
        b"insert 1 4 \"a",
        b"insert 1 4 \"a\\\"",
        b"insert 1 4 \"a\\",
        b"insert 1 4 \"\\q\"",
        b"insert 1 4 \"\\x4\"",
        b"insert 1 4 \"\\x4g\"",
        b"insert 1 4 \"\x01\"",
        b"insert 1 4 \"\x7f\"",
        b"insert 1 4 \"a\r\"",
        b"insert 1 4 \"a\"...",
        b"insert 1 4 \"a\"b",
        b"insert 1 4 \"a\" \"b\"",
        b"insert \"a\" 1 4",
        b"paste 1 2 3 4",
        b"many",
        b"many 1 1",
        b"many 1 1 2",
        b"many 1 1 \"X\"",
        b"many 1 1 2 \"X\" 4",
        b"many 1 1 2 \"X\" 4 0 5",
        b"many 1 1 2 \"X\" \"Y\"",
    ] {
        assert_same_at(&rt, &is_none(&rt, line), &true, &line);
    }
}
