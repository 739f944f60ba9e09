//! Commands printed as lines.

ghost use Rattle.std.specs.Prelude.{◌≡◌, ◌+◌, ◌≤◌, IsTrue, length};
ghost use Rattle.std.specs.List.{AllByRecursion};
ghost use Rattle.command_parts.specs.declared.edit.Splice.{Splice};
ghost use Rattle.command_parts.specs.Commands.{with_splices};
ghost use Rattle.edit_script.specs.Commands.{StandsInside};

use super::assert_same_at;
use command_parts::{Edit, Splice};
use edit_script::{Note, comment_text, push_line};
use std::alloc::AllocGlobal;
use std::process::Abort;

/// Whether a span lies inside so many bytes.
fn has_span(size: u64, a: u64, n: u64) -> bool
    ensures { IsTrue result → a + n ≤ size }
{
    a <= size && n <= size - a
}

fn has_splices(size: u64, splices: &[Splice]) -> bool
    ensures { IsTrue result → AllByRecursion (λ (s : Splice). s.a + s.n ≤ size) splices.now }
{
    match splices.split_first() {
        None => true,
        Some((first, rest)) => has_span(size, first.a, first.n) && has_splices(size, rest),
    }
}

/// Whether the bytes that a command names stand in a pool of so many.
fn is_inside(size: u64, splices: &[Splice], edit: Edit) -> bool
    ensures { IsTrue result → StandsInside size (with_splices splices.now edit) }
{
    match edit {
        Edit::Insert { a, n, .. } | Edit::Replace { a, n, .. } => has_span(size, a, n),
        Edit::Many { .. } => has_splices(size, splices),
        _ => true,
    }
}

/// The line of a command.
pub(crate) fn line<A: AllocGlobal + Abort>(
    rt: &A,
    pool: &[u8],
    splices: &[Splice],
    edit: Edit,
) -> Vec<u8> {
    let mut out = Vec::new(rt.alloc());
    let inside = is_inside(pool.len() as u64, splices, edit);
    assert!(rt; inside);
    push_line(&mut out, pool, splices, &edit).expect(rt, "a line");
    out
}

/// All bytes that have an escape of their own, and some beside the limits of those that stand for themselves.
const POOL: &[u8] = b"ab\n\t\r\\\" ~\x7f\x80\xff\x00'#";

fn assert_line<A: AllocGlobal + Abort>(rt: &A, splices: &[Splice], edit: Edit, wanted: &[u8]) {
    let found = line(rt, POOL, splices, edit);
    assert_same_at(rt, &found.as_slice(), &wanted, &edit);
}

#[test]
fn lines_of_commands(rt: HostRuntime) {
    assert_line(&rt, &[], Edit::New, b"new");
    assert_line(&rt, &[], Edit::Open { s: 4294967295 }, b"open 4294967295");
    assert_line(
        &rt,
        &[],
        Edit::Insert {
            r: 1,
            p: 4,
            a: 0,
            n: 15,
        },
        b"insert 1 4 \"ab\\n\\t\\r\\\\\\\" ~\\x7f\\x80\\xff\\x00'#\"",
    );
    assert_line(
        &rt,
        &[],
        Edit::Delete { r: 2, p: 5, n: 10 },
        b"delete 2 5 10",
    );
    assert_line(
        &rt,
        &[],
        Edit::Replace {
            r: 2,
            p: 5,
            m: 3,
            a: 1,
            n: 1,
        },
        b"replace 2 5 3 \"b\"",
    );
    assert_line(
        &rt,
        &[],
        Edit::Paste {
            r: 3,
            p: 10,
            q: 1,
            i: 0,
            n: 18446744073709551615,
        },
        b"paste 3 10 1 0 18446744073709551615",
    );
    assert_line(&rt, &[], Edit::Join { r: 1, q: 2 }, b"join 1 2");
    assert_line(&rt, &[], Edit::Cut { r: 2, i: 0, n: 10 }, b"cut 2 0 10");
    assert_line(
        &rt,
        &[],
        Edit::Fill {
            r: 4,
            p: 3,
            c: 97,
            n: 100,
        },
        b"fill 4 3 97 100",
    );
    assert_line(&rt, &[], Edit::Back { r: 3 }, b"back 3");
    assert_line(&rt, &[], Edit::Balance { r: 4 }, b"balance 4");
}

fn splice(p: u64, m: u64, a: u64, n: u64) -> Splice {
    Splice { p, m, a, n }
}

#[test]
fn line_of_many_splices(rt: HostRuntime) {
    let many = Edit::Many {
        r: 1,
        first: 6,
        count: 3,
    };
    let splices = [splice(1, 2, 1, 1), splice(4, 0, 0, 2), splice(5, 1, 0, 0)];
    let wanted = b"many 1 1 2 \"b\" 4 0 \"ab\" 5 1 \"\"";
    assert_line(&rt, splices.as_slice(), many, wanted.as_slice());
    assert_line(&rt, &[], many, b"many 1");
}

#[test]
fn comments_of_revisions(rt: HostRuntime) {
    let mut note = Note {
        number: 2,
        len: 7,
        depth: 1,
        mark: true,
        rows: 3,
    };
    let balanced = comment_text(rt.alloc(), &note).expect(&rt, "a comment");
    let wanted = " # 2: 7 bytes, depth 1, balanced, 3 rows";
    assert_same_at(&rt, &balanced.as_str(), &wanted, &note);
    note.mark = false;
    note.len = 18446744073709551615;
    let other = comment_text(rt.alloc(), &note).expect(&rt, "a comment");
    let wanted = " # 2: 18446744073709551615 bytes, depth 1, 3 rows";
    assert_same_at(&rt, &other.as_str(), &wanted, &note);
}
