//! The code and the numbers of each command, by the table of the format.

use super::assert_same_at;
use command_parts::{Edit, EditRecord, Numbers};

/// A command of each kind, and the r, q, p, m, a, n of its record, in the order of the codes.
const ROWS: [(Edit, [u32; 6]); 12] = [
    (Edit::New, [0, 0, 0, 0, 0, 0]),
    (Edit::Open { s: 2 }, [0, 2, 0, 0, 0, 0]),
    (
        Edit::Insert {
            r: 1,
            p: 3,
            a: 5,
            n: 6,
        },
        [1, 0, 3, 0, 5, 6],
    ),
    (Edit::Delete { r: 1, p: 3, n: 6 }, [1, 0, 3, 0, 0, 6]),
    (
        Edit::Replace {
            r: 1,
            p: 3,
            m: 4,
            a: 5,
            n: 6,
        },
        [1, 0, 3, 4, 5, 6],
    ),
    (
        Edit::Paste {
            r: 1,
            p: 3,
            q: 2,
            i: 5,
            n: 6,
        },
        [1, 2, 3, 0, 5, 6],
    ),
    (Edit::Join { r: 1, q: 2 }, [1, 2, 0, 0, 0, 0]),
    (Edit::Cut { r: 1, i: 5, n: 6 }, [1, 0, 0, 0, 5, 6]),
    (
        Edit::Fill {
            r: 1,
            p: 3,
            c: 5,
            n: 6,
        },
        [1, 0, 3, 0, 5, 6],
    ),
    (Edit::Back { r: 1 }, [1, 0, 0, 0, 0, 0]),
    (Edit::Balance { r: 1 }, [1, 0, 0, 0, 0, 0]),
    (
        Edit::Many {
            r: 1,
            first: 7,
            count: 2,
        },
        [1, 2, 0, 0, 0, 0],
    ),
];

#[test]
fn each_command_has_the_code_and_the_numbers_of_its_row(rt: HostRuntime) {
    for (code, (edit, [r, q, p, m, a, n])) in (1u8..).zip(ROWS) {
        let numbers = Numbers {
            r,
            q,
            p: u64::from(p),
            m: u64::from(m),
            a: u64::from(a),
            n: u64::from(n),
        };
        assert_same_at(&rt, &edit.recorded(), &EditRecord { code, numbers }, &code);
        assert_same_at(&rt, &Edit::of_code(7, code, numbers), &edit, &code);
    }
}
