//! The editor's machine and its frame, on worked examples.

ghost use Rattle.std.specs.Prelude.{◌≡◌, ◌∷◌, [], ◌++◌, codes, length, replicate, Some, None};
ghost use Rattle.worked_tests.specs.Keys.{cut_of_ab, seventeen_cuts, typed};
ghost use Rattle.text_lines.specs.Lines.{line_end, line_start, place_down, place_up};
ghost use Rattle.screen_editor.specs.State.{current, last_revision, start_of, text_of};
ghost use Rattle.screen_editor.specs.Machine.{refused};
ghost use Rattle.text_lines.specs.Screen.{cursor_of, screen_row, status_of};
ghost use Rattle.screen_editor.specs.Frame.{frame_of};

/// The last frame of `a`, `b`, undo, `c`.
const FRAME: &[u8] =
    b"\x1b[2J\x1b[Hac\r\n\r\n\r\n\r\n\r\n\r\n\r\n\r\n\r\n\r\n\r\n\r\n\r\n\r\n\r\n\r\n\r\n\r\n\r\n\r\n\r\n\r\n\r\nrev 4 byte 2 of 2\x1b[1;3H";

/// `a`, `b`, undo, `c`.
#[tactic(auto, using(crate::proofs::WorkedFrames::typed_again))]
fn typing_goes_on_from_the_text_that_undo_gave()
    ensures texts { (typed (0x61 ∷ 0x62 ∷ 0x15 ∷ 0x63 ∷ []) (start_of [])).texts
        ≡ [] ∷ codes "a" ∷ codes "ab" ∷ codes "a" ∷ codes "ac" ∷ [] }
    ensures frame { frame_of (typed (0x61 ∷ 0x62 ∷ 0x15 ∷ 0x63 ∷ []) (start_of [])) ≡ FRAME.now }
{}

/// Eighty `x` and a byte that is not shown as itself, at the line's end.
#[tactic(auto, using(crate::proofs::WorkedFrames::end_of_81, crate::proofs::WorkedFrames::column_2))]
fn long_line_is_shown_from_its_81st_byte()
    ensures place { line_end (replicate 80 0x78 ++ 0 ∷ []) 0 ≡ 81 }
    ensures row { screen_row (replicate 80 0x78 ++ 0 ∷ []) 81 0 ≡ codes "?" ++ 0x0D ∷ 0x0A ∷ [] }
    ensures status { status_of 0 81 81 None ≡ codes "rev 0 byte 81 of 81" }
    ensures cursor { cursor_of (replicate 80 0x78 ++ 0 ∷ []) 81 ≡ 0x1B ∷ codes "[1;2H" }
{}

/// From the second byte of `cde` to the end of `ab`, and back;
/// nowhere from the first line up and from the last one down.
fn up_and_down_keep_the_column()
    ensures start { line_start (codes "ab" ++ 0x0A ∷ codes "cde") 5 ≡ 3 }
    ensures up { place_up (codes "ab" ++ 0x0A ∷ codes "cde") 5 ≡ 2 }
    ensures down { place_down (codes "ab" ++ 0x0A ∷ codes "cde") 2 ≡ 5 }
    ensures first { place_up (codes "ab" ++ 0x0A ∷ codes "cde") 1 ≡ 1 }
    ensures last { place_down (codes "ab" ++ 0x0A ∷ codes "cde") 4 ≡ 4 }
{}

/// `a`, `b`, `c`, line start, mark, right, right, cut, line end, paste.
fn what_was_cut_is_pasted()
    ensures cut { text_of (typed cut_of_ab (start_of [])) 4 ≡ codes "c" }
    ensures pasted { current (typed (cut_of_ab ++ 0x05 ∷ 0x19 ∷ []) (start_of [])) ≡ codes "cab" }
    ensures place { (typed (cut_of_ab ++ 0x05 ∷ 0x19 ∷ []) (start_of [])).place ≡ 3 }
{}

/// `a`, `b`, and undo three times: the third finds no earlier text.
fn undo_ends_at_the_first_text()
    ensures texts { (typed (0x61 ∷ 0x62 ∷ 0x15 ∷ 0x15 ∷ 0x15 ∷ []) (start_of [])).texts
        ≡ [] ∷ codes "a" ∷ codes "ab" ∷ codes "a" ∷ [] ∷ [] }
    ensures place { (typed (0x61 ∷ 0x62 ∷ 0x15 ∷ 0x15 ∷ 0x15 ∷ []) (start_of [])).place ≡ 0 }
    ensures last { last_revision (typed (0x61 ∷ 0x62 ∷ 0x15 ∷ 0x15 ∷ 0x15 ∷ []) (start_of [])) ≡ 4 }
{}

/// Seventeen times `a`, mark, left, cut.
fn sixteen_cut_spans_are_kept()
    ensures { length (typed seventeen_cuts (start_of [])).cuts ≡ 16 }
{}

/// A refused key sets the message, which any other key but Save and Leave takes away.
fn message_stays_until_the_next_key()
    ensures set { (refused (codes "K1") (start_of (codes "a"))).message ≡ Some (codes "K1") }
    ensures saved { (typed (0x18 ∷ []) (refused (codes "K1") (start_of (codes "a")))).message ≡ Some (codes "K1") }
    ensures cleared { (typed (0x06 ∷ []) (refused (codes "K1") (start_of (codes "a")))).message ≡ None }
{}
