//! What commands give and which rows fit, on worked examples.

ghost use Rattle.std.specs.Prelude.{◌≡◌, ℕ, ◌∷◌, [], codes, Some, None};
ghost use Rattle.function_leaf.specs.declared.coded.Coded.{Coded};
ghost use Rattle.worked_tests.specs.Tables.{number, literal_of, part_of_a_part, abc_literal};
ghost use Rattle.command_parts.specs.declared.part.Part.TheVariants.{Old, Pool};
ghost use Rattle.command_parts.specs.Commands.{IsHistory, full_edit, result_of, New, Insert, Many};
ghost use Rattle.command_parts.specs.declared.edit.Edit.TheVariants as Recorded;
ghost use Rattle.command_parts.specs.Parts.{parts_of};
ghost use Rattle.span_certificate.specs.Covers.{Fits, Covers, IsFirstBad};
ghost use Rattle.worked_tests.specs.Commands.{pool_of, splice, three_splices, replaced_in_abcdef, leaf_row};

/// An empty text, `a`, and `ab`.
fn two_insertions_make_a_history()
    ensures { IsHistory (pool_of (codes "ab")) (New ∷ Insert 0 0 0 1 ∷ Insert 1 1 1 1 ∷ [])
        ([] ∷ codes "a" ∷ codes "ab" ∷ []) }
{}

/// `c` put into `ab` between its bytes; an insertion of no bytes, and those past the end of what they name, give
/// nothing.
fn insertion_in_the_middle_gives_a_text()
    ensures middle { result_of (pool_of (codes "abc")) ([] ∷ codes "ab" ∷ []) (Insert 1 1 2 1)
        ≡ Some (codes "acb") }
    ensures past_the_text { result_of (pool_of (codes "abcx")) ([] ∷ codes "abc" ∷ []) (Insert 1 4 3 1) ≡ None }
    ensures past_the_texts { result_of (pool_of (codes "abcx")) ([] ∷ codes "abc" ∷ []) (Insert 5 0 3 1) ≡ None }
    ensures past_the_pool { result_of (pool_of (codes "abcx")) ([] ∷ codes "abc" ∷ []) (Insert 1 0 3 2) ≡ None }
    ensures no_bytes { result_of (pool_of (codes "abcx")) ([] ∷ codes "abc" ∷ []) (Insert 1 0 0 0) ≡ None }
{}

/// `bc` of `abcdef` replaced by `X`, `YZ` put in front of `e`, and `f` taken out.
fn many_replacements_give_a_text()
    ensures text { replaced_in_abcdef three_splices ≡ Some (codes "aXdYZe") }
    ensures overlapping { replaced_in_abcdef (splice 1 2 6 1 ∷ splice 2 1 6 1 ∷ []) ≡ None }
    ensures at_one_place { replaced_in_abcdef (splice 1 0 6 1 ∷ splice 1 0 6 1 ∷ []) ≡ None }
    ensures none { replaced_in_abcdef [] ≡ None }
    ensures of_nothing { replaced_in_abcdef (splice 2 0 0 0 ∷ []) ≡ None }
    ensures place_of_no_bytes { replaced_in_abcdef (splice 5 1 6 0 ∷ []) ≡ None }
    ensures past_the_text { replaced_in_abcdef (splice 5 2 0 0 ∷ []) ≡ None }
    ensures past_the_pool { replaced_in_abcdef (splice 5 1 19 2 ∷ []) ≡ None }
{}

/// A command names its splices among all of a session's, and its parts are what stays and what is put in.
fn many_replacements_have_five_parts()
    ensures command { full_edit (splice 0 0 9 9 ∷ three_splices) (Recorded.Many 1 1 3) ≡ Many 1 three_splices }
    ensures parts { parts_of (literal_of (codes "abcdef")) (None ∷ Some (number 0) ∷ []) (Many 1 three_splices)
        ≡ Old (Some (number 0)) 0 1 ∷ Pool 6 1 ∷ Old (Some (number 0)) 3 1 ∷ Pool 12 2
        ∷ Old (Some (number 0)) 4 1 ∷ [] }
{}

/// The root of parts of parts is covered by the row of the leaf that they lead to.
fn leaf_row_covers_a_part_of_a_part()
    ensures { (coded : ℕ → Coded) → (source : ℕ → ℕ → ℕ) → Covers part_of_a_part coded source
        (parts_of part_of_a_part (None ∷ []) (Insert 0 0 2 2)) (Some (number 4)) (leaf_row 2 ∷ []) }
{}

/// A row of two bytes leaves the third one uncovered; a row behind the end does not fit.
fn second_row_is_the_first_that_is_bad()
    ensures uncovered { (coded : ℕ → Coded) → (source : ℕ → ℕ → ℕ)
        → IsFirstBad abc_literal coded source
        (parts_of abc_literal (None ∷ []) (Insert 0 0 0 3)) (Some (number 0)) (leaf_row 2 ∷ []) 1 }
    ensures past_the_end { (coded : ℕ → Coded) → (source : ℕ → ℕ → ℕ)
        → IsFirstBad abc_literal coded source
        (parts_of abc_literal (None ∷ []) (Insert 0 0 0 3)) (Some (number 0))
        (leaf_row 3 ∷ leaf_row 1 ∷ []) 1 }
{}

/// Bytes of another place of the pool have another description.
#[tactic(auto, using(crate::proofs::WorkedRows::row_of_another_place))]
fn row_of_another_place_does_not_fit()
    ensures { (coded : ℕ → Coded) → (source : ℕ → ℕ → ℕ)
        → ¬ Fits abc_literal coded source (Pool 1 2 ∷ []) (Some (number 0)) 0 (leaf_row 2) }
{}
