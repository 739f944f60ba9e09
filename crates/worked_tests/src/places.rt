//! The order of texts and the places of patterns, on worked examples.

ghost use Rattle.std.specs.Prelude.{◌≡◌, ◌∷◌, [], codes, Some, None};
ghost use Rattle.std.specs.declared.cmp.Ordering.TheVariants.{Less, Equal, Greater};
ghost use Rattle.cord_search.specs.Order.{order};
ghost use Rattle.cord_search.specs.Places.{IsFirst, IsLast};
ghost use Rattle.cord_search.specs.Stated.{order_of_parts};

/// A proper prefix is less, and bytes compare unsigned.
fn texts_are_ordered_by_their_first_difference()
    ensures prefix { order (codes "ab") (codes "abc") ≡ Less }
    ensures longer { order (codes "abc") (codes "ab") ≡ Greater }
    ensures first_difference { order (codes "b") (codes "abc") ≡ Greater }
    ensures unsigned { order (127 ∷ []) (128 ∷ []) ≡ Less }
{}

/// `abc` and `xbd` from 1 on.
fn parts_of_texts_are_ordered()
    ensures one_byte { order_of_parts 1 1 1 (codes "abc") (codes "xbd") ≡ Equal }
    ensures two_bytes { order_of_parts 1 1 2 (codes "abc") (codes "xbd") ≡ Less }
{}

/// `bcd` stands at 1 of `abcde`, and not behind it.
fn pattern_has_one_place()
    ensures from_0 { IsFirst (codes "bcd") (codes "abcde") 0 (Some 1) }
    ensures from_2 { IsFirst (codes "bcd") (codes "abcde") 2 None }
    ensures it_is_there { ¬ IsFirst (codes "bcd") (codes "abcde") 0 None }
{}

/// The first of several places is the first one from the start on.
#[tactic(auto, using(crate::proofs::WorkedPlaces::second_aab))]
fn pattern_has_several_places()
    ensures over_a_repetition { IsFirst (codes "baab") (codes "aabaab") 0 (Some 2) }
    ensures from_1 { IsFirst (codes "aab") (codes "aabaab") 1 (Some 3) }
    ensures from_4 { IsFirst (codes "aab") (codes "aabaab") 4 None }
{}

/// An empty pattern stands at the end of a text, and not past it.
fn empty_pattern_stands_up_to_the_end()
    ensures from_the_end { IsFirst [] (codes "abcde") 5 (Some 5) }
    ensures past_the_end { IsFirst [] (codes "abcde") 6 None }
    ensures last { IsLast [] (codes "abcde") 9 (Some 5) }
{}

/// The last `a` of `abab` up to an end past it is at 2, and there is none from 3 on.
fn byte_has_a_last_place()
    ensures last { IsLast (codes "a") (codes "abab") 9 (Some 2) }
    ensures none { IsFirst (codes "a") (codes "abab") 3 None }
{}
