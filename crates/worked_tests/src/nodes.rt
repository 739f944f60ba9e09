//! What tables of a few nodes denote, on worked examples.

ghost use Rattle.std.specs.Prelude.{◌≡◌, ◌∷◌, [], length, get_or, codes};
ghost use Rattle.rope_node.specs.Table.{node_at, IsSoundNode, IsTrueNode};
ghost use Rattle.rope_node.specs.Denotes.{Byte, Place, cells, cell_at, text};
ghost use Rattle.rope_node.specs.Path.{visits, span_at};
ghost use Rattle.rope_node.specs.Balance.{IsBalanced};
ghost use Rattle.rope_node.specs.declared.node.NodeView.TheVariants.{Cat};
ghost use Rattle.worked_tests.specs.Tables.{stated_node, number, chain_of_four, part_of_a_part, part_of_a_part_recorded, part_of_a_source, too_long_together};

/// The last two of the last three bytes of `abcd` are `cd`.
fn part_of_a_part_denotes_its_bytes()
    ensures cells { cells part_of_a_part 4 ≡ Byte 99 ∷ Byte 100 ∷ [] }
    ensures length { length (cells part_of_a_part 3) ≡ 3 }
{}

/// `ab`, and behind it the bytes of `abcde` at 1 of 3.
fn part_of_a_source_denotes_its_places()
    ensures cells { cells part_of_a_source 3 ≡ Byte 97 ∷ Byte 98 ∷ Place 0 1 ∷ Place 0 2 ∷ Place 0 3 ∷ [] }
    ensures text { text (λ s i. get_or (codes "abcde") i 0) (cells part_of_a_source 3) ≡ codes "abbcd" }
{}

/// A part's depth is one more than its base's.
fn part_of_a_part_has_depth_three()
    ensures three { IsTrueNode part_of_a_part (node_at part_of_a_part 4) }
    ensures two { ¬ IsTrueNode (part_of_a_part_recorded 2) (node_at (part_of_a_part_recorded 2) 4) }
{}

/// A concatenation is as long as both its children.
fn chain_of_four_has_length_four()
    ensures four { IsTrueNode chain_of_four (node_at chain_of_four 6) }
    ensures five { ¬ IsTrueNode chain_of_four (stated_node (Cat (number 4) (number 5)) 5 3) }
{}

/// Two texts of the greatest length give none together, though the record is true.
fn greatest_lengths_are_too_long_together()
    ensures each { IsSoundNode too_long_together 1 (node_at too_long_together 1) }
    ensures record_is_true { IsTrueNode too_long_together (node_at too_long_together 2) }
    ensures together { ¬ IsSoundNode too_long_together 2 (node_at too_long_together 2) }
{}

/// The first byte of a part of a part lies four nodes down.
fn part_of_a_part_is_four_visits_deep()
    ensures visits { visits part_of_a_part 4 0 ≡ 4 }
    ensures cell { cell_at part_of_a_part 4 0 ≡ Byte 0x63 }
{}

/// From the root of a chain the first leaf is the farthest.
fn chain_of_four_is_visited_from_the_root()
    ensures first { visits chain_of_four 6 0 ≡ 4 }
    ensures last { visits chain_of_four 6 3 ≡ 2 }
{}

/// A leaf's span is cut by the part on the way to it.
fn place_begins_a_span_of_its_leaf()
    ensures cut_in_front { span_at part_of_a_part 3 0 ≡ record { leaf = number 0; start = 1; len = 1 } }
    ensures whole { span_at part_of_a_part 4 0 ≡ record { leaf = number 1; start = 0; len = 2 } }
    ensures cut_behind { span_at part_of_a_source 3 2 ≡ record { leaf = number 1; start = 1; len = 3 } }
{}

/// Depths 0 to 4 ask for 1, 2, 3, 5 and 8 bytes.
#[tactic(auto, unfolding(rope_node::specs::Balance::fibonacci))]
fn balance_begins_at_fibonacci_numbers()
    ensures zero { IsBalanced 1 0 }
    ensures one { IsBalanced 2 1 }
    ensures two { IsBalanced 3 2 }
    ensures three { IsBalanced 5 3 }
    ensures four { IsBalanced 8 4 }
{}

/// A byte less is not enough.
#[tactic(auto, unfolding(rope_node::specs::Balance::fibonacci))]
fn a_byte_less_is_not_balanced()
    ensures one { ¬ IsBalanced 1 1 }
    ensures two { ¬ IsBalanced 2 2 }
    ensures three { ¬ IsBalanced 4 3 }
    ensures four { ¬ IsBalanced 7 4 }
    ensures less_than_four { ¬ IsBalanced 5 4 }
{}
