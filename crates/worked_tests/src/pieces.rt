//! How many pieces texts have and which depths are balanced, on worked examples.

ghost use Rattle.std.specs.Prelude.{◌≡◌, Some, false};
ghost use Rattle.rope_node.specs.Balance.{IsBalanced};
ghost use Rattle.worked_tests.specs.Tables.{number, chain_of_four, part_of_a_part, part_of_a_source};
ghost use Rattle.rebalance.specs.Pieces.{piece_count, rope_pieces};

/// Each leaf of a chain is a piece.
fn chain_of_four_has_four_pieces()
    ensures all { rope_pieces chain_of_four (Some (number 6)) ≡ 4 }
    ensures middle { piece_count false chain_of_four 6 1 2 ≡ 2 }
{}

/// A part goes through the leaves that it meets, also where it cuts one.
fn part_has_the_pieces_that_it_meets()
    ensures both_leaves { rope_pieces part_of_a_part (Some (number 3)) ≡ 2 }
    ensures one_leaf { rope_pieces part_of_a_part (Some (number 4)) ≡ 1 }
    ensures behind_a_literal { rope_pieces part_of_a_source (Some (number 3)) ≡ 2 }
    ensures nothing { piece_count false part_of_a_source 3 5 0 ≡ 0 }
{}

/// The 50th Fibonacci number is enough for depth 48.
#[tactic(auto, using(rebalance::proofs::Fibonacci::fiftieth_and_sixtieth))]
fn balance_at_depth_48()
    ensures enough { IsBalanced 12586269025 48 }
    ensures one_less { ¬ IsBalanced 12586269024 48 }
{}

/// No text is long enough for depth 58.
#[tactic(auto, using(rebalance::proofs::Fibonacci::fiftieth_and_sixtieth))]
fn no_balance_at_depth_58()
    ensures { ¬ IsBalanced 1099511627775 58 }
{}
