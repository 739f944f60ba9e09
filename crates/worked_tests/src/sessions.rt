//! Which records keep the rules, and which break one first, on worked examples.

ghost use Rattle.std.specs.Prelude.{ℕ, ◌∷◌, [], true, false};
ghost use Rattle.worked_tests.specs.Tables.{child_not_earlier, part_of_a_part, part_of_a_part_recorded, too_long_together};
ghost use Rattle.worked_tests.specs.Commands.{leaf_row};
ghost use Rattle.image_reader.specs.Value.{image_table};
ghost use Rattle.image_reader.specs.Accepted.{AreGoodNodes, AreGoodRevisions, HasGoodMark, revision_at};
ghost use Rattle.worked_tests.specs.Images.{empty_text, insertion, one_insert, one_insert_by, IsFirstFaultAlone};
ghost use Rattle.span_certificate.specs.Covers.{SameOver};
ghost use Rattle.session_checker.specs.declared.fault.CheckFault.TheVariants.{Reference, Length, Depth, Mark, Rows};
ghost use Rattle.session_checker.specs.NodeRules.{IsFirstNodeFault};
ghost use Rattle.worked_tests.specs.Images.{inserted_chain};

/// A child that is its own parent, a sum over the limit, and a depth that is one too small.
#[tactic(auto, using(crate::proofs::WorkedFaults::own_child, crate::proofs::WorkedFaults::sum_over_the_limit, crate::proofs::WorkedFaults::depth_too_small, crate::proofs::WorkedFaults::part_of_a_part_good))]
fn wrong_records_are_the_first_node_faults()
    ensures reference { IsFirstNodeFault child_not_earlier (Reference 1) }
    ensures length { IsFirstNodeFault too_long_together (Length 2) }
    ensures depth { IsFirstNodeFault (part_of_a_part_recorded 2) (Depth 4) }
    ensures none { AreGoodNodes part_of_a_part }
{}

/// A literal is balanced; nil is not, and four bytes are too few for depth 3.
#[tactic(auto, unfolding(rope_node::specs::Balance::fibonacci))]
fn marks_stand_on_balanced_roots()
    ensures literal { HasGoodMark (image_table one_insert) insertion }
    ensures nil { ¬ HasGoodMark (image_table one_insert) (record empty_text { mark = true }) }
    ensures chain { ¬ HasGoodMark (image_table (inserted_chain true)) (revision_at (inserted_chain true) 1) }
    ensures no_mark { HasGoodMark (image_table (inserted_chain false)) (revision_at (inserted_chain false) 1) }
{}

/// The revisions of one insertion, and those whose mark or whose second row is the first fault.
#[tactic(auto, using(crate::proofs::WorkedFaults::chain_marked, crate::proofs::WorkedFaults::byte_uncovered, crate::proofs::WorkedFaults::row_too_many))]
fn wrong_marks_and_rows_are_the_first_revision_faults()
    ensures none { (source : ℕ → ℕ → ℕ) → AreGoodRevisions one_insert (SameOver source) }
    ensures mark { IsFirstFaultAlone (inserted_chain true) (Mark 1) }
    ensures uncovered { IsFirstFaultAlone (one_insert_by (leaf_row 2 ∷ [])) (Rows 1 1) }
    ensures past_the_end { IsFirstFaultAlone (one_insert_by (leaf_row 3 ∷ leaf_row 1 ∷ [])) (Rows 1 1) }
{}
