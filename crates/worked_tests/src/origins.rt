//! Where the bytes of texts come from, on worked examples.

ghost use Rattle.std.specs.Prelude.{◌∷◌, []};
ghost use Rattle.byte_origins.specs.declared.run.Brought.TheVariants.{Pool, Source, Fill};
ghost use Rattle.byte_origins.specs.Origins.{AreRuns};
ghost use Rattle.worked_tests.specs.Origins.{origins, run, fox, pasted_twice, quick, filled, undone, exchanged};

/// `the brown fox`.
fn insertion_stands_between_older_bytes()
    ensures { AreRuns (origins 13 [] fox 2) (run 1 0 (Pool 0) 4 ∷ run 2 4 (Pool 7) 6 ∷ run 1 4 (Pool 4) 3 ∷ []) }
{}

/// `aabcbc`: what is pasted keeps its origin.
fn paste_keeps_origins()
    ensures { AreRuns (origins 3 [] pasted_twice 2) (run 1 0 (Pool 0) 1 ∷ run 1 0 (Pool 0) 3
        ∷ run 1 1 (Pool 1) 2 ∷ []) }
{}

/// `the quick fox and the cat`.
fn four_commands_have_four_runs()
    ensures { AreRuns (origins 28 [] quick 4) (run 1 0 (Pool 0) 4 ∷ run 3 4 (Pool 22) 6 ∷ run 1 4 (Pool 4) 12
        ∷ run 2 16 (Pool 19) 3 ∷ []) }
{}

/// `ab---cde`.
fn fill_stands_inside_a_source()
    ensures { AreRuns (origins 0 (5 ∷ []) filled 1) (run 0 0 (Source 0 0) 2 ∷ run 1 2 (Fill 45) 3
        ∷ run 0 2 (Source 0 2) 3 ∷ []) }
{}

/// The same byte put in again is another one, and the old one comes back with the old text.
fn undo_gives_the_old_ones_back()
    ensures back { AreRuns (origins 4 [] undone 4) (run 1 0 (Pool 0) 3 ∷ []) }
    ensures again { AreRuns (origins 4 [] undone 3) (run 1 0 (Pool 0) 1 ∷ run 3 1 (Pool 3) 1
        ∷ run 1 2 (Pool 2) 1 ∷ []) }
{}

/// Two splices side by side in the text and in the pool are one
/// run, and two where the pool has them the other way round.
fn splices_side_by_side_are_one_run()
    ensures one { AreRuns (origins 4 [] (exchanged 2 3) 2) (run 2 0 (Pool 2) 2 ∷ []) }
    ensures two { AreRuns (origins 4 [] (exchanged 3 2) 2) (run 2 0 (Pool 3) 1 ∷ run 2 1 (Pool 2) 1 ∷ []) }
{}
