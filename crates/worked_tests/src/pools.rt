//! What appends make of a pool, on worked examples.

ghost use Rattle.std.specs.Prelude.{◌≡◌, ℕ, List, length, codes};
ghost use Rattle.leaf_buffer.specs.Contents.{IsInOneBlock, appended};
ghost use Rattle.worked_tests.specs.Pools.{no_bytes, three_bytes, five_bytes, two_blocks};

/// The first bytes open a block, and the next ones go into its room.
fn bytes_within_the_room_open_no_block()
    ensures first { appended no_bytes (codes "abc") ≡ three_bytes }
    ensures next { appended three_bytes (codes "de") ≡ five_bytes }
{}

/// As many bytes as a block takes open a block behind five others.
fn bytes_past_the_room_open_a_block()
    ensures { (block : List ℕ) → length block ≡ 65536 → appended five_bytes block ≡ two_blocks block }
{}

/// A span over the border of two blocks lies in neither, and each block is a span.
fn span_over_two_blocks_is_not_in_one()
    ensures over_both { (block : List ℕ) → ¬ IsInOneBlock (two_blocks block) 4 2 }
    ensures first { (block : List ℕ) → IsInOneBlock (two_blocks block) 0 5 }
    ensures second { (block : List ℕ) → length block ≡ 65536 → IsInOneBlock (two_blocks block) 5 65536 }
{}
