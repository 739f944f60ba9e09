//! The bytes of coded functions, on worked examples.

ghost use Rattle.std.specs.Prelude.{◌≡◌, map, codes};
ghost use Rattle.std.specs.List.{range_with_len};
ghost use Rattle.function_leaf.specs.Coded.{coded_byte};
ghost use Rattle.function_leaf.specs.declared.coded.Coded.TheVariants.{Cycle, Ramp};

/// The pattern goes on, and does not begin anew at the place where the span begins.
fn cycle_of_ab_from_3_on_is_baba()
    ensures { map (coded_byte (Cycle (codes "ab"))) (range_with_len 3 4) ≡ codes "baba" }
{}

/// The byte behind 0xFF is 0.
fn ramp_from_254_is_1_at_3()
    ensures { coded_byte (Ramp 254) 3 ≡ 1 }
{}
