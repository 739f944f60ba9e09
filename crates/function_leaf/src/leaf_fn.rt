//! What is a leaf, and its bytes written out.
ghost use Rattle.std.specs.Prelude.{◌≡◌, ◌+◌, ◌<◌, ◌^◌, ℕ, length, map, IfSome};
ghost use Rattle.std.specs.List.{range_with_len};
ghost use Rattle.function_leaf.specs.Repeating.{Repeats};

/// A function from a place to a byte.
pub trait LeafFn: Copy {
    ghost meaning: { Self → ℕ → ℕ };

    /// The byte at place `i`.
    fn byte(&self, i: u64) -> u8
        ensures { result ≡ meaning self.now i };

    /// After how many bytes the function's bytes repeat, where that is known.
    fn period(&self) -> Option<u64>
        ensures { IfSome result (Repeats (meaning self.now)) };
}

/// Writes the bytes of `f` from place `from` on into the whole of `out`.
pub fn fill<F: LeafFn>(f: &F, from: u64, out: &mut [u8])
    requires { from + length out.old < 2 ^ 64 }
    ensures { out.new ≡ map (F.meaning f.now) (range_with_len from (length out.old)) }
{
    for (k, byte) in out.iter_mut().enumerate() {
        *byte = f.byte(from + k as u64);
    }
}
