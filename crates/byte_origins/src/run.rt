//! Where a byte comes from.

ghost use Rattle.std.specs.Prelude.{◌≡◌, ◌↔◌, ◌-◌, ◌^◌, ◌<◌, ◌≤◌, IsTrue};
ghost use Rattle.byte_origins.specs.Behind.{brought_behind, brought_end, origin_behind, FitsNumbers};

/// A byte as a command brings it from outside the earlier texts.
#[derive(Clone, Copy, Debug, PartialEq, Eq)]
pub enum Brought {
    /// The pool's byte at place `a`.
    Pool { a: u64 },
    /// The byte of source `s` at place `p`.
    Source { s: u32, p: u64 },
    /// The byte `c` of a fill.
    Fill { c: u8 },
}

/// Whether the byte that is brought `n` places behind one is the other.
fn is_behind(first: Brought, n: u64, other: Brought) -> bool
    ensures { IsTrue result ↔ (brought_behind first n ≡ other) }
{
    match (first, other) {
        (Brought::Pool { a }, Brought::Pool { a: b }) => a <= b && b - a == n,
        (Brought::Source { s, p }, Brought::Source { s: t, p: q }) => {
            s == t && p <= q && q - p == n
        }
        (Brought::Fill { c }, Brought::Fill { c: d }) => c == d,
        _ => false,
    }
}

/// Where a byte first stood: in the text of which revision, at which place, and what it is there.
#[derive(Clone, Copy, Debug, PartialEq, Eq)]
pub struct Origin {
    pub revision: u32,
    pub place: u64,
    pub brought: Brought,
}

/// Bytes that came in side by side: the first one's origin, and how many they are.
#[derive(Clone, Copy, Debug, PartialEq, Eq)]
pub struct OriginRun {
    pub first: Origin,
    pub len: u64,
}

/// The byte that is brought `n` places behind one.
fn behind(first: Brought, n: u64) -> Brought
    requires { brought_end first n < 2 ^ 64 }
    ensures { result ≡ brought_behind first n }
{
    match first {
        Brought::Pool { a } => Brought::Pool { a: a + n },
        Brought::Source { s, p } => Brought::Source { s, p: p + n },
        Brought::Fill { c } => Brought::Fill { c },
    }
}

impl OriginRun {
    /// The run without its first `n` bytes.
    pub(crate) fn rest_from(self, n: u64) -> OriginRun
        requires fits { FitsNumbers self }
        requires inside { n ≤ self.len }
        ensures first { result.first ≡ origin_behind self.first n }
        ensures len { result.len ≡ self.len - n }
    {
        let Origin {
            revision,
            place,
            brought,
        } = self.first;
        let first = Origin {
            revision,
            place: place + n,
            brought: behind(brought, n),
        };
        OriginRun {
            first,
            len: self.len - n,
        }
    }

    /// Whether it goes on where the other begins.
    pub fn goes_on(&self, other: &OriginRun) -> bool
        ensures { IsTrue result ↔ (origin_behind self.now.first self.now.len ≡ other.now.first) }
    {
        let first = self.first;
        let next = other.first;
        first.revision == next.revision
            && first.place <= next.place
            && next.place - first.place == self.len
            && is_behind(first.brought, self.len, next.brought)
    }
}
