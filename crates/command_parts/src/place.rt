//! A place of parts that stand one behind the other.

ghost use Rattle.std.specs.Prelude.{◌≡◌, ℕ, ◌+◌, ◌≤◌, List};
ghost use Rattle.command_parts.specs.declared.part.Part.{Part};
ghost use Rattle.command_parts.specs.Places.{len_here, AreNonempty, IsAt};

use crate::part::Part;
use crate::part_iter::PartIter;
use crate::splices::Splices;

/// A place of parts joined: the part that holds it, the place inside that part, and the parts behind it. From the
/// parts' end on there is no such part.
#[derive(Drop)]
pub struct PartPlace<'a, P: Splices> {
    pub part: Option<Part>,
    pub off: u64,
    pub rest: PartIter<'a, P>,
}

impl<'a, P: Splices> PartPlace<'a, P> {
    /// The first place.
    pub fn start(parts: PartIter<'a, P>) -> PartPlace<'a, P>
        requires { AreNonempty parts }
        ensures { IsAt parts.entry 0 result.part result.off result.rest }
    {
        let mut at = PartPlace {
            part: None,
            off: 0,
            rest: parts,
        };
        at.part = at.rest.next();
        at
    }

    /// Moves on by `n` bytes of the part that holds it.
    #[inline(always)]
    pub fn skip(&mut self, n: u64)
        requires { self.old.off + n ≤ len_here self.old.part }
        ensures { (parts : List Part) → (place : ℕ) → IsAt parts place self.old.part self.old.off self.old.rest
            → IsAt parts (place + n) self.new.part self.new.off self.new.rest }
    {
        let end = match self.part {
            None => 0,
            Some(part) => part.len(),
        };
        self.off += n;
        if self.off >= end {
            self.part = self.rest.next();
            self.off = 0;
        }
    }
}
