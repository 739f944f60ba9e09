//! What the bytes of a part are, whichever kind of part it is.

ghost use Rattle.std.specs.Prelude.{◌≡◌, ◌-◌, ◌≤◌, Some};
ghost use Rattle.rope_node.specs.Table.{IsSound};
ghost use Rattle.command_parts.specs.Parts.{part_len, IsPart};
ghost use Rattle.span_certificate.specs.PartLeads.{content_from, LiesWithin};

use command_parts::Part;
use function_leaf::Coded;
use rope_node::NodeId;
use span_descent::{CountedSpace, Description};
use std::sync::ledger::Ledger;

/// What bytes are.
#[derive(Clone, Copy, Debug, PartialEq, Eq)]
pub enum Content {
    /// Those of a node from this place on.
    Within(NodeId, u64),
    /// Those of a description.
    Described(Description),
}

/// What the bytes of a part from `off` on are.
#[inline(always)]
pub fn content_of<S: CountedSpace<L>, L: Ledger>(space: &S, part: Part, off: u64) -> Content
    requires sound { IsSound (S.table space.now) }
    requires part { IsPart (S.table space.now) part }
    requires inside { off ≤ part_len part }
    ensures value { content_from part off ≡ Some result }
    ensures within { LiesWithin (S.table space.now) (part_len part - off) result }
{
    match part {
        Part::Old { rope, i, n: _ } => match rope {
            Some(node) => Content::Within(node, i + off),
            None => unreachable!(),
        },
        Part::Pool { a, n: _ } => Content::Described(Description::Pooled { a: a + off }),
        Part::Source { s, n: _ } => Content::Described(Description::Sourced { s, a: off }),
        Part::Fill { c, n: _ } => Content::Described(Description::Computed {
            f: Coded::Fill(c),
            i: 0,
        }),
    }
}
