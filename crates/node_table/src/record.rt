//! One node as it is put into a table.

ghost use Rattle.std.specs.Prelude.{◌≡◌};
ghost use Rattle.node_table.specs.Records.{literal_record, source_record, function_record, concatenation_record, part_record};

use function_leaf::LeafFn;
use rope_node::{NodeId, NodeView};

/// A node with its recorded length and depth, and its function where it is one.
#[derive(Clone, Copy)]
pub struct Record<F: LeafFn> {
    pub view: NodeView,
    /// The length in bytes.
    pub len: u64,
    pub depth: u8,
    pub function: Option<F>,
}

impl<F: LeafFn> Record<F> {
    /// The `len` bytes of the pool from place `a` on.
    pub fn literal(a: u64, len: u64) -> Record<F>
        ensures { result ≡ literal_record a len }
    {
        Record {
            view: NodeView::Lit { a },
            len,
            depth: 0,
            function: None,
        }
    }

    /// The `len` bytes of source `s` from place `a` on.
    pub fn source(s: u32, a: u64, len: u64) -> Record<F>
        ensures { result ≡ source_record s a len }
    {
        Record {
            view: NodeView::Src { s, a },
            len,
            depth: 0,
            function: None,
        }
    }

    /// The bytes that the function answers at 0 to `len - 1`.
    pub fn function(f: F, len: u64) -> Record<F>
        ensures { result ≡ function_record f len }
    {
        Record {
            view: NodeView::Fun,
            len,
            depth: 0,
            function: Some(f),
        }
    }

    /// The text of `l` followed by the text of `r`, with the length and depth that both give.
    pub fn concatenation(l: NodeId, r: NodeId, len: u64, depth: u8) -> Record<F>
        ensures { result ≡ concatenation_record l r len depth }
    {
        Record {
            view: NodeView::Cat { l, r },
            len,
            depth,
            function: None,
        }
    }

    /// The `len` bytes of `b` from place `i` on.
    pub fn part(b: NodeId, i: u64, len: u64, depth: u8) -> Record<F>
        ensures { result ≡ part_record b i len depth }
    {
        Record {
            view: NodeView::Sub { b, i },
            len,
            depth,
            function: None,
        }
    }
}
