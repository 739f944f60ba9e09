//! The texts before a revision, each as one leaf of its length.

// The lines `let _count = ..` are for the proof: the history's records are true, as this call says.
// `let _ = id;`: each text is a leaf of a function, so the answer is the same for each.

ghost use Rattle.std.specs.Prelude.{◌≡◌, ◌<◌, ◌≤◌, length};
ghost use Rattle.rope_node.specs.declared.limits.TheConstants.{TEXT_LIMIT};
ghost use Rattle.rope_node.specs.Table.{IsSound, HasTrueRecords};
ghost use Rattle.session_checker.specs.Faithful.{HasTrueRecordsOf};
ghost use Rattle.byte_origins.specs.EarlierTexts.{len_of_text, texts_table, texts_roots};

use crate::history::History;
use command_parts::Roots;
use rope_node::{NodeId, NodeSpace, NodeView, Rope, rope_len};

/// How long text `r` is.
#[inline(always)]
pub(crate) fn len_of_text<H: History>(history: H, r: u32) -> u64
    requires { r < length (H.image history).revisions }
    ensures value { result ≡ len_of_text (H.image history) r }
    ensures limit { result < TEXT_LIMIT }
{
    let _count = history.revision_count();
    rope_len(history.space(), history.root_of(r))
}

/// The texts of a history's revisions before revision `k`. Node `j` is text `j`, whatever its bytes are.
#[derive(Drop)]
pub(crate) struct TextsBefore<H: History> {
    pub(crate) history: H,
    pub(crate) k: u32,
    ghost inside: { k ≤ length (H.image history).revisions },
}

impl<H: History> TextsBefore<H> {
    /// Those before revision `k` of a history.
    pub(crate) fn of(history: H, k: u32) -> TextsBefore<H>
        requires { k ≤ length (H.image history).revisions }
        ensures image { H.image result.history ≡ H.image history }
        ensures k { result.k ≡ k }
        ensures sound { IsSound (texts_table (H.image history) k) }
        ensures true_records { HasTrueRecords (texts_table (H.image history) k) }
        ensures image_records { HasTrueRecordsOf (H.image history) }
    {
        let _count = history.revision_count();
        TextsBefore { history, k }
    }

    /// How long text `j` is.
    fn len_of_text(&self, j: u32) -> u64
        requires { j < self.now.k }
        ensures value { result ≡ len_of_text (H.image self.now.history) j }
        ensures limit { result < TEXT_LIMIT }
        ensures sound { IsSound (texts_table (H.image self.now.history) self.now.k) }
        ensures true_records { HasTrueRecords (texts_table (H.image self.now.history) self.now.k) }
    {
        let _count = self.history.revision_count();
        len_of_text(self.history, j)
    }
}

impl<H: History> NodeSpace for TextsBefore<H> {
    ghost table = { λ t. texts_table (H.image t.history) t.k };

    fn count(&self) -> u32 {
        let _count = self.history.revision_count();
        self.k
    }

    fn node(&self, id: NodeId) -> NodeView {
        let _count = self.history.revision_count();
        let _ = id;
        NodeView::Fun
    }

    fn len(&self, id: NodeId) -> u64 {
        self.len_of_text(id.0).max(1)
    }

    fn depth(&self, id: NodeId) -> u8 {
        let _ = id;
        0
    }

    fn literal(&self, id: NodeId, off: u64) -> &[u8] {
        let _ = (id, off);
        unreachable!()
    }

    fn fun_byte(&self, id: NodeId, i: u64) -> u8 {
        let _ = (id, i);
        0
    }

    fn period(&self, id: NodeId) -> Option<u64> {
        let _ = id;
        None
    }

    fn source_count(&self) -> u32 {
        self.history.space().source_count()
    }

    fn source_len(&self, s: u32) -> u64 {
        self.history.space().source_len(s)
    }

    fn pool_len(&self) -> u64 {
        self.history.space().pool_len()
    }

    fn pool(&self, a: u64) -> &[u8] {
        self.history.space().pool(a)
    }
}

impl<H: History> Roots for TextsBefore<H> {
    ghost roots = { λ t. texts_roots (H.image t.history) t.k };

    fn count(&self) -> usize {
        self.k as usize
    }

    fn root(&self, r: u32) -> Rope {
        if self.len_of_text(r) > 0 {
            Some(NodeId(r))
        } else {
            None
        }
    }
}
