// The tree over an input (BLAKE3 (2020), 2.1).

ghost use Rattle.std.specs.Prelude.{◌≡◌, ℕ, ◌+◌, ◌*◌, ◌<◌, ◌≤◌, ◌^◌, IsTrue, ◌↔◌, length};
ghost use Rattle.b3_core.specs.Tree.{chunks, top};
ghost use Rattle.b3_board.specs.Spans.{part, top_of};

use b3_core::{CHUNK_LEN, Mode, Node, Span, chunks, top};

// An input with its mode and the number of its first chunk.
#[derive(Clone, Copy)]
pub(crate) struct Tree<'a> {
    pub(crate) input: &'a [u8],
    pub(crate) mode: Mode,
    pub(crate) first: u64,
    ghost few: { length input.now ≤ 2 ^ 30 },
    ghost low: { first + chunks (length input.now) ≤ 2 ^ 54 },
}

impl<'a> Tree<'a> {
    pub(crate) fn new(input: &'a [u8], mode: Mode, first: u64) -> Tree<'a>
        requires few { length input.now ≤ 2 ^ 30 }
        requires low { first + chunks (length input.now) ≤ 2 ^ 54 }
        ensures input { result.input.now ≡ input.now }
        ensures mode { result.mode ≡ mode }
        ensures first { result.first ≡ first }
    {
        Tree { input, mode, first }
    }

    // The number of chunks.
    pub(crate) fn size(&self) -> u64
        ensures { result ≡ chunks (length self.now.input.now) }
    {
        chunks(self.input.len() as u64)
    }

    // The input's bytes in a span.
    pub(crate) fn part(&self, span: Span) -> &'a [u8]
        requires inside { span.first + span.count ≤ chunks (length self.now.input.now) }
        requires some { 0 < span.count }
        ensures { result.now ≡ part self.now.input.now span.first span.count }
    {
        let start = CHUNK_LEN * span.first as usize;
        let end = (start + CHUNK_LEN * span.count as usize).min(self.input.len());
        &self.input[start..end]
    }

    // The top of the subtree over a span.
    pub(crate) fn top_of(&self, span: Span) -> Node
        requires inside { span.first + span.count ≤ chunks (length self.now.input.now) }
        requires some { 0 < span.count }
        ensures { result ≡ top_of self.now.input.now self.now.mode self.now.first span }
    {
        top(&self.mode, self.first + span.first, self.part(span))
    }

    // The root of the whole tree.
    pub(crate) fn root(&self) -> Node
        ensures { result ≡ top self.now.mode self.now.first self.now.input.now }
    {
        top(&self.mode, self.first, self.input)
    }

    // Whether the other tree is over the same bytes, in the same mode and at the same first chunk.
    pub(crate) fn is_same(&self, other: &Tree<'a>) -> bool
        ensures { IsTrue result ↔ ((self.now.input.now ≡ other.now.input.now) × (self.now.mode ≡ other.now.mode)
            × (self.now.first ≡ other.now.first)) }
    {
        self.first == other.first && self.mode == other.mode && self.input == other.input
    }
}
