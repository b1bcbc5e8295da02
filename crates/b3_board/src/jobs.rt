// The jobs of a plan.

ghost use Rattle.std.specs.Prelude.{◌≡◌, ℕ, ◌+◌, ◌<◌, ◌≤◌, ◌^◌, ◌↔◌, IsTrue, length};
ghost use Rattle.b3_core.specs.Nodes.{chaining};
ghost use Rattle.b3_core.specs.Tree.{chunks, top};
ghost use Rattle.b3_board.specs.Plans.{JobState, done_of};
ghost use Rattle.b3_board.specs.Spans.{part};

use crate::tree::Tree;
use b3_core::{Mode, Node, Span, top};
use std::marker::Model;

/// A span of a plan, to be hashed.
#[derive(Drop)]
pub struct Job<'a> {
    span: Span,
    bytes: &'a [u8],
    mode: Mode,
    first: u64,
    ghost low: { first + span.first + chunks (length bytes.now) ≤ 2 ^ 54 },
}

impl<'a> Model for Job<'a> {
    ghost use Rattle.b3_board.specs.Plans.{JobState};

    ghost Value = { JobState };

    ghost view = { λ job. record { span = job.span; bytes = job.bytes.now; mode = job.mode; first = job.first } };
}

impl<'a> Job<'a> {
    // The job of a span of the tree.
    pub(crate) fn new(tree: &Tree<'a>, span: Span) -> Job<'a>
        requires inside { span.first + span.count ≤ chunks (length tree.now.input.now) }
        requires some { 0 < span.count }
        ensures { result ≡ record {
          span = span;
          bytes = part tree.now.input.now span.first span.count;
          mode = tree.now.mode;
          first = tree.now.first;
        } }
    {
        Job {
            span,
            bytes: tree.part(span),
            mode: tree.mode,
            first: tree.first,
        }
    }

    /// Hashes the span: its node is the top of its bytes (BLAKE3 (2020), 2.1), at its place in the tree.
    pub fn work(self) -> Done<'a>
        ensures { result ≡ done_of self.entry }
    {
        let node = top(&self.mode, self.first + self.span.first, self.bytes);
        Done {
            span: self.span,
            bytes: self.bytes,
            mode: self.mode,
            first: self.first,
            node,
            chaining_value: node.chaining(),
        }
    }
}

/// A span with its node, as [`Job::work`] made it.
///
/// It keeps the node's chaining value too, so that a board has not to make it.
#[derive(Drop)]
pub struct Done<'a> {
    pub(crate) span: Span,
    pub(crate) bytes: &'a [u8],
    pub(crate) mode: Mode,
    pub(crate) first: u64,
    pub(crate) node: Node,
    pub(crate) chaining_value: [u32; 8],
    ghost is_top: { node ≡ top mode (first + span.first) bytes.now },
    ghost is_chaining: { chaining_value ≡ chaining node },
}

impl<'a> Model for Done<'a> {
    ghost use Rattle.b3_board.specs.Plans.{DoneState};

    ghost Value = { DoneState };

    ghost view = { λ done. record {
      span = done.span;
      bytes = done.bytes.now;
      mode = done.mode;
      first = done.first;
      node = done.node;
    } };
}

impl<'a> Done<'a> {
    /// The span.
    pub fn span(&self) -> Span
        ensures { result ≡ self.now.span }
    {
        self.span
    }

    /// The top of the span's bytes.
    pub fn node(&self) -> Node
        ensures node { result ≡ self.now.node }
        ensures top { self.now.node ≡ top self.now.mode (self.now.first + self.now.span.first) self.now.bytes }
    {
        self.node
    }

    // Whether the bytes, the mode and the first chunk are those of the tree.
    pub(crate) fn is_of(&self, tree: &Tree<'a>) -> bool
        requires inside { self.now.span.first + self.now.span.count ≤ chunks (length tree.now.input.now) }
        requires some { 0 < self.now.span.count }
        ensures { IsTrue result ↔ ((self.now.bytes ≡ part tree.now.input.now self.now.span.first self.now.span.count)
            × (self.now.mode ≡ tree.now.mode) × (self.now.first ≡ tree.now.first)) }
    {
        self.first == tree.first && self.mode == tree.mode && self.bytes == tree.part(self.span)
    }
}
