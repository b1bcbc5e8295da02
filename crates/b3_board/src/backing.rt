// Where the input of a board is: in memory, or in a source.

ghost use Rattle.std.specs.Prelude.{◌≡◌, ℕ, ◌^◌};
ghost use Rattle.b3_board.specs.Spans.{in_memory};

use crate::input_ledger::InputLedger;
use crate::tree::Tree;
use b3_core::Span;
use std::marker::{Brand, Model, PhantomData};

/// What a board has of its input besides the entries: the bytes, where they lie in memory.
pub trait Backing: Drop {
    /// The most chunks in an open span.
    ghost grain: { ℕ };

    /// That the bytes of every span can be had.
    ghost sure: { Type 0 };
}

/// The input that the ledger names, which lies in memory.
#[derive(Drop)]
pub struct InMemory<'a, L: InputLedger> {
    pub(crate) tree: Tree<'a>,
    of: PhantomData<L>,
    ghost input_is: { in_memory tree.input.now ≡ L.input },
    ghost mode_is: { tree.mode ≡ L.mode },
    ghost first_is: { tree.first ≡ L.first },
}

impl<'a, L: InputLedger> Backing for InMemory<'a, L> {
    ghost grain = { 2 ^ 20 };

    ghost sure = { Unit {0} };
}

impl<'a, L: InputLedger> InMemory<'a, L> {
    pub(crate) fn new(tree: Tree<'a>) -> InMemory<'a, L>
        requires input { in_memory tree.input.now ≡ L.input }
        requires mode { tree.mode ≡ L.mode }
        requires first { tree.first ≡ L.first }
        ensures { result.tree.input.now ≡ tree.entry.input.now }
    {
        InMemory {
            tree,
            of: PhantomData,
        }
    }
}

/// A ledger whose input is read from a source: how that is. The call that opens it picks this, with the input.
pub trait SourceLedger: InputLedger {
    /// The most chunks in a span.
    ghost grain: { ℕ };

    /// That each read of the input gives its bytes.
    ghost sure: { Type 0 };
}

// As `InputLedger` at `Brand`: the proof of `hash_source` picks them.
impl SourceLedger for Brand {
    ghost grain = { 0 };

    ghost sure = { ⊥ };
}

/// The input that the ledger names, which is read from a source: no byte of it is at hand.
#[derive(Drop)]
pub struct InSource<L: SourceLedger> {
    of: PhantomData<L>,
}

impl<L: SourceLedger> Backing for InSource<L> {
    ghost grain = { L.grain };

    ghost sure = { L.sure };
}

impl<L: SourceLedger> InSource<L> {
    pub(crate) fn new() -> InSource<L> {
        InSource { of: PhantomData }
    }
}

// A span whose bytes could not be had, which shows that they are not sure.
#[derive(Drop)]
pub(crate) struct Unread<H: Backing> {
    pub(crate) span: Span,
    of: PhantomData<H>,
}

impl<H: Backing> Model for Unread<H> {
    ghost use Rattle.b3_core.specs.declared.spans.Span.{Span};

    ghost Value = { Span };

    ghost view = { λ unread. unread.span };

    ghost invariant = { λ _. ¬ H.sure };
}

impl<H: Backing> Unread<H> {
    pub(crate) fn new(span: Span) -> Unread<H>
        requires { ¬ H.sure }
        ensures { result ≡ span }
    {
        Unread {
            span,
            of: PhantomData,
        }
    }
}
