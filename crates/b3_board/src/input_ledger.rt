// What a board is over, named by its type, and the work that it takes.

ghost use Rattle.std.specs.Prelude.{◌≡◌, ℕ, ◌+◌, ◌-◌, ◌*◌, ◌<◌, ◌≤◌, ◌^◌, min, List, [], length, Some, None};
ghost use Rattle.b3_core.specs.Nodes.{chaining};
ghost use Rattle.b3_core.specs.Tree.{IsLeft, chunks};
ghost use Rattle.b3_core.specs.declared.modes.Mode.{Mode};
ghost use Rattle.b3_board.specs.Spans.{IsNodeOf, KnownInput, part};

use crate::jobs::Done;
use b3_core::{Mode, Node, Span, chunks, parent_node, top};
use std::marker::{Brand, Model, PhantomData};
use std::sync::ledger::Ledger;

/// What a board is over: what is known of an input, a mode and the number of the first chunk. The call that opens the
/// board's ledger picks them.
pub trait InputLedger: Ledger {
    ghost input: { KnownInput };

    ghost mode: { Mode };

    ghost first: { ℕ };
}

// Not what a board at `Brand` is over: the proof of a call that passes `Brand` picks what is known, the mode and the
// first chunk anew, as that of `hash_parallel` picks its plan's. These values would stand where nothing is picked.
impl InputLedger for Brand {
    ghost input = { record { told = None; len = 0 } };

    ghost mode = { record { key = []; flag = 0 } };

    ghost first = { 0 };
}

// The number of bytes of the input that the ledger names, and its mode.
#[derive(Drop)]
pub(crate) struct Extent<L: InputLedger> {
    len: u64,
    mode: Mode,
    of: PhantomData<L>,
    ghost len_is: { len ≡ L.input.len },
    ghost mode_is: { mode ≡ L.mode },
    ghost few: { len ≤ 2 ^ 30 },
}

impl<L: InputLedger> Extent<L> {
    pub(crate) fn new(len: u64, mode: Mode) -> Extent<L>
        requires len { len ≡ L.input.len }
        requires mode { mode ≡ L.mode }
        requires few { len ≤ 2 ^ 30 }
    {
        Extent {
            len,
            mode,
            of: PhantomData,
        }
    }

    // The number of chunks.
    pub(crate) fn size(&self) -> u64
        ensures count { result ≡ chunks L.input.len }
        ensures few { result ≤ 2 ^ 20 }
    {
        chunks(self.len)
    }

    // The mode of the tree's nodes.
    pub(crate) fn mode(&self) -> &Mode
        ensures { result.now ≡ L.mode }
    {
        &self.mode
    }
}

// A span of the input that the ledger names with its node.
#[derive(Drop)]
pub(crate) struct OwnDone<L: InputLedger> {
    pub(crate) span: Span,
    pub(crate) node: Node,
    pub(crate) chaining_value: [u32; 8],
    of: PhantomData<L>,
}

impl<L: InputLedger> Model for OwnDone<L> {
    ghost use Rattle.b3_board.specs.Entries.{KeepsNode};
    ghost use Rattle.b3_board.specs.BoardStates.{Piece};

    ghost Value = { Piece };

    ghost view = { λ done. record { span = done.span; node = done.node } };

    ghost invariant = { λ done. KeepsNode L.input L.mode L.first done.span done.node done.chaining_value };
}

impl<L: InputLedger> OwnDone<L> {
    // Hashes the bytes of a span.
    pub(crate) fn of_bytes(bytes: &[u8], mode: &Mode, first: u64, span: Span) -> OwnDone<L>
        requires mode { mode.now ≡ L.mode }
        requires first { first ≡ L.first }
        requires inside { span.first + span.count ≤ chunks L.input.len }
        requires some { 0 < span.count }
        requires numbers { L.first + chunks L.input.len ≤ 2 ^ 54 }
        requires len { length bytes.now ≡ min (1024 * span.count) (L.input.len - 1024 * span.first) }
        requires told { (all : List ℕ) → L.input.told ≡ Some all
            → (length all ≡ L.input.len) × (bytes.now ≡ part all span.first span.count) }
        ensures { result.span ≡ span }
    {
        let node = top(mode, first + span.first, bytes);
        OwnDone {
            span,
            node,
            chaining_value: node.chaining(),
            of: PhantomData,
        }
    }

    // The subtree of which two that are hashed are the halves.
    pub(crate) fn joined(front: OwnDone<L>, back: OwnDone<L>, mode: &Mode) -> OwnDone<L>
        requires mode { mode.now ≡ L.mode }
        requires next { back.span.first ≡ front.span.first + front.span.count }
        requires halves { IsLeft (front.span.count + back.span.count) front.span.count }
        requires inside { back.span.first + back.span.count ≤ chunks L.input.len }
        requires some { 0 < back.span.count }
        requires numbers { L.first + chunks L.input.len ≤ 2 ^ 54 }
        ensures { result.span ≡ record { first = front.span.first; count = front.span.count + back.span.count } }
    {
        let node = parent_node(mode, &front.chaining_value, &back.chaining_value);
        OwnDone {
            span: Span {
                first: front.span.first,
                count: front.span.count + back.span.count,
            },
            node,
            chaining_value: node.chaining(),
            of: PhantomData,
        }
    }

    // Work of any origin that is found to be of the input that the ledger names.
    pub(crate) fn of_done(done: Done<'_>) -> OwnDone<L>
        requires { IsNodeOf L.input L.mode L.first done.span done.node }
        ensures { result ≡ record { span = done.entry.span; node = done.entry.node } }
    {
        OwnDone {
            span: done.span,
            node: done.node,
            chaining_value: done.chaining_value,
            of: PhantomData,
        }
    }
}
