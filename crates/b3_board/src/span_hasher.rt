// What the workers of a run go through.

ghost use Rattle.std.specs.Prelude.{◌≡◌, ℕ, ◌+◌, ◌<◌, ◌≤◌, ◌^◌, List, length, IfSome};
ghost use Rattle.b3_core.specs.Tree.{chunks};
ghost use Rattle.b3_core.specs.declared.spans.Span.{Span};
ghost use Rattle.b3_board.specs.Plans.{IsCutting, IsPlanOf};
ghost use Rattle.b3_board.specs.SpanHashers.{IsMade, span_of};
ghost use Rattle.b3_board.specs.Spans.{chunks_in};

use crate::backing::{Backing, InMemory, Unread};
use crate::input_ledger::{InputLedger, OwnDone};
use crate::plan::Plan;
use b3_core::Span;

// The spans of an input and the work of each: the one point where an input in memory and a source differ.
pub(crate) trait SpanHasher<H: Backing, L: InputLedger> {
    ghost spans: { Self → List Span };

    // that they are spans of the input that the board's type names
    ghost is_own: { Self → Type 0 };

    // that a buffer of so many bytes takes any span that a board has open
    ghost serves: { Self → ℕ → Type 0 };

    // The spans.
    fn cutting(&self) -> &[Span]
        requires { is_own self.now }
        ensures spans { result.now ≡ spans self.now }
        ensures cutting { IsCutting (chunks L.input.len) (spans self.now) }
        ensures some { 0 < length (spans self.now) }
        ensures few { length (spans self.now) ≤ 1024 }
        ensures small { chunks_in (spans self.now) ≤ 2 ^ 20 };

    // How many bytes of buffer one worker needs.
    fn buffer_len(&self) -> usize;

    // Makes the node of a span, and may use the buffer for it; none where the buffer is too short.
    fn hash(&self, span: Span, buffer: &mut [u8]) -> Option<Result<OwnDone<L>, Unread<H>>>
        requires own { is_own self.now }
        requires inside { span.first + span.count ≤ chunks L.input.len }
        requires some { 0 < span.count }
        ensures span { IfSome result (λ made. span_of made ≡ span) }
        ensures sure { H.sure → span.count ≤ H.grain → serves self.now (length buffer.old) → IsMade result };
}

impl<'a, L: InputLedger> SpanHasher<InMemory<'a, L>, L> for Plan<'a> {
    ghost spans = { λ plan. plan.spans };

    ghost is_own = { λ plan. IsPlanOf L.input L.mode L.first plan };

    ghost serves = { λ _ _. Unit {0} };

    fn cutting(&self) -> &[Span] {
        self.spans()
    }

    fn buffer_len(&self) -> usize {
        0
    }

    fn hash(
        &self,
        span: Span,
        _buffer: &mut [u8],
    ) -> Option<Result<OwnDone<L>, Unread<InMemory<'a, L>>>> {
        Some(Ok(self.hash_span::<L>(span)))
    }
}
