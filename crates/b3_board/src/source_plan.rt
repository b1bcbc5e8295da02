// A part of a source, cut into spans: workers read the spans that they claim by themselves.

ghost use Rattle.std.specs.Prelude.{◌≡◌, ℕ, ◌+◌, ◌-◌, ◌*◌, ◌<◌, ◌≤◌, ◌^◌, min, List, All, length, Some, IfSome, IsOk};
ghost use Rattle.b3_core.specs.Tree.{IsLeft, chunks};
ghost use Rattle.b3_board.specs.Plans.{IsCutting};
ghost use Rattle.b3_board.specs.Spans.{chunks_in};
ghost use Rattle.b3_board.specs.Regions.{region};
ghost use Rattle.b3_board.specs.SpanHashers.{IsMade, IsSameInput, span_of};

use crate::backing::{InSource, SourceLedger, Unread};
use crate::input_ledger::OwnDone;
use crate::source::Source;
use crate::span_hasher::SpanHasher;
use b3_core::{Mode, Span, left};
use b3_threads::PIECE_LEN;

const CHUNK_LEN: u64 = b3_core::CHUNK_LEN as u64;

// So many bytes of a source from an offset on, with a mode, the number of their first chunk, and their cutting into
// spans of no more than `grain` chunks.
#[derive(Drop)]
pub(crate) struct SourcePlan<'s, S: Source> {
    pub(crate) source: &'s S,
    pub(crate) offset: u64,
    pub(crate) len: u64,
    pub(crate) mode: Mode,
    pub(crate) first: u64,
    pub(crate) grain: u64,
    pub(crate) spans: Vec<Span>,
    ghost few: { len ≤ 2 ^ 30 },
    ghost low: { first + chunks len ≤ 2 ^ 54 },
    ghost end: { offset + len < 2 ^ 64 },
    ghost there: { (all : List ℕ) → S.told source.now ≡ Some all → offset + len ≤ length all },
    ghost small: { grain ≤ 2 ^ 20 },
    ghost cutting: { IsCutting (chunks len) spans.items },
    ghost few_spans: { length spans.items ≤ 1024 },
    ghost few_a_span: { All (λ span. span.count ≤ grain) spans.items },
}

impl<'s, S: Source> SourcePlan<'s, S> {
    // What the buffer of a worker takes: a span, or a piece of a longer one.
    pub(crate) fn piece_len(&self) -> usize
        ensures whole_span { result ≤ min (1024 * self.now.grain) self.now.len }
        ensures chunk { 0 < self.now.grain → min 1024 self.now.len ≤ result }
    {
        (CHUNK_LEN * self.grain).min(self.len).min(PIECE_LEN as u64) as usize
    }

    // What the least of buffers takes.
    fn chunk_len(&self) -> usize
        ensures { result ≡ min 1024 self.now.len }
    {
        CHUNK_LEN.min(self.len) as usize
    }

    // The number of bytes in a span.
    fn span_len(&self, span: Span) -> usize
        requires inside { span.first + span.count ≤ chunks self.now.len }
        requires some { 0 < span.count }
        ensures { result ≡ min (1024 * span.count) (self.now.len - 1024 * span.first) }
    {
        let start = CHUNK_LEN * span.first;
        (CHUNK_LEN * span.count).min(self.len - start) as usize
    }

    // Reads a span into the buffer, and hashes it there: a span that the buffer is too short for in two halves, one after
    // the other.
    pub(crate) fn read<L: SourceLedger>(
        &self,
        span: Span,
        buffer: &mut [u8],
    ) -> Result<OwnDone<L>, Unread<InSource<L>>>
        requires own { IsSameInput L.input L.mode L.first L.sure
            (region (S.told self.now.source.now) self.now.offset self.now.len) self.now.mode self.now.first
            (S.sure self.now.source.now (self.now.offset + self.now.len)) }
        requires inside { span.first + span.count ≤ chunks self.now.len }
        requires some { 0 < span.count }
        requires buffer { min 1024 self.now.len ≤ length buffer.old }
        ensures span { span_of result ≡ span }
        ensures sure { L.sure → IsOk result }
    {
        if self.span_len(span) <= buffer.len() {
            return self.read_at_once(span, buffer);
        }
        let (front, back) = halves(span);
        let Ok(front) = self.read::<L>(front, buffer) else {
            return Err(Unread::new(span));
        };
        let Ok(back) = self.read::<L>(back, buffer) else {
            return Err(Unread::new(span));
        };
        Ok(OwnDone::joined(front, back, &self.mode))
    }

    // The same of a span that the buffer takes.
    fn read_at_once<L: SourceLedger>(
        &self,
        span: Span,
        buffer: &mut [u8],
    ) -> Result<OwnDone<L>, Unread<InSource<L>>>
        requires own { IsSameInput L.input L.mode L.first L.sure
            (region (S.told self.now.source.now) self.now.offset self.now.len) self.now.mode self.now.first
            (S.sure self.now.source.now (self.now.offset + self.now.len)) }
        requires inside { span.first + span.count ≤ chunks self.now.len }
        requires some { 0 < span.count }
        requires buffer { min (1024 * span.count) (self.now.len - 1024 * span.first) ≤ length buffer.old }
        ensures span { span_of result ≡ span }
        ensures sure { L.sure → IsOk result }
        ensures len { length buffer.new ≡ length buffer.old }
    {
        let start = CHUNK_LEN * span.first;
        let len = self.span_len(span);
        let buffer = &mut buffer[..len];
        let Some(count) = self.source.read_at(self.offset + start, buffer) else {
            return Err(Unread::new(span));
        };
        if count < len {
            return Err(Unread::new(span));
        }
        Ok(OwnDone::of_bytes(buffer, &self.mode, self.first, span))
    }
}

// The spans of the two children of a subtree of more than one chunk (BLAKE3 (2020), 2.1).
fn halves(span: Span) -> (Span, Span)
    requires more { 1 < span.count }
    requires in_number { span.first + span.count < 2 ^ 64 }
    ensures front { result.0.first ≡ span.first }
    ensures left { IsLeft span.count result.0.count }
    ensures back { result.1.first ≡ span.first + result.0.count }
    ensures all { result.0.count + result.1.count ≡ span.count }
{
    let count = left(span.count);
    let front = Span {
        first: span.first,
        count,
    };
    let back = Span {
        first: span.first + count,
        count: span.count - count,
    };
    (front, back)
}

impl<'s, S: Source, L: SourceLedger> SpanHasher<InSource<L>, L> for SourcePlan<'s, S> {
    ghost spans = { λ plan. plan.spans.items };

    ghost is_own = { λ plan. IsSameInput L.input L.mode L.first L.sure
        (region (S.told plan.source.now) plan.offset plan.len) plan.mode plan.first
        (S.sure plan.source.now (plan.offset + plan.len)) };

    ghost serves = { λ plan buffer. min 1024 plan.len ≤ buffer };

    fn cutting(&self) -> &[Span] {
        self.spans.as_slice()
    }

    fn buffer_len(&self) -> usize {
        self.piece_len()
    }

    fn hash(
        &self,
        span: Span,
        buffer: &mut [u8],
    ) -> Option<Result<OwnDone<L>, Unread<InSource<L>>>> {
        if buffer.len() < self.chunk_len() {
            return None;
        }
        Some(self.read(span, buffer))
    }
}
