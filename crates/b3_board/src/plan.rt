// A plan: an input, cut into spans.

ghost use Rattle.std.specs.Prelude.{◌≡◌, ◌⊎◌, ℕ, ◌+◌, ◌<◌, ◌≤◌, ◌^◌, length, slice_get, false, IfOk, IfErr, Err};
ghost use Rattle.std.specs.Option.{option_map};
ghost use Rattle.b3_core.specs.Tree.{chunks, top};
ghost use Rattle.b3_board.specs.Faults.{IsCutFault, IsGrainFault};
ghost use Rattle.b3_board.specs.Plans.{IsCutting, IsPlanOf, by_grain, job_of};
ghost use Rattle.b3_board.specs.Spans.{chunks_in};
ghost use Rattle.b3_claims.specs.declared.fault.BoardFault.{BoardFault};
ghost use Rattle.b3_claims.specs.declared.fault.BoardFault.TheVariants.{Memory};

use crate::cutting::{MAX_INPUT, MAX_SPANS, grain_spans, is_cutting, is_grain};
use crate::input_ledger::{InputLedger, OwnDone};
use crate::jobs::Job;
use crate::root::Root;
use crate::tree::Tree;
use b3_claims::BoardFault;
use b3_core::{Mode, Span, chunks};
use std::alloc::Global;
use std::marker::Model;

/// An input with a mode, cut into at most 1,024 spans of chunks, each a subtree (BLAKE3 (2020), 2.1).
///
/// The chunks are numbered from the plan's first chunk; a span counts from the input's start.
#[derive(Drop)]
pub struct Plan<'a> {
    pub(crate) tree: Tree<'a>,
    pub(crate) spans: Vec<Span>,
    ghost cutting: { IsCutting (chunks (length tree.input.now)) spans.items },
    ghost few: { length spans.items ≤ 1024 },
}

impl<'a> Model for Plan<'a> {
    ghost use Rattle.b3_board.specs.Plans.{PlanState};

    ghost Value = { PlanState };

    ghost view = { λ plan. record {
      input = plan.tree.input.now;
      mode = plan.tree.mode;
      first = plan.tree.first;
      spans = plan.spans.items;
    } };
}

impl<'a> Plan<'a> {
    /// A plan of a whole input, in spans of `grain` chunks each, the last perhaps shorter.
    ///
    /// Refused by the first of `BadGrain`, `TooLarge` and `TooManySpans` that holds, else by `Memory`
    /// where a growth is.
    pub fn new(
        alloc: Global,
        input: &'a [u8],
        mode: Mode,
        grain: u64,
    ) -> Result<Plan<'a>, BoardFault>
        ensures plan { IfOk result (λ plan. plan ≡ by_grain input.now mode 0 grain) }
        ensures refused { (fault : BoardFault) → IsGrainFault (length input.now) grain fault → result ≡ Err fault }
        ensures only { IfErr result (λ fault. (fault ≡ Memory) ⊎ IsGrainFault (length input.now) grain fault) }
    {
        Plan::at(alloc, input, mode, 0, grain)
    }

    /// The same for a part of an input, whose chunks are numbered from `first`.
    pub fn at(
        alloc: Global,
        input: &'a [u8],
        mode: Mode,
        first: u64,
        grain: u64,
    ) -> Result<Plan<'a>, BoardFault>
        requires { first + chunks (length input.now) ≤ 2 ^ 54 }
        ensures plan { IfOk result (λ plan. plan ≡ by_grain input.now mode first grain) }
        ensures refused { (fault : BoardFault) → IsGrainFault (length input.now) grain fault → result ≡ Err fault }
        ensures only { IfErr result (λ fault. (fault ≡ Memory) ⊎ IsGrainFault (length input.now) grain fault) }
    {
        // In the order of `IsGrainFault`, which decides.
        if !is_grain(grain) {
            return Err(BoardFault::BadGrain);
        }
        if input.len() > MAX_INPUT {
            return Err(BoardFault::TooLarge);
        }
        let tree = Tree::new(input, mode, first);
        if tree.size().div_ceil(grain) > MAX_SPANS {
            return Err(BoardFault::TooManySpans);
        }
        let spans = grain_spans(alloc, tree.size(), grain)?;
        Ok(Plan { tree, spans })
    }

    /// A plan of a whole input by the caller's cutting: subtrees in ascending order, none of them empty,
    /// without a gap from the first chunk to the last.
    ///
    /// Refused by the first of `TooLarge`, `TooManySpans` and `BadCut` that holds, else by `Memory` where
    /// a growth is.
    pub fn cut(
        alloc: Global,
        input: &'a [u8],
        mode: Mode,
        spans: &[Span],
    ) -> Result<Plan<'a>, BoardFault>
        ensures plan { IfOk result (λ plan.
            plan ≡ record { input = input.now; mode = mode; first = 0; spans = spans.now }) }
        ensures refused { (fault : BoardFault) → IsCutFault (length input.now) spans.now fault → result ≡ Err fault }
        ensures only { IfErr result (λ fault. (fault ≡ Memory) ⊎ IsCutFault (length input.now) spans.now fault) }
    {
        Plan::cut_at(alloc, input, mode, 0, spans)
    }

    /// The same for a part of an input, whose chunks are numbered from `first`.
    pub fn cut_at(
        alloc: Global,
        input: &'a [u8],
        mode: Mode,
        first: u64,
        spans: &[Span],
    ) -> Result<Plan<'a>, BoardFault>
        requires { first + chunks (length input.now) ≤ 2 ^ 54 }
        ensures plan { IfOk result (λ plan.
            plan ≡ record { input = input.now; mode = mode; first = first; spans = spans.now }) }
        ensures refused { (fault : BoardFault) → IsCutFault (length input.now) spans.now fault → result ≡ Err fault }
        ensures only { IfErr result (λ fault. (fault ≡ Memory) ⊎ IsCutFault (length input.now) spans.now fault) }
    {
        // In the order of `IsCutFault`, which decides.
        if input.len() > MAX_INPUT {
            return Err(BoardFault::TooLarge);
        }
        if spans.len() as u64 > MAX_SPANS {
            return Err(BoardFault::TooManySpans);
        }
        let tree = Tree::new(input, mode, first);
        if !is_cutting(tree.size(), spans) {
            return Err(BoardFault::BadCut);
        }
        let mut kept = Vec::with_capacity(alloc, spans.len())?;
        kept.extend_from_slice(spans)?;
        Ok(Plan { tree, spans: kept })
    }

    /// The input.
    pub fn input(&self) -> &'a [u8]
        ensures { result.now ≡ self.now.input }
    {
        self.tree.input
    }

    /// The mode.
    pub fn mode(&self) -> Mode
        ensures { result ≡ self.now.mode }
    {
        self.tree.mode
    }

    /// The number of the input's first chunk.
    pub fn first(&self) -> u64
        ensures { result ≡ self.now.first }
    {
        self.tree.first
    }

    /// The number of spans.
    pub fn len(&self) -> usize
        ensures len { result ≡ length self.now.spans }
        ensures some { 0 < result }
        ensures few { result ≤ 1024 }
        ensures small { chunks_in self.now.spans ≤ 2 ^ 20 }
    {
        self.spans.len()
    }

    // The spans.
    pub(crate) fn spans(&self) -> &[Span]
        ensures spans { result.now ≡ self.now.spans }
        ensures cutting { IsCutting (chunks (length self.now.input)) self.now.spans }
        ensures some { 0 < length self.now.spans }
        ensures few { length self.now.spans ≤ 1024 }
        ensures small { chunks_in self.now.spans ≤ 2 ^ 20 }
    {
        self.spans.as_slice()
    }

    /// Span `i`, or none where the plan has no more than `i` spans.
    pub fn span(&self, i: usize) -> Option<Span>
        ensures { result ≡ slice_get self.now.spans i }
    {
        let spans = self.spans.as_slice();
        if i < spans.len() {
            Some(spans[i])
        } else {
            None
        }
    }

    /// The job of span `i`, or none where the plan has no more than `i` spans.
    pub fn job(&self, i: usize) -> Option<Job<'a>>
        ensures { result ≡ option_map (job_of self.now) (slice_get self.now.spans i) }
    {
        let spans = self.spans.as_slice();
        if i < spans.len() {
            Some(Job::new(&self.tree, spans[i]))
        } else {
            None
        }
    }

    // Hashes a span, for a board over the input that the ledger names, which is this plan's.
    pub(crate) fn hash_span<L: InputLedger>(&self, span: Span) -> OwnDone<L>
        requires own { IsPlanOf L.input L.mode L.first self.now }
        requires inside { span.first + span.count ≤ chunks L.input.len }
        requires some { 0 < span.count }
        ensures { result.span ≡ span }
    {
        let bytes = self.tree.part(span);
        OwnDone::of_bytes(bytes, &self.tree.mode, self.tree.first, span)
    }

    /// The root of the plan's input, hashed by this call.
    pub fn plain(&self) -> Root
        ensures { result ≡ record { node = top self.now.mode self.now.first self.now.input; kept = false } }
    {
        Root::plain(&self.tree)
    }
}
