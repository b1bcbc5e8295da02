// Cuttings of the chunks of an input into subtrees.

ghost use Rattle.std.specs.Prelude.{◌≡◌, ℕ, ◌*◌, ◌<◌, ◌≤◌, ◌^◌, All, length, IfOk, IsTrue, ◌↔◌};
ghost use Rattle.std.specs.Int.{IsPowerOfTwo, div_ceil};
ghost use Rattle.b3_board.specs.Plans.{IsCutting, IsGrain, grain_spans};

use b3_core::{Span, is_subtree};
use std::alloc::{AllocError, Global};

const MIN_DEFAULT_GRAIN: u64 = 16;

const MAX_GRAIN: u64 = 1 << 20;

pub(crate) const MAX_SPANS: u64 = 1024;

pub(crate) const MAX_INPUT: usize = 1 << 30;

/// The smallest power of two of at least 16 that cuts `n` chunks into at most 1,024 spans.
pub fn default_grain(n: u64) -> u64
    requires some { 1 ≤ n }
    requires few { n ≤ 2 ^ 20 }
    ensures grain { IsGrain result }
    ensures at_least { 16 ≤ result }
    ensures few { div_ceil n result ≤ 1024 }
    ensures smallest { (grain : ℕ) → IsPowerOfTwo grain → 16 ≤ grain → div_ceil n grain ≤ 1024 → result ≤ grain }
{
    n.div_ceil(MAX_SPANS)
        .next_power_of_two()
        .max(MIN_DEFAULT_GRAIN)
}

// Whether a plan may be cut by the grain.
pub(crate) fn is_grain(grain: u64) -> bool
    ensures { IsTrue result ↔ IsGrain grain }
{
    if grain > MAX_GRAIN {
        return false;
    }
    grain.next_power_of_two() == grain
}

// The spans of `grain` chunks each, the last perhaps shorter.
pub(crate) fn grain_spans(alloc: Global, n: u64, grain: u64) -> Result<Vec<Span>, AllocError>
    requires some { 1 ≤ n }
    requires few { n ≤ 2 ^ 54 }
    requires grain { IsGrain grain }
    ensures spans { IfOk result (λ spans. spans.items ≡ grain_spans n grain) }
    ensures cutting { IfOk result (λ spans. IsCutting n spans.items) }
    ensures len { IfOk result (λ spans. length spans.items ≡ div_ceil n grain) }
    ensures each { IfOk result (λ spans. All (λ span. span.count ≤ grain) spans.items) }
{
    let count = n.div_ceil(grain);
    let mut spans = Vec::with_capacity(alloc, count as usize)?;
    for i in 0..count {
        let first = i * grain;
        spans.push(Span {
            first,
            count: grain.min(n - first),
        })?;
    }
    Ok(spans)
}

// Whether the spans are a cutting of `n` chunks: subtrees in ascending order, none of them empty, without
// a gap from the first chunk to the last.
pub(crate) fn is_cutting(n: u64, spans: &[Span]) -> bool
    requires some { 1 ≤ n }
    requires few { n ≤ 2 ^ 54 }
    ensures { IsTrue result ↔ IsCutting n spans.now }
{
    let mut next = 0;
    for span in spans {
        if span.count == 0 || span.first != next || !is_subtree(n, *span) {
            return false;
        }
        next += span.count;
    }
    next == n
}
