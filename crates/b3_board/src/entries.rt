// The entries of a board: one for each span of its cutting, whose places never change.

ghost use Rattle.std.specs.Prelude.{◌≡◌, ◌≢◌, ℕ, ◌<◌, length, map, slice_get, IfOk, IfSome, IfNone};
ghost use Rattle.b3_core.specs.declared.spans.Span.{Span};
ghost use Rattle.b3_board.specs.Entries.{IsInOrder, at, fresh, open_spans, pieces};

use b3_core::{Node, Span};
use std::alloc::{AllocError, Global};

// A node with its chaining value.
#[derive(Clone, Copy)]
pub(crate) struct KeptNode {
    pub(crate) node: Node,
    pub(crate) chaining_value: [u32; 8],
}

// What a board knows of an entry's span: that it was joined to the one before, and has no chunk left;
// that it is open; or its node.
#[derive(Clone, Copy)]
pub(crate) enum State {
    Joined,
    Open,
    Kept(KeptNode),
}

#[derive(Clone, Copy)]
pub(crate) struct Entry {
    pub(crate) span: Span,
    pub(crate) state: State,
}

// An open entry for each span.
pub(crate) fn opened(alloc: Global, spans: &[Span]) -> Result<Vec<Entry>, AllocError>
    ensures { IfOk result (λ entries. entries.items ≡ map fresh spans.now) }
{
    let mut entries = Vec::with_capacity(alloc, spans.len())?;
    for span in spans {
        entries.push(Entry {
            span: *span,
            state: State::Open,
        })?;
    }
    Ok(entries)
}

// The place of the entry that begins at chunk `first`.
pub(crate) fn find(entries: &[Entry], first: u64) -> Option<usize>
    requires { IsInOrder entries.now }
    ensures found { IfSome result (λ i. (i < length entries.now) × ((at entries.now i).span.first ≡ first)) }
    ensures none { IfNone result ((i : ℕ) → i < length entries.now → (at entries.now i).span.first ≢ first) }
{
    let mut low = 0;
    let mut high = entries.len();
    while low < high {
        let middle = low + (high - low) / 2;
        if entries[middle].span.first < first {
            low = middle + 1;
        } else {
            high = middle;
        }
    }
    if low < entries.len() && entries[low].span.first == first {
        Some(low)
    } else {
        None
    }
}

// The place of an open span.
pub(crate) fn find_open(entries: &[Entry], span: Span) -> Option<usize>
    requires { IsInOrder entries.now }
    ensures found { IfSome result (λ i. (i < length entries.now) × ((at entries.now i).state ≡ State.Open)
        × ((at entries.now i).span ≡ span)) }
    ensures none { IfNone result ((i : ℕ) → (at entries.now i).state ≡ State.Open → (at entries.now i).span ≢ span) }
{
    let Some(place) = find(entries, span.first) else {
        return None;
    };
    if entries[place].span.count != span.count {
        return None;
    }
    match entries[place].state {
        State::Open => Some(place),
        _ => None,
    }
}

// The number of open spans.
pub(crate) fn count_open(entries: &[Entry]) -> usize
    ensures { result ≡ length (open_spans entries.now) }
{
    let mut count = 0;
    for entry in entries {
        if let State::Open = entry.state {
            count += 1;
        }
    }
    count
}

// The i-th open span.
pub(crate) fn nth_open(entries: &[Entry], i: usize) -> Option<Span>
    ensures { result ≡ slice_get (open_spans entries.now) i }
{
    let mut left = i;
    for entry in entries {
        if let State::Open = entry.state {
            if left == 0 {
                return Some(entry.span);
            }
            left -= 1;
        }
    }
    None
}

// The span of the i-th piece.
pub(crate) fn nth_piece(entries: &[Entry], i: usize) -> Option<Span>
    ensures { result ≡ slice_get (map (λ p. p.span) (pieces entries.now)) i }
{
    let mut left = i;
    for entry in entries {
        if let State::Kept(_) = entry.state {
            if left == 0 {
                return Some(entry.span);
            }
            left -= 1;
        }
    }
    None
}
