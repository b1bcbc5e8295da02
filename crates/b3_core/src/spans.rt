// Spans of chunks, and which of them are subtrees of the tree over `n` chunks (BLAKE3 (2020), 2.1), by tests of bits.

ghost use Rattle.std.specs.Prelude.{IfSome, IsSome, IsTrue, Some, ◌↔◌, ◌≡◌, ◌^◌, ◌<◌, ◌≤◌};
ghost use Rattle.b3_core.specs.Subtrees.{AreSiblings, IsSubtree};
ghost use Rattle.b3_core.specs.declared.spans.Span.{Span};

/// A run of chunks: the number of its first chunk, and how many it has.
#[derive(Clone, Copy, Debug, PartialEq, Eq)]
pub struct Span {
    pub first: u64,
    pub count: u64,
}

/// Whether the span is a subtree of the tree over `n` chunks (BLAKE3 (2020), 2.1).
pub fn is_subtree(n: u64, span: Span) -> bool
    requires some { 1 ≤ n }
    requires few { n ≤ 2 ^ 54 }
    ensures { IsTrue result ↔ IsSubtree n span.first span.count }
{
    if span.count == 0 || span.count > n || span.first > n - span.count {
        return false;
    }
    // A subtree fills a place for a power of two of chunks, which begins at a multiple of that power; only the last
    // one of the tree may be shorter.
    let whole = span.count.next_power_of_two();
    span.first % whole == 0 && (span.count == whole || span.first + span.count == n)
}

/// The sibling of a subtree of the tree over `n` chunks: the other child of its parent (BLAKE3 (2020),
/// 2.1). None for the whole tree, and for a span that is no subtree.
pub fn sibling(n: u64, span: Span) -> Option<Span>
    requires some { 1 ≤ n }
    requires few { n ≤ 2 ^ 54 }
    ensures found { IfSome result (AreSiblings n span) }
    ensures only { (other : Span) → AreSiblings n span other → result ≡ Some other }
    ensures there { IsSome result ↔ (IsSubtree n span.first span.count × (span.count < n)) }
{
    if span.count >= n || !is_subtree(n, span) {
        return None;
    }
    let end = span.first + span.count;
    if end < n && span.first % (2 * span.count) == 0 {
        // A left child: the right one has as many chunks, or those that are left of the tree.
        let count = span.count.min(n - end);
        return Some(Span { first: end, count });
    }
    // A right child: the left one has as many chunks as the lowest bit of the place where it ends.
    let count = 1 << span.first.trailing_zeros();
    Some(Span {
        first: span.first - count,
        count,
    })
}
