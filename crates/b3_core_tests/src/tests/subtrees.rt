// Subtrees and siblings of small trees, drawn by hand.

ghost use Rattle.std.specs.Prelude.{◌≡◌};

use super::asserts::{assert_same_for, assert_that};
use b3_core::{Span, is_subtree, sibling};
use std::process::Abort;

fn span(first: u64, count: u64) -> Span
    ensures first { result.first ≡ first }
    ensures count { result.count ≡ count }
{
    Span { first, count }
}

fn assert_sibling(rt: &impl Abort, n: u64, of: Span, want: Option<Span>) {
    assert_that(rt, 1 <= n && n <= 1 << 54);
    assert_same_for(rt, n, sibling(n, of), want);
}

fn assert_subtree(rt: &impl Abort, n: u64, of: Span, want: bool) {
    assert_that(rt, 1 <= n && n <= 1 << 54);
    assert_same_for(rt, n, is_subtree(n, of), want);
}

#[test]
fn siblings_of_seven_chunks(rt: HostRuntime) {
    assert_sibling(&rt, 7, span(4, 3), Some(span(0, 4)));
    assert_sibling(&rt, 7, span(0, 4), Some(span(4, 3)));
    assert_sibling(&rt, 7, span(6, 1), Some(span(4, 2)));
    assert_sibling(&rt, 7, span(4, 2), Some(span(6, 1)));
    assert_sibling(&rt, 7, span(5, 1), Some(span(4, 1)));
    assert_sibling(&rt, 7, span(1, 2), None);
    assert_sibling(&rt, 7, span(0, 7), None);
}

#[test]
fn siblings_of_five_chunks(rt: HostRuntime) {
    assert_sibling(&rt, 5, span(4, 1), Some(span(0, 4)));
    assert_sibling(&rt, 5, span(0, 5), None);
    assert_sibling(&rt, 5, span(4, 2), None);
    assert_sibling(&rt, 5, span(2, 0), None);
}

// The spans (first, count) that are subtrees of six chunks, all of them.
const SUBTREES_OF_SIX: [(u64, u64); 11] = [
    (0, 6),
    (0, 4),
    (4, 2),
    (0, 2),
    (2, 2),
    (0, 1),
    (1, 1),
    (2, 1),
    (3, 1),
    (4, 1),
    (5, 1),
];

#[test]
fn subtrees_of_six_chunks(rt: HostRuntime) {
    for first in 0..8u64 {
        for count in 0..8u64 {
            let want = SUBTREES_OF_SIX.contains(&(first, count));
            assert_subtree(&rt, 6, span(first, count), want);
        }
    }
    for (first, count) in [(u64::MAX, 1u64), (1, u64::MAX)] {
        assert_subtree(&rt, 6, span(first, count), false);
    }
}

#[test]
fn the_greatest_tree(rt: HostRuntime) {
    let n = 1 << 54;
    assert_subtree(&rt, n, span(0, n), true);
    assert_sibling(&rt, n, span(0, n), None);
    assert_sibling(&rt, n, span(n / 2, n / 2), Some(span(0, n / 2)));
    assert_sibling(&rt, n, span(n - 1, 1), Some(span(n - 2, 1)));
}
