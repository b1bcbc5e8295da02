// What becomes of the entries of a board when a span is closed: siblings are joined from there up.

ghost use Rattle.std.specs.Prelude.{◌≡◌, ◌≢◌, ℕ, ◌+◌, ◌<◌, ◌≤◌, ◌^◌, length, map, sum_by, IfNone, IfSome, IsSome, None, slice_set, true, ◌↔◌};
ghost use Rattle.b3_core.specs.Nodes.{chaining};
ghost use Rattle.b3_core.specs.Subtrees.{AreSiblings, IsSubtree};
ghost use Rattle.b3_core.specs.Tree.{chunks, parent_node};
ghost use Rattle.b3_board.specs.Entries.{ApartBut, IsInOrder, IsJoined, Lawful, NoneOpen, Sound, at, is_kept, joined, kept_chunk, kept_count, open_count, open_span};
ghost use Rattle.b3_board.specs.Spans.{IsNodeOf, IsRootOf, chunk_in};
ghost use Rattle.b3_board.specs.declared.entries.KeptNode.{KeptNode};
ghost use Rattle.b3_board.specs.declared.entries.State.TheVariants.{Kept, Open};

use crate::backing::InMemory;
use crate::entries::{Entry, KeptNode, State, find};
use crate::input_ledger::{Extent, InputLedger};
use b3_core::{Mode, Node, Span, parent_node, sibling};

// The place of the piece that is the sibling of the one at `here`.
fn find_sibling(entries: &[Entry], n: u64, here: usize) -> Option<usize>
    requires some { 1 ≤ n }
    requires few { n ≤ 2 ^ 54 }
    requires in_order { IsInOrder entries.now }
    requires inside { here < length entries.now }
    requires subtree { IsSubtree n (at entries.now here).span.first (at entries.now here).span.count }
    ensures found { IfSome result (λ j. (j < length entries.now) × (is_kept (at entries.now j).state ≡ true)
        × AreSiblings n (at entries.now here).span (at entries.now j).span) }
    ensures none { IfNone result ((k : ℕ) → is_kept (at entries.now k).state ≡ true
        → ¬ AreSiblings n (at entries.now here).span (at entries.now k).span) }
{
    let Some(other) = sibling(n, entries[here].span) else {
        return None;
    };
    let Some(place) = find(entries, other.first) else {
        return None;
    };
    if entries[place].span.count != other.count {
        return None;
    }
    match entries[place].state {
        State::Kept(_) => Some(place),
        _ => None,
    }
}

// The chaining value of the piece at `place`.
fn chaining_at(entries: &[Entry], place: usize) -> [u32; 8]
    requires inside { place < length entries.now }
    requires kept { is_kept (at entries.now place).state ≡ true }
    ensures { (kept : KeptNode) → (at entries.now place).state ≡ Kept kept → result ≡ kept.chaining_value }
{
    match &entries[place].state {
        State::Kept(kept) => kept.chaining_value,
        _ => unreachable!(),
    }
}

// Joins the piece at `right` to its left sibling.
fn join_two(entries: &mut [Entry], mode: &Mode, left: usize, right: usize)
    requires left_inside { left < length entries.old }
    requires right_inside { right < length entries.old }
    requires left_kept { is_kept (at entries.old left).state ≡ true }
    requires right_kept { is_kept (at entries.old right).state ≡ true }
    requires apart { left ≢ right }
    requires fits { (at entries.old left).span.count + (at entries.old right).span.count < 2 ^ 64 }
    ensures { (a b : KeptNode) → (at entries.old left).state ≡ Kept a → (at entries.old right).state ≡ Kept b
        → entries.new ≡ joined entries.old left right (parent_node mode.now a.chaining_value b.chaining_value) }
{
    let node = parent_node(
        mode,
        &chaining_at(entries, left),
        &chaining_at(entries, right),
    );
    let chaining_value = node.chaining();
    let front = entries[left].span;
    let back = entries[right].span;
    entries[right] = Entry {
        span: Span {
            first: back.first,
            count: 0,
        },
        state: State::Joined,
    };
    entries[left] = Entry {
        span: Span {
            first: front.first,
            count: front.count + back.count,
        },
        state: State::Kept(KeptNode {
            node,
            chaining_value,
        }),
    };
}

// Joins the piece at `here` and its sibling, and answers where the joined piece is.
fn join_siblings<L: InputLedger>(
    entries: &mut [Entry],
    extent: &Extent<L>,
    here: usize,
    other: usize,
) -> usize
    requires inside { here < length entries.old }
    requires other_inside { other < length entries.old }
    requires kept { is_kept (at entries.old here).state ≡ true }
    requires other_kept { is_kept (at entries.old other).state ≡ true }
    requires siblings { AreSiblings (chunks L.input.len)
        (at entries.old here).span (at entries.old other).span }
    requires sound { Sound L.input L.mode L.first entries.old }
    requires apart { ApartBut (chunks L.input.len) here entries.old }
    requires few { chunks L.input.len ≤ 2 ^ 54 }
    ensures { IsJoined L.input L.mode L.first
        entries.old here entries.new result }
{
    let mode = extent.mode();
    if other < here {
        join_two(entries, mode, other, here);
        other
    } else {
        join_two(entries, mode, here, other);
        here
    }
}

// Joins the piece at `from` with its sibling, and what comes of it with its own, as long as there is one.
fn merge_up<L: InputLedger>(entries: &mut [Entry], extent: &Extent<L>, from: usize)
    requires inside { from < length entries.old }
    requires kept { is_kept (at entries.old from).state ≡ true }
    requires sound { Sound L.input L.mode L.first entries.old }
    requires apart { ApartBut (chunks L.input.len) from entries.old }
    ensures lawful { Lawful L.input L.mode L.first entries.new }
    ensures same_chunks { (k : ℕ) → sum_by (kept_chunk k) entries.new ≡ sum_by (kept_chunk k) entries.old }
    ensures same_count { sum_by kept_count entries.new ≡ sum_by kept_count entries.old }
    ensures same_open { map open_span entries.new ≡ map open_span entries.old }
{
    let n = extent.size();
    let mut here = from;
    while let Some(other) = find_sibling(entries, n, here) {
        here = join_siblings(entries, extent, here, other);
    }
}

// Closes the open span at `place` with its node, and joins siblings as long as there are any.
pub(crate) fn close_span<L: InputLedger>(
    entries: &mut [Entry],
    extent: &Extent<L>,
    place: usize,
    kept: KeptNode,
)
    requires inside { place < length entries.old }
    requires open { (at entries.old place).state ≡ Open }
    requires top { IsNodeOf L.input L.mode L.first
        (at entries.old place).span kept.node }
    requires chaining { kept.chaining_value ≡ chaining kept.node }
    requires lawful { Lawful L.input L.mode L.first entries.old }
    ensures lawful { Lawful L.input L.mode L.first entries.new }
    ensures chunks { (k : ℕ) → sum_by (kept_chunk k) entries.new ≡ sum_by (kept_chunk k) entries.old
        + chunk_in k (at entries.old place).span.first (at entries.old place).span.count }
    ensures count { sum_by kept_count entries.new ≡ sum_by kept_count entries.old + (at entries.old place).span.count }
    ensures opens { map open_span entries.new ≡ slice_set (map open_span entries.old) place None }
{
    entries[place].state = State::Kept(kept);
    merge_up(entries, extent, place);
}

// Hashes and closes every open span, and answers how many chunks these were.
pub(crate) fn close_all<L: InputLedger>(
    entries: &mut [Entry],
    extent: &Extent<L>,
    backing: &InMemory<'_, L>,
) -> u64
    requires lawful { Lawful L.input L.mode L.first entries.old }
    ensures lawful { Lawful L.input L.mode L.first entries.new }
    ensures len { length entries.new ≡ length entries.old }
    ensures none { NoneOpen entries.new }
    ensures count { sum_by kept_count entries.new ≡ sum_by kept_count entries.old + result }
    ensures waiting { result ≡ sum_by open_count entries.old }
{
    let mut count = 0;
    'spans: for place in 0..entries.len() {
        count += close_if_open(entries, extent, backing, place);
    }
    count
}

// Hashes and closes the span at `place` where it is open, and answers how many chunks were closed.
fn close_if_open<L: InputLedger>(
    entries: &mut [Entry],
    extent: &Extent<L>,
    backing: &InMemory<'_, L>,
    place: usize,
) -> u64
    requires inside { place < length entries.old }
    requires lawful { Lawful L.input L.mode L.first entries.old }
    ensures lawful { Lawful L.input L.mode L.first entries.new }
    ensures closed { open_span (at entries.new place) ≡ None }
    ensures others { (i : ℕ) → open_span (at entries.old i) ≡ None → open_span (at entries.new i) ≡ None }
    ensures len { length entries.new ≡ length entries.old }
    ensures count { sum_by kept_count entries.new ≡ sum_by kept_count entries.old + result }
{
    let span = entries[place].span;
    match entries[place].state {
        State::Open => {
            let node = backing.tree.top_of(span);
            let chaining_value = node.chaining();
            let kept = KeptNode {
                node,
                chaining_value,
            };
            close_span(entries, extent, place, kept);
            span.count
        }
        _ => 0,
    }
}

// The node of the root, where nothing is open.
pub(crate) fn root_of<L: InputLedger>(entries: &[Entry], extent: &Extent<L>) -> Option<Node>
    requires { Lawful L.input L.mode L.first entries.now }
    ensures there { IsSome result ↔ NoneOpen entries.now }
    ensures top { IfSome result (λ node. IsRootOf L.input L.mode L.first node) }
{
    if entries.is_empty() || entries[0].span.count != extent.size() {
        return None;
    }
    match entries[0].state {
        State::Kept(kept) => Some(kept.node),
        _ => None,
    }
}
