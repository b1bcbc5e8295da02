// Chunks (BLAKE3 (2020), 2.4) on the rows of pairs: the chaining values of two to four full chunks, or of one or three and
// of blocks of the chunk after them. Lanes would take as long for them as for eight.

ghost use Rattle.std.specs.Prelude.{◌≡◌, ℕ, [], ◌+◌, ◌*◌, ◌^◌, ◌<◌, ◌≤◌, length, slice_index_or};
ghost use Rattle.b3_core.specs.Pairs.{AreWide, half_chaining};
ghost use Rattle.b3_core.specs.Chunks.{chaining_value_at, chunk_at};
ghost use Rattle.b3_core.specs.Lanes.{after_blocks, chunk_chaining};

use crate::chunk_rows::chain_blocks;
use crate::lane_chunks::{BLOCKS, full_chunk_flags};
use crate::leaves::{BLOCK_LEN, CHUNK_LEN, last_block_node};
use crate::modes::Mode;
use crate::pair_rows::{PairChainings, load_pair_rows, pair_chainings, two_pair_chainings};
use std::simd::prelude::*;

// The key words, for both.
#[inline(always)]
fn key_rows(k: &[u32; 8]) -> PairChainings
    ensures wide { AreWide result }
    ensures words { (p : ℕ) → p < 2 → half_chaining p result ≡ k.now }
{
    (
        u32x8::from_array([k[0], k[1], k[2], k[3], k[0], k[1], k[2], k[3]]),
        u32x8::from_array([k[4], k[5], k[6], k[7], k[4], k[5], k[6], k[7]]),
    )
}

// The chaining values of both, as words.
#[inline(always)]
fn both_words(h: PairChainings) -> [[u32; 8]; 2]
    requires { AreWide h }
    ensures { (p : ℕ) → p < 2 → slice_index_or result p [] ≡ half_chaining p h }
{
    let a = h.0.to_array();
    let b = h.1.to_array();
    [
        [a[0], a[1], a[2], a[3], b[0], b[1], b[2], b[3]],
        [a[4], a[5], a[6], a[7], b[4], b[5], b[6], b[7]],
    ]
}

// The chaining values of two chunks, numbered from `first` on, after the blocks from `from` on and before `to` of each: `h`
// has those after the blocks before.
#[inline(never)]
fn two_blocks(
    mode: &Mode,
    first: u64,
    bytes: &[u8],
    from: usize,
    to: usize,
    h: PairChainings,
) -> PairChainings
    requires wide { AreWide h }
    requires order { from ≤ to }
    requires blocks { to ≤ 16 }
    requires bytes { 1024 + 64 * to ≤ length bytes.now }
    requires first { first ≤ 2 ^ 54 }
    ensures wide { AreWide result }
    ensures words { (p : ℕ) → p < 2
        → half_chaining p h ≡ after_blocks mode.now (first + p) (chunk_at bytes.now p) from
        → half_chaining p result ≡ after_blocks mode.now (first + p) (chunk_at bytes.now p) to }
{
    let mut value = h;
    'inner: for k in from..to {
        let at = BLOCK_LEN * k;
        let m = load_pair_rows(bytes, at, CHUNK_LEN + at);
        let next = pair_chainings(value, m, first, full_chunk_flags(mode, k));
        value = next;
    }
    value
}

// The chaining values of two full chunks, numbered from `first` on.
pub(crate) fn chain_two(mode: &Mode, first: u64, bytes: &[u8]) -> [[u32; 8]; 2]
    requires bytes { 2048 ≤ length bytes.now }
    requires first { first ≤ 2 ^ 54 }
    ensures { (j : ℕ) → j < 2 → slice_index_or result j [] ≡ chunk_chaining mode.now first bytes.now j }
{
    both_words(two_blocks(mode, first, bytes, 0, BLOCKS, key_rows(&mode.key)))
}

// The chaining value of a full chunk, and that which reaches block `blocks` of the chunk after it: these go together as far
// as the blocks before that go.
pub(crate) fn chain_one_beside(
    mode: &Mode,
    first: u64,
    bytes: &[u8],
    blocks: usize,
) -> [[u32; 8]; 2]
    requires blocks { blocks < 16 }
    requires bytes { 1024 + 64 * blocks ≤ length bytes.now }
    requires first { first ≤ 2 ^ 54 }
    ensures chunk { slice_index_or result 0 [] ≡ chunk_chaining mode.now first bytes.now 0 }
    ensures beside { slice_index_or result 1 [] ≡ chaining_value_at mode.now (first + 1) (chunk_at bytes.now 1) blocks }
{
    let both = both_words(two_blocks(mode, first, bytes, 0, blocks, key_rows(&mode.key)));
    let inner = &bytes[BLOCK_LEN * blocks..CHUNK_LEN - BLOCK_LEN];
    let own = chain_blocks(mode, first, blocks, &both[0], inner);
    let last = &bytes[CHUNK_LEN - BLOCK_LEN..CHUNK_LEN];
    [
        last_block_node(mode, first, BLOCKS - 1, &own, last).chaining(),
        both[1],
    ]
}

// The chaining values of two pairs of chunks, numbered from `first` on, after the blocks from `from` on and before `to` of
// each: `pairs` has those after the blocks before. The fourth chunk is read from `last` on; where that is another's, its
// value is of no use.
#[inline(never)]
fn four_blocks(
    mode: &Mode,
    first: u64,
    bytes: &[u8],
    last: usize,
    from: usize,
    to: usize,
    pairs: (PairChainings, PairChainings),
) -> (PairChainings, PairChainings)
    requires wide { AreWide pairs.0 × AreWide pairs.1 }
    requires order { from ≤ to }
    requires blocks { to ≤ 16 }
    requires bytes { 2048 + 64 * to ≤ length bytes.now }
    requires last { last + 64 * to ≤ length bytes.now }
    requires first { first ≤ 2 ^ 54 }
    ensures wide { AreWide result.0 × AreWide result.1 }
    ensures front { (p : ℕ) → p < 2
        → half_chaining p pairs.0 ≡ after_blocks mode.now (first + p) (chunk_at bytes.now p) from
        → half_chaining p result.0 ≡ after_blocks mode.now (first + p) (chunk_at bytes.now p) to }
    ensures back { (p : ℕ) → p < 2 → (p ≡ 1 → last ≡ 3072)
        → half_chaining p pairs.1 ≡ after_blocks mode.now (first + 2 + p) (chunk_at bytes.now (2 + p)) from
        → half_chaining p result.1 ≡ after_blocks mode.now (first + 2 + p) (chunk_at bytes.now (2 + p)) to }
{
    let (mut front, mut back) = pairs;
    'inner: for k in from..to {
        let at = BLOCK_LEN * k;
        let flags = full_chunk_flags(mode, k);
        let m = load_pair_rows(bytes, at, CHUNK_LEN + at);
        let w = load_pair_rows(bytes, 2 * CHUNK_LEN + at, last + at);
        let next = two_pair_chainings(front, m, back, w, first, flags);
        front = next.0;
        back = next.1;
    }
    (front, back)
}

// The chaining values of three or four full chunks, numbered from `first` on. Of three the last is taken twice: the
// fourth list is of no use then.
pub(crate) fn chain_four(mode: &Mode, first: u64, bytes: &[u8], n: usize) -> [[u32; 8]; 4]
    requires some { 3 ≤ n }
    requires room { n ≤ 4 }
    requires bytes { 1024 * n ≤ length bytes.now }
    requires first { first ≤ 2 ^ 54 }
    ensures { (j : ℕ) → j < n → slice_index_or result j [] ≡ chunk_chaining mode.now first bytes.now j }
{
    let key = key_rows(&mode.key);
    let pairs = four_blocks(
        mode,
        first,
        bytes,
        CHUNK_LEN * (n - 1),
        0,
        BLOCKS,
        (key, key),
    );
    let front = both_words(pairs.0);
    let back = both_words(pairs.1);
    [front[0], front[1], back[0], back[1]]
}

// The chaining values of three full chunks, and that which reaches block `blocks` of the chunk after them: it is the fourth
// as far as the blocks before that go.
pub(crate) fn chain_three_beside(
    mode: &Mode,
    first: u64,
    bytes: &[u8],
    blocks: usize,
) -> [[u32; 8]; 4]
    requires blocks { blocks < 16 }
    requires bytes { 3072 + 64 * blocks ≤ length bytes.now }
    requires first { first ≤ 2 ^ 54 }
    ensures chunks { (j : ℕ) → j < 3 → slice_index_or result j [] ≡ chunk_chaining mode.now first bytes.now j }
    ensures beside { slice_index_or result 3 [] ≡ chaining_value_at mode.now (first + 3) (chunk_at bytes.now 3) blocks }
{
    let key = key_rows(&mode.key);
    let together = four_blocks(mode, first, bytes, 3 * CHUNK_LEN, 0, blocks, (key, key));
    let fourth = both_words(together.1);
    let pairs = four_blocks(mode, first, bytes, 2 * CHUNK_LEN, blocks, BLOCKS, together);
    let front = both_words(pairs.0);
    let back = both_words(pairs.1);
    [front[0], front[1], back[0], fourth[1]]
}
