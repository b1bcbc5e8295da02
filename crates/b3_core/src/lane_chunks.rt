// Chunks (BLAKE3 (2020), 2.4) on lanes: the chaining values of up to eight full chunks at once, or of blocks of a chunk in
// place of the last.

ghost use Rattle.std.specs.Prelude.{◌≡◌, ℕ, ◌++◌, ◌+◌, ◌*◌, ◌/◌, ◌%◌, ◌^◌, ◌<◌, ◌≤◌, length, map, take, drop, slice_index, slice_index_or, []};
ghost use Rattle.std.specs.List.{range_with_len};
ghost use Rattle.b3_core.specs.Words.{words_of};
ghost use Rattle.b3_core.specs.Chunks.{chaining_value_at, chunk_at};
ghost use Rattle.b3_core.specs.Lanes.{AreVectors, after_blocks, chunk_chaining, full_chunk_flags, lane, word_at_offset};

use crate::broadcast::broadcast;
use crate::flags::CHUNK_END;
use crate::lanes::{all_lanes, chainings8, counters_from, lane_words};
use crate::leaves::{BLOCK_LEN, CHUNK_LEN, block_flags};
use crate::modes::Mode;
use crate::words::load4_pair;
use std::simd::prelude::*;

pub(crate) const BLOCKS: usize = 16;

// Four words of each lane: lane `j` reads from `offsets[j] + offset` on. Four rows of two lanes each are
// exchanged in two steps that no word leaves its half of the vector in.
#[inline(always)]
fn load4_transposed(bytes: &[u8], offsets: &[usize; 8], offset: usize) -> [u32x8; 4]
    requires { (j : ℕ) → j < 8 → slice_index offsets.now j + offset + 16 ≤ length bytes.now }
    ensures wide { AreVectors 4 result }
    ensures lanes { (j : ℕ) → j < 8
        → lane j result ≡ map (λ i. word_at_offset bytes.now (slice_index offsets.now j + offset + 4 * i))
        (range_with_len 0 4) }
{
    let r0 = load4_pair(bytes, offsets[0] + offset, offsets[4] + offset);
    let r1 = load4_pair(bytes, offsets[1] + offset, offsets[5] + offset);
    let r2 = load4_pair(bytes, offsets[2] + offset, offsets[6] + offset);
    let r3 = load4_pair(bytes, offsets[3] + offset, offsets[7] + offset);
    let a0 = r0.shuffle::<8>(r1, [0, 8, 1, 9, 4, 12, 5, 13]);
    let a1 = r0.shuffle::<8>(r1, [2, 10, 3, 11, 6, 14, 7, 15]);
    let a2 = r2.shuffle::<8>(r3, [0, 8, 1, 9, 4, 12, 5, 13]);
    let a3 = r2.shuffle::<8>(r3, [2, 10, 3, 11, 6, 14, 7, 15]);
    [
        a0.shuffle::<8>(a2, [0, 1, 8, 9, 4, 5, 12, 13]),
        a0.shuffle::<8>(a2, [2, 3, 10, 11, 6, 7, 14, 15]),
        a1.shuffle::<8>(a3, [0, 1, 8, 9, 4, 5, 12, 13]),
        a1.shuffle::<8>(a3, [2, 3, 10, 11, 6, 7, 14, 15]),
    ]
}

// The sixteen words of one block of each lane: lane `j` reads the 64 bytes from `offsets[j] + offset` on.
#[inline(always)]
fn load16_transposed(bytes: &[u8], offsets: &[usize; 8], offset: usize) -> [u32x8; 16]
    requires { (j : ℕ) → j < 8 → slice_index offsets.now j + offset + 64 ≤ length bytes.now }
    ensures wide { AreVectors 16 result }
    ensures lanes { (j : ℕ) → j < 8
        → lane j result ≡ words_of (take 64 (drop (slice_index offsets.now j + offset) bytes.now)) }
{
    let a = load4_transposed(bytes, offsets, offset);
    let b = load4_transposed(bytes, offsets, offset + 16);
    let c = load4_transposed(bytes, offsets, offset + 32);
    let d = load4_transposed(bytes, offsets, offset + 48);
    [
        a[0], a[1], a[2], a[3], b[0], b[1], b[2], b[3], c[0], c[1], c[2], c[3], d[0], d[1], d[2],
        d[3],
    ]
}

// Where each lane's chunk begins, of `n` chunks: an idle lane takes the last chunk once more.
#[inline(always)]
fn lane_offsets(n: usize) -> [usize; 8]
    requires some { 0 < n }
    requires room { n ≤ 8 }
    ensures lanes { (j : ℕ) → j < n → slice_index result j ≡ 1024 * j }
    ensures idle { (j : ℕ) → j < 8 → slice_index result j + 1024 ≤ 1024 * n }
{
    let last = n - 1;
    [
        0,
        CHUNK_LEN * last.min(1),
        CHUNK_LEN * last.min(2),
        CHUNK_LEN * last.min(3),
        CHUNK_LEN * last.min(4),
        CHUNK_LEN * last.min(5),
        CHUNK_LEN * last.min(6),
        CHUNK_LEN * last.min(7),
    ]
}

// The flags of block `k` of a full chunk.
#[inline(always)]
pub(crate) fn full_chunk_flags(mode: &Mode, k: usize) -> u32
    ensures { result ≡ full_chunk_flags mode.now k }
{
    if k == BLOCKS - 1 {
        mode.flag | CHUNK_END
    } else {
        block_flags(mode, k)
    }
}

// The chaining values of the chunks that the lanes take, numbered from `first` on, after the blocks from `from` on and before
// `to` of each: `h` has those after the blocks before, `counters` the low and the high words of the numbers. An idle lane
// begins elsewhere, and its value is of no use.
#[inline(always)]
fn lane_blocks(
    mode: &Mode,
    first: u64,
    counters: (u32x8, u32x8),
    bytes: &[u8],
    offsets: &[usize; 8],
    from: usize,
    to: usize,
    h: [u32x8; 8],
) -> [u32x8; 8]
    requires wide { AreVectors 8 h }
    requires order { from ≤ to }
    requires blocks { to ≤ 16 }
    requires bytes { (j : ℕ) → j < 8 → slice_index offsets.now j + 64 * to ≤ length bytes.now }
    requires low_wide { length counters.0 ≡ 8 }
    requires high_wide { length counters.1 ≡ 8 }
    requires low { (j : ℕ) → j < 8 → slice_index counters.0 j ≡ (first + j) % 2 ^ 32 }
    requires high { (j : ℕ) → j < 8 → slice_index counters.1 j ≡ (first + j) / 2 ^ 32 }
    ensures wide { AreVectors 8 result }
    ensures lanes { (j : ℕ) → j < 8 → slice_index offsets.now j ≡ 1024 * j
        → lane j h ≡ after_blocks mode.now (first + j) (chunk_at bytes.now j) from
        → lane j result ≡ after_blocks mode.now (first + j) (chunk_at bytes.now j) to }
{
    let mut value = h;
    'inner: for k in from..to {
        let m = load16_transposed(bytes, offsets, BLOCK_LEN * k);
        let flags = full_chunk_flags(mode, k);
        let next = chainings8(&value, &m, counters.0, counters.1, BLOCK_LEN as u32, flags);
        value = next;
    }
    value
}

// The same for all callers whose offsets are not known beforehand: one copy of the long loop, which is most of their code.
#[inline(never)]
fn some_lane_blocks(
    mode: &Mode,
    first: u64,
    bytes: &[u8],
    offsets: &[usize; 8],
    from: usize,
    to: usize,
    h: [u32x8; 8],
) -> [u32x8; 8]
    requires wide { AreVectors 8 h }
    requires order { from ≤ to }
    requires blocks { to ≤ 16 }
    requires bytes { (j : ℕ) → j < 8 → slice_index offsets.now j + 64 * to ≤ length bytes.now }
    requires first { first ≤ 2 ^ 54 }
    ensures wide { AreVectors 8 result }
    ensures lanes { (j : ℕ) → j < 8 → slice_index offsets.now j ≡ 1024 * j
        → lane j h ≡ after_blocks mode.now (first + j) (chunk_at bytes.now j) from
        → lane j result ≡ after_blocks mode.now (first + j) (chunk_at bytes.now j) to }
{
    let counters = counters_from(first);
    lane_blocks(mode, first, counters, bytes, offsets, from, to, h)
}

// The chaining values of `n` full chunks, numbered from `first` on, and in list `n` that which reaches block `blocks` of the
// chunk after them: this goes in a lane that would be idle.
pub(crate) fn chain_lanes_beside(
    mode: &Mode,
    first: u64,
    bytes: &[u8],
    n: usize,
    blocks: usize,
) -> [[u32; 8]; 8]
    requires some { 0 < n }
    requires room { n < 8 }
    requires blocks { blocks < 16 }
    requires bytes { 1024 * n + 64 * blocks ≤ length bytes.now }
    requires first { first ≤ 2 ^ 54 }
    ensures chunks { (j : ℕ) → j < n → slice_index_or result j [] ≡ chunk_chaining mode.now first bytes.now j }
    ensures beside { slice_index_or result n []
        ≡ chaining_value_at mode.now (first + n) (chunk_at bytes.now n) blocks }
{
    let together = lane_offsets(n + 1);
    let key = broadcast(&mode.key);
    let h = some_lane_blocks(mode, first, bytes, &together, 0, blocks, key);
    let beside = lane_words(&h, n);
    let alone = lane_offsets(n);
    let all = some_lane_blocks(mode, first, bytes, &alone, blocks, BLOCKS, h);
    let mut lists = all_lanes(&all);
    lists[n] = beside;
    lists
}

// The chaining values of eight full chunks: the offsets are known, so the loads are plain. The counters come before the key:
// so the compiler keeps those values in registers with which a mebibyte takes a hundredth less.
#[inline(never)]
pub(crate) fn chain_all_lanes(mode: &Mode, first: u64, bytes: &[u8]) -> [u32x8; 8]
    requires bytes { 8192 ≤ length bytes.now }
    requires first { first ≤ 2 ^ 54 }
    ensures wide { AreVectors 8 result }
    ensures lanes { (j : ℕ) → j < 8 → lane j result ≡ chunk_chaining mode.now first bytes.now j }
{
    let offsets = lane_offsets(8);
    let counters = counters_from(first);
    let key = broadcast(&mode.key);
    lane_blocks(mode, first, counters, bytes, &offsets, 0, BLOCKS, key)
}

// The chaining values of one to eight full chunks: the lanes from `n` on are idle. For one to four of them other forms
// take less time.
pub(crate) fn chain_some_lanes(mode: &Mode, first: u64, bytes: &[u8], n: usize) -> [u32x8; 8]
    requires some { 0 < n }
    requires room { n ≤ 8 }
    requires bytes { 1024 * n ≤ length bytes.now }
    requires first { first ≤ 2 ^ 54 }
    ensures wide { AreVectors 8 result }
    ensures lanes { (j : ℕ) → j < n → lane j result ≡ chunk_chaining mode.now first bytes.now j }
{
    let offsets = lane_offsets(n);
    let key = broadcast(&mode.key);
    some_lane_blocks(mode, first, bytes, &offsets, 0, BLOCKS, key)
}
