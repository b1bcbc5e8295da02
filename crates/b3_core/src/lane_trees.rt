// Trees of two chunks and more: of eight, sixteen and so on full chunks on lanes, of two to eight chunks of which the last may
// be short by `chain_chunks` and `chain_chunks_beside`.

ghost use Rattle.std.specs.Prelude.{◌≡◌, ℕ, ◌+◌, ◌*◌, ◌^◌, ◌<◌, ◌≤◌, length, take};
ghost use Rattle.b3_core.specs.Nodes.{chaining};
ghost use Rattle.b3_core.specs.Tree.{chunks, parent_node, top};
ghost use Rattle.b3_core.specs.Lanes.{AreChunkChainings, AreVectors, lane, part};

use crate::broadcast::broadcast;
use crate::few_chunks::{chain_chunks, chain_chunks_beside};
use crate::flags::PARENT;
use crate::lane_chunks::chain_all_lanes;
use crate::lanes::{chainings8, lane_words};
use crate::leaves::{BLOCK_LEN, CHUNK_LEN, last_block_node};
use crate::modes::Mode;
use crate::nodes::Node;
use crate::tree::{chunks, left, parent_node};
use std::simd::prelude::*;

// The parents of sixteen chaining values, two by two: `left` has the first eight of them. All levels share it, as
// the rounds that are inlined are long.
#[inline(never)]
fn parents8(mode: &Mode, left: &[u32x8; 8], right: &[u32x8; 8]) -> [u32x8; 8]
    requires left { AreVectors 8 left.now }
    requires right { AreVectors 8 right.now }
    ensures wide { AreVectors 8 result }
    ensures front { (j : ℕ) → j < 4 → lane j result
        ≡ chaining (parent_node mode.now (lane (2 * j) left.now) (lane (2 * j + 1) left.now)) }
    ensures back { (j : ℕ) → j < 4 → lane (j + 4) result
        ≡ chaining (parent_node mode.now (lane (2 * j) right.now) (lane (2 * j + 1) right.now)) }
{
    let (a0, b0) = left[0].deinterleave(right[0]);
    let (a1, b1) = left[1].deinterleave(right[1]);
    let (a2, b2) = left[2].deinterleave(right[2]);
    let (a3, b3) = left[3].deinterleave(right[3]);
    let (a4, b4) = left[4].deinterleave(right[4]);
    let (a5, b5) = left[5].deinterleave(right[5]);
    let (a6, b6) = left[6].deinterleave(right[6]);
    let (a7, b7) = left[7].deinterleave(right[7]);
    let m = [
        a0, a1, a2, a3, a4, a5, a6, a7, b0, b1, b2, b3, b4, b5, b6, b7,
    ];
    let h = broadcast(&mode.key);
    let zero = u32x8::splat(0);
    chainings8(&h, &m, zero, zero, BLOCK_LEN as u32, mode.flag | PARENT)
}

// The chaining values of the eight subtrees of 2 ^ `level` chunks that `bytes` holds.
fn eight_subtrees(mode: &Mode, first: u64, bytes: &[u8], level: u32) -> [u32x8; 8]
    requires bytes { length bytes.now ≡ 8192 * 2 ^ level }
    requires first { first + 8 * 2 ^ level ≤ 2 ^ 54 }
    ensures wide { AreVectors 8 result }
    ensures lanes { (j : ℕ) → j < 8
        → lane j result ≡ chaining (top mode.now (first + 2 ^ level * j) (part (2 ^ level) j bytes.now)) }
{
    if level == 0 {
        return chain_all_lanes(mode, first, bytes);
    }
    let half = bytes.len() / 2;
    let (front, back) = bytes.split_at(half);
    // Before the calls: then no value has to be stored over them, and the frame is a multiple of 32 bytes, which keeps the
    // place of the vectors on the stack of a started thread (`tools/stack-places`).
    let next = first + (half / CHUNK_LEN) as u64;
    let left = eight_subtrees(mode, first, front, level - 1);
    let right = eight_subtrees(mode, next, back, level - 1);
    parents8(mode, &left, &right)
}

// The top of the tree over 8 * 2 ^ `level` full chunks.
pub(crate) fn top_of_full_chunks(mode: &Mode, first: u64, bytes: &[u8], level: u32) -> Node
    requires bytes { length bytes.now ≡ 8192 * 2 ^ level }
    requires first { first + 8 * 2 ^ level ≤ 2 ^ 54 }
    ensures { result ≡ top mode.now first bytes.now }
{
    let eight = eight_subtrees(mode, first, bytes, level);
    let four = parents8(mode, &eight, &eight);
    let two = parents8(mode, &four, &four);
    parent_node(mode, &lane_words(&two, 0), &lane_words(&two, 1))
}

// The chaining value of the tree over `bytes`, from those of its chunks.
fn chaining_from_chunks(mode: &Mode, first: u64, bytes: &[u8], chainings: &[[u32; 8]]) -> [u32; 8]
    requires count { length chainings.now ≡ chunks (length bytes.now) }
    requires first { first + length chainings.now ≤ 2 ^ 54 }
    requires each { AreChunkChainings mode.now first bytes.now chainings.now }
    ensures { result ≡ chaining (top mode.now first bytes.now) }
{
    if chainings.len() <= 1 {
        return chainings[0];
    }
    let count = left(chainings.len() as u64);
    let (front, back) = bytes.split_at(CHUNK_LEN * count as usize);
    let (front_chainings, back_chainings) = chainings.split_at(count as usize);
    let left_chaining = chaining_from_chunks(mode, first, front, front_chainings);
    let right_chaining = chaining_from_chunks(mode, first + count, back, back_chainings);
    parent_node(mode, &left_chaining, &right_chaining).chaining()
}

// The chaining values of one to seven full chunks and a short one after them. The lists from their number on are of no
// use.
fn chainings_with_short(mode: &Mode, first: u64, bytes: &[u8], full: usize) -> [[u32; 8]; 8]
    requires some { 0 < full }
    requires few { full < 8 }
    requires more { 1024 * full < length bytes.now }
    requires short { length bytes.now ≤ 1024 * full + 1024 }
    requires first { first + full + 1 ≤ 2 ^ 54 }
    ensures { AreChunkChainings mode.now first bytes.now (take (full + 1) result) }
{
    let (_, last) = bytes.split_at(CHUNK_LEN * full);
    let blocks = (last.len() - 1) / BLOCK_LEN;
    let mut chainings = chain_chunks_beside(mode, first, bytes, full, blocks);
    let block = &last[BLOCK_LEN * blocks..];
    let number = first + full as u64;
    chainings[full] = last_block_node(mode, number, blocks, &chainings[full], block).chaining();
    chainings
}

// The chaining values of two to eight chunks, of which only the last may be short. The lists from their number on are of
// no use.
fn chainings_of_few_chunks(mode: &Mode, first: u64, bytes: &[u8]) -> [[u32; 8]; 8]
    requires some { 1024 < length bytes.now }
    requires few { length bytes.now ≤ 8192 }
    requires first { first + chunks (length bytes.now) ≤ 2 ^ 54 }
    ensures { AreChunkChainings mode.now first bytes.now (take (chunks (length bytes.now)) result) }
{
    let full = bytes.len() / CHUNK_LEN;
    if CHUNK_LEN * full < bytes.len() {
        return chainings_with_short(mode, first, bytes, full);
    }
    chain_chunks(mode, first, bytes)
}

// The top of the tree over two to eight chunks.
pub(crate) fn top_of_few_chunks(mode: &Mode, first: u64, bytes: &[u8]) -> Node
    requires some { 1024 < length bytes.now }
    requires few { length bytes.now ≤ 8192 }
    requires first { first + chunks (length bytes.now) ≤ 2 ^ 54 }
    ensures { result ≡ top mode.now first bytes.now }
{
    let total = chunks(bytes.len() as u64);
    let chainings = chainings_of_few_chunks(mode, first, bytes);
    let count = left(total);
    let (front, back) = bytes.split_at(CHUNK_LEN * count as usize);
    let (front_chainings, back_chainings) = chainings[..total as usize].split_at(count as usize);
    let left_chaining = chaining_from_chunks(mode, first, front, front_chainings);
    let right_chaining = chaining_from_chunks(mode, first + count, back, back_chainings);
    parent_node(mode, &left_chaining, &right_chaining)
}
