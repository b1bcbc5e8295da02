// Eight compressions, or the chaining values of eight chunks, by a call of its own. No hash goes this way: the tests
// hold lanes against one compression or one chunk at a time by these calls.

ghost use Rattle.std.specs.Prelude.{◌≡◌, ℕ, [], ◌+◌, ◌^◌, ◌<◌, ◌≤◌, length, map, slice_index, slice_index_or};
ghost use Rattle.b3_core.specs.Chunks.{chunk_at, chunk_node};
ghost use Rattle.b3_core.specs.Compression.{compress};
ghost use Rattle.b3_core.specs.Lanes.{AreVectors, lane};
ghost use Rattle.b3_core.specs.Nodes.{chaining};

use crate::lane_chunks::chain_all_lanes;
use crate::lanes::{
    all_lanes, concatenated, counters, final_states8, first_words8, last_words8, transposed8,
};
use crate::modes::Mode;
use std::simd::prelude::*;

// Word `i` of each of eight lists.
#[inline(always)]
fn gathered<const N: usize>(lists: &[[u32; N]; 8], i: usize) -> u32x8
    requires { i < N }
    ensures { result ≡ map (λ list. slice_index list i) lists.now }
{
    u32x8::from_array([
        lists[0][i],
        lists[1][i],
        lists[2][i],
        lists[3][i],
        lists[4][i],
        lists[5][i],
        lists[6][i],
        lists[7][i],
    ])
}

// That a list has its length. A proof is not told the length of a list within a list.
#[inline(always)]
fn known_length<const N: usize>(list: &[u32; N])
    ensures { length list.now ≡ N }
{}

#[inline(always)]
fn known_lengths<const N: usize>(lists: &[[u32; N]; 8])
    ensures { (j : ℕ) → j < 8 → length (slice_index_or lists.now j []) ≡ N }
{
    known_length(&lists[0]);
    known_length(&lists[1]);
    known_length(&lists[2]);
    known_length(&lists[3]);
    known_length(&lists[4]);
    known_length(&lists[5]);
    known_length(&lists[6]);
    known_length(&lists[7]);
}

// Lane `j` takes list `j`.
#[inline(always)]
fn all_gathered<const N: usize>(lists: &[[u32; N]; 8]) -> [u32x8; N]
    ensures wide { AreVectors N result }
    ensures lanes { (j : ℕ) → j < 8 → lane j result ≡ slice_index_or lists.now j [] }
{
    known_lengths(lists);
    let mut vectors = [u32x8::splat(0); N];
    'words: for i in 0..N {
        vectors[i] = gathered(lists, i);
    }
    vectors
}

/// Eight compressions at once (BLAKE3 (2020), 2.2): list `j` of the result has the output words for the
/// chaining value `h[j]`, the message `m[j]` and the counter `t[j]`, with one block length `b` and one
/// set of flags `d` for all.
pub fn compress8(
    h: &[[u32; 8]; 8],
    m: &[[u32; 16]; 8],
    t: &[u64; 8],
    b: u32,
    d: u32,
) -> [[u32; 16]; 8]
    ensures { (j : ℕ) → j < 8 → slice_index_or result j []
        ≡ compress (slice_index_or h.now j []) (slice_index_or m.now j []) (slice_index t.now j) b d }
{
    let chains = all_gathered(h);
    let message = all_gathered(m);
    let (low, high) = counters(t);
    let v = final_states8(&chains, &message, low, high, b, d);
    let front = transposed8(&first_words8(&v));
    let back = transposed8(&last_words8(&v, &chains));
    [
        concatenated(front[0], back[0]),
        concatenated(front[1], back[1]),
        concatenated(front[2], back[2]),
        concatenated(front[3], back[3]),
        concatenated(front[4], back[4]),
        concatenated(front[5], back[5]),
        concatenated(front[6], back[6]),
        concatenated(front[7], back[7]),
    ]
}

/// The chaining values of eight full chunks, numbered from `first` on (BLAKE3 (2020), 2.4): list `j` of
/// the result is that of the 1,024 bytes from place 1,024 `j` on.
pub fn chain8(mode: &Mode, first: u64, bytes: &[u8; 8192]) -> [[u32; 8]; 8]
    requires { first + 8 ≤ 2 ^ 54 }
    ensures { (j : ℕ) → j < 8 → slice_index_or result j []
        ≡ chaining (chunk_node mode.now (first + j) (chunk_at bytes.now j)) }
{
    let h = chain_all_lanes(mode, first, bytes);
    all_lanes(&h)
}
